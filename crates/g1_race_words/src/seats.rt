//! How seats are made, split and joined. No word changes.
ghost use Rattle.std.specs.Prelude.{◌≡◌};
ghost use Rattle.g1_race_words.specs.Prelude.{[]};
ghost use Rattle.g1_race_words.specs.Rule.{AtRest, null_of};
ghost use Rattle.g1_race_words.specs.Steps.{after_split, blank, both, new_racer, new_sweeper};
ghost use Rattle.g1_race_words.specs.Steps.{no_seat};
ghost use Rattle.g1_race_words.specs.Seats.{IsWholeSeat};

use crate::table::{RaceSeat, RaceTable};
use crate::view::View;
use atomic_table::{Join, Play, Split};

pub(crate) struct NewRacer;

impl Split<View> for NewRacer {
    ghost use Rattle.g1_race_words.specs.Steps.{after_split, new_racer};

    ghost left = { after_split };

    ghost right = { new_racer };
}

pub(crate) struct NewSweeper;

impl Split<View> for NewSweeper {
    ghost use Rattle.g1_race_words.specs.Steps.{after_split, new_sweeper};

    ghost left = { after_split };

    ghost right = { new_sweeper };
}

pub(crate) struct Gathers;

impl Join<View> for Gathers {
    ghost use Rattle.g1_race_words.specs.Steps.{both, no_seat};

    ghost both = { both };

    ghost spent = { no_seat };
}

pub(crate) struct Comes;

impl Play<(), View> for Comes {
    ghost use Rattle.std.specs.Prelude.{◌≡◌};
    ghost use Rattle.g1_race_words.specs.Prelude.{[]};
    ghost use Rattle.g1_race_words.specs.Rule.{start_of};
    ghost use Rattle.g1_race_words.specs.Steps.{blank};

    ghost then = { λ step before found after. after ≡ (blank (start_of before.0) 0 [], []) };
}

pub(crate) struct ComesVacant;

impl Play<(), View> for ComesVacant {
    ghost use Rattle.std.specs.Prelude.{◌≡◌};
    ghost use Rattle.g1_race_words.specs.Prelude.{[]};
    ghost use Rattle.g1_race_words.specs.Steps.{no_seat};

    ghost then = { λ step before found after. after ≡ (no_seat, []) };
}

impl RaceTable {
    /// Makes a new seat. Its weight is 0, and its view is blank.
    pub fn enter(&self) -> RaceSeat
        ensures table { result.table_id ≡ self.now.table_id }
        ensures view { result.me ≡ (blank (null_of self.now.shape) 0 [], []) }
    {
        let (_, seat) = self.table.shared.load_new_seat::<Comes>(0);
        RaceSeat { seat }
    }

    /// Makes a vacant seat, such as a join leaves. It stands in for the seat of a party that a
    /// pause has taken, and its shape is that of no race.
    pub fn vacant(&self) -> RaceSeat
        ensures table { result.table_id ≡ self.now.table_id }
        ensures view { result.me ≡ (no_seat, []) }
    {
        let (_, seat) = self.table.shared.load_new_seat::<ComesVacant>(0);
        RaceSeat { seat }
    }

    /// Splits a racer's seat off the seat of a pause that ends. The racer has a number of its own.
    pub fn split_racer(&self, pause_seat: &mut RaceSeat) -> RaceSeat
        requires table { pause_seat.old.table_id ≡ self.now.table_id }
        requires whole { IsWholeSeat pause_seat.old.me.0 }
        ensures table { pause_seat.new.table_id ≡ pause_seat.old.table_id }
        ensures left { pause_seat.new.me ≡ (after_split pause_seat.old.me.0, pause_seat.old.me.1) }
        ensures racer { (result.table_id ≡ pause_seat.old.table_id)
            × (result.me ≡ (new_racer pause_seat.old.me.0, [])) }
    {
        RaceSeat {
            seat: self
                .table
                .shared
                .split_seat::<NewRacer>(&mut pause_seat.seat),
        }
    }

    /// Splits a sweeper's seat off the seat of a pause that ends.
    pub fn split_sweeper(&self, pause_seat: &mut RaceSeat) -> RaceSeat
        requires table { pause_seat.old.table_id ≡ self.now.table_id }
        requires whole { IsWholeSeat pause_seat.old.me.0 }
        ensures table { pause_seat.new.table_id ≡ pause_seat.old.table_id }
        ensures left { pause_seat.new.me ≡ (after_split pause_seat.old.me.0, pause_seat.old.me.1) }
        ensures sweeper { (result.table_id ≡ pause_seat.old.table_id)
            × (result.me ≡ (new_sweeper pause_seat.old.me.0, [])) }
    {
        RaceSeat {
            seat: self
                .table
                .shared
                .split_seat::<NewSweeper>(&mut pause_seat.seat),
        }
    }

    /// Joins the seat of a party at rest to another seat, which takes in what the party knows.
    /// The party's seat is used up.
    pub fn join(&self, seat: &mut RaceSeat, other: RaceSeat)
        requires table { (seat.old.table_id ≡ self.now.table_id)
            × (other.table_id ≡ self.now.table_id) }
        requires party { (other.me.0.weight ≡ 1) × AtRest other.me.0 }
        ensures table { seat.new.table_id ≡ seat.old.table_id }
        ensures view { seat.new.me ≡ (both seat.old.me.0 other.me.0, seat.old.me.1) }
    {
        let RaceSeat { seat: other } = other;
        self.table
            .shared
            .join_seat::<Gathers>(&mut seat.seat, other);
    }
}
