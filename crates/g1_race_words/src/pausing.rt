//! The steps of a pause. The one seat that has the weight of all parties makes them.
ghost use Rattle.std.specs.Prelude.{◌≡◌, ◌<◌};
ghost use Rattle.g1_race_words.specs.Prelude.{slice_set};
ghost use Rattle.g1_race_words.specs.Rule.{AtRest, IsBegun, started, word_count};
ghost use Rattle.g1_race_words.specs.Steps.{thawed};
ghost use Rattle.g1_race_words.specs.Seats.{Freezes, IsPaused};

use crate::table::{RaceSeat, RaceTable};
use crate::view::View;
use atomic_table::Play;

pub(crate) struct Learns;

impl Play<(), View> for Learns {
    ghost use Rattle.g1_race_words.specs.Seats.{Freezes};

    ghost then = { λ step before found after. Freezes before after };
}

pub(crate) struct Thaws;

impl Play<(), View> for Thaws {
    ghost use Rattle.std.specs.Prelude.{◌≡◌};
    ghost use Rattle.g1_race_words.specs.Steps.{thawed};

    ghost then = { λ step before found after. after ≡ (thawed before.0, before.1) };
}

pub(crate) struct Sets;

impl Play<(), View> for Sets {
    ghost use Rattle.std.specs.Prelude.{◌≡◌};
    ghost use Rattle.g1_race_words.specs.Steps.{changed_at};

    ghost then = { λ step before found after.
        after ≡ (changed_at before.0 step.word step.first, before.1) };
}

impl RaceTable {
    /// The seat that all the others joined learns all the words, and how they follow from the
    /// beginning of the race. No word changes.
    pub fn freeze(&self, seat: &mut RaceSeat)
        requires table { seat.old.table_id ≡ self.now.table_id }
        requires all { seat.old.me.0.weight ≡ self.now.shape.parties }
        requires rest { AtRest seat.old.me.0 }
        ensures table { seat.new.table_id ≡ seat.old.table_id }
        ensures told { Freezes seat.old.me seat.new.me }
    {
        self.table.shared.load::<Learns>(&mut seat.seat, 0);
    }

    /// Lets the words change again. No word changes.
    pub fn thaw(&self, seat: &mut RaceSeat)
        requires seat { IsPaused self.now.table_id self.now.shape seat.old }
        ensures table { seat.new.table_id ≡ seat.old.table_id }
        ensures view { seat.new.me ≡ (thawed seat.old.me.0, seat.old.me.1) }
    {
        self.table.shared.load::<Thaws>(&mut seat.seat, 0);
    }

    /// Writes a word at a pause, and nothing else. With it, the words must still be words that a
    /// race can begin with.
    pub fn put(&self, seat: &mut RaceSeat, word: usize, new: u64)
        requires seat { IsPaused self.now.table_id self.now.shape seat.old }
        requires word { word < word_count self.now.shape }
        requires begun { IsBegun
            (started self.now.shape (slice_set seat.old.me.0.began_words word new)) }
        ensures seat { IsPaused self.now.table_id self.now.shape seat.new }
        ensures words { seat.new.me.0.began_words ≡ slice_set seat.old.me.0.began_words word new }
    {
        self.table.shared.store::<Sets>(&mut seat.seat, word, new);
    }
}
