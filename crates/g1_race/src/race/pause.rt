//! How a race comes to a pause, and what holds then.
ghost use Rattle.std.specs.Prelude.{◌≡◌, ◌+◌, ◌<◌};
ghost use Rattle.g1_race.specs.{All, map, vec_len, collected, race_id, race_shape, racer_race};
ghost use Rattle.g1_race.specs.{sweeper_race, racer_view, sweeper_view, racer_log, RacerOf};
ghost use Rattle.g1_race.specs.{SweeperOf, IsPauseOf};

use crate::paused::Paused;
use crate::paused::holds::HoldsRace;
use crate::paused::reading::Reader;
use crate::race::{Race, Racer, Sweeper};
use g1_race_words::{RaceSeat, RaceTable};
use std::mem::replace;

impl Race {
    /// Pauses the race in place: the table stays where it is. All its racers and sweepers must be
    /// handed in. The following holds then. The beginning of the race is its last resume, as its
    /// racers and sweepers know it.
    ///
    /// - Each slot has the last target that some racer stored into it. If no racer stored into it,
    ///   it refers to what it referred to when the race began.
    /// - The words that were stored to a slot, with the one that it had when the race began, are
    ///   the words that stores overwrote there, with the one that it has now, each as often.
    /// - A dirty card was dirtied by a racer, or was dirty at the beginning. A card of which either
    ///   is so and which is clean now was cleaned by a sweeper.
    /// - Take the number of a card's claims, plus 1 if it was dirty at the beginning. That is the
    ///   number of its cleanings, plus 1 if it is dirty now.
    /// - A pair that a sweeper recorded is of a reference that was stored, or was there at the
    ///   beginning. Its card lies outside its region.
    /// - A slot that refers into another region has its card dirty or its pair recorded.
    ///
    /// Takes no memory and copies no word. It makes two loads, and two for each party; nothing
    /// uses their values. Each log stays where it is, in its racer.
    pub fn pause(self, racers: Vec<Racer>, sweepers: Vec<Sweeper>) -> Paused
        requires racers { (vec_len racers + vec_len sweepers ≡ (race_shape self).parties)
            × All (λ r. racer_race r ≡ race_id self) racers.items }
        requires sweepers { All (λ w. sweeper_race w ≡ race_id self) sweepers.items }
        ensures { IsPauseOf self (map racer_view racers.items) (map sweeper_view sweepers.items)
            (map racer_log racers.items) result }
    {
        Paused::of(self, racers, sweepers)
    }
}

impl<R: HoldsRace> Paused<R> {
    /// Pauses a race in place, as [`Race::pause`] does, that is held by value or by a share. While
    /// it is paused the other shares can do nothing to its words, since each call takes a racer or
    /// a sweeper, and all of these are in the pause. So threads may keep their shares over it, and
    /// go on with the racers of [`Paused::resume`]. Neither call takes memory or gives it back.
    pub fn of(race: R, mut racers: Vec<Racer>, mut sweepers: Vec<Sweeper>) -> Paused<R>
        requires racers { (vec_len racers + vec_len sweepers ≡ (race_shape (R.held race)).parties)
            × All (λ r. racer_race r ≡ race_id (R.held race)) racers.items }
        requires sweepers { All (λ w. sweeper_race w ≡ race_id (R.held race)) sweepers.items }
        ensures { IsPauseOf (R.held race) (map racer_view racers.items)
            (map sweeper_view sweepers.items) (map racer_log racers.items) result }
    {
        let table = &race.race().table;
        let mut seat = table.enter();
        join_racers(table, &mut seat, &mut racers);
        join_sweepers(table, &mut seat, &mut sweepers);
        table.freeze(&mut seat);
        Paused {
            race,
            reader: Reader { seat },
            racers,
            sweepers,
        }
    }
}

// Joins the racers' seats to the pause's own, the last first. They keep their logs.
fn join_racers(table: &RaceTable, pause_seat: &mut RaceSeat, racers: &mut Vec<Racer>)
    requires some { 0 < table.now.shape.parties }
    requires seat { pause_seat.old.table_id ≡ table.now.table_id }
    requires racers { All (RacerOf table.now.table_id table.now.shape) racers.old.items }
    ensures seat { pause_seat.new.table_id ≡ pause_seat.old.table_id }
    ensures view { pause_seat.new.me ≡ (
      collected (map racer_view racers.old.items)
          pause_seat.old.me.0,
      pause_seat.old.me.1,
    ) }
    ensures len { vec_len racers.new ≡ vec_len racers.old }
    ensures logs { map racer_log racers.new.items ≡ map racer_log racers.old.items }
{
    let mut left = racers.len();
    while left > 0 {
        left -= 1;
        let racer = &mut racers[left];
        let seat = replace(&mut racer.seat, table.vacant());
        table.join(pause_seat, seat);
    }
}

// Joins the sweepers' seats to the pause's own, the last first.
fn join_sweepers(table: &RaceTable, pause_seat: &mut RaceSeat, sweepers: &mut Vec<Sweeper>)
    requires some { 0 < table.now.shape.parties }
    requires seat { pause_seat.old.table_id ≡ table.now.table_id }
    requires sweepers { All (SweeperOf table.now.table_id table.now.shape) sweepers.old.items }
    ensures seat { pause_seat.new.table_id ≡ pause_seat.old.table_id }
    ensures view { pause_seat.new.me ≡ (
      collected (map sweeper_view sweepers.old.items)
          pause_seat.old.me.0,
      pause_seat.old.me.1,
    ) }
    ensures len { vec_len sweepers.new ≡ vec_len sweepers.old }
{
    let mut left = sweepers.len();
    while left > 0 {
        left -= 1;
        let sweeper = &mut sweepers[left];
        let seat = replace(&mut sweeper.seat, table.vacant());
        table.join(pause_seat, seat);
    }
}
