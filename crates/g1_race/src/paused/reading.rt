//! A race at a pause that several threads read, and what each of them reads with.

use crate::paused::holds::HoldsRace;
use crate::race::{Race, Racer, Sweeper};
use g1_race_words::RaceSeat;
use std::marker::Model;

/// A race at a pause, while readers read it.
///
/// Its model has the pause, the identity of its table, and how many readers have to be handed in
/// before the pause goes on. Nothing changes meanwhile.
#[derive(Drop)]
pub struct Reading<R: HoldsRace = Race> {
    pub(crate) race: R,
    pub(crate) seat: RaceSeat,
    pub(crate) racers: Vec<Racer>,
    pub(crate) sweepers: Vec<Sweeper>,
}

impl<R: HoldsRace> Model for Reading<R> {
    ghost use Rattle.std.specs.Prelude.{◌≡◌, ◌+◌, ◌-◌, ◌≤◌};
    ghost use Rattle.g1_race.specs.Prelude.{map, vec_len, IsAtPause};
    ghost use Rattle.g1_race.specs.Parties.{at_pause_of, racer_log};
    ghost use Rattle.g1_race.specs.Reading.{Readable};

    ghost Value = { Readable };

    ghost view = { λ a. record {
      pause = at_pause_of (R.held a.race) a.seat.me.0.began_words
          (map racer_log a.racers.items) (vec_len a.sweepers);
      table_id = (R.held a.race).table.table_id;
      readers = (R.held a.race).shape.parties - a.seat.me.0.weight;
    } };

    ghost invariant = { λ a. let race = R.held a.race in
        IsAtPause race.table.table_id race.shape a.seat
        × (a.seat.me.0.weight ≤ race.shape.parties)
        × (vec_len a.racers + vec_len a.sweepers ≡ race.shape.parties) };
}

/// What a thread of the collector reads with at a pause: its right to read the words. It has no
/// bytes.
///
/// It belongs to one thread at a time, and any number of readers read concurrently. Its model has
/// the identity of its table, all the words there, and its weight. A pause has one of its own,
/// which has the weight of all parties while no other reader is out, and may write then.
#[derive(Drop)]
pub struct Reader {
    pub(crate) seat: RaceSeat,
}

impl Model for Reader {
    ghost use Rattle.std.specs.Prelude.{◌<◌};
    ghost use Rattle.g1_race.specs.Prelude.{start_of, IsAtPause};
    ghost use Rattle.g1_race.specs.Reading.{Known};

    ghost Value = { Known };

    ghost view = { λ a. record {
      table_id = a.seat.table_id;
      start = start_of a.seat.me.0;
      weight = a.seat.me.0.weight;
    } };

    ghost invariant = { λ a. IsAtPause a.seat.table_id a.seat.me.0.shape a.seat
        × (0 < a.seat.me.0.weight) };
}
