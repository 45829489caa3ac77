//! A race at a pause: its whole table is known, and stays in place.
//!
//! - `open` begins a heap of nulls, and `begin` one with a core's table. `resume` returns the race
//!   and its parties. `holds` says how a pause owns its race, and `shared` lets threads keep their
//!   shares of the race over the pause.
//! - `access` has what a pause reads and stores. `listed` has the recorded pairs and the dirty
//!   cards, which `next` finds, and `verify` checks them for a debug build. `next_into` finds the
//!   cards that are recorded for several regions.
//! - `drain` refines and drains. `redirect`, `clear`, `wipe`, `forget` and `copy` may follow an
//!   evacuation.
//! - `reading` is a race at a pause that several threads read. `read_by` makes their readers, and
//!   `reader` has what each of them reads.

pub(crate) mod access;
mod begin;
mod clear;
mod copy;
mod drain;
mod forget;
mod free;
pub(crate) mod holds;
mod listed;
mod next;
mod next_into;
mod open;
mod read_by;
mod reader;
pub(crate) mod reading;
mod redirect;
mod resume;
mod shared;
mod verify;
mod wipe;

ghost use Rattle.std.specs.Prelude.{◌≡◌, ◌+◌, ◌<◌};
ghost use Rattle.g1_race.specs.Reading.{IsPauseReader};

use crate::paused::holds::HoldsRace;
use crate::paused::reading::Reader;
use crate::race::{Race, Racer, Sweeper};
use std::marker::Model;

/// A race at a pause: no thread takes part in it.
///
/// Its model is a table: the layout and the words of slots, marks and pairs, where they lie and
/// whose they are, with the racers' logs and the number of sweepers. Each slot that refers into
/// another region has its card dirty or its pair recorded.
///
/// It holds the race by value, or by a share of it ([`HoldsRace`]).
#[derive(Drop)]
pub struct Paused<R: HoldsRace = Race> {
    pub(crate) race: R,
    pub(crate) reader: Reader,
    // Their seats are vacant: the reader has taken them in.
    pub(crate) racers: Vec<Racer>,
    pub(crate) sweepers: Vec<Sweeper>,
}

impl<R: HoldsRace> Model for Paused<R> {
    ghost use Rattle.std.specs.Prelude.{◌≡◌, ◌+◌};
    ghost use Rattle.g1_race.specs.Prelude.{map, vec_len, IsBegun, started};
    ghost use Rattle.g1_race.specs.Parties.{at_pause_of, racer_log};
    ghost use Rattle.g1_race.specs.Over.{Pause};
    ghost use Rattle.g1_race.specs.Reading.{IsPauseReader};

    ghost Value = { Pause };

    ghost view = { λ a. at_pause_of (R.held a.race) a.reader.start.words
        (map racer_log a.racers.items) (vec_len a.sweepers) };

    ghost invariant = { λ a. let race = R.held a.race in
        IsPauseReader race a.reader
        × IsBegun (started race.shape a.reader.start.words)
        × (vec_len a.racers + vec_len a.sweepers ≡ race.shape.parties) };
}

// A race with its pause's own reader, which has all the weight: what the pause writes with.
#[derive(Drop)]
pub(crate) struct Writer<'a> {
    pub(crate) race: &'a Race,
    pub(crate) reader: &'a mut Reader,
    ghost whole: { IsPauseReader race.now reader.now },
}
