//! The race and its parties: its racers and sweepers.
//!
//! A racer or a sweeper has a seat at the table of words: a token of no bytes at run time, which
//! carries what its thread knows, in the proofs alone ([`View`](crate::View)).
//!
//! - `barrier` has the stores of a racer, and `exchange` those that return what the slot had.
//! - `refinement` is that of a sweeper.
//! - `pause` takes the parties back, and the race comes to a pause.

mod barrier;
mod exchange;
mod pause;
pub(crate) mod refinement;

ghost use Rattle.std.specs.Prelude.{◌≡◌, ◌<◌};
ghost use Rattle.g1_race.specs.Prelude.{[], IsWholeShape};
ghost use Rattle.g1_race.specs.Race.{shape_of, IsRacing, IsSweeping};

use arrayvec::ArrayVec;
use g1_layout::{Card, Layout};
use g1_race_words::{RaceSeat, RaceShape, RaceTable};

/// A race over the slots and cards of one heap. Racers and sweepers in any number of threads share
/// it by `&`.
///
/// It has 8 bytes a slot, 8 bytes a card, a bit for each pair of a card and a region, and a bit for
/// each card. It never allocates after `open`.
#[derive(Drop)]
pub struct Race {
    pub(crate) table: RaceTable,
    pub(crate) layout: Layout,
    // The layout in plain numbers, with the number of racers and sweepers.
    pub(crate) shape: RaceShape,
    ghost laid: { shape ≡ shape_of layout shape.parties },
    ghost key_is: { table.shape ≡ shape },
    ghost shaped: { IsWholeShape shape },
    ghost some: { 0 < shape.parties },
}

/// A mutator's part in a race: its right to write slots and to dirty cards, and its dirty card
/// queue, of at most 256 cards.
///
/// Between two calls it owes nothing: for each reference that it stored across regions, it has
/// found the card dirty or made it dirty.
#[derive(Drop)]
pub struct Racer {
    // Vacant at a pause: its shape is that of no race.
    pub(crate) seat: RaceSeat,
    pub(crate) log: ArrayVec<Card, 256>,
    ghost racing: { 0 < seat.me.0.shape.parties → IsRacing seat.me.0 },
}

/// A refinement thread's part in a race: its right to clean cards, to read their slots and to
/// record pairs. It has no bytes.
///
/// Between two calls it has nothing left to read, and each pair that it has read is recorded.
#[derive(Drop)]
pub struct Sweeper {
    pub(crate) seat: RaceSeat,
    ghost sweeping: { 0 < seat.me.0.shape.parties → IsSweeping seat.me.0 },
}
