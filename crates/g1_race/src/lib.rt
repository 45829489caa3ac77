//! Lock-free stores and concurrent refinement: mutators store references while refinement threads
//! clean cards and read their slots. The threads synchronise on single words alone.
//!
//! The table of a race has these words:
//!
//! - A word for each slot: 0 for null, the number of the slot that it refers to plus 1, or data,
//!   which is 2^32 or more.
//! - A word for each card's mark: 1 for a dirty card, else 0.
//! - A row of bits for each region, with one bit for each card. The bit is set if the pair (card,
//!   region) is recorded.
//! - One more row, with a flag for each eight cards. The flag is set wherever one of them is dirty.
//!   A racer sets it before the mark, and only a pause clears it. So a pause finds the dirty cards
//!   without a look at each mark.
//!
//! A [`Racer`] stores, for a mutator. It writes the slot first. Then, if the reference crosses
//! regions, it makes sure that the slot's card is dirty. A [`Sweeper`] refines, for a refinement
//! thread. It cleans the card first, and then reads its slots. So whatever the threads do, between
//! any two steps one of these holds for each slot that refers into another region:
//!
//! - its card is dirty;
//! - its pair (card, region) is recorded;
//! - a racer is about to dirty the card;
//! - a sweeper has the slot still to read, or is about to record the pair.
//!
//! A heap begins at a pause, by [`Paused::open`] or, with a core's table, by
//! [`Paused::begin_from`]. [`Paused::resume`] returns the race, its racers and its sweepers. Each
//! of them then belongs to one thread at a time, and they share the race by `&`. [`Race::pause`]
//! takes all of them back, in place. [`Paused::of`] does so where threads keep their shares of the
//! race over the pause. A [`Paused`] tells what each slot refers to, which cards are dirty and
//! which pairs are recorded. It also refines, drains, redirects and clears. [`Paused::read_by`]
//! lets several threads read at once. Between the birth of a heap and its end no call takes memory,
//! except for [`Paused::shared`] and the lists that are returned. [`Race::open`],
//! [`Race::from_core`] and [`Race::close`] each make two of these calls in one.
//!
//! A race that ends ([`Race::close`], [`Paused::close`]) leaves a [`Closed`], which a core can be
//! made of.
//!
//! The words, the rule that every step on them keeps, and the steps themselves are in
//! `g1_race_words`. [`laws`] has what follows from the rule: among other things, a whole drain
//! right after a race misses no card.
#![tactic(auto)]

mod address;
mod bits;
mod data;
mod ended;
mod geometry;
pub mod laws;
mod paused;
mod race;
mod word;

pub use ended::Closed;
pub use g1_race_words::{RaceShape, View};
pub use paused::Paused;
pub use paused::holds::HoldsRace;
pub use paused::reading::{Reader, Reading};
pub use race::refinement::Swept;
pub use race::{Race, Racer, Sweeper};
