//! A heap whose stores race.
//!
//! - [`racing_heap`] is the heap: at a pause, read there or with its parties out.
//! - [`open`] begins and ends it, and [`phases`] takes its parties in and hands them out. Before
//!   anything changes, a pause checks that it was given all parties of the heap (`one_race`).
//! - [`queries`], [`sets`], [`drains`], [`stores`], [`copy`], [`evacuation`], [`words`] and
//!   [`verify`] are the collector's calls at a pause, on an [`at_pause::PausedHeap`].
//! - [`reading`] lends a heap at a pause to readers, one for each thread that reads it, and takes
//!   them in.
#![tactic(auto, using(crate::proofs::Kept::kept_same))]

pub mod at_pause;
pub mod copy;
pub mod drains;
pub mod evacuation;
mod one_race;
pub mod open;
pub mod phases;
pub mod queries;
pub mod racing_heap;
pub mod reading;
pub mod sets;
pub mod stores;
pub mod verify;
pub mod words;
