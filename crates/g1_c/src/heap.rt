//! The collector's calls on a heap whose stores race.
//!
//! - [`life`] opens a heap, lets it go on, pauses it, and closes it.
//! - [`queries`], [`drains`], [`stores`], [`copy`], [`evacuation`], [`words`] and [`verify`] are
//!   calls at a pause. [`reading`] lets several threads read the heap there.
#![tactic(auto, using(crate::proofs::heap_calls))]

pub mod copy;
pub mod drains;
pub mod evacuation;
pub mod life;
pub mod queries;
pub mod reading;
pub mod stores;
pub mod verify;
pub mod words;
