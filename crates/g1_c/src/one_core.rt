//! The calls on a core, for one thread at a time.
//!
//! - [`open`] opens and closes a handle.
//! - [`store`], [`batch`], [`refinement`] and [`pause`] are the path of a card.
//! - [`evacuation`] has what may follow one: the clear and the redirect.
//! - [`copy`] copies a range of slots. [`queries`] and [`members`] read what is known, and
//!   [`verify`] checks it for a debug build.
#![tactic(auto, using(crate::proofs::is_made))]

pub mod batch;
pub mod copy;
pub mod evacuation;
pub mod members;
pub mod open;
pub mod pause;
pub mod queries;
pub mod refinement;
pub mod store;
pub mod verify;
