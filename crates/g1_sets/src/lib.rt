//! The remembered sets of a heap in regions: for each region, the cards outside it that may hold
//! references into it (Garbage-First, ISMM 2004, section 2.2; docs/rules.md, "Remembered sets").
//!
//! - `Sets` has all sets. A contract sees the recorded pairs (card, region) as one set, and besides
//!   it the cards of each region in the order of their insertion.
//! - A set is a hashed set that keeps this order, the kit's `IndexSet`. A call asks for its room
//!   before anything changes, so a refused growth leaves no part of a call behind.
#![tactic(auto)]

mod ascending;
mod bits;
mod hasher;
mod members;
mod rows;
mod sets;

pub use sets::Sets;
