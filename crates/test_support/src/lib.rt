//! What the crates of tests and the programs of the gate share: cards, slots and regions by their
//! numbers ([`numbers`]), how a test or a scenario ends ([`failure`]), how values are compared
//! ([`checks`]), and tables of steps ([`step`]) that [`steps`] plays on a core or a book
//! ([`players`]).
//!
//! Nothing here ends the process. A failed comparison says on standard error what was got and what
//! was wanted, and returns a [`Failure`], which a test hands on by `?`.
#![tactic(auto)]

pub mod checks;
pub mod failure;
pub mod numbers;
pub mod players;
pub mod step;
pub mod steps;

pub use checks::{check, equal, numbered};
pub use failure::Failure;
pub use players::{Calls, OnBook, OnCore, State};
pub use step::{Answer, Step};
pub use steps::{are_entries, play};
