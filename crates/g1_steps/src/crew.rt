//! Workers that run scripts, as the replay of a trace and the tests need them. A runtime, whose
//! threads have work of their own, makes the steps itself.
//!
//! A worker ([`worker`]) makes the steps of a [`Script`] at a [`Desk`], which has all that they
//! take: a [`LocalDesk`], which shares nothing with another desk, or a desk of another crate. A
//! crew runs workers in threads of their own ([`job`]; docs/rules.md, Workers and a crew).

mod desk;
mod job;
mod local_desk;
mod worker;

pub use desk::{Desk, Outcome, Script, Step};
pub use job::{Job, NotStarted, run_crew};
pub use local_desk::LocalDesk;
pub use worker::{mutate, refiner};
