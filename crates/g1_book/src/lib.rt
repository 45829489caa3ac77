//! A core's history, the steps of its callers, and a book that threads share under one lock.
//!
//! - A [`Book`] keeps a history of a core's calls (the crate `g1_history`).
//! - A [`Mutator`] stores, logs and flushes, [`refine`] and [`work`] take completed buffers from
//!   their queue, and [`run_crew`] has workers in threads do both ([`g1_steps`]).
//! - A [`Shared`] is a book under a lock, with a [`Caller`] for each thread ([`g1_shared`]).
//!
//! The definitions that their contracts cite stand in these three crates.
#![tactic(auto)]

pub use g1_history::{Book, Call, Entry, Keeps, Kept, Refusal, Reply, Tallied};
pub use g1_shared::{Caller, Counted, Ledgers, Shared, SharedCore, SharedDesk, Terms};
pub use g1_steps::{
    Calls, Desk, FlushReply, Job, LentBook, LocalDesk, Mutator, NotStarted, Outcome, Script, Step,
    empty_line, mutate, open_line, refine, refiner, run_crew, stand_still, work,
};
