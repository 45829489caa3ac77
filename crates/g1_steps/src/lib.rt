//! The steps of a mutator and of a refinement thread, and workers that make them.
//!
//! The steps of a caller are written once, over the [`Calls`] that they make: at a borrowed book
//! ([`LentBook`]), which keeps a history or only counts. A [`Mutator`] stores and flushes.
//! Completed buffers go through a queue ([`Line`](g1_log::Line)), from which [`refine`] and
//! [`work`] take them (docs/rules.md, The steps of a caller).
//!
//! [`crew`] has workers that run scripts in threads of their own, for the replay of a trace.
#![tactic(auto)]

mod calls;
mod crew;
mod lent_book;
mod opening;
mod steps;

pub use calls::Calls;
pub use crew::{
    Desk, Job, LocalDesk, NotStarted, Outcome, Script, Step, mutate, refiner, run_crew,
};
pub use lent_book::LentBook;
pub use opening::open_line;
pub use steps::{FlushReply, Mutator, empty_line, refine, stand_still, work};
