//! Replays: a trace is read line by line and played on a book, by one thread ([`run`]), by a crew
//! of threads under one lock ([`crew`]), or by threads whose stores race ([`race`]). Each returns
//! how it ended ([`End`]): `Whole` only if the trace has no fault, `Refused` only if it has one.
//!
//! Each asks the reader for bytes at most 2^40 times, and tries no failed read or write again. A
//! line is one write or a few, so give it a writer with a buffer.
//!
//! A crew and a race read the trace to its end and keep its scripts before anything is run. So with
//! `Refused` only the fault's line was written, and with `ReadFailed` nothing was run. With `Whole`
//! all regions were drained. With `Stopped`, a drain was refused, and its line follows those of the
//! drains before it; or memory, a thread or a call was refused before, and that line is all that
//! was written. All threads have been joined when they return.
//!
//! `g1_trace` has what a line asks for and the output line of every reply, `g1_options` the command
//! line.
#![tactic(auto)]

mod calls;
mod crews;
mod drains;
mod end;
mod lines;
mod races;
mod runs;
mod scripted;
mod scripts;
mod stop;

pub use crews::play::crew;
pub use end::End;
pub use g1_options::{LineFault, Options, read_options};
pub use g1_trace::{Mode, TraceFault};
pub use races::play::race;
pub use runs::engine::run;
