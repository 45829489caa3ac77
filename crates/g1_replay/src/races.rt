//! A replay by threads whose stores race.
//!
//! - `play` runs it to its end.
//! - `opening` opens it, `parties` and `desk` are those of the threads, and `jobs` makes their
//!   calls.

mod desk;
mod jobs;
mod opening;
mod parties;
pub(crate) mod play;
