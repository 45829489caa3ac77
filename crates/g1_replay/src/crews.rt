//! A replay by a crew of threads under one lock.
//!
//! - `play` runs it to its end.
//! - `jobs` makes the calls of the scripts, and `output` prints the book.

mod jobs;
mod output;
pub(crate) mod play;
