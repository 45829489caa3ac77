//! A replay by one thread.
//!
//! - `engine` runs it to its end.
//! - `machinery` is what the commands are played on, `opening` opens it, and `play` plays them.

pub(crate) mod engine;
mod machinery;
mod opening;
mod play;
