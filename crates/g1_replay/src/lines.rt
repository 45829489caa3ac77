//! The lines of a trace: read, parsed and passed on to a player.
//!
//! - `source` says how far a replay has come in its input, and `line` has one line.
//! - `opening` reads the lines up to the header, and `Commands` of `source` those behind it: in
//!   `playing` all of them, by `shown` what a reader shows as a whole, and else by `next`.
//! - `player` says what is done with the commands.

mod line;
mod next;
pub(crate) mod opening;
pub(crate) mod player;
pub(crate) mod playing;
mod shown;
pub(crate) mod source;
