//! The options of a replay, and how the command line gives them.
#![tactic(auto)]

mod command_line;
mod options;
mod settings;

pub use command_line::{LineFault, read_options};
pub use options::Options;
