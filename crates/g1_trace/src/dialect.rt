//! What a trace may ask for.
use crate::mode::Mode;

/// What a trace may ask for, besides what its heap has: the commands of its subcommand, and how
/// many mutators they may name.
#[derive(Clone, Copy, Debug, PartialEq, Eq)]
pub struct Dialect {
    /// The subcommand.
    pub mode: Mode,
    /// How many mutators there are.
    pub mutators: u32,
}
