//! What can be wrong with a line of a trace.
use thiserror::Error;

/// What is wrong with a line of a trace (docs/traces.md, Faults). Nothing of such a line is done.
#[derive(Clone, Copy, Debug, PartialEq, Eq, Error)]
pub enum TraceFault {
    /// The line has more than 64 bytes.
    #[error("too long")]
    TooLong,
    /// The input ended in the middle of the line.
    #[error("cut")]
    Cut,
    /// There is no header before the line, or none at all.
    #[error("heap expected")]
    NoHeader,
    /// The first word is no command.
    #[error("no such command")]
    NoCommand,
    /// The command takes another number of words.
    #[error("wrong words")]
    Words,
    /// A word is no number of 1 to 10 digits.
    #[error("not a number")]
    NotNumber,
    /// The header's numbers are outside the limits.
    #[error("bad heap")]
    BadHeap,
    /// There is no such mutator.
    #[error("no such mutator")]
    NoMutator,
    /// The heap has no such slot.
    #[error("no such slot")]
    NoSlot,
    /// The heap has no such card.
    #[error("no such card")]
    NoCard,
    /// The heap has no such region.
    #[error("no such region")]
    NoRegion,
    /// A redirect names one region twice.
    #[error("same region twice")]
    Twice,
}
