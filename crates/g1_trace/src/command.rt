//! The commands of a trace.
use g1_core::Call;
use g1_layout::Slot;

/// One command, with numbers that the heap of its trace has.
#[derive(Clone, Copy, Debug, PartialEq, Eq)]
pub enum Command {
    /// A mutator stores a reference, or null.
    Store {
        /// The number of the mutator.
        mutator: u32,
        /// The slot that is written.
        slot: Slot,
        /// What the slot refers to from now on.
        target: Option<Slot>,
    },
    /// A mutator passes its log on.
    Flush {
        /// The number of the mutator.
        mutator: u32,
    },
    /// One completed buffer is refined.
    Refine,
    /// A round of refinement.
    Work,
    /// The first mutator asks, drains, clears or redirects: one call, and no store or refinement.
    Call(Call),
}
