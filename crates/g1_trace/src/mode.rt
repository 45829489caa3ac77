//! What is done with a trace.

/// What the program does with the trace.
#[derive(Clone, Copy, Debug, PartialEq, Eq)]
pub enum Mode {
    /// Each line is a call, made in the order of the trace.
    Run,
    /// A thread for each mutator makes its stores and flushes, while other threads refine.
    Crew,
    /// A thread for each mutator makes its stores, with no lock around them, while other threads
    /// refine.
    Race,
}
