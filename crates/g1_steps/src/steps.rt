//! The steps of one caller: calls with a log, the ends of the queue of completed buffers, and the
//! queue, which each step borrows.
//!
//! A mutator stores and flushes ([`mutator`]), a refinement thread takes completed buffers
//! ([`refiner`]), and a pause empties logs and queue ([`standstill`]). A step makes any number of
//! calls, or none (docs/rules.md, The steps of a caller).

mod mutator;
mod refiner;
mod standstill;

pub use mutator::{FlushReply, Mutator};
pub use refiner::{refine, work};
pub use standstill::{empty_line, stand_still};
