//! Dirty card queues and completed buffers.
//!
//! A mutator has a dirty card queue of its own, its log, into which it puts each card that it
//! dirties. The card that fills the log makes a completed buffer of it, and the mutator goes on
//! with an empty log. `Done` keeps the completed buffers of one thread. `Line` is the queue of
//! completed buffers between threads, without a lock: mutators put, refinement threads take.
#![tactic(auto)]

mod buffer;
mod done;
mod ends;
mod laws;
mod line;
mod log;
mod parcel;
mod rule;
mod view;

pub use buffer::Buffer;
pub use done::{Done, Why};
pub use ends::{Sender, Settled, Taker};
pub use laws::each_parcel_stands_once;
pub use line::Line;
pub use log::Log;
pub use parcel::Parcel;
