//! What the queue of completed buffers carries.
use crate::buffer::Buffer;

/// A completed buffer on its way through the queue, with the number of its sender and its own
/// number among that sender's buffers. Both begin at 0.
#[derive(Debug, Drop)]
pub struct Parcel {
    /// The number of the sender.
    pub sender: u32,
    /// The buffer's number among those of the sender, in the order of its puts.
    pub number: u64,
    /// The completed buffer.
    pub buffer: Buffer,
}
