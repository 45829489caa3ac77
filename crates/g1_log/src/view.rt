//! What the rule of the queue knows of each pass of the queue. No value of these types is made.
use crate::buffer::Buffer;
use crate::parcel::Parcel;
use std::collections::LinkedList;

/// The buffers that one sender has put, in order.
pub struct Sent {
    pub number: u32,
    pub buffers: LinkedList<Buffer>,
}

/// What was put and taken by one pass.
pub struct PassView {
    /// Whether it is as it came.
    pub fresh: bool,
    /// Its share of the queue. If all shares are in one pass, no other can put or take.
    pub rights: u64,
    /// Whether it may give out sender numbers, from `made` on.
    pub makes: bool,
    pub made: u32,
    /// What it has put, by sender.
    pub sent: LinkedList<Sent>,
    /// What it has taken, a list for each taker.
    pub taken: LinkedList<LinkedList<Parcel>>,
    /// Whether it has settled the queue, and then what the queue still holds.
    pub ended: bool,
    pub rest: LinkedList<Parcel>,
}
