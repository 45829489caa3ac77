//! What a seat knows. No value of it is made.
use g1_core::Entry;
use std::collections::LinkedList;

pub struct View {
    /// Whether it is the seat of the history: then `all` are its entries, and `callers` were made.
    pub knows: bool,
    pub all: LinkedList<Entry>,
    pub callers: u32,
    /// Whether it is the seat of a caller: then `own` are the entries that it made.
    pub calls: bool,
    pub number: u32,
    pub own: LinkedList<Entry>,
}
