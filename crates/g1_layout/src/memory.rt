//! The out-of-memory error of every crate of the machinery.

use std::alloc::{AllocError, AllocFailed};
use thiserror::Error;

/// A growth was refused (docs/rules.md, No memory). It is returned for no other reason.
///
/// `?` converts the allocator's own errors to it. A call that returns it says what it left
/// unchanged.
#[derive(Clone, Copy, Debug, PartialEq, Eq, Error)]
#[error("no memory")]
pub struct NoMemory;

impl From<AllocError> for NoMemory {
    fn from(_: AllocError) -> Self {
        NoMemory
    }
}

/// The value for which there was no room is dropped.
impl<T: Drop> From<AllocFailed<T>> for NoMemory {
    fn from(_: AllocFailed<T>) -> Self {
        NoMemory
    }
}
