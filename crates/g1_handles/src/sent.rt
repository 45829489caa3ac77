//! Each handle may go to another thread.

use crate::handles::{Handle, HeapHandle, RacerHandle, ReaderHandle, SweeperHandle};

fn sent<T: Send>(_value: &T) {}

/// This compiles only if each handle may go to another thread.
pub fn are_sent(
    core: &Handle,
    heap: &HeapHandle,
    racer: &RacerHandle,
    sweeper: &SweeperHandle,
    reader: &ReaderHandle,
) {
    sent(core);
    sent(heap);
    sent(racer);
    sent(sweeper);
    sent(reader);
}
