//! How an export makes a call on what its handle lends: `on_racer!(racer, store_by(slot))`
//! calls `store_by` with what the handle of a racer holds, and with the slot.

macro_rules! on_open {
    ($handle:expr, Ok($call:ident($($rest:expr),*))) => {
        g1_handles::any_handle::visit($handle, |value| Ok($call(value, $($rest),*)))
    };
    ($handle:expr, $call:ident($($rest:expr),*)) => {
        g1_handles::any_handle::visit($handle, |value| $call(value, $($rest),*))
    };
}

// On a heap at a pause.
macro_rules! on_heap {
    ($handle:expr, Ok($call:ident($($rest:expr),*))) => {
        g1_handles::heap::at_pause::at_pause($handle, |heap| Ok($call(heap, $($rest),*)))
    };
    ($handle:expr, $call:ident($($rest:expr),*)) => {
        g1_handles::heap::at_pause::at_pause($handle, |heap| $call(heap, $($rest),*))
    };
}

pub(crate) use on_heap;
pub(crate) use on_open as on_core;
pub(crate) use on_open as on_racer;
pub(crate) use on_open as on_reader;
pub(crate) use on_open as on_sweeper;
