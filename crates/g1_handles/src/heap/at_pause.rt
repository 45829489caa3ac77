//! A call on a heap at a pause.
ghost use Rattle.g1_handles.specs.{Result, FnOnceReturnsAtMut, Pause, Reason, IsRaceWith, IsCalled};

use crate::any_handle::AnyHandle;
use crate::code::Reason;
use crate::handles::HeapHandle;
use crate::heap::racing_heap::RacingHeap;
use g1_race::{Paused, Race};
use std::alloc::Global;
use std::sync::Arc;

/// A heap at a pause. It holds a share of its race, so the waiting parties can keep theirs.
pub type PausedHeap = Paused<Arc<Race, Global>>;

/// Makes a call on the heap of a handle, which is at a pause. Returns `NotOpen`, or `NotPaused` if
/// the heap's parties are out or readers read it: nothing has changed.
pub fn at_pause<A, F: FnOnce(&mut PausedHeap) -> Result<A, Reason>>(
    handle: &mut HeapHandle,
    call: F,
) -> Result<A, Reason>
    requires callable { F.IsAlwaysCallable call }
    requires kept { (old new : Pause) (r : Result A Reason)
        → FnOnceReturnsAtMut F.FnOnce call old r new → IsRaceWith new.logs old new }
    ensures { IsCalled (FnOnceReturnsAtMut F.FnOnce call)
        handle.old.value result handle.new.value }
{
    let heap = handle.value_mut().ok_or(Reason::NotOpen)?;
    match &mut *heap {
        RacingHeap::Paused(at) => call(&mut at.pause),
        RacingHeap::Read(_) | RacingHeap::Racing(_) => Err(Reason::NotPaused),
    }
}
