//! A range of slots is copied to another one at a pause.
ghost use Rattle.g1_handles.specs.{slot_count, IsRaceWith, LacksRanges, Copies, IsMade};
ghost use Rattle.g1_handles.specs.{CopiesWithin};

use crate::code::Reason;
use crate::heap::at_pause::PausedHeap;
use crate::one_core::copy::has_slots;

/// Copies the words of `count` slots, from the slot `from` on, to as many from the slot `to` on.
/// Returns `NoSlot` if one of the two ranges leaves the heap: nothing has changed.
pub fn copy_at(heap: &mut PausedHeap, from: u32, to: u32, count: u32) -> Result<(), Reason>
    ensures copied { IsMade heap.old result heap.new (λ done. CopiesWithin
        (slot_count heap.old.layout) from to count (Copies heap.old from to count heap.new))
        (LacksRanges heap.old.layout from count to count) }
    ensures kept { IsRaceWith heap.new.logs heap.old heap.new }
{
    let layout = heap.layout();
    if !has_slots(layout, from, count as usize) || !has_slots(layout, to, count as usize) {
        return Err(Reason::NoSlot);
    }
    // Only an empty range begins behind the last slot.
    if let (Some(from), Some(to)) = (layout.slot(from), layout.slot(to)) {
        heap.copy_slots(from, to, count);
    }
    Ok(())
}
