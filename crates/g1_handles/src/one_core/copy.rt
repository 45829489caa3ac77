//! A range of slots of a core is copied to another one.
ghost use Rattle.std.specs.Prelude.{◌+◌, ◌≤◌, ◌↔◌};
ghost use Rattle.g1_handles.specs.{IsTrue, slot_count, DoesCopy, LacksRanges, IsMade, CopiesWithin};

use crate::code::Reason;
use g1_core::Core;
use g1_layout::Layout;

/// Copies what `count` slots of a core refer to, from the slot `from` on, to as many from the slot
/// `to` on. Returns `NoSlot` if one of the two ranges leaves the heap: nothing has changed.
pub fn copy_in(core: &mut Core, from: u32, to: u32, count: u32) -> Result<(), Reason>
    ensures { IsMade core.old result core.new (λ done. CopiesWithin
        (slot_count core.old.state.table.layout) from to count
        (DoesCopy from to count core.old core.new))
        (LacksRanges core.old.state.table.layout from count to count) }
{
    let layout = core.layout();
    let _reads = core.reads();
    if !has_slots(layout, from, count as usize) || !has_slots(layout, to, count as usize) {
        return Err(Reason::NoSlot);
    }
    // Only an empty range begins behind the last slot.
    if let (Some(from), Some(to)) = (layout.slot(from), layout.slot(to)) {
        core.copy_slots(from, to, count);
    }
    Ok(())
}

/// Whether the heap has as many slots from the first one on.
pub(crate) fn has_slots(layout: Layout, first: u32, count: usize) -> bool
    ensures { IsTrue result ↔ (first + count ≤ slot_count layout) }
{
    let slots = layout.slot_count() as usize;
    count <= slots && first as usize <= slots - count
}
