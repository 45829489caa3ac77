//! Checks of a heap at a pause, for a debug build.
ghost use Rattle.g1_handles.specs.{length, Finds, LacksRanges, table_at, IsAnswered};

use crate::code::Reason;
use crate::heap::at_pause::PausedHeap;
use crate::one_core::copy::has_slots;
use crate::one_core::queries::reference_word;
use crate::one_core::verify::{Findings, NOTHING};

/// Checks a heap against the references that a runtime's memory has from a slot on, as many as are
/// given, and the cards of `count` slots from there. Returns `NoSlot` if one of the two ranges
/// leaves the heap.
pub fn verify_at(
    heap: &mut PausedHeap,
    first: u32,
    count: u32,
    memory: &[u32],
) -> Result<Findings, Reason>
    ensures { IsAnswered heap.old result heap.new (λ f.
        Finds (table_at heap.old) first count memory.now f.differing f.missing)
        (LacksRanges heap.old.layout first count first (length memory.now)) }
{
    let layout = heap.layout();
    if !has_slots(layout, first, count as usize) || !has_slots(layout, first, memory.len()) {
        return Err(Reason::NoSlot);
    }
    // Only an empty range begins behind the last slot.
    let Some(from) = layout.slot(first) else {
        return Ok(NOTHING);
    };
    let differing = reference_word(layout, heap.first_differing(from, memory));
    let missing = reference_word(layout, heap.first_missing(from, count));
    Ok(Findings { differing, missing })
}
