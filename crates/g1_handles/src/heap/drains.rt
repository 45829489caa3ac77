//! Refinement at a pause.
ghost use Rattle.g1_handles.specs.{IsRaceWith, Refines};

use crate::heap::at_pause::PausedHeap;

/// Refines every dirty card, and empties the racers' logs. No card that refers into a region is
/// missing from its members then.
pub fn refine_at(heap: &mut PausedHeap)
    ensures refined { Refines heap.old heap.new }
    ensures kept { IsRaceWith heap.new.logs heap.old heap.new }
{
    heap.refine_all();
}
