//! Refinement and drains of a heap at a pause.
ghost use Rattle.g1_c.specs.{ListsOfHeap, listing, DrainsRegion, OnHeap, Refines};

use crate::calling::on_heap;
use crate::tell::{answer_word, tell_set};
use g1_handles::handles::HeapHandle;
use g1_handles::heap::drains::refine_at;
use g1_handles::heap::sets::{Which, set_of_heap};

/// As in `g1.h`.
#[unsafe(no_mangle)]
pub extern "C" fn g1_heap_drain(
    heap: &mut HeapHandle,
    region: u32,
    cards: &mut [u32],
    count: &mut u32,
) -> u32
    ensures { ListsOfHeap result heap.old heap.new (listing cards.old cards.new count.new) (λ old
        new. DrainsRegion old region new) region }
{
    *count = 0;
    tell_set!(set_of_heap(heap, Which::Refined, region, cards), count)
}

/// As in `g1.h`.
#[unsafe(no_mangle)]
pub extern "C" fn g1_heap_refine(heap: &mut HeapHandle) -> u32
    ensures { OnHeap 0 result heap.old heap.new (Unit {0}) Refines (λ old r. ⊥) }
{
    answer_word(on_heap!(heap, Ok(refine_at())))
}
