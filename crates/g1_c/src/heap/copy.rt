//! A range of slots of a heap at a pause is copied to another one.
ghost use Rattle.g1_c.specs.{OnHeap, CopiesWithin, slot_count, Copies, LacksRanges};

use crate::calling::on_heap;
use crate::tell::answer_word;
use g1_handles::handles::HeapHandle;
use g1_handles::heap::copy::copy_at;

/// As in `g1.h`.
#[unsafe(no_mangle)]
pub extern "C" fn g1_heap_copy(heap: &mut HeapHandle, from: u32, to: u32, count: u32) -> u32
    ensures { OnHeap 0 result heap.old heap.new (Unit {0}) (λ old new. CopiesWithin (slot_count
        old.layout) from to count (Copies old from to count new)) (λ old. LacksRanges old.layout
        from count to count) }
{
    answer_word(on_heap!(heap, copy_at(from, to, count)))
}
