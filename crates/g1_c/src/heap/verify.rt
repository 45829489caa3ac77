//! Checks of a heap at a pause, for a debug build.
ghost use Rattle.std.specs.Prelude.{◌≡◌};
ghost use Rattle.g1_c.specs.{OnHeap, Finds, table_at, LacksRanges, length};

use crate::calling::on_heap;
use g1_handles::code::{DONE, NULL};
use g1_handles::handles::HeapHandle;
use g1_handles::heap::verify::verify_at;

/// As in `g1.h`.
#[unsafe(no_mangle)]
pub extern "C" fn g1_heap_verify(
    heap: &mut HeapHandle,
    first: u32,
    count: u32,
    references: &[u32],
    differing: &mut u32,
    missing: &mut u32,
) -> u32
    ensures found { OnHeap 0 result heap.old heap.new ((differing.new ≡ 4294967295) × (missing.new ≡
        4294967295)) (λ old new. Finds (table_at old) first count references.now differing.new
        missing.new) (λ old. LacksRanges old.layout first count first (length references.now)) }
    ensures same { heap.new.value ≡ heap.old.value }
{
    match on_heap!(heap, verify_at(first, count, references)) {
        Err(refusal) => {
            *differing = NULL;
            *missing = NULL;
            refusal.word()
        }
        Ok(found) => {
            *differing = found.differing;
            *missing = found.missing;
            DONE
        }
    }
}
