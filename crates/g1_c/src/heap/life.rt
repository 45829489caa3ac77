//! The life of a heap whose stores race: it begins at a pause, goes on, pauses again, and ends at a
//! pause.
ghost use Rattle.g1_c.specs.{IsMadeOrRefused, called, Opens, HasNewParties, OfPaused, IsNewHeap};
ghost use Rattle.g1_c.specs.{layout_of, IsHeapOpenRefused, HoldSame, Resumes, IsResumeRefused};
ghost use Rattle.g1_c.specs.{held_racers, held_sweepers, AreOnlyItsOwn, ComesToPause};
ghost use Rattle.g1_c.specs.{IsPauseRefused, Closes, IsCloseRefused};

use crate::tell::answer_word;
use g1_handles::handles::{HeapHandle, RacerHandle, SweeperHandle};
use g1_handles::heap::open::{close_heap, open_heap};
use g1_handles::heap::phases::{pause_heap, resume_heap};
use g1_handles::one_core::open::Counts;
use std::alloc::Global;

/// As in `g1.h`.
#[unsafe(no_mangle)]
pub extern "C" fn g1_heap_open(
    alloc: Global,
    heap: &mut HeapHandle,
    counts: &Counts,
    racers: u32,
    sweepers: u32,
) -> u32
    ensures { IsMadeOrRefused 0 (called result heap.old.value heap.new.value) (Unit {0})
        (Opens heap.old.value (HasNewParties heap.new.value
        × OfPaused heap.new.value (IsNewHeap (layout_of counts.now) racers sweepers)))
        (IsHeapOpenRefused heap.old.value (layout_of counts.now) racers sweepers) }
{
    answer_word(open_heap(alloc, heap, counts, racers, sweepers))
}

/// As in `g1.h`.
#[unsafe(no_mangle)]
pub extern "C" fn g1_heap_resume(
    heap: &mut HeapHandle,
    racers: &mut [RacerHandle],
    sweepers: &mut [SweeperHandle],
) -> u32
    ensures { IsMadeOrRefused 0 (called result heap.old.value heap.new.value)
        (HoldSame racers.old racers.new sweepers.old sweepers.new)
        (Resumes heap.old.value heap.new.value racers.old racers.new sweepers.old sweepers.new)
        (IsResumeRefused heap.old.value (held_racers racers.old) (held_sweepers sweepers.old)) }
{
    answer_word(resume_heap(heap, racers, sweepers))
}

/// As in `g1.h`.
///
/// Parties of other heaps are refused before anything changes, by counts of each race's owners. No
/// proof knows what these counts say, so the condition `one` stands for them: parties that are as
/// many as the heap's are of its race. Nothing relies on the condition before the counts are taken.
#[unsafe(no_mangle)]
pub extern "C" fn g1_heap_pause(
    alloc: Global,
    heap: &mut HeapHandle,
    racers: &mut [RacerHandle],
    sweepers: &mut [SweeperHandle],
) -> u32
    requires one { AreOnlyItsOwn heap.old.value racers.old sweepers.old }
    ensures { IsMadeOrRefused 0 (called result heap.old.value heap.new.value)
        (HoldSame racers.old racers.new sweepers.old sweepers.new) (ComesToPause heap.old.value
        heap.new.value racers.old racers.new sweepers.old sweepers.new)
        (IsPauseRefused heap.old.value (held_racers racers.old) (held_sweepers sweepers.old)) }
{
    answer_word(pause_heap(alloc, heap, racers, sweepers))
}

/// As in `g1.h`.
#[unsafe(no_mangle)]
pub extern "C" fn g1_heap_close(alloc: Global, heap: &mut HeapHandle) -> u32
    ensures { IsMadeOrRefused 0 (called result heap.old.value heap.new.value) (Unit {0}) (Closes
        (OfPaused heap.old.value (λ p. Unit {0})) heap.new.value) (IsCloseRefused heap.old.value) }
{
    answer_word(close_heap(alloc, heap))
}
