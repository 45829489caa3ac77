//! Several threads read a heap at a pause: how that begins and ends.
ghost use Rattle.std.specs.Prelude.{◌≡◌};
ghost use Rattle.g1_c.specs.{IsMadeOrRefused, called, held_readers, BeginsReading, IsReadRefused};
ghost use Rattle.g1_c.specs.{AreOnlyItsReaders, EndsReading, IsReadEndRefused};

use crate::tell::answer_word;
use g1_handles::handles::{HeapHandle, ReaderHandle};
use g1_handles::heap::reading::{end_read_of_heap, read_heap};
use std::alloc::Global;

/// As in `g1.h`.
#[unsafe(no_mangle)]
pub extern "C" fn g1_heap_read(heap: &mut HeapHandle, readers: &mut [ReaderHandle]) -> u32
    ensures { IsMadeOrRefused 0 (called result heap.old.value heap.new.value) (held_readers
        readers.new ≡ held_readers readers.old) (BeginsReading heap.old.value heap.new.value
        readers.old readers.new) (IsReadRefused heap.old.value (held_readers readers.old)) }
{
    answer_word(read_heap(heap, readers))
}

/// As in `g1.h`.
///
/// Readers of other heaps are refused before anything changes, by counts of each race's owners. No
/// proof knows what these counts say, so the condition `one` stands for them: readers that are as
/// many as read the heap are those that read it. Nothing relies on the condition before the counts
/// are taken.
#[unsafe(no_mangle)]
pub extern "C" fn g1_heap_read_end(
    alloc: Global,
    heap: &mut HeapHandle,
    readers: &mut [ReaderHandle],
) -> u32
    requires one { AreOnlyItsReaders heap.old.value readers.old }
    ensures { IsMadeOrRefused 0 (called result heap.old.value heap.new.value) (held_readers
        readers.new ≡ held_readers readers.old) (EndsReading heap.old.value heap.new.value
        readers.old readers.new) (IsReadEndRefused heap.old.value (held_readers readers.old)) }
{
    answer_word(end_read_of_heap(alloc, heap, readers))
}
