//! The words of a heap: where they lie, and, at a pause, what a slot's is and a store of data.
ghost use Rattle.std.specs.Prelude.{◌≡◌};
ghost use Rattle.g1_c.specs.{IsTold, called, OfHeap, race_words, SaysNoHeap, ToldByHeap, TellsWord};
ghost use Rattle.g1_c.specs.{start_at, LacksSlot, OnHeap, StoresDataAt, SaysNoData};
ghost use denote.RawPtr.{null_ptr};

use crate::calling::on_heap;
use crate::tell::{answer_word, tell};
use g1_handles::handles::HeapHandle;
use g1_handles::heap::words::{store_data_at, word_at, words_of_heap};
use std::ptr::null;

/// As in `g1.h`.
#[unsafe(no_mangle)]
pub extern "C" fn g1_heap_words(heap: &mut HeapHandle, words: &mut *const u64) -> u32
    ensures { IsTold (called result heap.old.value heap.new.value) words.new
        (words.new ≡ null_ptr) (λ words. OfHeap heap.old.value (λ race. words ≡ race_words race))
        (SaysNoHeap heap.old.value) }
{
    tell(words_of_heap(heap), null(), words)
}

/// As in `g1.h`.
#[unsafe(no_mangle)]
pub extern "C" fn g1_heap_word(heap: &mut HeapHandle, slot: u32, word: &mut u64) -> u32
    ensures { ToldByHeap result heap.old heap.new word.new (word.new ≡ 0) (λ word old. TellsWord
        old.layout (start_at old) slot word) (λ old. LacksSlot old.layout slot) }
{
    let answer = on_heap!(heap, word_at(slot));
    tell(answer, 0, word)
}

/// As in `g1.h`.
#[unsafe(no_mangle)]
pub extern "C" fn g1_heap_store_data(heap: &mut HeapHandle, slot: u32, word: u64) -> u32
    ensures { OnHeap 0 result heap.old heap.new (Unit {0}) (λ old new. StoresDataAt old slot word
        new) (λ old. SaysNoData old.layout slot word) }
{
    answer_word(on_heap!(heap, store_data_at(slot, word)))
}
