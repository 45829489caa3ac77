//! The collector's own stores into a heap at a pause, one by one or a row of words by one call.
ghost use Rattle.std.specs.Prelude.{◌≡◌};
ghost use Rattle.g1_c.specs.{OnHeap, OfKind, StoresAt, reference_of, LacksPlace, StoresSeveral};
ghost use Rattle.g1_c.specs.{StoresAllAt, take, length, IsFaultAt, StoresRowAt, LacksRow};

use crate::calling::on_heap;
use crate::tell::{answer_word, tell_kind};
use g1_handles::code::{DONE, STOPPED};
use g1_handles::handles::HeapHandle;
use g1_handles::heap::stores::{store_all_at, store_at, store_words_at};
use g1_handles::one_core::batch::Store;

/// As in `g1.h`.
#[unsafe(no_mangle)]
pub extern "C" fn g1_heap_store(
    heap: &mut HeapHandle,
    slot: u32,
    target: u32,
    kind: &mut u32,
) -> u32
    ensures { OnHeap 0 result heap.old heap.new (kind.new ≡ 0) (λ old new. OfKind kind.new (λ k.
        StoresAt old slot (reference_of target) k new)) (λ old. LacksPlace old.layout slot target) }
{
    tell_kind!(on_heap!(heap, store_at(slot, target)), kind)
}

/// As in `g1.h`.
#[unsafe(no_mangle)]
pub extern "C" fn g1_heap_store_all(
    heap: &mut HeapHandle,
    stores: &[Store],
    stored: &mut usize,
) -> u32
    ensures { OnHeap 3 result heap.old heap.new (stored.new ≡ 0) (λ old new. StoresSeveral result
        (StoresAllAt old (take stored.new stores.now) new) (stored.new ≡ length stores.now)
        (IsFaultAt old.layout stores.now stored.new) ⊥) (λ old r. ⊥) }
{
    match on_heap!(heap, Ok(store_all_at(stores))) {
        Err(refusal) => {
            *stored = 0;
            refusal.word()
        }
        Ok(count) => {
            *stored = count;
            if count == stores.len() { DONE } else { STOPPED }
        }
    }
}

/// As in `g1.h`.
#[unsafe(no_mangle)]
pub extern "C" fn g1_heap_store_words(heap: &mut HeapHandle, slot: u32, words: &[u64]) -> u32
    ensures { OnHeap 0 result heap.old heap.new (Unit {0}) (λ old new. StoresRowAt old slot
        words.now new) (λ old. LacksRow old.layout slot words.now) }
{
    answer_word(on_heap!(heap, store_words_at(slot, words)))
}
