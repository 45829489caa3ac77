//! The collector's own stores at a pause, one by one or a row of words by one call.
ghost use Rattle.std.specs.Prelude.{◌≡◌, ◌⊎◌, ◌↔◌};
ghost use Rattle.g1_handles.specs.{length, take, IsRaceWith, StoresAt, StoresAllAt, IsFaultAt};
ghost use Rattle.g1_handles.specs.{reference_of, LacksPlace, IsMade, IsOk, IsTrue, IfErr, IsRow};
ghost use Rattle.g1_handles.specs.{IsWordOf, LacksRow, StoresRowAt, StoresWordsAt};

use crate::code::Reason;
use crate::heap::at_pause::PausedHeap;
use crate::one_core::batch::Store;
use crate::one_core::copy::has_slots;
use crate::one_core::store::store_of;
use crate::party::words::DATA;
use g1_layout::{Kind, Layout};

/// Stores a target into a slot, and returns the kind of the store. Returns `NoSlot`, for the slot
/// or the target, if the call was refused: nothing has changed.
pub fn store_at(heap: &mut PausedHeap, slot: u32, target: u32) -> Result<Kind, Reason>
    ensures stored { IsMade heap.old result heap.new (λ kind. StoresAt heap.old slot
        (reference_of target) kind heap.new) (LacksPlace heap.old.layout slot target) }
    ensures kept { IsRaceWith heap.new.logs heap.old heap.new }
{
    let (slot, target) = store_of(heap.layout(), slot, target)?;
    Ok(heap.store(slot, target))
}

/// Makes stores in order, up to the first that names a slot or a target that the heap does not
/// have, and returns how many it made.
pub fn store_all_at(heap: &mut PausedHeap, stores: &[Store]) -> usize
    ensures stored { StoresAllAt heap.old (take result stores.now) heap.new }
    ensures stopped { (result ≡ length stores.now)
        ⊎ IsFaultAt heap.old.layout stores.now result }
    ensures kept { IsRaceWith heap.new.logs heap.old heap.new }
{
    for i in 0..stores.len() {
        let store = stores[i];
        let Ok(_) = store_at(heap, store.slot, store.target) else {
            return i;
        };
    }
    stores.len()
}

/// Stores words into as many slots from this one on, in order: null, references and data. Returns
/// `NoSlot` if the row leaves the heap, or `BadWord` if no slot may have one of the words: nothing
/// has changed.
pub fn store_words_at(heap: &mut PausedHeap, slot: u32, words: &[u64]) -> Result<(), Reason>
    ensures stored { IsMade heap.old result heap.new
        (λ done. StoresRowAt heap.old slot words.now heap.new)
        (LacksRow heap.old.layout slot words.now) }
    ensures kept { IsRaceWith heap.new.logs heap.old heap.new }
{
    check_row(heap.layout(), slot, words)?;
    store_row(heap, slot, words);
    Ok(())
}

/// Returns `NoSlot` or `BadWord` unless the heap has as many slots from this one on, which may have
/// these words.
pub(crate) fn check_row(layout: Layout, slot: u32, words: &[u64]) -> Result<(), Reason>
    ensures row { IsOk result → IsRow layout slot words.now }
    ensures why { IfErr result (LacksRow layout slot words.now) }
{
    if !has_slots(layout, slot, words.len()) {
        return Err(Reason::NoSlot);
    }
    for i in 0..words.len() {
        if !is_word(layout, words[i]) {
            return Err(Reason::BadWord);
        }
    }
    Ok(())
}

/// Whether a slot of the heap may have the word.
fn is_word(layout: Layout, word: u64) -> bool
    ensures { IsTrue result ↔ IsWordOf layout word }
{
    word <= layout.slot_count() as u64 || word >= DATA
}

// Stores each of the words.
fn store_row(heap: &mut PausedHeap, first: u32, words: &[u64])
    requires { IsRow heap.old.layout first words.now }
    ensures { StoresWordsAt heap.old first words.now heap.new }
{
    let layout = heap.layout();
    for i in 0..words.len() {
        let Some(slot) = layout.slot(first + i as u32) else {
            unreachable!()
        };
        let _kind = heap.store_word(slot, words[i]);
    }
}
