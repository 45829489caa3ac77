//! The words of a heap: where they lie, and, at a pause, what a slot's is and a store of data,
//! which refers to nothing.
ghost use Rattle.std.specs.Prelude.{◌≡◌};
ghost use Rattle.g1_handles.specs.{IfOk, IfErr, race_words, IsRaceWith, TellsWord, StoresDataAt};
ghost use Rattle.g1_handles.specs.{OfHeap, SaysNoHeap, LacksSlot, SaysNoData, start_at, IsMade};
ghost use Rattle.g1_handles.specs.{IsAnswered};

use crate::any_handle::AnyHandle;
use crate::code::Reason;
use crate::handles::HeapHandle;
use crate::heap::at_pause::PausedHeap;
use crate::heap::racing_heap::RacingHeap;
use crate::party::words::data_slot;

/// Returns the address of the words of the heap of a handle, at a pause or not: the word of each
/// slot, in order. It stays the same for as long as the heap lasts. Returns `NotOpen` if the handle
/// is closed.
pub fn words_of_heap(handle: &mut HeapHandle) -> Result<*const u64, Reason>
    ensures words { IfOk result (λ words.
        OfHeap handle.old.value (λ race. words ≡ race_words race)) }
    ensures why { IfErr result (SaysNoHeap handle.old.value) }
    ensures same { handle.new.value ≡ handle.old.value }
{
    let heap = handle.value_mut().ok_or(Reason::NotOpen)?;
    let words = match &*heap {
        RacingHeap::Paused(at) => at.race.words(),
        RacingHeap::Read(being_read) => being_read.race.words(),
        RacingHeap::Racing(under_way) => under_way.race.words(),
    };
    Ok(words)
}

/// Returns a slot's word: 0 for null, the number of the slot that it refers to plus 1, or data from
/// 2^32 on. Returns `NoSlot` if the call was refused.
pub fn word_at(heap: &mut PausedHeap, slot: u32) -> Result<u64, Reason>
    ensures { IsAnswered heap.old result heap.new
        (TellsWord heap.old.layout (start_at heap.old) slot) (LacksSlot heap.old.layout slot) }
{
    let slot = heap.layout().slot(slot).ok_or(Reason::NoSlot)?;
    Ok(heap.word(slot))
}

/// Stores data into a slot: a word from 2^32 on, which refers to nothing. Returns `NoSlot`, or
/// `BadWord` for a lower word, if the call was refused: nothing has changed.
pub fn store_data_at(heap: &mut PausedHeap, slot: u32, word: u64) -> Result<(), Reason>
    ensures stored { IsMade heap.old result heap.new (λ done. StoresDataAt heap.old slot word
        heap.new) (SaysNoData heap.old.layout slot word) }
    ensures kept { IsRaceWith heap.new.logs heap.old heap.new }
{
    let slot = data_slot(heap.layout(), slot, word)?;
    heap.store_data(slot, word);
    Ok(())
}
