//! The remembered set of a region at a pause, in the caller's own array.
ghost use Rattle.std.specs.Prelude.{◌≡◌, ◌<◌};
ghost use Rattle.g1_handles.specs.Prelude.{OnErr, slice_set, AreMembers, table_at, IsRaceWith};
ghost use Rattle.g1_handles.specs.AtPause.{IsCalled, TellsSet, IsSetCall};

use crate::any_handle::AnyHandle;
use crate::code::Reason;
use crate::handles::HeapHandle;
use crate::heap::at_pause::PausedHeap;
use crate::heap::racing_heap::RacingHeap;
use g1_layout::{Card, Region};

/// Which set of a region.
#[derive(Clone, Copy)]
pub enum Which {
    /// The set as it is recorded.
    Recorded,
    /// The set once every dirty card is refined.
    Refined,
}

/// What the caller is told of a set.
#[derive(Clone, Copy)]
pub enum SetTold {
    /// The set has this many cards, and the front of the array has them.
    All(u32),
    /// The set has this many cards. The array has the first of them, and no room for the others.
    First(u32),
}

/// Writes the set of a region of a heap to the front of an array, ascending, as far as the array
/// reaches. Takes no memory.
///
/// Returns `NotOpen`, `NotPaused` or `NoRegion` if the call was refused: nothing has changed.
pub fn set_of_heap(
    handle: &mut HeapHandle,
    which: Which,
    region: u32,
    cards: &mut [u32],
) -> Result<SetTold, Reason>
    ensures called { IsCalled (IsSetCall which region cards.old cards.new)
        handle.old.value result handle.new.value }
    ensures unwritten { OnErr result (cards.new ≡ cards.old) }
{
    let heap = handle.value_mut().ok_or(Reason::NotOpen)?;
    match &mut *heap {
        RacingHeap::Paused(at) => set_at(&mut at.pause, which, region, cards),
        RacingHeap::Read(_) | RacingHeap::Racing(_) => Err(Reason::NotPaused),
    }
}

/// Writes the set of a region once every dirty card is refined, or as it is recorded.
fn set_at(
    heap: &mut PausedHeap,
    which: Which,
    region: u32,
    cards: &mut [u32],
) -> Result<SetTold, Reason>
    ensures called { IsSetCall which region cards.old cards.new heap.old result heap.new }
    ensures unwritten { OnErr result (cards.new ≡ cards.old) }
    ensures kept { IsRaceWith heap.new.logs heap.old heap.new }
{
    let region = heap.layout().region(region).ok_or(Reason::NoRegion)?;
    match which {
        Which::Recorded => Ok(write_set(heap, region, cards)),
        Which::Refined => {
            heap.refine_all();
            Ok(write_set(heap, region, cards))
        }
    }
}

/// Writes the cards of a region's set as far as the array reaches, and counts them all.
#[tactic(auto, using(crate::proofs::SetLemmas::shows_none))]
fn write_set(heap: &mut PausedHeap, region: Region, array: &mut [u32]) -> SetTold
    requires { region < heap.old.layout.regions }
    ensures told { TellsSet (AreMembers (table_at heap.old) region) array.old result array.new }
    ensures same { heap.new ≡ heap.old }
{
    let _limit = heap.layout().card_count();
    let mut count = 0;
    let mut from = 0;
    while let Some(card) = heap.next_member(region, from) {
        write_at(array, count, card);
        count += 1;
        from = card.number() + 1;
    }
    if count <= array.len() {
        SetTold::All(count as u32)
    } else {
        SetTold::First(count as u32)
    }
}

/// Writes the number of a card at this index of an array, if the array reaches that far.
#[tactic(auto, using(std::proofs::lemmas::List::set_past))]
fn write_at(array: &mut [u32], index: usize, card: Card)
    ensures { array.new ≡ slice_set array.old index card }
{
    if array.len() <= index {
        return;
    }
    array[index] = card.number();
}
