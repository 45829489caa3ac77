//! Queries at a pause: what a slot refers to, whether a card is pending, how much is pending and
//! recorded and, card by card, what is recorded for a region or several of them, and what is dirty.
ghost use Rattle.std.specs.Prelude.{◌≡◌, ◌<◌};
ghost use Rattle.g1_handles.specs.{reference_of, TellsTarget, TellsPending, TellsStatus, table_at};
ghost use Rattle.g1_handles.specs.{TellsNextMember, LacksCard, LacksRegion, LacksSlot, IsAnswered};
ghost use Rattle.g1_handles.specs.{All, IsOk, IfErr, IsNextPending, TellsNextInto, LacksSomeRegion};

use crate::code::{NULL, Reason};
use crate::heap::at_pause::PausedHeap;
use crate::one_core::queries::reference_word;
use g1_core::Status;
use g1_layout::Layout;

/// Returns the word of what a slot refers to, or `NoSlot`.
pub fn target_at(heap: &mut PausedHeap, slot: u32) -> Result<u32, Reason>
    ensures { IsAnswered heap.old result heap.new (λ word. TellsTarget (table_at heap.old) slot
        (reference_of word)) (LacksSlot heap.old.layout slot) }
{
    let layout = heap.layout();
    let slot = layout.slot(slot).ok_or(Reason::NoSlot)?;
    Ok(reference_word(layout, heap.target(slot)))
}

/// Returns whether a card is pending, or `NoCard`.
pub fn is_pending_at(heap: &mut PausedHeap, card: u32) -> Result<bool, Reason>
    ensures { IsAnswered heap.old result heap.new (TellsPending (table_at heap.old) card)
        (LacksCard heap.old.layout card) }
{
    let card = heap.layout().card(card).ok_or(Reason::NoCard)?;
    Ok(heap.is_pending(card))
}

/// Returns how much is pending and recorded.
pub fn status_at(heap: &mut PausedHeap) -> Status
    ensures status { TellsStatus (table_at heap.old) result }
    ensures same { heap.new ≡ heap.old }
{
    heap.status()
}

/// Returns the word of the least card from the number `from` on that is recorded for a region, or
/// of null if there is none. Returns `NoRegion` if the call was refused.
pub fn next_member_at(heap: &mut PausedHeap, region: u32, from: u32) -> Result<u32, Reason>
    ensures { IsAnswered heap.old result heap.new (λ word. TellsNextMember (table_at heap.old)
        region from (reference_of word)) (LacksRegion heap.old.layout region) }
{
    let layout = heap.layout();
    let _limit = layout.card_count();
    let region = layout.region(region).ok_or(Reason::NoRegion)?;
    match heap.next_member(region, from) {
        Some(card) => Ok(card.number()),
        None => Ok(NULL),
    }
}

/// Returns the word of the least dirty card from the number `from` on, or of null if there is none.
pub fn next_dirty_at(heap: &mut PausedHeap, from: u32) -> u32
    ensures next { IsNextPending (table_at heap.old) from (reference_of result) }
    ensures same { heap.new ≡ heap.old }
{
    let _limit = heap.layout().card_count();
    match heap.next_dirty(from) {
        Some(card) => card.number(),
        None => NULL,
    }
}

/// Returns the word of the least card from the number `from` on that lies outside these regions and
/// is recorded for one of them, or of null if there is none. Returns `NoRegion` if one of the
/// numbers is of no region.
pub fn next_into_at(heap: &mut PausedHeap, regions: &[u32], from: u32) -> Result<u32, Reason>
    ensures { IsAnswered heap.old result heap.new (λ word. TellsNextInto (table_at heap.old)
        regions.now from (reference_of word)) (LacksSomeRegion heap.old.layout regions.now) }
{
    let layout = heap.layout();
    let _limit = layout.card_count();
    has_regions(layout, regions)?;
    match heap.next_into(regions, from) {
        Some(card) => Ok(card.number()),
        None => Ok(NULL),
    }
}

/// Returns `NoRegion` unless the heap has each of these regions.
pub(crate) fn has_regions(layout: Layout, regions: &[u32]) -> Result<(), Reason>
    ensures within { IsOk result → All (λ region. region < layout.regions) regions.now }
    ensures why { IfErr result (LacksSomeRegion layout regions.now) }
{
    for i in 0..regions.len() {
        layout.region(regions[i]).ok_or(Reason::NoRegion)?;
    }
    Ok(())
}
