//! What follows an evacuation: references are moved or a remembered set is emptied, and regions are
//! freed.
ghost use Rattle.std.specs.Prelude.{◌≡◌, ◌≢◌, ◌<◌, ◌⊎◌};
ghost use Rattle.g1_handles.specs.{true, ℕ, false, region_of, Crosses, table_at, IsRaceWith};
ghost use Rattle.g1_handles.specs.{ClearsAt, Redirects, Wipes, Forgets, RefersOut, cleared_of};
ghost use Rattle.g1_handles.specs.{IsClearWord, LacksRegion, SaysNoMove, FreesAt, LacksSomeRegion};
ghost use Rattle.g1_handles.specs.{IsMade};

use crate::code::Reason;
use crate::heap::at_pause::PausedHeap;
use crate::heap::queries::has_regions;
use crate::one_core::evacuation::{move_of, words_of};
use g1_layout::{Layout, Region};

/// Empties the remembered set of a region, once no card is dirty and no slot outside the region
/// refers into it. Returns the word of the reply and the number that goes with it, as
/// [`clear_in`](crate::one_core::evacuation::clear_in) does. Unless that word is 0, nothing has
/// changed. Returns `NoRegion` if the call was refused.
pub fn clear_at(heap: &mut PausedHeap, region: u32) -> Result<(u32, u32), Reason>
    ensures cleared { IsMade heap.old result heap.new (λ answer. IsClearWord answer.0 answer.1
        × ClearsAt heap.old region (cleared_of answer.0 answer.1) heap.new)
        (LacksRegion heap.old.layout region) }
    ensures kept { IsRaceWith heap.new.logs heap.old heap.new }
{
    let region = heap.layout().region(region).ok_or(Reason::NoRegion)?;
    Ok(words_of(heap.clear(region)))
}

/// Frees regions, once no card is dirty and no slot outside them refers into one of them. Returns
/// the word of the reply and the number that goes with it, as [`clear_at`] does. Unless that word
/// is 0, nothing has changed. Returns `NoRegion` if one of the numbers is of no region.
pub fn free_at(heap: &mut PausedHeap, regions: &[u32]) -> Result<(u32, u32), Reason>
    ensures freed { IsMade heap.old result heap.new (λ answer. IsClearWord answer.0 answer.1
        × FreesAt heap.old regions.now (cleared_of answer.0 answer.1) heap.new)
        (LacksSomeRegion heap.old.layout regions.now) }
    ensures kept { IsRaceWith heap.new.logs heap.old heap.new }
{
    has_regions(heap.layout(), regions)?;
    Ok(words_of(heap.free(regions)))
}

/// Moves the references into one region to another, and returns how many slots changed. Returns
/// `NoRegion`, for either region, or `SameRegion` if the call was refused: nothing has changed.
pub fn redirect_at(heap: &mut PausedHeap, from: u32, to: u32) -> Result<u32, Reason>
    ensures redirected { IsMade heap.old result heap.new
        (λ slots. Redirects heap.old from to slots heap.new) (SaysNoMove heap.old.layout from to) }
    ensures kept { IsRaceWith heap.new.logs heap.old heap.new }
{
    let (from, to) = move_of(heap.layout(), from, to)?;
    Ok(heap.redirect_in_place(from, to))
}

/// Stores null into each slot of a region. Returns `NoRegion` if the call was refused: nothing has
/// changed.
pub fn wipe_at(heap: &mut PausedHeap, region: u32) -> Result<(), Reason>
    ensures wiped { IsMade heap.old result heap.new (λ done. Wipes heap.old region heap.new)
        (LacksRegion heap.old.layout region) }
    ensures kept { IsRaceWith heap.new.logs heap.old heap.new }
{
    let region = heap.layout().region(region).ok_or(Reason::NoRegion)?;
    heap.wipe(region);
    Ok(())
}

/// Removes a region's cards from all remembered sets. Returns `NoRegion`, or `StillReferenced` if a
/// slot of the region refers out of it: nothing has changed.
pub fn forget_at(heap: &mut PausedHeap, region: u32) -> Result<(), Reason>
    ensures forgotten { IsMade heap.old result heap.new (λ done. Forgets heap.old region heap.new
        × (RefersOut heap.old region → ⊥)) (λ refusal. LacksRegion heap.old.layout region refusal
        ⊎ ((refusal ≡ Reason.StillReferenced) × RefersOut heap.old region)) }
    ensures kept { IsRaceWith heap.new.logs heap.old heap.new }
{
    let layout = heap.layout();
    let region = layout.region(region).ok_or(Reason::NoRegion)?;
    if refers_out(heap, layout, region) {
        return Err(Reason::StillReferenced);
    }
    heap.forget(region);
    Ok(())
}

/// Whether a slot of a region refers out of it.
fn refers_out(heap: &mut PausedHeap, layout: Layout, region: Region) -> bool
    requires layout { layout ≡ heap.old.layout }
    requires region { region < layout.regions }
    ensures some { result ≡ true → RefersOut heap.old region }
    ensures none { result ≡ false → (slot place : ℕ) → Crosses (table_at heap.old) slot place
        → region_of layout slot ≢ region }
    ensures same { heap.new ≡ heap.old }
{
    let (_, cards, slots) = layout.counts();
    let span = cards * slots;
    let first = region.number() * span;
    for i in 0..span {
        let Some(slot) = layout.slot(first + i) else {
            unreachable!()
        };
        if let Some(target) = heap.target(slot) {
            if layout.region_of(target) != region {
                return true;
            }
        }
    }
    false
}
