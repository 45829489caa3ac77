//! The clear and the redirect, which may follow an evacuation.
ghost use Rattle.std.specs.Prelude.{◌≡◌, ◌≢◌, ◌<◌};
ghost use Rattle.g1_handles.specs.{IfOk, IfErr, cleared_of, IsClearWord, ClearsTo, LacksRegion};
ghost use Rattle.g1_handles.specs.{redirect_refined, IsRedirectRefused, RedirectsTo, FitIn, IsOk};
ghost use Rattle.g1_handles.specs.{SaysNoMove, IsMade};

use crate::code::{DONE, Reason};
use g1_core::{ClearReply, Core, Redirected};
use g1_layout::{Layout, Region};

/// Clears a region. Returns the word of the reply and the number that goes with it:
///
/// - 0 and 0: the remembered set is empty now.
/// - The word of `StillPending`, and how many cards are pending.
/// - The word of `StillReferenced`, and the least slot outside the region that refers into it.
///
/// In the second and third case the core is as it was, except for its count of reads. Returns
/// `NoRegion` if the call was refused: nothing has changed.
pub fn clear_in(core: &mut Core, region: u32) -> Result<(u32, u32), Reason>
    ensures { IsMade core.old result core.new (λ answer. IsClearWord answer.0 answer.1
        × ClearsTo core.old region (cleared_of answer.0 answer.1) core.new)
        (LacksRegion core.old.state.table.layout region) }
{
    let layout = core.layout();
    let region = layout.region(region).ok_or(Reason::NoRegion)?;
    Ok(words_of(core.clear(region)))
}

/// The word of a reply, and the number that goes with it.
pub(crate) fn words_of(reply: ClearReply) -> (u32, u32)
    ensures reply { cleared_of result.0 result.1 ≡ reply }
    ensures words { IsClearWord result.0 result.1 }
{
    match reply {
        ClearReply::Cleared => (DONE, 0),
        ClearReply::Pending(count) => (Reason::StillPending.word(), count),
        ClearReply::StillReferenced(slot) => (Reason::StillReferenced.word(), slot.number()),
    }
}

/// Redirects from one region to another ([`Core::redirect`]). `room` is the length of the caller's
/// array for the cards that were refined.
///
/// Returns `NoRegion` for either region, `SameRegion`, `NoRoom` if the array is shorter than the
/// heap has cards, or `NoMemory`: nothing has changed.
pub fn redirect_in(core: &mut Core, from: u32, to: u32, room: usize) -> Result<Redirected, Reason>
    ensures { IsMade core.old result core.new (λ answer. FitIn room (redirect_refined answer)
        × RedirectsTo core.old from to answer core.new)
        (IsRedirectRefused core.old.state.table.layout from to room) }
{
    let layout = core.layout();
    let (from, to) = move_of(layout, from, to)?;
    if room < layout.card_count() as usize {
        return Err(Reason::NoRoom);
    }
    match core.redirect(from, to) {
        Ok(answer) => Ok(answer),
        Err(_) => Err(Reason::NoMemory),
    }
}

/// Returns the two regions of a redirect, or `NoRegion` for either, or `SameRegion`.
pub(crate) fn move_of(layout: Layout, from: u32, to: u32) -> Result<(Region, Region), Reason>
    ensures regions { IfOk result (λ regions. (regions.0 ≡ from) × (regions.1 ≡ to)) }
    ensures within { IsOk result → (from < layout.regions) × (to < layout.regions) }
    ensures apart { IsOk result → from ≢ to }
    ensures why { IfErr result (SaysNoMove layout from to) }
{
    let from = layout.region(from).ok_or(Reason::NoRegion)?;
    let to = layout.region(to).ok_or(Reason::NoRegion)?;
    if from == to {
        return Err(Reason::SameRegion);
    }
    Ok((from, to))
}
