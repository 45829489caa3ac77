//! The pause.
ghost use Rattle.g1_handles.specs.{drain_cards, drain_refined, IsDrainRefused, DrainsTo, FitIn};
ghost use Rattle.g1_handles.specs.{IsMade};

use crate::code::Reason;
use g1_core::{Core, Drained};

/// Drains a region ([`Core::drain`]). `room` and `refined_room` are the lengths of the caller's two
/// arrays: for the remembered set, and for the cards that were refined.
///
/// Returns `NoRegion`, `NoRoom` if an array is shorter than the heap has cards, or `NoMemory`:
/// nothing has changed.
#[tactic(auto, using(crate::proofs::few_refined, crate::proofs::fits_words))]
pub fn drain_in(
    core: &mut Core,
    region: u32,
    room: usize,
    refined_room: usize,
) -> Result<Drained, Reason>
    ensures { IsMade core.old result core.new (λ answer. FitIn room (drain_cards answer)
        × FitIn refined_room (drain_refined answer) × DrainsTo core.old region answer core.new)
        (IsDrainRefused core.old.state.table.layout region room refined_room) }
{
    let layout = core.layout();
    let region = layout.region(region).ok_or(Reason::NoRegion)?;
    let most = layout.card_count() as usize;
    if room < most {
        return Err(Reason::NoRoom);
    }
    if refined_room < most {
        return Err(Reason::NoRoom);
    }
    match core.drain(region) {
        Ok(answer) => Ok(answer),
        Err(_) => Err(Reason::NoMemory),
    }
}
