//! Checks of a core for a debug build.
ghost use Rattle.g1_handles.specs.Prelude.{length};
ghost use Rattle.g1_handles.specs.Queries.{Checks};
ghost use Rattle.g1_handles.specs.Refusals.{LacksRanges};
ghost use Rattle.g1_handles.specs.Codes.{IsMade};

use crate::code::{NULL, Reason};
use crate::one_core::copy::has_slots;
use crate::one_core::queries::reference_word;
use g1_core::Core;

/// What a check found: the numbers of slots, or the word for null where there is none.
#[derive(Clone, Copy)]
pub struct Findings {
    /// The least slot that refers to something else than memory does.
    pub differing: u32,
    /// The least slot that refers into another region from a card that is neither pending nor
    /// recorded for that region.
    pub missing: u32,
}

/// A check that finds nothing.
pub(crate) const NOTHING: Findings = Findings {
    differing: NULL,
    missing: NULL,
};

/// Checks a core against the references that a runtime's memory has from a slot on, as many as are
/// given, and the cards of `count` slots from there. Returns `NoSlot` if one of the two ranges
/// leaves the heap: nothing has changed.
pub fn verify_in(
    core: &mut Core,
    first: u32,
    count: u32,
    memory: &[u32],
) -> Result<Findings, Reason>
    ensures { IsMade core.old result core.new (λ f.
        Checks core.old first count memory.now f.differing f.missing core.new)
        (LacksRanges core.old.state.table.layout first count first (length memory.now)) }
{
    let layout = core.layout();
    let _reads = core.reads();
    if !has_slots(layout, first, count as usize) || !has_slots(layout, first, memory.len()) {
        return Err(Reason::NoSlot);
    }
    // Only an empty range begins behind the last slot.
    let Some(from) = layout.slot(first) else {
        return Ok(NOTHING);
    };
    let differing = reference_word(layout, core.first_differing(from, memory));
    let missing = reference_word(layout, core.first_missing(from, count));
    Ok(Findings { differing, missing })
}
