//! Queries: what a slot refers to, whether a card is pending, and how much is pending and recorded.
ghost use Rattle.std.specs.Prelude.{◌≡◌, ◌<◌};
ghost use Rattle.g1_handles.specs.{IfOk, IfErr, IfSome, slot_count, reference_of, RefersTo};
ghost use Rattle.g1_handles.specs.{TellsPending, TellsStatus, LacksCard, LacksSlot, IsMade};

use crate::code::{NULL, Reason};
use g1_core::{Core, Status};
use g1_layout::{Layout, Slot};

/// Returns the word of what a slot of a core refers to, or `NoSlot`: nothing has changed.
pub fn target_in(core: &mut Core, slot: u32) -> Result<u32, Reason>
    ensures { IsMade core.old result core.new (λ word. RefersTo core.old slot (reference_of word)
        core.new) (LacksSlot core.old.state.table.layout slot) }
{
    let layout = core.layout();
    let slot = layout.slot(slot).ok_or(Reason::NoSlot)?;
    Ok(reference_word(layout, core.target(slot)))
}

/// The word of a reference.
pub(crate) fn reference_word(layout: Layout, target: Option<Slot>) -> u32
    requires { IfSome target (λ place. place < slot_count layout) }
    ensures { reference_of result ≡ target }
{
    let _limit = layout.slot_count();
    match target {
        None => NULL,
        Some(place) => place.number(),
    }
}

/// Returns whether a card of a core is pending, or `NoCard`.
pub fn is_pending_in(core: &Core, card: u32) -> Result<bool, Reason>
    ensures pending { IfOk result (TellsPending core.now.state.table card) }
    ensures why { IfErr result (LacksCard core.now.state.table.layout card) }
{
    let card = core.layout().card(card).ok_or(Reason::NoCard)?;
    Ok(core.is_pending(card))
}

/// Returns how much is pending and recorded in a core.
pub fn status_in(core: &Core) -> Status
    ensures { TellsStatus core.now.state.table result }
{
    core.status()
}
