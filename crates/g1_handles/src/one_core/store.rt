//! Stores.
ghost use Rattle.std.specs.Prelude.{◌≡◌, ◌<◌};
ghost use Rattle.g1_handles.specs.{IfSome, IfNone, IfOk, IfErr, IsOk, slot_count, reference_of};
ghost use Rattle.g1_handles.specs.{IsStoreOf, StoresTo, LacksPlace, IsMade};

use crate::code::{NULL, Reason};
use g1_core::Core;
use g1_layout::{Kind, Layout, Slot};

/// Stores a target into a slot of a core. Returns the kind of the store, or `NoSlot` for the slot
/// or the target: nothing has changed.
#[inline(always)]
pub fn store_in(core: &mut Core, slot: u32, target: u32) -> Result<Kind, Reason>
    ensures { IsMade core.old result core.new
        (λ kind. StoresTo core.old slot (reference_of target) kind core.new)
        (LacksPlace core.old.state.table.layout slot target) }
{
    let (slot, target) = store_of(core.layout(), slot, target)?;
    let (kind, _dirtied) = core.store_unlogged(slot, target);
    Ok(kind)
}

/// Returns the slot and the target of a store, or `NoSlot` if the heap lacks one of them.
#[inline(always)]
pub(crate) fn store_of(
    layout: Layout,
    slot: u32,
    target: u32,
) -> Result<(Slot, Option<Slot>), Reason>
    ensures store { IfOk result (λ store. (store.0 ≡ slot) × (store.1 ≡ reference_of target)) }
    ensures within { IsOk result → IsStoreOf layout slot target }
    ensures why { IfErr result (LacksPlace layout slot target) }
{
    let Some(slot) = layout.slot(slot) else {
        return Err(Reason::NoSlot);
    };
    let Some(target) = reference(layout, target) else {
        return Err(Reason::NoSlot);
    };
    Ok((slot, target))
}

/// The reference of a word, or `None` if the heap has no such slot.
pub(crate) fn reference(layout: Layout, word: u32) -> Option<Option<Slot>>
    ensures value { IfSome result (λ target. target ≡ reference_of word) }
    ensures within { IfSome result (λ target. IfSome target (λ place. place < slot_count layout)) }
    ensures none { IfNone result (IfSome (reference_of word) (λ place. place < slot_count layout)
        → ⊥) }
{
    if word == NULL {
        return Some(None);
    }
    let slot = layout.slot(word)?;
    Some(Some(slot))
}
