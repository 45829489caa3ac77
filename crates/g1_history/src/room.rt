//! Room for the lists of an entry, which is made before the call, and their copies in it. Where no
//! entries are kept, no room is made and no list is copied.
ghost use Rattle.std.specs.Prelude.{◌≡◌, ◌≤◌};
ghost use Rattle.g1_history.specs.{true, length, IfOk, vec_len, vec_capacity};
ghost use Rattle.std.specs.FinSet as set;

use crate::keeps::Keeps;
use g1_core::{CardList, Core};
use g1_layout::{Card, NoMemory};
use std::alloc::Global;

/// Room for a list of this many cards.
#[inline(always)]
pub(crate) fn list_room<H: Keeps>(alloc: Global, cards: usize) -> Result<Vec<Card>, NoMemory>
    ensures empty { IfOk result (λ room. vec_len room ≡ 0) }
    ensures room { IfOk result (λ room. H.KEEPS ≡ true → cards ≤ vec_capacity room) }
{
    if !H::KEEPS {
        return Ok(Vec::new(alloc));
    }
    let room = Vec::with_capacity(alloc, cards)?;
    Ok(room)
}

/// Room for a list of all cards that are pending.
#[inline(always)]
pub(crate) fn pending_room<H: Keeps>(alloc: Global, core: &Core) -> Result<Vec<Card>, NoMemory>
    ensures empty { IfOk result (λ room. vec_len room ≡ 0) }
    ensures room { IfOk result (λ room. H.KEEPS ≡ true
        → set.len core.now.state.table.pending ≤ vec_capacity room) }
{
    if !H::KEEPS {
        return Ok(Vec::new(alloc));
    }
    let status = core.status();
    let room = Vec::with_capacity(alloc, status.pending as usize)?;
    Ok(room)
}

/// The same cards where entries are kept, in room that was made for them. What they do not need of
/// it is given back.
pub(crate) fn copied<H: Keeps>(mut room: Vec<Card>, cards: &CardList) -> CardList
    requires empty { vec_len room ≡ 0 }
    requires room { H.KEEPS ≡ true → length cards.now ≤ vec_capacity room }
    ensures { H.KEEPS ≡ true → result ≡ cards.now }
{
    if !H::KEEPS {
        return CardList::of(room);
    }
    let Ok(()) = room.extend_from_slice(cards.as_slice()) else {
        unreachable!()
    };
    room.shrink_to_fit();
    CardList::of(room)
}
