//! Refinement.
ghost use Rattle.std.specs.Prelude.{◌≡◌, ◌<◌, ◌≤◌, if◌then◌else◌};
ghost use Rattle.g1_handles.specs.{length, All, IfSome, IfNone, IsSome, card_count};
ghost use Rattle.g1_handles.specs.{IsRefinementRefused, RefinesTo, reply_of, IsMade};

use crate::code::{DONE, Reason, SHORT};
use arrayvec::ArrayVec;
use g1_core::{Core, RefineReply};
use g1_layout::{Card, Layout};
use g1_log::Buffer;

/// The word of a reply: 0, or 1 if it is short.
pub fn reply_word(reply: &RefineReply) -> u32
    requires taken { reply.now.taken ≡ (if reply.now.short then 0 else 1) }
    requires left { reply.now.left ≡ 0 }
    ensures reply { reply.now ≡ reply_of result reply.now.refined reply.now.hot reply.now.skipped }
    ensures few { result ≤ 1 }
{
    if reply.short { SHORT } else { DONE }
}

/// Refines some cards ([`Core::refine`]). `room` is the length of the caller's array for those that
/// were refined.
///
/// Returns `NoRoom` if the array is shorter than the list of cards, `TooManyCards` for more than
/// 256 cards, `NoCard`, or `NoMemory`: nothing has changed.
pub fn refine_in(core: &mut Core, cards: &[u32], room: usize) -> Result<RefineReply, Reason>
    ensures { IsMade core.old result core.new (λ reply. (length reply.refined ≤ room)
        × (length reply.refined ≤ 256) × RefinesTo core.old cards.now reply core.new)
        (IsRefinementRefused core.old.state.table.layout cards.now room) }
{
    if room < cards.len() {
        return Err(Reason::NoRoom);
    }
    if 256 < cards.len() {
        return Err(Reason::TooManyCards);
    }
    let buffer = buffer_of(core.layout(), cards).ok_or(Reason::NoCard)?;
    match core.refine(Some(&buffer)) {
        Ok(reply) => Ok(reply),
        Err(_) => Err(Reason::NoMemory),
    }
}

/// The cards of these numbers, or `None` if the heap lacks one of them.
fn buffer_of(layout: Layout, cards: &[u32]) -> Option<Buffer>
    requires { length cards.now ≤ 256 }
    ensures cards { IfSome result (λ buffer. buffer ≡ cards.now) }
    ensures within { IsSome result → All (λ card. card < card_count layout) cards.now }
    ensures none { IfNone result (All (λ card. card < card_count layout) cards.now → ⊥) }
{
    let mut list: ArrayVec<Card, 256> = ArrayVec::new();
    for i in 0..cards.len() {
        list.push(layout.card(cards[i])?);
    }
    Some(Buffer::of(list))
}
