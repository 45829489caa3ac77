//! Several stores by one call.
ghost use Rattle.std.specs.Prelude.{◌≡◌, ◌≤◌};
ghost use Rattle.g1_handles.specs.Prelude.{true, false, length, take, IfOk, OnErr, IfErr};
ghost use Rattle.g1_handles.specs.Prelude.{IfNone, IsSome, MatchOption};
ghost use Rattle.g1_handles.specs.Codes.{IsStoreOf};
ghost use Rattle.g1_handles.specs.Refusals.{AreStoresRefused};
ghost use Rattle.g1_handles.specs.Replies.{made, made_all, cards_of, AreStoresOf, IsFaultAt};

use crate::code::Reason;
use crate::one_core::store::store_of;
use arrayvec::ArrayVec;
use g1_core::Core;
use g1_layout::Card;

/// One store: a slot and its target.
#[repr(C)]
#[derive(Clone, Copy, Debug)]
pub struct Store {
    /// The number of the slot.
    pub slot: u32,
    /// The number of the slot that it is to refer to, or the word for null.
    pub target: u32,
}

/// The stores that were made.
#[derive(Drop)]
pub struct Stored {
    /// The cards of the logged stores, in order.
    pub cards: ArrayVec<Card, 256>,
    /// How many stores were made.
    pub count: usize,
    /// Whether these are all the stores that were given.
    pub is_whole: bool,
}

/// Makes stores in a core in order, up to the first that names a slot or a target that the heap
/// does not have. `room` is the length of the caller's array for their cards.
///
/// Returns `NoRoom` if the array is shorter than the list of stores, or `TooManyCards` for more
/// than 256 stores: nothing has changed. Takes no memory.
pub fn store_all_in(core: &mut Core, stores: &[Store], room: usize) -> Result<Stored, Reason>
    ensures made { IfOk result (λ answer. record {
      machine = core.new;
      cards = answer.cards.items;
    } ≡ made_all core.old (take answer.count stores.now)) }
    ensures within { IfOk result (λ answer.
        AreStoresOf core.old.state.table.layout (take answer.count stores.now)) }
    ensures whole { IfOk result (λ answer. answer.is_whole ≡ true
        → answer.count ≡ length stores.now) }
    ensures stopped { IfOk result (λ answer. answer.is_whole ≡ false
        → IsFaultAt core.old.state.table.layout stores.now answer.count) }
    ensures few { IfOk result (λ answer. (length answer.cards.items ≤ answer.count)
        × (answer.count ≤ 256) × (answer.count ≤ length stores.now)) }
    ensures room { IfOk result (λ answer. length answer.cards.items ≤ room) }
    ensures why { IfErr result (AreStoresRefused (length stores.now) room) }
    ensures refused { OnErr result (core.new ≡ core.old) }
{
    if room < stores.len() {
        return Err(Reason::NoRoom);
    }
    if 256 < stores.len() {
        return Err(Reason::TooManyCards);
    }
    let mut cards: ArrayVec<Card, 256> = ArrayVec::new();
    for i in 0..stores.len() {
        let Some(card) = store_next(core, stores[i]) else {
            return Ok(Stored {
                cards,
                count: i,
                is_whole: false,
            });
        };
        if let Some(card) = card {
            cards.push(card);
        }
    }
    Ok(Stored {
        cards,
        count: stores.len(),
        is_whole: true,
    })
}

/// Makes one store, and returns its card if it is logged. Returns `None` if the heap has no such
/// slot or target.
fn store_next(core: &mut Core, store: Store) -> Option<Option<Card>>
    ensures layout { core.new.state.table.layout ≡ core.old.state.table.layout }
    ensures within { IsSome result → IsStoreOf core.old.state.table.layout store.slot
        store.target }
    ensures none { IfNone result (IsStoreOf core.old.state.table.layout store.slot store.target
        → ⊥) }
    ensures made { MatchOption result (core.new ≡ core.old) (λ card. (cards : _)
        → record {
          machine = core.new;
          cards = cards_of cards card;
        } ≡ made (record { machine = core.old; cards = cards }) store) }
{
    let (slot, target) = store_of(core.layout(), store.slot, store.target).ok()?;
    let (_kind, dirtied) = core.store_unlogged(slot, target);
    Some(dirtied)
}
