//! The write barrier: what a reference store does to the card table and to its mutator's log.
ghost use Rattle.std.specs.Prelude.{◌≡◌, ◌<◌};
ghost use Rattle.g1_core.specs.{ℕ, [], false, IfSome, IsNone, slot_count};
ghost use Rattle.g1_core.specs.{card_count, card_of, pushed, handed, fill_of, logged_card};

use crate::list::CardList;
use crate::machinery::Core;
use crate::reply::{Fill, StoreReply};
use g1_heap::Mark;
use g1_layout::{Card, Kind, Slot};
use g1_log::{Buffer, Log};
use std::alloc::Global;

impl Core {
    ghost use Rattle.g1_core.specs.{IsLater, kind_of, IsStep, unfilled, store_entry, DoesStore};
    ghost use Rattle.g1_core.specs.{IsLent};

    /// What kind of store it is, and the card that a logged one dirties.
    #[tactic(auto, using(crate::proofs::of_a_mark))]
    fn kind(&self, slot: Slot, target: &Option<Slot>) -> (Kind, Option<Card>)
        requires slot { slot < slot_count self.now.state.table.layout }
        requires target { IfSome target.now (λ place.
            place < slot_count self.now.state.table.layout) }
        ensures kind { result.0 ≡ kind_of self.now.state.table slot target.now }
        ensures dirtied { result.1
            ≡ logged_card result.0 (card_of self.now.state.table.layout slot) }
        ensures within { IfSome result.1 (λ card. card < card_count self.now.state.table.layout) }
    {
        let Some(place) = *target else {
            return (Kind::Null, None);
        };
        let layout = self.memory.heap.layout();
        if layout.region_of(slot) == layout.region_of(place) {
            return (Kind::SameRegion, None);
        }
        let card = layout.card_of(slot);
        match self.memory.heap.mark(card) {
            Mark::Clean => return (Kind::Logged, Some(card)),
            Mark::Dirty => return (Kind::AlreadyDirty, None),
            Mark::Held => return (Kind::AlreadyDirty, None),
        }
    }

    /// Stores a reference, or null, into a slot: the write barrier (ISMM 2004, section 2.2;
    /// docs/rules.md, The barrier).
    ///
    /// The slot gets the target. If the store crosses regions and the slot's card is clean, the
    /// card becomes dirty and goes last into the mutator's log (kind `Logged`). Every other store
    /// leaves the log alone. If the card fills the log, `fill` is `Full`, the cards of the log are
    /// returned as a completed buffer, and the log is empty. The caller decides what becomes of the
    /// buffer: the marks alone say which of its cards are pending.
    ///
    /// The call refines nothing, takes no memory, reads no slot, and takes constant time: a
    /// filtered store looks at one mark at most. To return a buffer moves 1,032 bytes.
    pub fn store(
        &mut self,
        log: &mut Log,
        slot: Slot,
        target: Option<Slot>,
    ) -> (StoreReply, Option<Buffer>)
        requires slot { slot < slot_count self.old.state.table.layout }
        requires target { IfSome target (λ place. place < slot_count self.old.state.table.layout) }
        ensures did { DoesStore slot target result.0 self.old self.new }
        ensures lent { IsLent (card_of self.old.state.table.layout slot) result.0
            log.old log.new result.1 }
        ensures step { (caller : ℕ)
            → IsStep self.old.state.table (store_entry caller slot target result.0)
            self.new.state.table }
        ensures later { IsLater self.old self.new }
    {
        let (kind, dirtied) = self.store_unlogged(slot, target);
        let Some(card) = dirtied else {
            return (plain_reply(self.alloc, kind, Fill::No), None);
        };
        // A place for `store_into` would be filled with zeros at every store.
        let Some(buffer) = log.push(card) else {
            return (plain_reply(self.alloc, kind, Fill::No), None);
        };
        (plain_reply(self.alloc, kind, Fill::Full), Some(buffer))
    }

    /// Makes the same store as `store`, and puts a completed buffer into the place that the caller
    /// lends for it, instead of returning it (docs/rules.md, The barrier).
    ///
    /// The place is empty before the call, so no buffer is lost. After it, `completed` has the
    /// buffer if `fill` is `Full`, and is empty otherwise. A store that fills no log moves no
    /// buffer.
    #[inline(always)]
    pub fn store_into(
        &mut self,
        log: &mut Log,
        completed: &mut Option<Buffer>,
        slot: Slot,
        target: Option<Slot>,
    ) -> StoreReply
        requires empty { IsNone completed.old }
        requires slot { slot < slot_count self.old.state.table.layout }
        requires target { IfSome target (λ place. place < slot_count self.old.state.table.layout) }
        ensures did { DoesStore slot target result self.old self.new }
        ensures lent { IsLent (card_of self.old.state.table.layout slot) result
            log.old log.new completed.new }
        ensures step { (caller : ℕ)
            → IsStep self.old.state.table (store_entry caller slot target result)
            self.new.state.table }
        ensures later { IsLater self.old self.new }
    {
        let (kind, dirtied) = self.store_unlogged(slot, target);
        let Some(card) = dirtied else {
            return plain_reply(self.alloc, kind, Fill::No);
        };
        let fill = push_into(log, completed, card);
        plain_reply(self.alloc, kind, fill)
    }

    /// Makes the same store as `store` without a log, for a runtime that keeps the cards itself: a
    /// logged store returns its card, which is dirty then, and every other `None` (docs/rules.md,
    /// The barrier).
    ///
    /// The marks alone say which cards are pending, so a card that the runtime forgets is still
    /// refined by the next pause. The call takes no memory, reads no slot, and takes constant time.
    #[inline(always)]
    pub fn store_unlogged(&mut self, slot: Slot, target: Option<Slot>) -> (Kind, Option<Card>)
        requires slot { slot < slot_count self.old.state.table.layout }
        requires target { IfSome target (λ place. place < slot_count self.old.state.table.layout) }
        ensures did { DoesStore slot target (unfilled result.0) self.old self.new }
        ensures dirtied { result.1
            ≡ logged_card result.0 (card_of self.old.state.table.layout slot) }
        ensures step { (caller : ℕ)
            → IsStep self.old.state.table (store_entry caller slot target (unfilled result.0))
            self.new.state.table }
        ensures later { IsLater self.old self.new }
    {
        let (kind, dirtied) = self.kind(slot, &target);
        let Some(card) = dirtied else {
            self.memory.heap.set(slot, target);
            return (kind, None);
        };
        // (first, since behind the slot's write where the marks lie would be read again)
        self.memory.heap.set_mark(card, Mark::Dirty);
        self.memory.heap.set(slot, target);
        self.memory.pending += 1;
        (kind, Some(card))
    }
}

/// Appends a card to the log. If that fills the log, its cards go into the place.
#[inline(always)]
fn push_into(log: &mut Log, completed: &mut Option<Buffer>, card: Card) -> Fill
    requires empty { IsNone completed.old }
    ensures fill { result ≡ fill_of completed.new }
    ensures log { log.new ≡ pushed log.old card }
    ensures buffer { completed.new ≡ handed log.old card }
{
    if log.has_room() {
        log.add(card);
        return Fill::No;
    }
    *completed = log.push(card);
    Fill::Full
}

/// The reply of a store, which refines nothing.
fn plain_reply(alloc: Global, kind: Kind, fill: Fill) -> StoreReply
    ensures kind { result.kind ≡ kind }
    ensures fill { result.fill ≡ fill }
    ensures refined { result.refined ≡ [] }
    ensures short { result.short ≡ false }
{
    StoreReply {
        kind,
        fill,
        refined: CardList::new(alloc),
        short: false,
    }
}
