//! The redirect: the references into a region are moved to another one, and its remembered set is
//! emptied.
ghost use Rattle.std.specs.Prelude.{◌≡◌, ◌≢◌, ◌<◌, ◌+◌, ◌*◌, ◌++◌};
ghost use Rattle.g1_core.specs.Prelude.{ℕ, All, IfOk, OnOk};
ghost use Rattle.g1_core.specs.Prelude.{OnErr, length, slot_count, card_count, list_at};
ghost use Rattle.g1_core.specs.Prelude.{AreTied};
ghost use Rattle.std.specs.FinSet as set;
ghost use Rattle.g1_core.specs.Clearing.{AreRead};
ghost use Rattle.g1_core.specs.Redirect.{changes_of, slots_of, slots_on, changed, AreGaining};

use crate::list::CardList;
use crate::machinery::Core;
use crate::reply::Redirected;
use g1_heap::Heap;
use g1_layout::{Card, NoMemory, Region, Slot};
use g1_sets::Sets;
use std::alloc::Global;

// A slot, and the place that it will refer to.
#[derive(Clone, Copy, Debug)]
pub(crate) struct Change {
    slot: Slot,
    place: Slot,
}

// What a redirect changes: references, and the cards that are then recorded for the other region.
#[derive(Drop)]
struct Changes {
    references: Vec<Change>,
    cards: Vec<Card>,
}

// Adds the changes of a card's slots, ascending.
#[tactic(auto, using(crate::proofs::EnteringLemmas::changes_own))]
fn add_changes_on(
    heap: &mut Heap,
    card: Card,
    from: Region,
    to: Region,
    changes: &mut Vec<Change>,
) -> Result<(), NoMemory>
    requires card { card < card_count heap.old.layout }
    requires from { from < heap.old.layout.regions }
    requires to { to < heap.old.layout.regions }
    ensures changes { OnOk result
        (changes.new.items ≡ changes.old.items ++ changes_of heap.old.layout heap.old.refs from to
        (slots_of heap.old.layout card)) }
    ensures heap { AreRead heap.old heap.new heap.old.layout.slots }
{
    let layout = heap.layout();
    let _reads = heap.reads();
    if layout.region_of_card(card) == from {
        return Ok(());
    }
    let mut offset = 0;
    while let Some(next) = heap.next_into(card, offset, from) {
        let slot = layout.slot_at(card, next.0);
        let place = layout.same_offset(next.1, to);
        changes.push(Change { slot, place })?;
        offset = next.0 + 1;
    }
    Ok(())
}

// The changes of the slots of a region's members, and the members that gain a reference into the
// other region.
fn changes_into(
    alloc: Global,
    heap: &mut Heap,
    sets: &Sets,
    from: Region,
    to: Region,
) -> Result<Changes, NoMemory>
    requires from { from < heap.old.layout.regions }
    requires to { to < heap.old.layout.regions }
    requires layouts { sets.now.layout ≡ heap.old.layout }
    ensures references { IfOk result (λ changes.
        changes.references.items ≡ changes_of heap.old.layout heap.old.refs from to
        (slots_on heap.old.layout (list_at sets.now.lists from))) }
    ensures cards { IfOk result (λ changes.
        AreGaining heap.old.layout heap.old.refs from to
        (list_at sets.now.lists from) changes.cards.items) }
    ensures within { IfOk result (λ changes.
        All (λ card. card < card_count heap.old.layout) changes.cards.items) }
    ensures tied { AreTied sets.now }
    ensures heap { AreRead heap.old heap.new
        (length (list_at sets.now.lists from) * heap.old.layout.slots) }
{
    let layout = heap.layout();
    let members = sets.len(from);
    let mut references = Vec::with_capacity(alloc, members as usize)?;
    let mut cards = Vec::with_capacity(alloc, members as usize)?;
    for index in 0..members {
        let card = sets.at(from, index);
        let before = references.len();
        add_changes_on(heap, card, from, to, &mut references)?;
        if references.len() > before && layout.region_of_card(card) != to {
            cards.push(card)?;
        }
    }
    Ok(Changes { references, cards })
}

// Makes the changes.
fn make_changes(heap: &mut Heap, changes: &[Change])
    requires slots { All (λ change. change.slot < slot_count heap.old.layout) changes.now }
    requires places { All (λ change. change.place < slot_count heap.old.layout) changes.now }
    ensures { heap.new ≡ record {
      layout = heap.old.layout;
      refs = changed heap.old.refs changes.now;
      marks = heap.old.marks;
      reads = heap.old.reads;
    } }
{
    for change in changes {
        heap.set(change.slot, Some(change.place));
    }
}

impl Core {
    ghost use Rattle.g1_core.specs.{moved_count, IsLater, IsStep, redirect_entry, DoesRedirect};
    ghost use Rattle.g1_core.specs.{IsMoved, AreMembersRead};

    // Moves every reference into a region, where nothing is pending, and returns how many slots
    // changed. The room for the changes and for the cards that they record is made first: if it is
    // refused, the members were only read.
    #[tactic(auto, using(crate::proofs::RedirectLemmas::members_core))]
    fn move_references(&mut self, from: Region, to: Region) -> Result<u32, NoMemory>
        requires from { from < self.old.state.table.layout.regions }
        requires to { to < self.old.state.table.layout.regions }
        requires apart { from ≢ to }
        requires nothing { self.old.state.table.pending ≡ set.empty }
        ensures count { IfOk result (λ slots. slots ≡ moved_count from self.old.state.table) }
        ensures moved { IfOk result (λ slots. IsMoved self.old from to slots self.new) }
        ensures err { OnErr result (AreMembersRead self.old from self.new) }
    {
        let changes = changes_into(
            self.alloc,
            &mut self.memory.heap,
            &self.memory.sets,
            from,
            to,
        )?;
        self.memory.sets.record_many(changes.cards.as_slice(), to)?;
        make_changes(&mut self.memory.heap, changes.references.as_slice());
        self.memory.sets.clear(from);
        Ok(changes.references.len() as u32)
    }

    /// Moves the references into the region `from` to the same offsets of the region `to`, and
    /// empties the remembered set of `from` (docs/rules.md, Redirect; ISMM 2004, "Evacuation
    /// Pauses": the objects of a region were copied).
    ///
    /// All that is pending is refined first, as by a drain. Then each slot outside `from` that
    /// refers into `from` refers to the same offset of `to` instead, and its card is recorded for
    /// `to` if it lies outside `to`. Slots inside `from` stay. `Moved` says how many slots changed;
    /// every count is 0 then.
    ///
    /// Returns `NoMemory` if the room for the list of refined cards was refused: nothing has
    /// changed. Returns `Short` if a later growth was refused: just the listed cards were refined,
    /// no slot has changed, no set was emptied, and the counts have not changed.
    ///
    /// It reads at most the slots of each card that it refines and of each card in the set of
    /// `from`, once. A short redirect reads at most one card more.
    pub fn redirect(&mut self, from: Region, to: Region) -> Result<Redirected, NoMemory>
        requires from { from < self.old.state.table.layout.regions }
        requires to { to < self.old.state.table.layout.regions }
        requires apart { from ≢ to }
        ensures did { IfOk result (λ answer. DoesRedirect from to answer self.old self.new) }
        ensures step { IfOk result (λ answer. (caller : ℕ)
            → IsStep self.old.state.table (redirect_entry caller from to answer)
            self.new.state.table) }
        ensures err { OnErr result (self.new ≡ self.old) }
        ensures later { IsLater self.old self.new }
    {
        let _layout = self.layout();
        let _reads = self.reads();
        let mut refined = self.room_for_pending()?;
        let Ok(()) = self.drain_pending(&mut refined) else {
            let _after = self.layout();
            let refined = CardList::of(refined);
            return Ok(Redirected::Short { refined });
        };
        let Ok(slots) = self.move_references(from, to) else {
            let _after = self.layout();
            let refined = CardList::of(refined);
            return Ok(Redirected::Short { refined });
        };
        self.reset_counts();
        let _after = self.layout();
        let refined = CardList::of(refined);
        Ok(Redirected::Moved { slots, refined })
    }
}
