//! The clear: a region's remembered set is emptied once no reference enters the region.
ghost use Rattle.std.specs.Prelude.{◌≡◌, ◌≤◌, ◌<◌, ◌-◌, ◌*◌, ◌∷◌};
ghost use Rattle.g1_core.specs.{ℕ, [], None, IfSome};
ghost use Rattle.g1_core.specs.{IfNone, All, Contains, length, card_count, card_of, PairSet};
ghost use Rattle.g1_core.specs.{list_at, AreTied, table_from, IsLeastOn, AreRead};
ghost use Rattle.std.specs.FinSet as set;

use crate::machinery::Core;
use crate::reply::ClearReply;
use g1_heap::Heap;
use g1_layout::{Card, Layout, Region, Slot};
use g1_sets::Sets;

impl Core {
    ghost use Rattle.g1_core.specs.{IsLater, IsStep, clear_entry, DoesClear};

    /// Empties the remembered set of a region, once nothing is pending and no slot outside the
    /// region refers into it (docs/rules.md, Clear; ISMM 2004, "Evacuation Pauses": the region
    /// was evacuated).
    ///
    /// `Pending` is how many cards are pending, and nothing has changed. `StillReferenced` names
    /// the least slot of the whole heap that lies outside the region and refers into it, and only
    /// the count of reads has changed.
    ///
    /// Takes no memory. It reads each slot of the cards in the region's set at most once, and no
    /// other: a card with a slot that refers into the region is in the set, since cover holds and
    /// nothing is pending.
    pub fn clear(&mut self, region: Region) -> ClearReply
        requires { region < self.old.state.table.layout.regions }
        ensures did { DoesClear region result self.old self.new }
        ensures step { (caller : ℕ)
            → IsStep self.old.state.table (clear_entry caller region result) self.new.state.table }
        ensures later { IsLater self.old self.new }
    {
        if self.memory.pending > 0 {
            return ClearReply::Pending(self.memory.pending);
        }
        if let Some(slot) = least_entering(&mut self.memory.heap, &self.memory.sets, region) {
            return ClearReply::StillReferenced(slot);
        }
        self.memory.sets.clear(region);
        ClearReply::Cleared
    }
}

// The least slot on the cards of the region's set that lies outside the region and refers into it.
// It mostly lies on the card of the least number, which is looked at first: no other card is read
// then.
fn least_entering(heap: &mut Heap, sets: &Sets, region: Region) -> Option<Slot>
    requires region { region < heap.old.layout.regions }
    requires layouts { sets.now.layout ≡ heap.old.layout }
    ensures least { IsLeastOn (table_from heap.old sets.now.pairs)
        (list_at sets.now.lists region) region result }
    ensures tied { AreTied sets.now }
    ensures heap { AreRead heap.old heap.new
        (length (list_at sets.now.lists region) * heap.old.layout.slots) }
{
    let layout = heap.layout();
    let members = sets.members(region);
    let first = first_of(layout, members)?;
    if let Some(slot) = entering_on(heap, first, region) {
        return Some(slot);
    }
    least_after(heap, members, first, region)
}

// The card of the least number, or `None` if there is no card.
#[tactic(auto, using(crate::specs::cases_lt, std::proofs::Common::take_all))]
fn first_of(layout: Layout, cards: &[Card]) -> Option<Card>
    requires { All (λ card. card < card_count layout) cards.now }
    ensures none { IfNone result (length cards.now ≡ 0) }
    ensures among { IfSome result (λ first. Contains cards.now first) }
    ensures least { IfSome result (λ first. All (λ card. first ≤ card) cards.now) }
{
    let mut least = layout.card_count();
    for card in cards {
        least = least.min(card.number());
    }
    layout.card(least)
}

// The same of the cards, if no slot of the first one refers into the region. Cards above the best
// hit so far are skipped; their slots are larger.
fn least_after(heap: &mut Heap, cards: &[Card], first: Card, region: Region) -> Option<Slot>
    requires cards { All (λ card. card < card_count heap.old.layout) cards.now }
    requires region { region < heap.old.layout.regions }
    requires first { Contains cards.now first }
    requires none { (pairs : PairSet)
        → IsLeastOn (table_from heap.old pairs) (first ∷ []) region None }
    ensures least { (pairs : PairSet)
        → IsLeastOn (table_from heap.old pairs) cards.now region result }
    ensures heap { AreRead heap.old heap.new ((length cards.now - 1) * heap.old.layout.slots) }
{
    let layout = heap.layout();
    let mut past = layout.card_count();
    let mut least = None;
    for card in cards {
        if *card != first && card.number() < past {
            if let Some(slot) = entering_on(heap, *card, region) {
                past = card.number();
                least = Some(slot);
            }
        }
    }
    least
}

// The first slot of the card that lies outside the region and refers into it.
fn entering_on(heap: &mut Heap, card: Card, region: Region) -> Option<Slot>
    requires card { card < card_count heap.old.layout }
    requires region { region < heap.old.layout.regions }
    ensures least { (pairs : PairSet)
        → IsLeastOn (table_from heap.old pairs) (card ∷ []) region result }
    ensures on { IfSome result (λ slot. card_of heap.old.layout slot ≡ card) }
    ensures heap { AreRead heap.old heap.new heap.old.layout.slots }
{
    let layout = heap.layout();
    let _reads = heap.reads();
    if layout.region_of_card(card) == region {
        return None;
    }
    let (offset, _) = heap.next_into(card, 0, region)?;
    Some(layout.slot_at(card, offset))
}
