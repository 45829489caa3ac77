//! The pause: what is still pending is refined, and then a remembered set is relied on.
ghost use Rattle.std.specs.Prelude.{◌≡◌, ◌<◌, ◌≤◌, ◌+◌};
ghost use Rattle.g1_core.specs.{[], ℕ, true, false, length};
ghost use Rattle.g1_core.specs.{slice_get, IfOk, OnOk, OnErr, IfSome, IfNone, Some};
ghost use Rattle.g1_core.specs.{nat_lt, vec_len, vec_capacity, card_count};
ghost use Rattle.std.specs.FinSet as set;

use crate::list::CardList;
use crate::machinery::Core;
use crate::reply::Drained;
use g1_layout::{Card, NoMemory, Region};

impl Core {
    ghost use Rattle.g1_core.specs.{popped, IsLater, IsStep, is_dirty, drain_entry};
    ghost use Rattle.g1_core.specs.{DoesDrain, IsShortDrain, IsRingDrained};
    ghost use Rattle.g1_core.specs.{IsCardDrained, IsCardRead, IsDirtyDrained, IsDirtyStopped};
    ghost use Rattle.g1_core.specs.{IsAllDrained, reset_machine};

    /// Refines the oldest card of the ring, which leaves it; nothing is counted.
    fn drain_oldest(&mut self) -> Result<Card, NoMemory>
        requires { 0 < length self.old.state.ring.cards }
        ensures card { IfOk result (λ card. slice_get self.old.state.ring.cards 0 ≡ Some card) }
        ensures ok { IfOk result (λ card.
            IsCardDrained self.old card (popped self.old.state.ring) self.new) }
        ensures err { OnErr result (IsCardRead self.old self.new) }
    {
        let Some(card) = self.hot.oldest() else {
            unreachable!();
        };
        self.memory.refine(card)?;
        let _ = self.hot.pop_oldest();
        Ok(card)
    }

    /// Refines a dirty card; nothing is counted.
    fn drain_card(&mut self, card: Card) -> Result<(), NoMemory>
        requires { is_dirty self.old.state card ≡ true }
        ensures ok { OnOk result (IsCardDrained self.old card self.old.state.ring self.new) }
        ensures err { OnErr result (IsCardRead self.old self.new) }
    {
        self.memory.refine(card)?;
        Ok(())
    }

    /// The first dirty card at or after a number.
    fn next_dirty(&self, from: u32) -> Option<Card>
        requires { from ≤ card_count self.now.state.table.layout }
        ensures none { IfNone result ((card : ℕ) → from ≤ card
            → is_dirty self.now.state card ≡ false) }
        ensures dirty { IfSome result (λ card. is_dirty self.now.state card ≡ true) }
        ensures within { IfSome result (λ card.
            (from ≤ card) × (card < card_count self.now.state.table.layout)) }
        ensures first { IfSome result (λ card. (earlier : ℕ) → from ≤ earlier → earlier < card
            → is_dirty self.now.state earlier ≡ false) }
    {
        if self.memory.pending == 0 {
            return None;
        }
        self.memory.heap.next_dirty(from)
    }

    /// Refines the cards of the ring, oldest first, and lists them.
    fn drain_ring(&mut self, refined: &mut Vec<Card>) -> Result<(), NoMemory>
        requires empty { refined.old.items ≡ [] }
        requires room { set.len self.old.state.table.pending ≤ vec_capacity refined.old }
        ensures ok { OnOk result (IsRingDrained self.old refined.new.items
            (length refined.new.items) self.new) }
        ensures whole { OnOk result (self.new.state.ring.cards ≡ []) }
        ensures err { OnErr result
            (IsRingDrained self.old refined.new.items (length refined.new.items + 1) self.new) }
        ensures room { vec_len refined.new + set.len self.new.state.table.pending
            ≤ vec_capacity refined.new }
    {
        let _reads = self.reads();
        while self.has_held() {
            let card = self.drain_oldest()?;
            refined.push_reserved(card);
        }
        Ok(())
    }

    /// Refines the dirty cards, ascending, and lists them after those that are there.
    #[tactic(auto, using(crate::proofs::DrainLemmas::dirty_none))]
    fn drain_dirty(&mut self, refined: &mut Vec<Card>) -> Result<(), NoMemory>
        requires room { vec_len refined.old + set.len self.old.state.table.pending
            ≤ vec_capacity refined.old }
        ensures ok { OnOk result ((bound : ℕ)
            × IsDirtyDrained self.old refined.old.items refined.new.items bound self.new) }
        ensures whole { OnOk result ((card : ℕ) → is_dirty self.new.state card ≡ false) }
        ensures err { OnErr result
            (IsDirtyStopped self.old refined.old.items refined.new.items self.new) }
    {
        let _reads = self.reads();
        let _layout = self.layout();
        let mut from = 0;
        while let Some(card) = self.next_dirty(from) {
            self.drain_card(card)?;
            refined.push_reserved(card);
            from = card.number() + 1;
        }
        Ok(())
    }

    /// An empty list with room for every pending card.
    pub(crate) fn room_for_pending(&self) -> Result<Vec<Card>, NoMemory>
        ensures empty { IfOk result (λ room. room.items ≡ []) }
        ensures room { IfOk result (λ room.
            set.len self.now.state.table.pending ≤ vec_capacity room) }
    {
        let room = Vec::with_capacity(self.alloc, self.memory.pending as usize)?;
        Ok(room)
    }

    /// Refines all that is pending, in the order of a drain, and lists it; the counts stay.
    pub(crate) fn drain_pending(&mut self, refined: &mut Vec<Card>) -> Result<(), NoMemory>
        requires empty { refined.old.items ≡ [] }
        requires room { set.len self.old.state.table.pending ≤ vec_capacity refined.old }
        ensures ok { OnOk result (IsAllDrained self.old refined.new.items self.new) }
        ensures err { OnErr result (IsShortDrain self.old refined.new.items self.new) }
    {
        self.drain_ring(refined)?;
        self.drain_dirty(refined)?;
        Ok(())
    }

    /// Sets every count to 0.
    pub(crate) fn reset_counts(&mut self)
        ensures { self.new ≡ reset_machine self.old }
    {
        self.hot.reset_counts();
    }

    /// Refines all that is pending, and returns the remembered set of a region (docs/rules.md,
    /// The pause).
    ///
    /// The cards of the hot ring are refined first, oldest first, and then the dirty cards,
    /// ascending. Nothing is counted. A whole drain returns the set of the region, ascending, each
    /// card once, and sets every count to 0. The count of reads rises by the slots of the cards
    /// that it refines.
    ///
    /// Returns `NoMemory` if the room for the list of refined cards was refused: nothing has
    /// changed. Returns `Short` if a later growth was refused: just the listed cards were refined,
    /// the others are pending as before, the counts have not changed, and at most one card more was
    /// read.
    pub fn drain(&mut self, region: Region) -> Result<Drained, NoMemory>
        requires { region < self.old.state.table.layout.regions }
        ensures did { IfOk result (λ answer. DoesDrain region answer self.old self.new) }
        ensures step { IfOk result (λ answer. (caller : ℕ)
            → IsStep self.old.state.table (drain_entry caller region answer) self.new.state.table) }
        ensures err { OnErr result (self.new ≡ self.old) }
        ensures later { IsLater self.old self.new }
    {
        let _layout = self.layout();
        let _reads = self.reads();
        let mut refined = self.room_for_pending()?;
        let Ok(()) = self.drain_pending(&mut refined) else {
            let _after = self.layout();
            let refined = CardList::of(refined);
            return Ok(Drained::Short { refined });
        };
        let Ok(cards) = self.members(region) else {
            let _after = self.layout();
            let refined = CardList::of(refined);
            return Ok(Drained::Short { refined });
        };
        self.reset_counts();
        let _after = self.layout();
        let refined = CardList::of(refined);
        Ok(Drained::Cards { cards, refined })
    }

    /// Whether a card is in the ring.
    fn has_held(&self) -> bool
        ensures { result ≡ nat_lt 0 (length self.now.state.ring.cards) }
    {
        0 < self.hot.len()
    }
}
