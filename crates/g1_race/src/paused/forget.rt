//! A region is freed: its cards are removed from all remembered sets.
ghost use Rattle.std.specs.Prelude.{◌≡◌, ◌≢◌, ◌+◌, ◌*◌, ◌<◌, ◌≤◌};
ghost use Rattle.g1_race.specs.{ℕ, true, some, get_elem?, region_of, Crosses, IsPair, slot_card};
ghost use Rattle.g1_race.specs.{crosses, region_at, table_at, AreUnset, Forgets, Writes, words_of};
ghost use Rattle.g1_race.specs.{heap_of};

use crate::bits::bit_of;
use crate::paused::holds::HoldsRace;
use crate::paused::{Paused, Writer};
use g1_layout::Region;

impl<R: HoldsRace> Paused<R> {
    /// Removes the region's cards from the remembered sets of all regions. No slot of the region
    /// may refer out of it, as after [`Paused::wipe`]. Later drains then return no card of the
    /// region until one is stored to.
    ///
    /// Reads, in each region's row, the words with the bits of the region's cards, and at most two
    /// words more for each bit that it clears. Takes no memory.
    #[tactic(auto, using(crate::proofs::front_words, crate::proofs::lent_view))]
    pub fn forget(&mut self, region: Region)
        requires region { region < self.old.layout.regions }
        requires closed { (slot place : ℕ) → Crosses (table_at self.old) slot place
            → region_of self.old.layout slot ≢ region }
        ensures { Forgets self.old region self.new }
    {
        let (race, reader) = (self.race.race(), &mut self.reader);
        let cards = race.shape.cards / race.shape.regions;
        let first = region.number() as usize * cards;
        Writer { race, reader }.forget_cards(first, first + cards);
    }
}

impl Writer<'_> {
    // Clears the bits of the cards at or after `first` and before `end`, in the row of each region.
    #[tactic(auto, using(crate::proofs::slot_back))]
    fn forget_cards(&mut self, first: usize, end: usize)
        requires within { (first ≤ end) × (end ≤ (heap_of self.old).cards) }
        requires closed { let heap = heap_of self.old in (p n : ℕ) → p < heap.slots
            → get_elem? (words_of self.old) p ≡ some n → crosses heap p n ≡ true
            → first ≤ slot_card heap p → slot_card heap p < end → ⊥ }
        ensures { Writes self.old self.new (λ heap old new.
            AreUnset heap old new (λ x. (first ≤ x.0) × (x.0 < end))) }
    {
        self.reader.begun(self.race);
        for region in 0..self.race.shape.regions {
            self.forget_row(first, end, region);
        }
    }

    // Clears the bits of these cards in the row of a region.
    #[tactic(auto, using(crate::proofs::row_on, crate::proofs::row_past, crate::proofs::slot_back))]
    fn forget_row(&mut self, first: usize, end: usize, region: usize)
        requires within { (first ≤ end) × (end ≤ (heap_of self.old).cards) }
        requires region { region < (heap_of self.old).regions }
        requires closed { let heap = heap_of self.old in (p n : ℕ) → p < heap.slots
            → get_elem? (words_of self.old) p ≡ some n → crosses heap p n ≡ true
            → first ≤ slot_card heap p → slot_card heap p < end → ⊥ }
        ensures { Writes self.old self.new (λ heap old new.
            AreUnset heap old new (λ x. (x.1 ≡ region) × (first ≤ x.0) × (x.0 < end))) }
    {
        let race = self.race;
        self.reader.begun(race);
        let mut from = first;
        while let Some(card) = self.reader.next_in_row(race, from, end, region) {
            self.clear_bit(card, region);
            from = card + 1;
        }
    }

    // Clears the bit of a pair.
    fn clear_bit(&mut self, card: usize, region: usize)
        requires pair { IsPair (heap_of self.old) (card, region) }
        requires closed { let heap = heap_of self.old in (p n : ℕ) → p < heap.slots
            → get_elem? (words_of self.old) p ≡ some n → crosses heap p n ≡ true
            → card ≡ slot_card heap p → region ≡ region_at heap n → ⊥ }
        ensures { Writes self.old self.new (λ heap old new.
            AreUnset heap old new (λ x. x ≡ (card, region))) }
    {
        let (at, index) = bit_of(self.race.shape, card, region);
        let found = self.reader.see(self.race, at);
        self.put(at, found & !(1 << index));
    }
}
