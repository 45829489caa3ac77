//! The clear at a pause: it empties a region's remembered set, once no reference enters the region.
ghost use Rattle.std.specs.Prelude.{◌≡◌, ◌+◌, ◌*◌, ◌<◌, ◌≤◌, ◌↔◌};
ghost use Rattle.g1_race.specs.{ℕ, IsTrue, true, IsWholeShape, crosses, region_at, Into};
ghost use Rattle.g1_race.specs.{IsLeastInto, IsLeastOfCard, IsEmptied, ClearsAt, Writes, words_of};
ghost use Rattle.g1_race.specs.{IsClean, reader_race, race_id, heap_of};

use crate::bits::bit_of;
use crate::paused::holds::HoldsRace;
use crate::paused::next::Sought;
use crate::paused::reading::Reader;
use crate::paused::{Paused, Writer};
use crate::race::Race;
use crate::word::is_reference;
use g1_core::ClearReply;
use g1_layout::Region;
use g1_race_words::RaceShape;

impl<R: HoldsRace> Paused<R> {
    /// Empties the remembered set of a region, once no card is dirty and no slot outside the region
    /// refers into it. Takes no memory.
    ///
    /// Returns `Pending` with the number of dirty cards, or `StillReferenced` with the least slot
    /// of the whole heap that lies outside the region and refers into it. Then nothing has changed.
    #[tactic(auto, using(crate::proofs::of_a_pause))]
    pub fn clear(&mut self, region: Region) -> ClearReply
        requires { region < self.old.layout.regions }
        ensures { ClearsAt self.old region result self.new }
    {
        let race = self.race.race();
        let number = region.number() as usize;
        let pending = self.reader.count(race, Sought::Dirty);
        if pending > 0 {
            return ClearReply::Pending(pending as u32);
        }
        if let Some(slot) = self.reader.entering(race, number) {
            let Some(slot) = race.layout.slot(slot as u32) else {
                unreachable!()
            };
            return ClearReply::StillReferenced(slot);
        }
        let reader = &mut self.reader;
        Writer { race, reader }.empty_row(number);
        ClearReply::Cleared
    }
}

impl Reader {
    // The least slot outside the region that refers into it: on a card of the region's set, since
    // no card is dirty.
    fn entering(&mut self, race: &Race, region: usize) -> Option<usize>
        requires reader { reader_race self.old ≡ race_id race.now }
        requires region { region < race.now.shape.regions }
        requires clean { IsClean race.now.shape self.old.start.words }
        ensures least { IsLeastInto race.now.shape self.old.start.words region result }
        ensures same { self.new ≡ self.old }
    {
        self.begun(race);
        let mut from = 0;
        while let Some(card) = self.next_in_row(race, from, race.shape.cards, region) {
            if let Some(slot) = self.entering_on(race, card, region) {
                return Some(slot);
            }
            from = card + 1;
        }
        None
    }

    // The least slot of the card that lies outside the region and refers into it.
    fn entering_on(&mut self, race: &Race, card: usize, region: usize) -> Option<usize>
        requires reader { reader_race self.old ≡ race_id race.now }
        requires card { card < race.now.shape.cards }
        ensures least { IsLeastOfCard race.now.shape self.old.start.words card region result }
        ensures same { self.new ≡ self.old }
    {
        let shape = race.shape;
        for i in 0..shape.size {
            let slot = card * shape.size + i;
            let word = self.see(race, slot);
            if enters(shape, slot, word, region) {
                return Some(slot);
            }
        }
        None
    }
}

impl Writer<'_> {
    // Clears the bits of all pairs of the region, or in the row of flags all flags.
    pub(crate) fn empty_row(&mut self, region: usize)
        requires region { region ≤ (heap_of self.old).regions }
        requires none { (p : ℕ) → Into (heap_of self.old) (words_of self.old) region p → ⊥ }
        requires clean { let heap = heap_of self.old in
            region ≡ heap.regions → IsClean heap (words_of self.old) }
        ensures { Writes self.old self.new
            (λ heap old new. IsEmptied heap old new region heap.row) }
    {
        self.reader.begun(self.race);
        let shape = self.race.shape;
        let (first, _) = bit_of(shape, 0, region);
        for i in 0..shape.row {
            if self.reader.see(self.race, first + i) != 0 {
                self.put(first + i, 0);
            }
        }
    }
}

// Whether a slot with this word lies outside the region and refers into it.
pub(crate) fn enters(shape: RaceShape, slot: usize, word: u64, region: usize) -> bool
    requires shape { IsWholeShape shape }
    ensures { IsTrue result ↔ ((crosses shape slot word ≡ true) × (region_at shape word ≡ region)) }
{
    if !is_reference(word) {
        return false;
    }
    let into = (word as usize - 1) / shape.span;
    if into != region {
        return false;
    }
    slot / shape.span != into
}
