//! A region is freed: its slots are nulled.
ghost use Rattle.std.specs.Prelude.{◌≡◌, ◌⊎◌, ◌+◌, ◌*◌, ◌<◌, ◌≤◌};
ghost use Rattle.g1_race.specs.{ℕ, slice_set, some, get_elem?, wiped, table_read, Wipes, Writes};
ghost use Rattle.g1_race.specs.{IsBegun, started, word_count, words_of, heap_of, RaisesOnly};

use crate::paused::holds::HoldsRace;
use crate::paused::{Paused, Writer};
use g1_layout::Region;

impl<R: HoldsRace> Paused<R> {
    /// Stores null into each slot of the region, ascending, also where it has data. It reads a slot
    /// that is null, and does not write it. Takes no memory.
    #[tactic(auto, using(crate::proofs::wiped_words, crate::proofs::lent_view))]
    pub fn wipe(&mut self, region: Region)
        requires { region < self.old.layout.regions }
        ensures { Wipes self.old region self.new }
    {
        let (race, reader) = (self.race.race(), &mut self.reader);
        Writer { race, reader }.wipe_slots(region.number() as usize);
    }
}

impl Writer<'_> {
    // Stores null into each slot of the region.
    fn wipe_slots(&mut self, region: usize)
        requires { region < (heap_of self.old).regions }
        ensures table { let race = self.old.race.now in table_read race self.new.reader.now
            ≡ wiped region (table_read race self.old.reader.now) }
        ensures null { Writes self.old self.new (λ heap old new. (i : ℕ) → i < heap.span
            → get_elem? new (region * heap.span + i) ≡ some 0) }
        ensures other { let span = (heap_of self.old).span in
            let first = region * span in (p : ℕ) → (p < first) ⊎ (first + span ≤ p) →
            get_elem? (words_of self.new) p ≡ get_elem? (words_of self.old) p }
        ensures flags { RaisesOnly (λ card. ⊥) (heap_of self.old) (words_of self.old)
            (words_of self.new) }
    {
        self.reader.begun(self.race);
        let first = region * self.race.shape.span;
        for i in 0..self.race.shape.span {
            self.put_null(first + i);
        }
    }

    // Stores null into a slot. One that is null already is read alone.
    #[inline(always)]
    fn put_null(&mut self, slot: usize)
        requires slot { slot < word_count (heap_of self.old) }
        requires begun { let words = slice_set (words_of self.old) slot 0 in
            IsBegun (started (heap_of self.old) words) }
        ensures { Writes self.old self.new
            (λ heap before after. after ≡ slice_set before slot 0) }
    {
        if self.reader.see(self.race, slot) != 0 {
            self.put(slot, 0);
        }
    }
}
