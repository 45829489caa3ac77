//! The redirect at a pause: it moves the references into a region to another region, and empties
//! the region's remembered set.
ghost use Rattle.std.specs.Prelude.{◌≡◌, ◌≢◌, ◌*◌, ◌<◌, ◌≤◌};
ghost use Rattle.g1_race.specs.{ℕ, IfOk, OnErr, true, some, get_elem?, redirect_refined, moved};
ghost use Rattle.g1_race.specs.{moved_count, IsStrictlyIncreasing, crosses, region_at, table_at};
ghost use Rattle.g1_race.specs.{Moved, marked_cards, AreMoved, AreMovedAway, into_count};
ghost use Rattle.g1_race.specs.{word_after, IsSameRace, SlotsBecome, AreUnflagged, Redirects};
ghost use Rattle.g1_race.specs.{Writes, words_of, IsClean, heap_of};
ghost use Rattle.std.specs.FinSet as set;

use crate::paused::clear::enters;
use crate::paused::holds::HoldsRace;
use crate::paused::{Paused, Writer};
use g1_core::{CardList, Redirected};
use g1_layout::{NoMemory, Region};
use std::alloc::Global;

impl<R: HoldsRace> Paused<R> {
    /// Moves the references into the region `from` to the same offsets of the region `to`, and
    /// empties the remembered set of `from`.
    ///
    /// Every dirty card is refined first, as in a drain, and the racers' logs are emptied. Then
    /// each slot outside `from` that refers into `from` refers to the same offset in `to`. If the
    /// slot lies outside `to`, its card is recorded for `to`. Slots inside `from` stay, and so do
    /// slots with data. `Moved` has how many slots changed, and the cards that were refined,
    /// ascending.
    ///
    /// Once all is refined it reads a word for each 64 cards of the heap twice, one more for each
    /// card of the set of `from`, that card's slots, and at most a word for each slot that changes.
    /// The room for the list of refined cards is asked for first, and nothing else takes memory.
    /// Returns `NoMemory` if that room was refused: nothing has changed. A redirect is never
    /// `Short`.
    pub fn redirect(
        &mut self,
        alloc: Global,
        from: Region,
        to: Region,
    ) -> Result<Redirected, NoMemory>
        requires from { from < self.old.layout.regions }
        requires to { to < self.old.layout.regions }
        requires apart { from ≢ to }
        ensures moved { IfOk result (λ answer. (slots : ℕ)
            × (answer ≡ Moved slots (marked_cards self.old.shape self.old.words))
            × Redirects self.old from to slots self.new) }
        ensures ascending { IfOk result (λ answer.
            IsStrictlyIncreasing (redirect_refined answer)) }
        ensures err { OnErr result (self.new ≡ self.old) }
    {
        let refined = self.dirty_cards(alloc)?;
        let slots = self.redirect_in_place(from, to);
        let refined = CardList::of(refined);
        Ok(Redirected::Moved { slots, refined })
    }

    /// Redirects as [`Paused::redirect`] does, but lists no card, and returns how many slots
    /// changed. Takes no memory.
    pub fn redirect_in_place(&mut self, from: Region, to: Region) -> u32
        requires from { from < self.old.layout.regions }
        requires to { to < self.old.layout.regions }
        requires apart { from ≢ to }
        ensures { Redirects self.old from to result self.new }
    {
        self.refine_all();
        self.move_all(from, to)
    }

    // Moves the references into the region, and returns how many slots have changed. No card is
    // dirty.
    #[tactic(auto, using(crate::proofs::of_a_pause, crate::proofs::MovedTable::moved_is))]
    fn move_all(&mut self, from: Region, to: Region) -> u32
        requires from { from < self.old.layout.regions }
        requires to { to < self.old.layout.regions }
        requires apart { from ≢ to }
        requires clean { (table_at self.old).pending ≡ set.empty }
        ensures race { IsSameRace self.old self.new }
        ensures words { SlotsBecome (word_after self.old.shape from to) self.old self.new }
        ensures flags { AreUnflagged self.old.shape self.old.words →
            AreUnflagged self.new.shape self.new.words }
        ensures moved { table_at self.new ≡ moved from to (table_at self.old) }
        ensures count { result ≡ moved_count from (table_at self.old) }
    {
        let (race, reader) = (self.race.race(), &mut self.reader);
        let (from, to) = (from.number() as usize, to.number() as usize);
        Writer { race, reader }.move_references(from, to)
    }
}

impl Writer<'_> {
    // Moves the references into the region, empties its row of bits, and returns how many slots
    // have changed. No card is dirty.
    #[tactic(auto, using(crate::proofs::passed_count))]
    fn move_references(&mut self, from: usize, to: usize) -> u32
        requires from { from < (heap_of self.old).regions }
        requires to { to < (heap_of self.old).regions }
        requires apart { from ≢ to }
        requires clean { IsClean (heap_of self.old) (words_of self.old) }
        ensures moved { Writes self.old self.new
            (λ heap old new. AreMovedAway heap old new from to) }
        ensures count { let heap = heap_of self.old in
            result ≡ into_count heap (words_of self.old) from 0 heap.slots }
    {
        let race = self.race;
        self.reader.begun(race);
        let mut count = 0;
        let mut next = 0;
        while let Some(card) = self.reader.next_in_row(race, next, race.shape.cards, from) {
            count += self.move_on(card, from, to);
            next = card + 1;
        }
        self.empty_row(from);
        count as u32
    }

    // Moves the references into the region of a card's slots, and returns how many have changed.
    fn move_on(&mut self, card: usize, from: usize, to: usize) -> usize
        requires card { card < (heap_of self.old).cards }
        requires to { to < (heap_of self.old).regions }
        requires apart { from ≢ to }
        ensures moved { Writes self.old self.new (λ heap old new.
            AreMoved heap old new from to (card * heap.size) heap.size) }
        ensures count { let heap = heap_of self.old in
            result ≡ into_count heap (words_of self.old) from (card * heap.size) heap.size }
        ensures few { result ≤ (heap_of self.old).size }
    {
        self.reader.begun(self.race);
        let shape = self.race.shape;
        let mut count = 0;
        for i in 0..shape.size {
            let slot = card * shape.size + i;
            let word = self.reader.see(self.race, slot);
            if enters(shape, slot, word, from) {
                self.move_slot(slot, word, to);
                count += 1;
            }
        }
        count
    }

    // Moves the reference of a slot, which has this word, to the region.
    fn move_slot(&mut self, slot: usize, word: u64, to: usize)
        requires slot { slot < (heap_of self.old).slots }
        requires to { to < (heap_of self.old).regions }
        requires word { get_elem? (words_of self.old) slot ≡ some word }
        requires across { crosses (heap_of self.old) slot word ≡ true }
        ensures { Writes self.old self.new
            (λ heap old new. AreMoved heap old new (region_at heap word) to slot 1) }
    {
        self.reader.begun(self.race);
        let shape = self.race.shape;
        let moved = (to * shape.span + (word as usize - 1) % shape.span + 1) as u64;
        if slot / shape.span == to {
            self.put(slot, moved);
            return;
        }
        self.set_bit(slot / shape.size, to);
        self.put(slot, moved);
    }
}
