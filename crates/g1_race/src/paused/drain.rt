//! Refinement and drains at a pause.
ghost use Rattle.std.specs.Prelude.{◌≡◌, ◌+◌, ◌*◌, ◌<◌, ◌≤◌, ◌∷◌};
ghost use Rattle.g1_race.specs.{[], IfOk, OnErr, length, map, replicate, vec_len, slot_count};
ghost use Rattle.g1_race.specs.{IsOfCrossing, IsWord, slot_card, pair_at, racer_log, Notes};
ghost use Rattle.g1_race.specs.{RefinesCard, AreRefined, AreUnflagged, Refines, DrainsAt, Writes};
ghost use Rattle.g1_race.specs.{words_of, heap_of};

use crate::bits::bit_of;
use crate::paused::holds::HoldsRace;
use crate::paused::{Paused, Writer};
use crate::race::Racer;
use crate::word::pair_at;
use g1_core::{CardList, Drained};
use g1_layout::{NoMemory, Region};
use std::alloc::Global;

impl<R: HoldsRace> Paused<R> {
    /// Refines every dirty card, and returns the remembered set of a region, ascending, each card
    /// once. It has every card that holds into the region, and besides these only cards whose pair
    /// was recorded before. Then no card is dirty, and the racers' logs are empty. The refined
    /// cards are listed too, ascending.
    ///
    /// Reads a word for each 64 cards of the heap a few times over, what each dirty card needs, and
    /// the set. The room for the lists is asked for first, and refinement takes none. Returns
    /// `NoMemory` if that room was refused: nothing has changed. A drain is never `Short`.
    ///
    /// [`Paused::refine_all`] and [`Paused::next_member`] do the same without a list.
    #[tactic(auto, using(crate::proofs::members_room))]
    pub fn drain(&mut self, alloc: Global, region: Region) -> Result<Drained, NoMemory>
        requires { region < self.old.layout.regions }
        ensures did { IfOk result (λ answer. DrainsAt self.old region answer self.new) }
        ensures err { OnErr result (self.new ≡ self.old) }
    {
        let refined = self.dirty_cards(alloc)?;
        let room = self.set_len(region) + refined.len();
        let mut cards = Vec::with_capacity(alloc, room)?;
        self.refine_all();
        self.gather(region, &mut cards);
        let cards = CardList::of(cards);
        let refined = CardList::of(refined);
        Ok(Drained::Cards { cards, refined })
    }

    /// Refines every dirty card, in ascending order, and empties the racers' logs. Then every card
    /// that holds into a region is a member of its set; a member may hold into it no more. Call it
    /// once, then `members` for each region of the collection set. Takes no memory.
    pub fn refine_all(&mut self)
        ensures did { Refines self.old self.new }
        ensures bits { AreRefined self.old.shape self.old.words self.new.words
            self.old.shape.cards }
    {
        let (race, reader) = (self.race.race(), &mut self.reader);
        Writer { race, reader }.refine_cards();
        clear_logs(&mut self.racers);
    }
}

impl Writer<'_> {
    // Refines the dirty cards. No flag is set then.
    #[tactic(auto, using(crate::proofs::unflagged))]
    pub(crate) fn refine_cards(&mut self)
        ensures refined { Writes self.old self.new
            (λ heap old new. AreRefined heap old new heap.cards) }
        ensures flags { AreUnflagged (heap_of self.old) (words_of self.new) }
    {
        let race = self.race;
        self.reader.begun(race);
        let mut from = 0;
        while let Some(card) = self.reader.next_marked(race, from) {
            self.refine_card(card);
            from = card + 1;
        }
        self.empty_row(race.shape.regions);
    }

    // Records the pairs of the card's references, and cleans it.
    fn refine_card(&mut self, card: usize)
        requires { card < (heap_of self.old).cards }
        ensures { Writes self.old self.new (λ heap old new. RefinesCard heap old new card) }
    {
        self.reader.begun(self.race);
        let shape = self.race.shape;
        for i in 0..shape.size {
            let slot = card * shape.size + i;
            let word = self.reader.see(self.race, slot);
            self.note_slot(card, slot, word);
        }
        self.put(shape.slots + card, 0);
    }

    // Records the pair of the word of one of the card's slots, if it refers into another region.
    fn note_slot(&mut self, card: usize, slot: usize, word: u64)
        requires slot { slot < slot_count self.old.race.now.layout }
        requires card { card ≡ slot_card (heap_of self.old) slot }
        requires word { IsWord (heap_of self.old) word }
        ensures { Writes self.old self.new
            (λ heap old new. Notes heap old new (pair_at heap slot word)) }
    {
        self.reader.begun(self.race);
        if let Some((card, region)) = pair_at(self.race, card, slot, word) {
            self.set_bit(card, region);
        }
    }

    // Makes sure that the bit of the pair is set, or in the row of flags the card's flag.
    #[tactic(auto, using(crate::proofs::of_a_bit))]
    pub(crate) fn set_bit(&mut self, card: usize, region: usize)
        requires card { card < (heap_of self.old).cards }
        requires row { region ≤ (heap_of self.old).regions }
        requires proper { region < (heap_of self.old).regions →
            IsOfCrossing (heap_of self.old) (card, region) }
        ensures { Writes self.old self.new
            (λ heap old new. Notes heap old new ((card, region) ∷ [])) }
    {
        let (at, index) = bit_of(self.race.shape, card, region);
        let found = self.reader.see(self.race, at);
        if (found >> index) & 1 == 1 {
            return;
        }
        self.put(at, found | (1 << index));
    }
}

// Empties the racers' logs, whose cards are all refined.
pub(crate) fn clear_logs(racers: &mut Vec<Racer>)
    ensures logs { map racer_log racers.new.items ≡ replicate (length racers.old.items) [] }
    ensures len { vec_len racers.new ≡ vec_len racers.old }
{
    for racer in racers.iter_mut() {
        racer.log.clear();
    }
}
