//! What a reader reads at a pause.
ghost use Rattle.std.specs.Prelude.{◌≡◌, ◌<◌, ◌≤◌, ◌↔◌};
ghost use Rattle.g1_race.specs.{IsTrue, IfOk, IfSome, slot_count, card_count, IsRecorded};
ghost use Rattle.g1_race.specs.{TellsTarget, TellsPending, TellsMembers, race_id, race_layout};
ghost use Rattle.g1_race.specs.{IsNextMember, IsNextPending, reader_race, table_read, length};
ghost use Rattle.g1_race.specs.{HasBit, IsPair};

use crate::bits::bit_of;
use crate::paused::next::{Sought, card_at};
use crate::paused::reading::Reader;
use crate::race::Race;
use crate::word::refers_to;
use g1_core::CardList;
use g1_layout::{Card, NoMemory, Region, Slot};
use std::alloc::Global;

impl Reader {
    /// Returns what a slot refers to, as [`Paused::target`] does. The reader and the slot must be
    /// of this race.
    ///
    /// [`Paused::target`]: crate::Paused::target
    pub fn target(&mut self, race: &Race, slot: Slot) -> Option<Slot>
        requires reader { reader_race self.old ≡ race_id race.now }
        requires slot { slot < slot_count (race_layout race.now) }
        ensures told { TellsTarget (table_read race.now self.old) slot result }
        ensures same { self.new ≡ self.old }
    {
        let word = self.see(race, slot.number() as usize);
        refers_to(race.layout, word)
    }

    /// Returns whether a card is pending, as [`Paused::is_pending`] does. The reader and the card
    /// must be of this race.
    ///
    /// [`Paused::is_pending`]: crate::Paused::is_pending
    pub fn is_pending(&mut self, race: &Race, card: Card) -> bool
        requires reader { reader_race self.old ≡ race_id race.now }
        requires card { card < card_count (race_layout race.now) }
        ensures told { TellsPending (table_read race.now self.old) card result }
        ensures same { self.new ≡ self.old }
    {
        self.see(race, race.shape.slots + card.number() as usize) == 1
    }

    /// Returns whether a pair is recorded, as [`Paused::has`] does. The reader must be of this
    /// race.
    ///
    /// [`Paused::has`]: crate::Paused::has
    pub fn has(&mut self, race: &Race, card: Card, region: Region) -> bool
        requires reader { reader_race self.old ≡ race_id race.now }
        ensures has { IsTrue result ↔ IsRecorded (table_read race.now self.old) card region }
        ensures same { self.new ≡ self.old }
    {
        self.begun(race);
        let (card, region) = (card.number() as usize, region.number() as usize);
        if card >= race.shape.cards {
            return false;
        }
        if region >= race.shape.regions {
            return false;
        }
        self.is_set(race, card, region)
    }

    /// Returns a region's remembered set, as [`Paused::members`] does. The reader and the region
    /// must be of this race.
    ///
    /// [`Paused::members`]: crate::Paused::members
    #[tactic(auto, using(crate::proofs::few))]
    pub fn members(
        &mut self,
        race: &Race,
        alloc: Global,
        region: Region,
    ) -> Result<CardList, NoMemory>
        requires reader { reader_race self.old ≡ race_id race.now }
        requires region { region < (race_layout race.now).regions }
        ensures told { IfOk result (TellsMembers (table_read race.now self.old) region) }
        ensures few { IfOk result (λ cards. length cards ≤ card_count (race_layout race.now)) }
        ensures same { self.new ≡ self.old }
    {
        self.begun(race);
        let sought = Sought::Of(region.number() as usize);
        let count = self.count(race, sought);
        let mut cards = Vec::with_capacity(alloc, count)?;
        self.list(race, sought, &mut cards);
        Ok(CardList::of(cards))
    }

    /// Returns the least dirty card from the number `from` on, as [`Paused::next_dirty`] does. So
    /// each of several readers can look for the dirty cards of a stretch of the heap. The reader
    /// must be of this race.
    ///
    /// [`Paused::next_dirty`]: crate::Paused::next_dirty
    #[tactic(auto, using(crate::proofs::of_a_mark))]
    pub fn next_dirty(&mut self, race: &Race, from: u32) -> Option<Card>
        requires reader { reader_race self.old ≡ race_id race.now }
        ensures dirty { IsNextPending (table_read race.now self.old) from result }
        ensures within { IfSome result (λ card. card < card_count (race_layout race.now)) }
        ensures same { self.new ≡ self.old }
    {
        self.begun(race);
        let Some(card) = self.next_marked(race, from as usize) else {
            return None;
        };
        Some(card_at(race, card))
    }

    /// Returns the least card from the number `from` on that is recorded for a region, as
    /// [`Paused::next_member`] does. The reader and the region must be of this race.
    ///
    /// [`Paused::next_member`]: crate::Paused::next_member
    pub fn next_member(&mut self, race: &Race, region: Region, from: u32) -> Option<Card>
        requires reader { reader_race self.old ≡ race_id race.now }
        requires region { region < (race_layout race.now).regions }
        ensures member { IsNextMember (table_read race.now self.old) region from result }
        ensures within { IfSome result (λ card. card < card_count (race_layout race.now)) }
        ensures same { self.new ≡ self.old }
    {
        self.begun(race);
        let number = region.number() as usize;
        let Some(card) = self.next_in_row(race, from as usize, race.shape.cards, number) else {
            return None;
        };
        Some(card_at(race, card))
    }

    // Whether the pair's bit is set.
    fn is_set(&mut self, race: &Race, card: usize, region: usize) -> bool
        requires reader { reader_race self.old ≡ race_id race.now }
        requires pair { IsPair race.now.shape (card, region) }
        ensures set { IsTrue result ↔ HasBit race.now.shape self.old.start.words (card, region) }
        ensures same { self.new ≡ self.old }
    {
        let (at, index) = bit_of(race.shape, card, region);
        (self.see(race, at) >> index) & 1 == 1
    }
}
