//! The pairs that are recorded at a pause, and the cards that are dirty.
ghost use Rattle.std.specs.Prelude.{◌≡◌, ◌<◌, ◌≤◌, ◌^◌, ◌↔◌};
ghost use Rattle.g1_race.specs.{IsTrue, IfOk, IfSome, [], length, vec_len, vec_capacity};
ghost use Rattle.g1_race.specs.{card_count, IsRecorded, AreMembers, TellsMembers, TellsStatus};
ghost use Rattle.g1_race.specs.{table_at, IsNextPending, IsNextMember, marked_cards, member_cards};
ghost use Rattle.std.specs.FinSet as set;

use crate::paused::Paused;
use crate::paused::holds::HoldsRace;
use crate::paused::next::Sought;
use g1_core::{CardList, Status};
use g1_layout::{Card, NoMemory, Region};
use std::alloc::Global;

impl<R: HoldsRace> Paused<R> {
    /// Returns whether a pair is recorded. Reads one word.
    pub fn has(&mut self, card: Card, region: Region) -> bool
        ensures has { IsTrue result ↔ IsRecorded (table_at self.old) card region }
        ensures same { self.new ≡ self.old }
    {
        self.reader.has(self.race.race(), card, region)
    }

    /// Returns the cards of a region's remembered set as it is recorded, ascending, each once.
    /// Dirty cards may be missing from it. Reads a word for each 64 cards of the heap, and one more
    /// for each card of the set, and all of this twice.
    ///
    /// Returns `NoMemory` if the room for the list was refused.
    pub fn members(&mut self, alloc: Global, region: Region) -> Result<CardList, NoMemory>
        requires { region < self.old.layout.regions }
        ensures told { IfOk result (TellsMembers (table_at self.old) region) }
        ensures few { IfOk result (λ cards. length cards ≤ card_count self.old.layout) }
        ensures same { self.new ≡ self.old }
    {
        self.reader.members(self.race.race(), alloc, region)
    }

    /// Returns how many cards are dirty. Reads a word for each 64 cards of the heap, and for each
    /// eight cards of which one was dirtied since all were last refined at a pause their marks and
    /// one word more.
    #[tactic(auto, using(crate::proofs::of_a_pause))]
    pub fn pending_count(&mut self) -> u32
        ensures count { result ≡ set.len (table_at self.old).pending }
        ensures same { self.new ≡ self.old }
    {
        self.reader.count(self.race.race(), Sought::Dirty) as u32
    }

    /// Returns how many cards are dirty, and how many pairs are recorded. Reads what
    /// [`Paused::pending_count`] reads, for each region a word for each 64 cards of the heap, and
    /// one more word for each recorded pair.
    #[tactic(auto, using(crate::proofs::of_a_pause))]
    pub fn status(&mut self) -> Status
        ensures told { TellsStatus (table_at self.old) result }
        ensures same { self.new ≡ self.old }
    {
        let race = self.race.race();
        let _counts = race.layout.counts();
        let pending = self.reader.count(race, Sought::Dirty) as u32;
        let recorded = self.reader.count_pairs(race) as u32;
        Status { pending, recorded }
    }

    /// Returns the least dirty card from the number `from` on, or `None` if there is none. Reads a
    /// word for each 64 cards up to it, and for each eight of these of which one was dirtied since
    /// all were last refined at a pause their marks and one word more. If `from` is not the first
    /// of its eight, the marks from there to the end of that eight are read in any case. Takes no
    /// memory.
    ///
    /// To walk over all of them, ask again from the card's number plus 1, which may be past the
    /// last card.
    pub fn next_dirty(&mut self, from: u32) -> Option<Card>
        ensures dirty { IsNextPending (table_at self.old) from result }
        ensures within { IfSome result (λ card. card < card_count self.old.layout) }
        ensures same { self.new ≡ self.old }
    {
        self.reader.next_dirty(self.race.race(), from)
    }

    /// Returns the least card from the number `from` on that is recorded for a region, or `None` if
    /// there is none. Reads a word for each 64 cards up to it. Takes no memory. To walk over all of
    /// them, ask again as with [`Paused::next_dirty`].
    pub fn next_member(&mut self, region: Region, from: u32) -> Option<Card>
        requires { region < self.old.layout.regions }
        ensures member { IsNextMember (table_at self.old) region from result }
        ensures within { IfSome result (λ card. card < card_count self.old.layout) }
        ensures same { self.new ≡ self.old }
    {
        self.reader.next_member(self.race.race(), region, from)
    }

    // The dirty cards, ascending.
    #[tactic(auto, using(crate::proofs::few, crate::proofs::cards_fit))]
    pub(crate) fn dirty_cards(&mut self, alloc: Global) -> Result<Vec<Card>, NoMemory>
        ensures cards { IfOk result (λ cards.
            cards.items ≡ marked_cards self.old.shape self.old.words) }
        ensures few { IfOk result (λ cards. vec_len cards < 2 ^ 32) }
        ensures same { self.new ≡ self.old }
    {
        let race = self.race.race();
        let count = self.reader.count(race, Sought::Dirty);
        let mut cards = Vec::with_capacity(alloc, count)?;
        self.reader.list(race, Sought::Dirty, &mut cards);
        Ok(cards)
    }

    // How many cards the region's set has.
    #[tactic(auto, using(crate::proofs::few, crate::proofs::cards_fit))]
    pub(crate) fn set_len(&mut self, region: Region) -> usize
        requires { region < self.old.layout.regions }
        ensures count { result ≡ length (member_cards self.old.shape self.old.words region) }
        ensures few { result < 2 ^ 32 }
        ensures same { self.new ≡ self.old }
    {
        let sought = Sought::Of(region.number() as usize);
        self.reader.count(self.race.race(), sought)
    }

    // Lists the cards of the region's set.
    #[tactic(auto, using(crate::proofs::few, crate::proofs::lent_view))]
    pub(crate) fn gather(&mut self, region: Region, cards: &mut Vec<Card>)
        requires region { region < self.old.layout.regions }
        requires empty { cards.old.items ≡ [] }
        requires room { length (member_cards self.old.shape self.old.words region)
            ≤ vec_capacity cards.old }
        ensures members { AreMembers (table_at self.old) region cards.new.items }
        ensures few { length cards.new.items ≤ card_count self.old.layout }
        ensures same { self.new ≡ self.old }
    {
        let sought = Sought::Of(region.number() as usize);
        self.reader.list(self.race.race(), sought, cards);
    }
}
