//! What an evacuation ends with: the regions of its collection set are freed.
ghost use Rattle.std.specs.Prelude.{◌≡◌, ◌<◌, ◌↔◌};
ghost use Rattle.g1_race.specs.{ℕ, IsTrue, IfSome, All, Contains, region_of, slot_count, card_of};
ghost use Rattle.g1_race.specs.{card_count, Crosses, table_at, EntersAny, IsFirstIntoAny};
ghost use Rattle.g1_race.specs.{IsFirstOfCard, Cuts, Enters, ForgetsAll, EmptiesAll, ClearsAt};
ghost use Rattle.g1_race.specs.{Cleared, FreesAt};
ghost use Rattle.std.specs.FinSet as set;

use crate::paused::holds::HoldsRace;
use crate::paused::{Paused, Writer};
use g1_core::ClearReply;
use g1_layout::{Card, Region, Slot};

impl<R: HoldsRace> Paused<R> {
    /// Frees the regions of these numbers, once no card is dirty and no slot outside them refers
    /// into one of them. Afterwards none of their slots refers into another region, none of their
    /// cards is in a remembered set, and their own sets are empty. Takes no memory.
    ///
    /// It is the table's own steps: null is stored into each of their slots that refers into
    /// another region, then each region is forgotten as by [`Paused::forget`], and then its set is
    /// emptied as by [`Paused::clear`]. A slot that refers inside its region keeps its reference,
    /// and one with data its data.
    ///
    /// Reads the slots of each card that is recorded for one of the regions once, for however many
    /// of them it is recorded, and then each of the regions' slots. Writes only those that refer
    /// into another region, and the words with bits of the regions and of their cards.
    ///
    /// Returns `Pending` with the number of dirty cards, or `StillReferenced` with the least slot
    /// of the whole heap that lies outside the regions and refers into one of them. Then nothing
    /// has changed.
    pub fn free(&mut self, regions: &[u32]) -> ClearReply
        requires { All (λ region. region < self.old.layout.regions) regions.now }
        ensures { FreesAt self.old regions.now result self.new }
    {
        let pending = self.pending_count();
        if pending > 0 {
            return ClearReply::Pending(pending);
        }
        if let Some(slot) = self.entering_any(regions) {
            return ClearReply::StillReferenced(slot);
        }
        self.cut_all(regions);
        self.forget_all(regions);
        self.empty_all(regions);
        ClearReply::Cleared
    }

    // The least slot outside the regions that refers into one of them: on a card that is recorded
    // for it, since no card is dirty.
    fn entering_any(&mut self, regions: &[u32]) -> Option<Slot>
        requires regions { All (λ region. region < self.old.layout.regions) regions.now }
        requires clean { (table_at self.old).pending ≡ set.empty }
        ensures first { IsFirstIntoAny (table_at self.old) regions.now result }
        ensures same { self.new ≡ self.old }
    {
        let _counts = self.race.race().layout.counts();
        let mut from = 0;
        while let Some(card) = self.next_into(regions, from) {
            if let Some(slot) = self.entering_any_on(card, regions) {
                return Some(slot);
            }
            from = card.number() + 1;
        }
        None
    }

    // The least such slot of the card.
    fn entering_any_on(&mut self, card: Card, regions: &[u32]) -> Option<Slot>
        requires { card < card_count self.old.layout }
        ensures first { IsFirstOfCard (table_at self.old) regions.now card result }
        ensures same { self.new ≡ self.old }
    {
        let layout = self.race.race().layout;
        let (_, _, slots) = layout.counts();
        for i in 0..slots {
            let slot = layout.slot_at(card, i);
            if self.enters_any(slot, regions) {
                return Some(slot);
            }
        }
        None
    }

    // Whether the slot lies outside the regions and refers into one of them.
    fn enters_any(&mut self, slot: Slot, regions: &[u32]) -> bool
        requires { slot < slot_count self.old.layout }
        ensures enters { IsTrue result ↔ EntersAny (table_at self.old) regions.now slot }
        ensures same { self.new ≡ self.old }
    {
        let Some(place) = self.target(slot) else {
            return false;
        };
        let layout = self.race.race().layout;
        let (into, of) = (layout.region_of(place), layout.region_of(slot));
        if !regions.contains(&into.number()) {
            return false;
        }
        !regions.contains(&of.number())
    }

    // Stores null into the regions' slots that refer into another region.
    fn cut_all(&mut self, regions: &[u32])
        requires { All (λ region. region < self.old.layout.regions) regions.now }
        ensures { Cuts self.old (λ slot. Contains regions.now (region_of self.old.layout slot))
            self.new }
    {
        for i in 0..regions.len() {
            self.cut_region(regions[i]);
        }
    }

    // Stores null into the region's slots that refer into another region.
    fn cut_region(&mut self, region: u32)
        requires { region < self.old.layout.regions }
        ensures { Cuts self.old (λ slot. region_of self.old.layout slot ≡ region) self.new }
    {
        let layout = self.race.race().layout;
        let (_, cards, slots) = layout.counts();
        let span = cards * slots;
        let first = region * span;
        for i in 0..span {
            let Some(slot) = layout.slot(first + i) else {
                unreachable!()
            };
            self.cut_slot(slot);
        }
    }

    // Stores null into the slot if it refers into another region.
    fn cut_slot(&mut self, slot: Slot)
        requires { slot < slot_count self.old.layout }
        ensures { Cuts self.old (λ other. other ≡ slot) self.new }
    {
        let Some(place) = self.target(slot) else {
            return;
        };
        let layout = self.race.race().layout;
        if layout.region_of(slot) == layout.region_of(place) {
            return;
        }
        self.store(slot, None);
    }

    // Removes the regions' cards from all remembered sets.
    fn forget_all(&mut self, regions: &[u32])
        requires regions { All (λ region. region < self.old.layout.regions) regions.now }
        requires closed { (slot place : ℕ) → Crosses (table_at self.old) slot place
            → Contains regions.now (region_of self.old.layout slot) → ⊥ }
        ensures { ForgetsAll self.old regions.now self.new }
    {
        let layout = self.race.race().layout;
        for i in 0..regions.len() {
            let Some(region) = layout.region(regions[i]) else {
                unreachable!()
            };
            self.forget(region);
        }
    }

    // Empties the regions' remembered sets.
    fn empty_all(&mut self, regions: &[u32])
        requires regions { All (λ region. region < self.old.layout.regions) regions.now }
        requires none { (slot place : ℕ) → Crosses (table_at self.old) slot place
            → Contains regions.now (region_of self.old.layout place) → ⊥ }
        requires clean { (table_at self.old).pending ≡ set.empty }
        ensures { EmptiesAll self.old regions.now self.new }
    {
        let layout = self.race.race().layout;
        for i in 0..regions.len() {
            let Some(region) = layout.region(regions[i]) else {
                unreachable!()
            };
            self.empty(region);
        }
    }

    // Empties the region's remembered set.
    fn empty(&mut self, region: Region)
        requires region { region < self.old.layout.regions }
        requires none { (slot : ℕ) → Enters (table_at self.old) slot region → ⊥ }
        requires clean { (table_at self.old).pending ≡ set.empty }
        ensures { ClearsAt self.old region Cleared self.new }
    {
        let (race, reader) = (self.race.race(), &mut self.reader);
        Writer { race, reader }.empty_row(region.number() as usize);
    }
}
