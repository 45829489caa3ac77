//! The counts of a heap, and where its slots and cards lie.

ghost use Rattle.std.specs.Prelude.{◌≡◌, ◌*◌, ◌+◌, ◌<◌, ◌≤◌};
ghost use Rattle.std.specs.Option.{SomeIff};
ghost use Rattle.g1_layout.specs.Shape.{Shape, IsShape, IsWithinProfile, slot_count, card_count};
ghost use Rattle.g1_layout.specs.Shape.{card_of, region_of, region_of_card, slot_at, same_offset};

use crate::card::Card;
use crate::reciprocal::{Reciprocal, TO_CARDS, TO_REGIONS};
use crate::region::Region;
use crate::slot::Slot;
use std::marker::Model;

// The limits of every heap: regions, cards a region and slots a card.
const MAX_REGIONS: u32 = 256;

const MAX_CARDS: u32 = 65_536;

const MAX_SLOTS: u32 = 64;

// The narrower limits of the profile: cards a region, and slots in all.
const PROFILE_MAX_CARDS: u32 = 256;

const PROFILE_MAX_HEAP_SLOTS: u32 = 1_048_576;

/// The counts of a heap: how many regions it has, how many cards a region, and how many slots a
/// card. They say where each slot and card lies (docs/rules.md, Geometry; regions of equal size
/// come from the ISMM 2004 paper, section 2.1).
///
/// [`Layout::new`] makes a layout within the limits of the profile, [`Layout::large`] one of a
/// runtime's size (docs/rules.md, Limits). Every call takes either. A layout is seven words,
/// which are copied freely. Every call is a few instructions and takes no memory; only `new` and
/// `large` divide.
#[derive(Clone, Copy, Debug)]
pub struct Layout {
    regions: u32,
    cards: Reciprocal<TO_REGIONS>,
    slots: Reciprocal<TO_CARDS>,
    region_slots: Reciprocal<TO_REGIONS>,
    // All slots of the heap, with which each number of a slot that comes from outside is compared.
    heap_slots: u32,
}

impl Model for Layout {
    ghost use Rattle.std.specs.Prelude.{◌*◌};
    ghost use Rattle.g1_layout.specs.Shape.{Shape, IsShape};

    ghost Value = { Shape };

    ghost view = { λ a. record { regions = a.regions; cards = a.cards; slots = a.slots } };

    ghost use Rattle.g1_layout.specs.Fields.{AreFields};

    ghost invariant = { AreFields };

    ghost inverse = { λ l. record {
      regions = l.regions;
      cards = l.cards;
      slots = l.slots;
      region_slots = l.cards * l.slots;
      heap_slots = l.regions * l.cards * l.slots;
    } };

    ghost use Rattle.std.proofs.Common.{sym};

    ghost inverse_ok = { λ a h. λ i. record {
      regions = a.regions;
      cards = a.cards;
      slots = a.slots;
      region_slots = sym h.region_slots i;
      heap_slots = sym h.heap_slots i;
    } };
}

impl Layout {
    /// Makes a layout of `regions` regions of `cards` cards of `slots` slots, within the limits of
    /// the profile.
    ///
    /// Returns `None` exactly outside them: if a count is 0, or if there are more than 256 regions,
    /// 256 cards a region, 64 slots a card, or 1,048,576 slots in all.
    pub fn new(regions: u32, cards: u32, slots: u32) -> Option<Layout>
        ensures { let l : Shape = record { regions = regions; cards = cards; slots = slots } in
            SomeIff result (IsWithinProfile l) l }
    {
        let layout = Layout::large(regions, cards, slots)?;
        if cards > PROFILE_MAX_CARDS || layout.heap_slots > PROFILE_MAX_HEAP_SLOTS {
            return None;
        }
        Some(layout)
    }

    /// Makes a layout of `regions` regions of `cards` cards of `slots` slots, for the heap of a
    /// runtime. It has at most 2^30 slots: 8 GB of 8-byte words, in regions of 32 MB and cards of
    /// 512 bytes.
    ///
    /// Returns `None` exactly outside these limits: if a count is 0, or if there are more than 256
    /// regions, 65,536 cards a region, or 64 slots a card. What a heap takes in memory is in
    /// docs/costs.md, Memory.
    pub fn large(regions: u32, cards: u32, slots: u32) -> Option<Layout>
        ensures { let l : Shape = record { regions = regions; cards = cards; slots = slots } in
            SomeIff result (IsShape l) l }
    {
        let are_within = (1..=MAX_REGIONS).contains(&regions)
            && (1..=MAX_CARDS).contains(&cards)
            && (1..=MAX_SLOTS).contains(&slots);
        if !are_within {
            return None;
        }
        Some(Layout::of(regions, cards, slots))
    }

    // The layout of counts that are within the limits.
    fn of(regions: u32, cards: u32, slots: u32) -> Layout
        requires { let l : Shape = record { regions = regions; cards = cards; slots = slots } in
            IsShape l }
        ensures { result ≡ record { regions = regions; cards = cards; slots = slots } }
    {
        Layout {
            regions,
            cards: Reciprocal::new(cards),
            slots: Reciprocal::new(slots),
            region_slots: Reciprocal::new(cards * slots),
            heap_slots: regions * cards * slots,
        }
    }

    /// The counts that the layout was made with: regions, cards a region, slots a card.
    pub fn counts(&self) -> (u32, u32, u32)
        ensures regions { result.0 ≡ self.now.regions }
        ensures cards { result.1 ≡ self.now.cards }
        ensures slots { result.2 ≡ self.now.slots }
        ensures shape { IsShape self.now }
    {
        (self.regions, self.cards.divisor(), self.slots.divisor())
    }

    /// How many slots the heap has: at most 1,073,741,824.
    pub fn slot_count(&self) -> u32
        ensures count { result ≡ slot_count self.now }
        ensures shape { IsShape self.now }
    {
        self.heap_slots
    }

    /// How many cards the heap has: at most 16,777,216.
    pub fn card_count(&self) -> u32
        ensures count { result ≡ card_count self.now }
        ensures shape { IsShape self.now }
    {
        self.regions * self.cards.divisor()
    }

    /// The slot of this number, from 0. `None` exactly if the heap has no such slot.
    pub fn slot(&self, number: u32) -> Option<Slot>
        ensures { SomeIff result (number < slot_count self.now) number }
    {
        if number < self.slot_count() {
            Some(Slot { number })
        } else {
            None
        }
    }

    /// The card of this number, from 0. `None` exactly if the heap has no such card.
    pub fn card(&self, number: u32) -> Option<Card>
        ensures { SomeIff result (number < card_count self.now) number }
    {
        if number < self.card_count() {
            Some(Card { number })
        } else {
            None
        }
    }

    /// The region of this number, from 0. `None` exactly if the heap has no such region.
    pub fn region(&self, number: u32) -> Option<Region>
        ensures { SomeIff result (number < self.now.regions) number }
    {
        if number < self.regions {
            Some(Region { number })
        } else {
            None
        }
    }

    /// The card on which a slot of this heap lies: the slot's number divided by the slots a card,
    /// rounded down.
    pub fn card_of(&self, slot: Slot) -> Card
        requires { slot < slot_count self.now }
        ensures quotient { result ≡ card_of self.now slot }
        ensures within { result < card_count self.now }
    {
        Card {
            number: self.slots.quotient(slot.number),
        }
    }

    /// The region in which a slot of this heap lies: the slot's number divided by the slots a
    /// region, rounded down.
    pub fn region_of(&self, slot: Slot) -> Region
        requires { slot < slot_count self.now }
        ensures quotient { result ≡ region_of self.now slot }
        ensures within { result < self.now.regions }
    {
        Region {
            number: self.region_slots.quotient(slot.number),
        }
    }

    /// The region in which a card of this heap lies: the card's number divided by the cards a
    /// region, rounded down.
    pub fn region_of_card(&self, card: Card) -> Region
        requires { card < card_count self.now }
        ensures quotient { result ≡ region_of_card self.now card }
        ensures within { result < self.now.regions }
    {
        Region {
            number: self.cards.quotient(card.number),
        }
    }

    /// The first slot of a card of this heap. The other slots of the card follow it, and the heap
    /// has them all.
    pub fn first_slot(&self, card: Card) -> Slot
        requires { card < card_count self.now }
        ensures first { result ≡ card * self.now.slots }
        ensures room { result + self.now.slots ≤ slot_count self.now }
    {
        Slot {
            number: card.number * self.slots.divisor(),
        }
    }

    /// The slot at an offset on a card of this heap. The card's first slot is at offset 0.
    pub fn slot_at(&self, card: Card, offset: u32) -> Slot
        requires card { card < card_count self.now }
        requires offset { offset < self.now.slots }
        ensures slot { result ≡ slot_at self.now card offset }
        ensures within { result < slot_count self.now }
    {
        Slot {
            number: card.number * self.slots.divisor() + offset,
        }
    }

    /// The place at the same offset of the region `to`. An evacuation puts there what was at
    /// `place`.
    pub fn same_offset(&self, place: Slot, to: Region) -> Slot
        requires place { place < slot_count self.now }
        requires to { to < self.now.regions }
        ensures place { result ≡ same_offset self.now place to }
        ensures within { result < slot_count self.now }
    {
        let size = self.region_slots.divisor();
        let offset = place.number - self.region_slots.quotient(place.number) * size;
        Slot {
            number: to.number * size + offset,
        }
    }
}
