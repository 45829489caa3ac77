//! The refinement counts and the hot ring.
ghost use Rattle.std.specs.Prelude.{◌≡◌, false, replicate, ◌<◌, ◌≤◌, ◌==◌, ◌↔◌, Contains, IfOk};
ghost use Rattle.std.specs.Prelude.{IsTrue, length, slice_get};
ghost use Rattle.g1_hot.specs.Ring.{answer, offered, popped, reset, new_ring, IsRing};

use crate::offer::Offer;
use circular_buffer::HeapCircularBuffer;
use g1_layout::{Card, Layout, NoMemory};
use std::alloc::Global;
use std::marker::Model;

/// How often each card was refined, up to the hot limit, and the ring of hot cards.
///
/// The counts take one byte a card. After `new` no call takes memory.
#[derive(Drop)]
pub struct Hot {
    counts: Vec<u8>,
    ring: HeapCircularBuffer<Card>,
    limit: u8,
    // Whether a count was raised since the counts were last 0.
    counted: bool,
    ghost zero: { counted ≡ false → counts.items ≡ replicate (length counts.items) 0 },
}

impl Model for Hot {
    ghost use Rattle.g1_hot.specs.Ring.{Ring, ring_code, ring_of, IsRing};

    ghost Value = { Ring };

    ghost coded = { ring_code };

    ghost view = { λ a. ring_of a.counts.items a.ring a.limit };

    ghost invariant = { λ a. IsRing (ring_of a.counts.items a.ring a.limit) };
}

impl Hot {
    /// Makes an empty ring, and a count of 0 for every card of the layout.
    ///
    /// `limit` is the count from which on a card is hot; with 0 every card is. `capacity` is how
    /// many cards the ring holds at most (docs/rules.md, Hotness). The call takes one byte a card
    /// and the room of the whole ring, and time in the number of cards.
    ///
    /// Returns `NoMemory` if the room for the counts or the ring was refused. What was taken is
    /// then given back.
    pub fn new(alloc: Global, layout: Layout, limit: u32, capacity: usize) -> Result<Hot, NoMemory>
        requires limit { limit ≤ 255 }
        requires some { 1 ≤ capacity }
        requires most { capacity ≤ 4096 }
        ensures { IfOk result (λ hot. hot ≡ new_ring layout limit capacity) }
    {
        let (regions, cards, _) = layout.counts();
        let counts = vec![in alloc; 0; (regions * cards) as usize]?;
        let ring = HeapCircularBuffer::with_capacity(alloc, capacity)?;
        Ok(Hot {
            counts,
            ring,
            limit: limit as u8,
            counted: false,
        })
    }

    /// Returns what `offer` would return for the card, and changes nothing. Constant time.
    pub fn would(&self, card: Card) -> Offer
        requires { card < length self.now.counts }
        ensures answer { result ≡ answer self.now card }
        ensures kept { IsRing self.now }
    {
        if self.counts[card.number() as usize] < self.limit {
            return Offer::Cold;
        }
        match self.ring.front() {
            Some(oldest) if self.ring.is_full() => Offer::Out(*oldest),
            _ => Offer::Kept,
        }
    }

    /// Counts a refinement of the card. If the card is hot, it goes last into the ring.
    ///
    /// A card is hot if its count was `limit` before this call. The count rises by one, and stops
    /// at the limit. If the card is hot and the ring was full, the oldest card leaves the ring and
    /// is returned (docs/rules.md, Hotness). The card must not be in the ring. Constant time.
    pub fn offer(&mut self, card: Card) -> Offer
        requires within { card < length self.old.counts }
        requires absent { Contains self.old.cards card → ⊥ }
        ensures answer { result ≡ answer self.old card }
        ensures ring { self.new ≡ offered self.old card }
    {
        let count = &mut self.counts[card.number() as usize];
        if *count < self.limit {
            *count += 1;
            self.counted = true;
            return Offer::Cold;
        }
        match self.ring.push_back(card) {
            None => Offer::Kept,
            Some(oldest) => Offer::Out(oldest),
        }
    }

    /// The card that has been in the ring the longest. `None` exactly if the ring is empty.
    /// Constant time.
    pub fn oldest(&self) -> Option<Card>
        ensures card { result ≡ slice_get self.now.cards 0 }
        ensures kept { IsRing self.now }
    {
        self.ring.front().copied()
    }

    /// Takes the card that has been in the ring the longest out of it. `None` exactly if the ring
    /// is empty. The counts do not change. Constant time.
    pub fn pop_oldest(&mut self) -> Option<Card>
        ensures card { result ≡ slice_get self.old.cards 0 }
        ensures ring { self.new ≡ popped self.old }
    {
        self.ring.pop_front()
    }

    /// Whether the card is in the ring. Time in the number of cards in the ring.
    pub fn contains(&self, card: Card) -> bool
        ensures { IsTrue result ↔ Contains self.now.cards card }
    {
        self.ring.iter().any(|kept| *kept == card)
    }

    /// How many cards are in the ring: at most its capacity. Constant time.
    pub fn len(&self) -> usize
        ensures len { result ≡ length self.now.cards }
        ensures kept { IsRing self.now }
    {
        self.ring.len()
    }

    /// Whether the ring is empty. Constant time.
    pub fn is_empty(&self) -> bool
        ensures { result ≡ (length self.now.cards == 0) }
    {
        self.ring.is_empty()
    }

    /// Sets the count of every card to 0, as a whole drain does at its end (docs/rules.md,
    /// Hotness). The ring does not change. One pass over the counts, at most.
    pub fn reset_counts(&mut self)
        ensures { self.new ≡ reset self.old }
    {
        if self.counted {
            self.counts.fill(0);
            self.counted = false;
        }
    }
}
