//! A race that is over: what its slots refer to, which of its cards are dirty, and which pairs were
//! recorded.
//!
//! - `close` ends a race, and `into_core` makes a core of it.
//! - `pairs` has the recorded pairs.

mod close;
mod into_core;
mod pairs;

ghost use Rattle.std.specs.Prelude.{◌≡◌, ◌+◌, ◌<◌, ◌↔◌};
ghost use Rattle.g1_race.specs.Prelude.{IsTrue, IfSome, target_of, IsPending, IsRecorded, some};
ghost use Rattle.g1_race.specs.Prelude.{get_elem?, slot_count, card_count};
ghost use Rattle.g1_race.specs.Over.{refs_of, marks_of, table_of};

use crate::ended::pairs::has_bit;
use crate::word::refers_to;
use g1_layout::{Card, Layout, Region, Slot};
use g1_race_words::RaceShape;
use std::alloc::Global;
use std::marker::Model;

/// A race that is over: no thread takes part in it any more ([`Race::close`](crate::Race::close)).
///
/// Its model is a table: the layout, the words of slots and marks, and the recorded pairs, each
/// once, by card and then by region. Each slot that refers into another region has its card dirty
/// or its pair recorded. The card of each pair lies outside its region.
pub struct Closed {
    pub(crate) words: atomic_table::Closed<(), Global>,
    pub(crate) layout: Layout,
    pub(crate) shape: RaceShape,
}

impl Model for Closed {
    ghost use Rattle.std.specs.Prelude.{◌≡◌};
    ghost use Rattle.g1_race.specs.Prelude.{word_count, slots_items, slots_len, IsFull};
    ghost use Rattle.g1_race.specs.Over.{Ended, IsEnded, ended};

    ghost Value = { Ended };

    ghost view = { λ a. ended a.layout a.shape (slots_items a.words.words) };

    ghost invariant = { λ a. IsEnded a.shape a.layout (slots_items a.words.words)
        × (slots_len a.words.words ≡ word_count a.shape)
        × (slots_len a.words.slots ≡ 0) × IsFull a.words.words };
}

impl Drop for Closed {
    fn drop(self) {
        let Closed {
            words,
            layout: _,
            shape: _,
        } = self;
        words.free();
    }
}

impl Closed {
    /// Returns what a slot refers to, or `None` for null. Reads one word.
    #[tactic(auto, using(crate::specs::reads_as))]
    pub fn target(&self, slot: Slot) -> Option<Slot>
        requires { slot < slot_count self.now.layout }
        ensures target { result ≡ target_of (table_of self.now) slot }
        ensures within { IfSome result (λ place. place < slot_count self.now.layout) }
    {
        self.target_at(slot.number() as usize)
    }

    /// Returns whether a card is dirty: dirtied by a store since it was last refined, or dirty from
    /// the beginning and not refined since. Reads one word.
    #[tactic(auto, using(crate::proofs::of_a_flag))]
    pub fn marked(&self, card: Card) -> bool
        requires { card < card_count self.now.layout }
        ensures { IsTrue result ↔ IsPending (table_of self.now) card }
    {
        self.marked_at(card.number() as usize)
    }

    /// Returns whether a pair was recorded, by a sweeper or before the race. Reads one word.
    pub fn has(&self, card: Card, region: Region) -> bool
        ensures { IsTrue result ↔ IsRecorded (table_of self.now) card region }
    {
        let (card, region) = (card.number() as usize, region.number() as usize);
        if card >= self.shape.cards {
            return false;
        }
        if region >= self.shape.regions {
            return false;
        }
        has_bit(&self.words, self.shape, card, region)
    }

    // As `target`, by the number of the slot.
    pub(crate) fn target_at(&self, slot: usize) -> Option<Slot>
        requires { slot < slot_count self.now.layout }
        ensures refers { get_elem? (refs_of self.now) slot ≡ some result }
        ensures within { IfSome result (λ place. place < slot_count self.now.layout) }
    {
        let word = self.words.word(slot);
        refers_to(self.layout, word)
    }

    // As `marked`, by the number of the card.
    #[tactic(auto, using(crate::specs::at_take, crate::proofs::marks_here))]
    pub(crate) fn marked_at(&self, card: usize) -> bool
        requires { card < card_count self.now.layout }
        ensures { get_elem? (marks_of self.now) card ≡ some result }
    {
        self.words.word(self.shape.slots + card) == 1
    }
}
