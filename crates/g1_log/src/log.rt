//! Dirty card queues.
ghost use Rattle.std.specs.Prelude.{◌≡◌, ◌+◌, ◌<◌, ◌≤◌, ◌↔◌};
ghost use Rattle.g1_log.specs.Prelude.{[], length, drop, IsTrue, IsNone, IfSome};
ghost use Rattle.g1_log.specs.Log.{Cards, IsLog, pushed, handed};

use crate::buffer::Buffer;
use arrayvec::ArrayVec;
use g1_layout::Card;
use std::marker::Model;
use std::mem;

/// A dirty card queue: the cards that one mutator has logged since its last buffer was handed out,
/// oldest first.
///
/// Between two calls it is never full. Contracts see its size and the list of the cards' numbers
/// (`Cards`). No call takes memory (ISMM 2004, section 2.2, Remembered Set Maintenance;
/// docs/rules.md, Logs and completed buffers).
#[derive(Debug, Drop)]
pub struct Log {
    size: usize,
    cards: ArrayVec<Card, 256>,
}

impl Model for Log {
    ghost use Rattle.g1_log.specs.Log.{Cards, cards_code, IsLog};

    ghost Value = { Cards };

    ghost coded = { cards_code };

    ghost view = { λ l. record { size = l.size; cards = l.cards.items } };

    ghost invariant = { λ l. IsLog (record { size = l.size; cards = l.cards.items }) };
}

impl Log {
    /// Makes an empty log, which `size` cards fill.
    pub fn new(size: usize) -> Log
        requires low { 1 ≤ size }
        requires high { size ≤ 256 }
        ensures { let log : Cards = record { size = size; cards = [] } in result ≡ log }
    {
        Log {
            size,
            cards: ArrayVec::new(),
        }
    }

    /// How many cards the log has: fewer than its size.
    pub fn len(&self) -> usize
        ensures value { result ≡ length self.now.cards }
        ensures log { IsLog self.now }
    {
        self.cards.len()
    }

    /// Whether the log has no card.
    pub fn is_empty(&self) -> bool
        ensures { IsTrue result ↔ (self.now.cards ≡ []) }
    {
        self.cards.is_empty()
    }

    /// The cards of the log, oldest first.
    pub fn cards(&self) -> &[Card]
        ensures value { result.now ≡ self.now.cards }
        ensures log { IsLog self.now }
    {
        self.cards.as_slice()
    }

    /// Appends a card. If that fills the log, its cards are returned as a completed buffer, and the
    /// log is empty.
    ///
    /// A push costs a store into a fixed array and a comparison. If a buffer is returned, the call
    /// also moves 1,032 bytes out and fills the log's places anew.
    pub fn push(&mut self, card: Card) -> Option<Buffer>
        ensures buffer { result ≡ handed self.old card }
        ensures log { self.new ≡ pushed self.old card }
    {
        self.cards.push(card);
        if self.cards.len() < self.size {
            return None;
        }
        let filled = self.cards.take();
        Some(Buffer::of(filled))
    }

    /// Whether one more card does not fill the log. Constant time.
    pub fn has_room(&self) -> bool
        ensures { IsTrue result ↔ (length self.now.cards + 1 < self.now.size) }
    {
        self.len() + 1 < self.size
    }

    /// Appends a card that does not fill the log, as `push` does, and returns no buffer. It costs a
    /// store into a fixed array.
    pub fn add(&mut self, last: Card)
        requires { length self.old.cards + 1 < self.old.size }
        ensures { self.new ≡ pushed self.old last }
    {
        self.cards.push(last);
    }

    /// Returns the cards as a completed buffer, or `None` exactly if there are none. The log is
    /// then empty.
    pub fn take(&mut self) -> Option<Buffer>
        ensures none { IsNone result ↔ (self.old.cards ≡ []) }
        ensures buffer { IfSome result (λ cards. cards ≡ self.old.cards) }
        ensures log { self.new ≡ record self.old { cards = [] } }
    {
        if self.cards.is_empty() {
            return None;
        }
        Some(Buffer::of(self.cards.take()))
    }

    /// Removes the first `n` cards of the log.
    pub fn cut(&mut self, n: usize)
        requires { n ≤ length self.old.cards }
        ensures { self.new ≡ record self.old { cards = drop n self.old.cards } }
    {
        mem::drop(self.cards.drain(..n));
    }
}
