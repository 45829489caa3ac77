//! Completed buffers.
ghost use Rattle.std.specs.Prelude.{◌≡◌, ◌≤◌};
ghost use Rattle.g1_log.specs.Prelude.{length, drop};

use arrayvec::ArrayVec;
use g1_layout::Card;
use std::marker::Model;
use std::mem;

/// A completed buffer: the cards of a log, oldest first. It has at most 256 cards, and may have
/// none.
///
/// Contracts see the list of the cards' numbers. The value holds the cards itself: a move copies
/// 1,032 bytes, and no call takes memory (ISMM 2004, section 2.2, Remembered Set Maintenance).
#[derive(Debug, Drop)]
pub struct Buffer {
    cards: ArrayVec<Card, 256>,
}

impl Model for Buffer {
    ghost use Rattle.std.specs.Prelude.{◌≤◌};
    ghost use Rattle.g1_log.specs.Prelude.{List, ℕ, length};

    ghost Value = { List ℕ };

    ghost view = { λ b. b.cards.items };
}

impl Buffer {
    /// Makes a buffer of these cards, oldest first. There may be none.
    pub fn of(cards: ArrayVec<Card, 256>) -> Buffer
        ensures { result ≡ cards.items }
    {
        Buffer { cards }
    }

    /// The cards, oldest first: at most 256.
    pub fn cards(&self) -> &[Card]
        ensures cards { result.now ≡ self.now }
        ensures few { length result.now ≤ 256 }
    {
        self.cards.as_slice()
    }

    // Removes the first `n` cards.
    pub(crate) fn cut(&mut self, n: usize)
        requires { n ≤ length self.old }
        ensures { self.new ≡ drop n self.old }
    {
        mem::drop(self.cards.drain(..n));
    }
}
