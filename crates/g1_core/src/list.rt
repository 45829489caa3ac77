//! A list of cards, as replies hold it.
ghost use Rattle.std.specs.Prelude.{◌≡◌, ◌==◌};
ghost use Rattle.g1_core.specs.Prelude.{[], length, IfOk};

use g1_layout::{Card, NoMemory};
use std::alloc::Global;
use std::marker::Model;

/// Cards in order: a `Vec` that contracts see as a plain list.
#[derive(Debug, Drop)]
pub struct CardList {
    cards: Vec<Card>,
}

impl Model for CardList {
    ghost use Rattle.g1_core.specs.Prelude.{ℕ, List};

    ghost Value = { List ℕ };

    ghost view = { λ a. a.cards.items };
}

impl CardList {
    /// Makes an empty list. It takes no memory.
    pub fn new(alloc: Global) -> CardList
        ensures { result ≡ [] }
    {
        CardList {
            cards: Vec::new(alloc),
        }
    }

    /// Makes a list of the cards of a `Vec`. It takes no memory.
    pub fn of(cards: Vec<Card>) -> CardList
        ensures { result ≡ cards.items }
    {
        CardList { cards }
    }

    /// Returns the `Vec` of the cards. It takes no memory.
    pub fn into_vec(self) -> Vec<Card>
        ensures { result.items ≡ self }
    {
        let CardList { cards } = self;
        cards
    }

    /// The cards.
    pub fn as_slice(&self) -> &[Card]
        ensures { result.now ≡ self.now }
    {
        self.cards.as_slice()
    }

    /// How many cards there are.
    pub fn len(&self) -> usize
        ensures { result ≡ length self.now }
    {
        self.cards.len()
    }

    /// Whether there are no cards.
    pub fn is_empty(&self) -> bool
        ensures { result ≡ (length self.now == 0) }
    {
        self.cards.is_empty()
    }

    /// Copies the cards into a list of their own.
    ///
    /// Returns `NoMemory` if its room was refused. A copy of no cards takes no memory.
    pub fn try_clone(&self, alloc: Global) -> Result<CardList, NoMemory>
        ensures { IfOk result (λ list. list ≡ self.now) }
    {
        let cards = Vec::from_slice(alloc, self.cards.as_slice())?;
        Ok(CardList { cards })
    }
}
