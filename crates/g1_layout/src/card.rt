//! The number of a card.

ghost use Rattle.std.specs.Prelude.{◌≡◌};

use std::fmt;
use std::marker::Model;

/// A card: consecutive slots that share one entry in the card table.
///
/// A layout makes it ([`Layout::card`](crate::Layout::card)). The default is card 0, which every
/// layout has.
#[derive(Clone, Copy, Debug, Default, PartialEq, Eq, PartialOrd, Ord, Hash)]
pub struct Card {
    pub(crate) number: u32,
}

impl Model for Card {
    ghost use Rattle.std.specs.Prelude.{ℕ};

    ghost Value = { ℕ };

    ghost view = { λ c. c.number };

    ghost inverse = { λ n. record { number = n } };
}

impl Card {
    /// The card's number. Cards are numbered from 0 in the order of the heap.
    pub fn number(self) -> u32
        ensures { result ≡ self }
    {
        self.number
    }
}

/// Formats the card as its number.
impl fmt::Display for Card {
    ghost use Rattle.std.specs.Prelude.{Some};
    ghost use Rattle.std.specs.Fmt.{decimal, styled_decimal};

    ghost output = { λ c. Some (decimal c) };

    ghost styled_output = { λ c style. Some (styled_decimal style c) };

    fn fmt<W: fmt::Write>(&self, f: &mut fmt::Formatter<W>) -> fmt::Result {
        fmt::Display::fmt(&self.number, f)
    }
}
