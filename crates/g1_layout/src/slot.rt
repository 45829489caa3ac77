//! The number of a slot.

ghost use Rattle.std.specs.Prelude.{◌≡◌};

use std::fmt;
use std::marker::Model;

/// A slot of the heap, which holds one reference or null. A slot that a reference refers to is
/// called a place.
///
/// A layout makes it ([`Layout::slot`](crate::Layout::slot)). The default is slot 0, which every
/// layout has.
#[derive(Clone, Copy, Debug, Default, PartialEq, Eq, PartialOrd, Ord, Hash)]
pub struct Slot {
    pub(crate) number: u32,
}

impl Model for Slot {
    ghost use Rattle.std.specs.Prelude.{ℕ};

    ghost Value = { ℕ };

    ghost view = { λ s. s.number };

    ghost inverse = { λ n. record { number = n } };
}

impl Slot {
    /// The slot's number. Slots are numbered from 0 in the order of the heap.
    pub fn number(self) -> u32
        ensures { result ≡ self }
    {
        self.number
    }
}

/// Formats the slot as its number.
impl fmt::Display for Slot {
    ghost use Rattle.std.specs.Prelude.{Some};
    ghost use Rattle.std.specs.Fmt.{decimal, styled_decimal};

    ghost output = { λ s. Some (decimal s) };

    ghost styled_output = { λ s style. Some (styled_decimal style s) };

    fn fmt<W: fmt::Write>(&self, f: &mut fmt::Formatter<W>) -> fmt::Result {
        fmt::Display::fmt(&self.number, f)
    }
}
