//! The number of a region.

ghost use Rattle.std.specs.Prelude.{◌≡◌};

use std::fmt;
use std::marker::Model;

/// A region: consecutive cards with one remembered set.
///
/// A layout makes it ([`Layout::region`](crate::Layout::region)). The default is region 0, which
/// every layout has.
#[derive(Clone, Copy, Debug, Default, PartialEq, Eq, PartialOrd, Ord, Hash)]
pub struct Region {
    pub(crate) number: u32,
}

impl Model for Region {
    ghost use Rattle.std.specs.Prelude.{ℕ};

    ghost Value = { ℕ };

    ghost view = { λ r. r.number };

    ghost inverse = { λ n. record { number = n } };
}

impl Region {
    /// The region's number. Regions are numbered from 0 in the order of the heap.
    pub fn number(self) -> u32
        ensures { result ≡ self }
    {
        self.number
    }
}

/// Formats the region as its number.
impl fmt::Display for Region {
    ghost use Rattle.std.specs.Prelude.{Some};
    ghost use Rattle.std.specs.Fmt.{decimal, styled_decimal};

    ghost output = { λ r. Some (decimal r) };

    ghost styled_output = { λ r style. Some (styled_decimal style r) };

    fn fmt<W: fmt::Write>(&self, f: &mut fmt::Formatter<W>) -> fmt::Result {
        fmt::Display::fmt(&self.number, f)
    }
}
