//! Division by a count of the layout as one multiplication.

ghost use Rattle.std.specs.Prelude.{◌≡◌, ◌/◌, ◌<◌, ◌≤◌};
ghost use Rattle.g1_layout.specs.Reciprocal.{IsDivided};

use std::marker::Model;

/// The scale of the slots a card: 2^38. It divides numbers below 2^30 by counts up to 2^6 exactly,
/// and quotients below 2^24, which are cards, leave the product within 64 bits.
pub(crate) const TO_CARDS: u64 = 274_877_906_944;

/// The scale of the slots and of the cards a region: 2^52. It divides numbers below 2^30 by counts
/// up to 2^22 exactly, and quotients below 2^8, which are regions, leave the product within 64
/// bits.
pub(crate) const TO_REGIONS: u64 = 4_503_599_627_370_496;

/// A count d, kept with the first number above `SCALE` / d. A number times that, divided by the
/// scale (a shift), is the number divided by d. Each barrier divides, and a division costs three
/// times this multiplication.
///
/// No one scale serves all counts. A quotient is exact where the number times the count is below
/// the scale, and the product is about the quotient times the scale, which must stay below 2^64.
#[derive(Clone, Copy, Debug)]
pub(crate) struct Reciprocal<const SCALE: u64> {
    divisor: u32,
    multiplier: u64,
}

impl<const SCALE: u64> Model for Reciprocal<SCALE> {
    ghost use Rattle.std.specs.Prelude.{ℕ};
    ghost use Rattle.g1_layout.specs.Reciprocal.{IsReciprocal, multiplier_of};

    ghost Value = { ℕ };

    ghost view = { λ r. r.divisor };

    ghost invariant = { λ r. IsReciprocal SCALE r.divisor r.multiplier };

    ghost inverse = { λ n. record { divisor = n; multiplier = multiplier_of SCALE n } };

    ghost use Rattle.std.proofs.Common.{sym};

    ghost inverse_ok = { λ r h. λ i. record {
      divisor = r.divisor;
      multiplier = sym h.multiplier_is i;
    } };
}

impl<const SCALE: u64> Reciprocal<SCALE> {
    /// The reciprocal of a count.
    pub(crate) fn new(divisor: u32) -> Reciprocal<SCALE>
        requires some { 0 < divisor }
        requires scale { SCALE ≤ 9223372036854775808 }
        ensures { result ≡ divisor }
    {
        Reciprocal {
            divisor,
            multiplier: SCALE / u64::from(divisor) + 1,
        }
    }

    /// The count itself.
    pub(crate) fn divisor(&self) -> u32
        ensures { result ≡ self.now }
    {
        self.divisor
    }

    /// The quotient, rounded down, of a number and this count.
    pub(crate) fn quotient(&self, number: u32) -> u32
        requires { IsDivided SCALE self.now number }
        ensures { result ≡ number / self.now }
    {
        (u64::from(number) * self.multiplier / SCALE) as u32
    }
}
