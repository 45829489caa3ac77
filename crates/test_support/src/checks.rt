//! How values are compared.
ghost use Rattle.std.specs.Prelude.{◌↔◌, IsOk, IsTrue};

use crate::failure::Failure;
use g1_layout::Card;
use std::fmt::Debug;

/// Says what does not hold.
pub fn check(rt: &impl Eprint, holds: bool, what: &str) -> Result<(), Failure>
    ensures { IsOk result ↔ IsTrue holds }
{
    if holds {
        return Ok(());
    }
    let _ = eprintln!(rt; "wrong: {what}");
    Err(Failure::Wrong)
}

/// Says what was got where it is not what was wanted.
pub fn equal<T: PartialEq + Debug + Drop>(
    rt: &impl Eprint,
    what: &str,
    got: T,
    want: T,
) -> Result<(), Failure> {
    if got == want {
        return Ok(());
    }
    let _ = eprintln!(rt; "wrong: {what}: {got:?}, and not {want:?}");
    Err(Failure::Wrong)
}

/// Whether the cards have just these numbers, in this order.
pub fn are_numbered(cards: &[Card], numbers: &[u32]) -> bool {
    for (card, number) in cards.iter().zip(numbers) {
        if card.number() != *number {
            return false;
        }
    }
    cards.len() == numbers.len()
}

/// Says which cards were got where they have not just these numbers, in this order.
pub fn numbered(
    rt: &impl Eprint,
    what: &str,
    cards: &[Card],
    numbers: &[u32],
) -> Result<(), Failure> {
    if are_numbered(cards, numbers) {
        return Ok(());
    }
    let _ = eprintln!(rt; "wrong: {what}: {cards:?}, and not {numbers:?}");
    Err(Failure::Wrong)
}
