//! Slots, cards, regions and buffers by their numbers.
//!
//! The heap of most tests has 4 regions of 2 cards of 4 slots: card `c` has the slots from `4 * c`
//! on, region `r` those from `8 * r` on.
ghost use Rattle.std.specs.Prelude.{◌≡◌, ◌≢◌, ◌<◌, IfOk, IfSome};
ghost use Rattle.g1_layout.specs.Shape.{slot_count, card_count};

use crate::failure::Failure;
use arrayvec::ArrayVec;
use g1_layout::{Card, Layout, Region, Slot};
use g1_log::Buffer;

/// The heap of most tests.
pub fn small() -> Result<Layout, Failure> {
    Layout::new(4, 2, 4).ok_or(Failure::Wrong)
}

/// The slot of this number, counted from 0 through the whole heap. `Wrong` if it has no such slot.
pub fn slot(layout: Layout, number: u32) -> Result<Slot, Failure>
    ensures within { IfOk result (λ slot. slot < slot_count layout) }
    ensures value { IfOk result (λ slot. slot ≡ number) }
{
    layout.slot(number).ok_or(Failure::Wrong)
}

/// A place, or null.
pub fn place(layout: Layout, number: Option<u32>) -> Result<Option<Slot>, Failure>
    ensures { IfOk result (λ place. IfSome place (λ slot. slot < slot_count layout)) }
{
    match number {
        Some(number) => Ok(Some(slot(layout, number)?)),
        None => Ok(None),
    }
}

/// The card of this number, counted from 0 through the whole heap. `Wrong` if it has no such card.
pub fn card(layout: Layout, number: u32) -> Result<Card, Failure>
    ensures { IfOk result (λ card. card < card_count layout) }
{
    layout.card(number).ok_or(Failure::Wrong)
}

/// The region of this number, counted from 0. `Wrong` if the heap has no such region.
pub fn region(layout: Layout, number: u32) -> Result<Region, Failure>
    ensures within { IfOk result (λ region. region < layout.regions) }
    ensures value { IfOk result (λ region. region ≡ number) }
{
    layout.region(number).ok_or(Failure::Wrong)
}

/// Two regions.
pub fn regions(layout: Layout, first: u32, second: u32) -> Result<(Region, Region), Failure>
    ensures first { IfOk result (λ both. both.0 < layout.regions) }
    ensures second { IfOk result (λ both. both.1 < layout.regions) }
    ensures apart { IfOk result (λ both. both.0 ≢ both.1) }
{
    let first = region(layout, first)?;
    let second = region(layout, second)?;
    if first == second {
        return Err(Failure::Wrong);
    }
    Ok((first, second))
}

/// A buffer of the cards of these numbers, which need not be of the heap that refines it.
pub fn buffer(numbers: &[u32]) -> Result<Buffer, Failure> {
    let largest = Layout::large(256, 65_536, 1).ok_or(Failure::Wrong)?;
    let mut cards = ArrayVec::new();
    for number in numbers {
        cards.try_push(card(largest, *number)?)?;
    }
    Ok(Buffer::of(cards))
}

/// The number of the place that a slot refers to.
pub fn number_of(place: Option<Slot>) -> Option<u32> {
    Some(place?.number())
}

/// A few numbers in order, which take no memory: as many as a small heap has cards.
pub type Numbers = ArrayVec<u32, 8>;

/// The numbers of the cards.
pub fn numbers_of(cards: &[Card]) -> Result<Numbers, Failure> {
    let mut numbers = ArrayVec::new();
    for card in cards {
        numbers.try_push(card.number())?;
    }
    Ok(numbers)
}
