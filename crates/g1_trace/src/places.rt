//! The words behind the first word of a line: all are read, and then each is tested against its
//! limit.
//!
//! `Words` is returned if there are more or fewer words than the command has, `NotNumber` if a word
//! is no number, and only then the fault of the leftmost number that is too large for its place.

ghost use Rattle.std.specs.Prelude.{◌≡◌, ◌<◌};
ghost use Rattle.g1_trace.specs.{ℕ, [], min, IfOk, IfSome, IsShape, slot_count, card_count};
ghost use Rattle.g1_trace.specs.{NoMutator, NoSlot, NoCard, NoRegion, words_from, read_number};
ghost use Rattle.g1_trace.specs.{fit_below, fit_target, read_target, read_none, read_one, read_two};
ghost use Rattle.g1_trace.specs.{read_three, mutator_place, slot_place, card_place, region_place};
ghost use Rattle.g1_trace.specs.{target_place, number_place};

use crate::fault::TraceFault;
use crate::words::{is, is_blank, single_word, three_words, two_words};
use g1_layout::{Card, Layout, Region, Slot};

/// Returns the number, or the largest of 32 bits if it is larger. That is past every limit too.
pub fn clamped(number: u64) -> u32
    ensures { result ≡ min number 4294967295 }
{
    number.min(u64::from(u32::MAX)) as u32
}

/// Returns the mutator of this number, if it is below `mutators`; else `NoMutator`.
pub fn mutator(mutators: u32, number: u64) -> Result<u32, TraceFault>
    ensures read { result ≡ fit_below mutators NoMutator number }
    ensures valid { IfOk result (λ m. m < mutators) }
{
    if number < u64::from(mutators) {
        Ok(number as u32)
    } else {
        Err(TraceFault::NoMutator)
    }
}

/// Returns the slot of this number; `NoSlot` if the heap has none.
pub fn slot(layout: Layout, number: u64) -> Result<Slot, TraceFault>
    requires { IsShape layout }
    ensures read { result ≡ fit_below (slot_count layout) NoSlot number }
    ensures valid { IfOk result (λ s. s < slot_count layout) }
{
    match layout.slot(clamped(number)) {
        Some(slot) => Ok(slot),
        None => Err(TraceFault::NoSlot),
    }
}

fn card(layout: Layout, number: u64) -> Result<Card, TraceFault>
    requires { IsShape layout }
    ensures read { result ≡ fit_below (card_count layout) NoCard number }
    ensures valid { IfOk result (λ c. c < card_count layout) }
{
    match layout.card(clamped(number)) {
        Some(card) => Ok(card),
        None => Err(TraceFault::NoCard),
    }
}

fn region(layout: Layout, number: u64) -> Result<Region, TraceFault>
    requires { IsShape layout }
    ensures read { result ≡ fit_below layout.regions NoRegion number }
    ensures valid { IfOk result (λ r. r < layout.regions) }
{
    match layout.region(clamped(number)) {
        Some(region) => Ok(region),
        None => Err(TraceFault::NoRegion),
    }
}

// A number, or none for the word `null`.
fn number_or_null(word: &[u8], number: Result<u64, TraceFault>) -> Result<Option<u64>, TraceFault>
    requires { number ≡ read_number word.now }
    ensures { result ≡ read_target word.now }
{
    if is(word, b"null") {
        return Ok(None);
    }
    let number = number?;
    Ok(Some(number))
}

/// Returns the place of this number, or null for none; `NoSlot` if the heap has no such slot.
pub fn target(layout: Layout, number: Option<u64>) -> Result<Option<Slot>, TraceFault>
    requires { IsShape layout }
    ensures read { result ≡ fit_target layout number }
    ensures valid { IfOk result (λ t. IfSome t (λ s. s < slot_count layout)) }
{
    match number {
        None => Ok(None),
        Some(number) => {
            let slot = slot(layout, number)?;
            Ok(Some(slot))
        }
    }
}

/// No word.
#[tactic(auto, using(crate::proofs::PlaceLemmas::some_word))]
pub fn nothing(words: &[u8]) -> Result<(), TraceFault>
    ensures { result ≡ read_none (words_from [] words.now) }
{
    if is_blank(words) {
        Ok(())
    } else {
        Err(TraceFault::Words)
    }
}

// One number and no more.
#[tactic(auto, using(crate::proofs::PlaceLemmas::not_one))]
fn one_number(words: &[u8]) -> Result<u64, TraceFault>
    ensures { result ≡ read_one number_place (words_from [] words.now) }
{
    match single_word(words) {
        Some((_, number)) => number,
        None => Err(TraceFault::Words),
    }
}

/// The number of a mutator, of which there are `mutators`.
pub fn one_mutator(mutators: u32, words: &[u8]) -> Result<u32, TraceFault>
    ensures read { result ≡ read_one (mutator_place mutators) (words_from [] words.now) }
    ensures valid { IfOk result (λ m. m < mutators) }
{
    let number = one_number(words)?;
    mutator(mutators, number)
}

/// One slot of the heap.
pub fn one_slot(layout: Layout, words: &[u8]) -> Result<Slot, TraceFault>
    requires { IsShape layout }
    ensures read { result ≡ read_one (slot_place layout) (words_from [] words.now) }
    ensures valid { IfOk result (λ s. s < slot_count layout) }
{
    let number = one_number(words)?;
    slot(layout, number)
}

/// One card of the heap.
pub fn one_card(layout: Layout, words: &[u8]) -> Result<Card, TraceFault>
    requires { IsShape layout }
    ensures read { result ≡ read_one (card_place layout) (words_from [] words.now) }
    ensures valid { IfOk result (λ c. c < card_count layout) }
{
    let number = one_number(words)?;
    card(layout, number)
}

/// One region of the heap.
pub fn one_region(layout: Layout, words: &[u8]) -> Result<Region, TraceFault>
    requires { IsShape layout }
    ensures read { result ≡ read_one (region_place layout) (words_from [] words.now) }
    ensures valid { IfOk result (λ r. r < layout.regions) }
{
    let number = one_number(words)?;
    region(layout, number)
}

/// Two regions of the heap.
#[tactic(auto, using(crate::proofs::PlaceLemmas::not_two))]
pub fn two_regions(layout: Layout, words: &[u8]) -> Result<(Region, Region), TraceFault>
    requires { IsShape layout }
    ensures read { result ≡ read_two (region_place layout) (region_place layout)
        (words_from [] words.now) }
    ensures valid { IfOk result (λ p. (p.0 < layout.regions) × (p.1 < layout.regions)) }
{
    let Some(((_, first), (_, second))) = two_words(words) else {
        return Err(TraceFault::Words);
    };
    let first = first?;
    let second = second?;
    let from = region(layout, first)?;
    let to = region(layout, second)?;
    Ok((from, to))
}

/// A mutator, the slot that it writes, and a slot or `null`.
#[tactic(auto, using(crate::proofs::PlaceLemmas::not_three))]
pub fn store_places(
    layout: Layout,
    mutators: u32,
    words: &[u8],
) -> Result<(u32, Slot, Option<Slot>), TraceFault>
    requires { IsShape layout }
    ensures read { result ≡ read_three (mutator_place mutators) (slot_place layout)
        (target_place layout) (words_from [] words.now) }
    ensures valid { IfOk result (λ p. (p.0 < mutators) × (p.1 < slot_count layout)
        × IfSome p.2 (λ t. t < slot_count layout)) }
{
    let Some(((_, first), (_, second), (word, third))) = three_words(words) else {
        return Err(TraceFault::Words);
    };
    let first = first?;
    let second = second?;
    let third = number_or_null(word, third)?;
    let mutator = mutator(mutators, first)?;
    let slot = slot(layout, second)?;
    let target = target(layout, third)?;
    Ok((mutator, slot, target))
}

/// Three numbers.
#[tactic(auto, using(crate::proofs::PlaceLemmas::not_three))]
pub fn three_numbers(words: &[u8]) -> Result<(u64, u64, u64), TraceFault>
    ensures { result ≡ read_three number_place number_place number_place (words_from [] words.now) }
{
    let Some(((_, first), (_, second), (_, third))) = three_words(words) else {
        return Err(TraceFault::Words);
    };
    let first = first?;
    let second = second?;
    let third = third?;
    Ok((first, second, third))
}
