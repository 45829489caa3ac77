//! A slot's word, and what it refers to.
ghost use Rattle.std.specs.Prelude.{◌≡◌, ◌<◌, ◌^◌, ◌↔◌, ◌∷◌};
ghost use Rattle.g1_race.specs.{[], IsTrue, IfSome, MatchOption, slot_count, IsReference, IsWord};
ghost use Rattle.g1_race.specs.{IsPair, IsOfCrossing, slot_card, pair_at, shape_of, word_of};
ghost use Rattle.g1_race.specs.{target_of_word};

use crate::race::Race;
use g1_layout::{Layout, Slot};

// The word of a slot with this target.
pub(crate) fn word_of(target: Option<Slot>) -> u64
    requires { IfSome target (λ t. t < 2 ^ 32) }
    ensures { result ≡ word_of target }
{
    match target {
        Some(target) => target.number() as u64 + 1,
        None => 0,
    }
}

// Whether the word refers to a slot: it is neither null nor data.
#[inline(always)]
pub(crate) fn is_reference(word: u64) -> bool
    ensures { IsTrue result ↔ IsReference word }
{
    word != 0 && word <= u32::MAX as u64
}

// What a slot with this word refers to.
#[inline(always)]
pub(crate) fn refers_to(layout: Layout, word: u64) -> Option<Slot>
    requires word { IsWord (shape_of layout 0) word }
    requires low { slot_count layout < 2 ^ 32 }
    ensures target { result ≡ target_of_word word }
    ensures within { IfSome result (λ place. place < slot_count layout) }
{
    // (Null wraps round, and so is above all slots, as data is.)
    let number = word.wrapping_sub(1);
    if number < u64::from(layout.slot_count()) {
        layout.slot(number as u32)
    } else {
        None
    }
}

// The pair of a slot's word: the slot's card, and the region that the word refers into if that is
// another region.
#[inline(always)]
#[tactic(auto, using(crate::specs::card_below))]
pub(crate) fn pair_at(race: &Race, card: usize, slot: usize, word: u64) -> Option<(usize, usize)>
    requires slot { slot < slot_count race.now.layout }
    requires card { card ≡ slot_card race.now.shape slot }
    requires word { IsWord race.now.shape word }
    ensures pair { MatchOption result (pair_at race.now.shape slot word ≡ [])
        (λ pair. pair_at race.now.shape slot word ≡ pair ∷ []) }
    ensures within { IfSome result (IsPair race.now.shape) }
    ensures proper { IfSome result (IsOfCrossing race.now.shape) }
{
    // Most words are null.
    if word == 0 {
        return None;
    }
    let layout = race.layout;
    let target = refers_to(layout, word)?;
    let region = layout.region_of(target);
    if layout.region_of(layout.slot(slot as u32)?) == region {
        return None;
    }
    Some((card, region.number() as usize))
}
