//! The set of one region, and the sets of all.
ghost use Rattle.std.specs.Prelude.{◌≡◌, ◌<◌, ◌≤◌, ◌+◌, ◌^◌, ◌∷◌};
ghost use Rattle.g1_sets.specs.{[], ℕ, List, length, slice_index, slice_set, sum_by, All, OnOk};
ghost use Rattle.g1_sets.specs.{OnErr, spare, lists_of, rooms_of, HaveRoom, list_at, with_card};
ghost use Rattle.g1_sets.specs.{with_cards, Joins, IsRowOf};

use crate::hasher::CardHasher;
use g1_layout::{Card, NoMemory, Region, RegionSet};
use indexmap::IndexSet;
use std::hash::BuildHasherDefault;

// The cards of one region. Their numbers are the heap's own, so nobody chooses them to collide.
pub(crate) type Members = IndexSet<Card, BuildHasherDefault<CardHasher>>;

// Makes room for one card more, where there is none.
fn make_room(members: &mut Members) -> Result<(), NoMemory>
    ensures cards { members.new.keys ≡ members.old.keys }
    ensures room { OnOk result (0 < spare members.new) }
    ensures kept { spare members.old ≤ spare members.new }
{
    if members.len() == members.capacity() {
        members.reserve(1)?;
    }
    Ok(())
}

// Inserts the card into a set with room.
#[inline(always)]
fn insert(members: &mut Members, card: Card)
    requires { 0 < spare members.old }
    ensures cards { members.new.keys ≡ with_card members.old.keys card }
    ensures room { spare members.old ≤ spare members.new + 1 }
{
    members.insert(card).unwrap();
}

// Inserts the card, with a growth where there is no room. Nothing has changed if it is refused.
#[inline(always)]
fn insert_growing(members: &mut Members, card: Card) -> Result<(), NoMemory>
    ensures cards { OnOk result (members.new.keys ≡ with_card members.old.keys card) }
    ensures err { OnErr result (members.new.keys ≡ members.old.keys) }
{
    let Ok(_) = members.insert(card) else {
        return Err(NoMemory);
    };
    Ok(())
}

// Inserts the cards into a set with room for all of them.
fn insert_cards(members: &mut Members, cards: &[Card])
    requires { length cards.now ≤ spare members.old }
    ensures { members.new.keys ≡ with_cards members.old.keys cards.now }
{
    for card in cards {
        insert(members, *card);
    }
}

// Inserts the card into the sets of the regions, and the regions into its row. The first set grows
// as it takes the card, and the others before, so that nothing has changed if a growth is refused.
pub(crate) fn join(
    sets: &mut [Members],
    row: &mut RegionSet,
    card: Card,
    regions: &[Region],
) -> Result<(), NoMemory>
    requires limit { length sets.old ≤ 256 }
    requires within { All (λ region. region < length sets.old) regions.now }
    requires row { IsRowOf (lists_of sets.old) card row.old }
    ensures joins { OnOk result (Joins card regions.now (lists_of sets.old) (lists_of sets.new)) }
    ensures row { OnOk result (IsRowOf (lists_of sets.new) card row.new) }
    ensures err { OnErr result (lists_of sets.new ≡ lists_of sets.old) }
    ensures err_row { OnErr result (row.new ≡ row.old) }
{
    let Some((first, others)) = regions.split_first() else {
        return Ok(());
    };
    make_rooms(sets, row, others)?;
    insert_first(sets, row, card, *first)?;
    insert_into(sets, row, card, others);
    Ok(())
}

// Inserts the card into the set of a region and the region into its row, if it is not there. Where
// a region of the row or one with room was enough, it still is.
#[inline(always)]
fn insert_first(
    sets: &mut [Members],
    row: &mut RegionSet,
    card: Card,
    region: Region,
) -> Result<(), NoMemory>
    requires limit { length sets.old ≤ 256 }
    requires within { region < length sets.old }
    requires row { IsRowOf (lists_of sets.old) card row.old }
    ensures joins { OnOk result (Joins card (region ∷ []) (lists_of sets.old) (lists_of sets.new)) }
    ensures row { OnOk result (IsRowOf (lists_of sets.new) card row.new) }
    ensures room { OnOk result ((regions : List ℕ) → HaveRoom row.old (rooms_of sets.old) regions
        → HaveRoom row.new (rooms_of sets.new) regions) }
    ensures err { OnErr result (lists_of sets.new ≡ lists_of sets.old) }
    ensures err_row { OnErr result (row.new ≡ row.old) }
{
    if row.contains(region) {
        return Ok(());
    }
    insert_growing(&mut sets[region.number() as usize], card)?;
    row.insert(region);
    Ok(())
}

// Makes room for one card more in each of the regions that are not in the card's row.
fn make_rooms(sets: &mut [Members], row: &RegionSet, regions: &[Region]) -> Result<(), NoMemory>
    requires limit { length sets.old ≤ 256 }
    requires within { All (λ region. region < length sets.old) regions.now }
    ensures cards { lists_of sets.new ≡ lists_of sets.old }
    ensures room { OnOk result (HaveRoom row.now (rooms_of sets.new) regions.now) }
{
    for region in regions {
        if !row.contains(*region) {
            make_room(&mut sets[region.number() as usize])?;
        }
    }
    Ok(())
}

// Inserts the card into the sets of the regions, and the regions into its row.
fn insert_into(sets: &mut [Members], row: &mut RegionSet, card: Card, regions: &[Region])
    requires limit { length sets.old ≤ 256 }
    requires within { All (λ region. region < length sets.old) regions.now }
    requires row { IsRowOf (lists_of sets.old) card row.old }
    requires room { HaveRoom row.old (rooms_of sets.old) regions.now }
    ensures joins { Joins card regions.now (lists_of sets.old) (lists_of sets.new) }
    ensures row { IsRowOf (lists_of sets.new) card row.new }
{
    for region in regions {
        if !row.contains(*region) {
            insert(&mut sets[region.number() as usize], card);
            row.insert(*region);
        }
    }
}

// Makes room for as many more cards in the set of one region.
pub(crate) fn make_room_for(
    sets: &mut [Members],
    region: Region,
    more: usize,
) -> Result<(), NoMemory>
    requires { region < length sets.old }
    ensures cards { lists_of sets.new ≡ lists_of sets.old }
    ensures room { OnOk result (more ≤ slice_index (rooms_of sets.new) region) }
{
    sets[region.number() as usize].reserve(more)?;
    Ok(())
}

// Inserts the cards into the set of one region.
pub(crate) fn insert_many(sets: &mut [Members], region: Region, cards: &[Card])
    requires within { region < length sets.old }
    requires room { length cards.now ≤ slice_index (rooms_of sets.old) region }
    ensures { lists_of sets.new ≡ slice_set (lists_of sets.old) region
        (with_cards (list_at (lists_of sets.old) region) cards.now) }
{
    insert_cards(&mut sets[region.number() as usize], cards);
}

// How many cards the sets have together.
pub(crate) fn total(sets: &[Members]) -> u64
    requires { sum_by length (lists_of sets.now) < 2 ^ 64 }
    ensures { result ≡ sum_by length (lists_of sets.now) }
{
    let mut total = 0;
    for members in sets {
        total += members.len() as u64;
    }
    total
}
