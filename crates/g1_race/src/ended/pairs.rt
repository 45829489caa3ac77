//! The recorded pairs of a race that is over.
ghost use Rattle.std.specs.Prelude.{◌≡◌, ◌≢◌, ◌==◌, ◌+◌, ◌*◌, ◌/◌, ◌%◌, ◌<◌, ◌≤◌, ◌++◌};
ghost use Rattle.g1_race.specs.{IfOk, OnOk, length, slice_index, bit_at, slots_items, slots_len};
ghost use Rattle.g1_race.specs.{IsFull, IsWholeShape, IsPair, bit_word, bit_index, pairs_of_card};
ghost use Rattle.g1_race.specs.{pairs_up_to, word_count, shape_of, block_regions};

use crate::bits::bit_of;
use arrayvec::ArrayVec;
use atomic_table::Closed;
use g1_layout::{Card, Layout, NoMemory, Region};
use g1_race_words::RaceShape;
use std::alloc::Global;

// Whether the pair's bit is set.
#[tactic(auto, using(crate::specs::shr_and_one, crate::specs::read_is))]
pub(crate) fn has_bit(
    words: &Closed<(), Global>,
    shape: RaceShape,
    card: usize,
    region: usize,
) -> bool
    requires shape { IsWholeShape shape }
    requires pair { IsPair shape (card, region) }
    requires words { (slots_len words.now.words ≡ word_count shape)
        × (length (slots_items words.now.words) ≡ word_count shape)
        × IsFull words.now.words }
    ensures { let words = slots_items words.now.words in
        let word = slice_index words (bit_word shape (card, region)) in
        result ≡ (bit_at word (bit_index shape (card, region)) == 1) }
{
    let (at, index) = bit_of(shape, card, region);
    (words.word(at) >> index) & 1 == 1
}

// The pairs whose bits are set, by card and then by region. Looks at each word of bits twice, and
// at the single bits of those alone that are not 0.
pub(crate) fn list_pairs(
    alloc: Global,
    words: &Closed<(), Global>,
    layout: Layout,
    shape: RaceShape,
) -> Result<Vec<(Card, Region)>, NoMemory>
    requires shape { IsWholeShape shape }
    requires laid { shape ≡ shape_of layout shape.parties }
    requires words { (slots_len words.now.words ≡ word_count shape)
        × (length (slots_items words.now.words) ≡ word_count shape)
        × IsFull words.now.words }
    ensures { IfOk result (λ pairs.
        pairs.items ≡ pairs_up_to shape (slots_items words.now.words) shape.cards) }
{
    let _counts = layout.counts();
    let mut pairs = Vec::with_capacity(alloc, count_bits(words, shape))?;
    let mut regions = ArrayVec::new();
    for card in 0..shape.cards {
        note_regions(words, shape, card, &mut regions);
        list_card(words, layout, shape, card, regions.as_slice(), &mut pairs)?;
    }
    Ok(pairs)
}

// Makes sure that these are the regions with which some card of the card's block has a recorded
// pair. The block is the 64 cards whose bits lie in one word. If the card before is of the same
// block, its regions are these already.
fn note_regions(
    words: &Closed<(), Global>,
    shape: RaceShape,
    card: usize,
    regions: &mut ArrayVec<usize, 256>,
)
    requires shape { IsWholeShape shape }
    requires card { card < shape.cards }
    requires few { shape.regions ≤ 256 }
    requires words { (slots_len words.now.words ≡ word_count shape)
        × (length (slots_items words.now.words) ≡ word_count shape)
        × IsFull words.now.words }
    requires regions { card % 64 ≢ 0 → let words = slots_items words.now.words in
        regions.old.items ≡ block_regions shape words (card / 64) shape.regions }
    ensures { let words = slots_items words.now.words in
        regions.new.items ≡ block_regions shape words (card / 64) shape.regions }
{
    if card % 64 != 0 {
        return;
    }
    regions.clear();
    for region in 0..shape.regions {
        let (at, _) = bit_of(shape, card, region);
        if words.word(at) != 0 {
            regions.push(region);
        }
    }
}

// Adds the pairs of a card with these regions, which are all that it can have one with.
#[tactic(auto, using(crate::proofs::of_a_block))]
fn list_card(
    words: &Closed<(), Global>,
    layout: Layout,
    shape: RaceShape,
    card: usize,
    regions: &[usize],
    pairs: &mut Vec<(Card, Region)>,
) -> Result<(), NoMemory>
    requires shape { IsWholeShape shape }
    requires laid { shape ≡ shape_of layout shape.parties }
    requires card { card < shape.cards }
    requires words { (slots_len words.now.words ≡ word_count shape)
        × (length (slots_items words.now.words) ≡ word_count shape)
        × IsFull words.now.words }
    requires regions { let words = slots_items words.now.words in
        regions.now ≡ block_regions shape words (card / 64) shape.regions }
    ensures { OnOk result (pairs.new.items ≡ pairs.old.items
        ++ pairs_of_card shape (slots_items words.now.words) card shape.regions) }
{
    for region in regions {
        if has_bit(words, shape, card, *region) {
            pairs.push(pair_numbered(layout, shape, card, *region))?;
        }
    }
    Ok(())
}

// The pair with these numbers.
fn pair_numbered(layout: Layout, shape: RaceShape, card: usize, region: usize) -> (Card, Region)
    requires shape { IsWholeShape shape }
    requires laid { shape ≡ shape_of layout shape.parties }
    requires pair { IsPair shape (card, region) }
    ensures { result ≡ (card, region) }
{
    let (Some(card), Some(region)) = (layout.card(card as u32), layout.region(region as u32)) else {
        unreachable!()
    };
    (card, region)
}

// How many bits are set: room for that many pairs is asked for at once.
fn count_bits(words: &Closed<(), Global>, shape: RaceShape) -> usize
    requires shape { IsWholeShape shape }
    requires words { (slots_len words.now.words ≡ word_count shape)
        × (length (slots_items words.now.words) ≡ word_count shape)
        × IsFull words.now.words }
{
    let mut count = 0;
    for i in 0..shape.bits {
        count += words.word(shape.slots + shape.cards + i).count_ones() as usize;
    }
    count
}
