//! The remembered sets: making them, recording cards and listing them take memory.
ghost use Rattle.std.specs.Prelude.{◌≡◌, IfOk};

use crate::outcome::told;
use g1_layout::{Card, Layout};
use g1_sets::Sets;
use test_support::Failure;
use test_support::checks::{check, equal};
use test_support::failure::{refused, retried};
use test_support::numbers::{card, region};

// How many regions of how many cards the heap of a list has, and how many cards the list. The bits
// for the cards of the last heap, of more than 65,536 cards, are a growth of their own.
static LISTS: [(&str, u32, u32, u32); 3] = [
    ("a list of few cards", 4, 4, 6),
    ("a list of many cards", 8, 128, 600),
    ("a list of many cards of a large heap", 2, 40_000, 1_100),
];

pub(crate) fn play<R: Print + Eprint + AllocGlobal>(rt: &R) -> Result<(), Failure> {
    told(rt, "cards recorded one by one", recorded(rt))?;
    told(rt, "cards recorded together", recorded_together(rt))?;
    told(rt, "cards recorded again", recorded_again(rt))?;
    for (name, regions, cards, members) in LISTS {
        told(rt, name, listed(rt, regions, cards, members))?;
    }
    Ok(())
}

fn new_sets<R: Eprint + AllocGlobal>(rt: &R, layout: Layout) -> Result<Sets, Failure>
    ensures { IfOk result (λ sets. sets.layout ≡ layout) }
{
    let alloc = rt.alloc();
    retried(rt, "Sets::new", || Sets::new(alloc, layout))
}

/// Sets whose cards and regions are named by number.
#[derive(Drop)]
struct Numbered {
    layout: Layout,
    sets: Sets,
    ghost same: { sets.layout ≡ layout },
}

impl Numbered {
    // Sets of no card, for `regions` regions of `cards` cards.
    fn new<R: Eprint + AllocGlobal>(rt: &R, regions: u32, cards: u32) -> Result<Numbered, Failure> {
        let layout = Layout::large(regions, cards, 1).ok_or(Failure::Wrong)?;
        let sets = new_sets(rt, layout)?;
        equal(rt, "how many cards new sets have", sets.total(), 0)?;
        Ok(Numbered { layout, sets })
    }

    // Whether the region's set has just these cards and then `count` from 0 on, in the order of
    // insertion.
    fn has_just(
        &self,
        rt: &impl Eprint,
        of: u32,
        first: &[u32],
        count: u32,
    ) -> Result<(), Failure> {
        let of = region(self.layout, of)?;
        let members = self.sets.members(of);
        let wanted = first.len().saturating_add(count as usize);
        equal(rt, "how many cards a set has", members.len(), wanted)?;
        for (member, index) in members.iter().zip(0..=u32::MAX) {
            let number = match first.get(index as usize) {
                Some(number) => *number,
                None => index.saturating_sub(first.len() as u32),
            };
            equal(rt, "a card of a set", member.number(), number)?;
        }
        Ok(())
    }

    fn cards(&self, of: u32) -> Result<Vec<Card>, Failure> {
        let of = region(self.layout, of)?;
        Ok(self.sets.cards(of)?)
    }

    fn record(&mut self, number: u32, first: u32, second: u32) -> Result<(), Failure> {
        let regions = [region(self.layout, first)?, region(self.layout, second)?];
        Ok(self.sets.record(card(self.layout, number)?, &regions)?)
    }

    // Two cards, one of them named twice.
    fn record_many(&mut self, first: u32, second: u32, of: u32) -> Result<(), Failure> {
        let first = card(self.layout, first)?;
        let second = card(self.layout, second)?;
        let of = region(self.layout, of)?;
        Ok(self.sets.record_many(&[first, second, first], of)?)
    }

    // Records a card, again where that is refused: it leaves how many cards there are.
    fn add(&mut self, rt: &impl Eprint, card: u32, first: u32, second: u32) -> Result<(), Failure> {
        let before = self.sets.total();
        match self.record(card, first, second) {
            Err(Failure::NoMemory) => {
                refused(rt, "Sets::record");
                equal(rt, "what a refused record left", self.sets.total(), before)?;
                self.record(card, first, second)
            }
            answer => answer,
        }
    }
}

// Cards 0 to 39 go into two sets. The second has three cards before the first has one, so that the
// sets grow at different cards: where either cannot grow, neither has the card.
fn recorded<R: Eprint + AllocGlobal>(rt: &R) -> Result<(), Failure> {
    let mut sets = Numbered::new(rt, 3, 64)?;
    for card in 60..63 {
        sets.add(rt, card, 2, 2)?;
    }
    for card in 0..40 {
        sets.add(rt, card, 1, 2)?;
    }
    sets.has_just(rt, 0, &[], 0)?;
    sets.has_just(rt, 1, &[], 40)?;
    sets.has_just(rt, 2, &[60, 61, 62], 40)
}

// Cards 0 to 39 go into one set, two at a time. Where it cannot grow, it has neither.
fn recorded_together<R: Eprint + AllocGlobal>(rt: &R) -> Result<(), Failure> {
    let mut sets = Numbered::new(rt, 3, 64)?;
    for pair in 0..20 {
        let first = 2 * pair;
        if let Err(Failure::NoMemory) = sets.record_many(first, first + 1, 1) {
            refused(rt, "Sets::record_many");
            sets.has_just(rt, 1, &[], first)?;
            sets.record_many(first, first + 1, 1)?;
        }
    }
    sets.has_just(rt, 1, &[], 40)?;
    equal(rt, "how many cards all sets have", sets.sets.total(), 40)
}

// Cards 0 to 39 go into one set, and once it is cleared again, without a growth: it kept its room.
fn recorded_again<R: Eprint + AllocGlobal>(rt: &R) -> Result<(), Failure> {
    let mut sets = Numbered::new(rt, 3, 64)?;
    for card in 0..40 {
        sets.add(rt, card, 1, 1)?;
    }
    let of = region(sets.layout, 1)?;
    sets.sets.clear(of);
    sets.has_just(rt, 1, &[], 0)?;
    for card in 0..40 {
        let is = sets.record(card, 1, 1).is_ok();
        check(rt, is, "a cleared set has given its room back")?;
    }
    sets.has_just(rt, 1, &[], 40)
}

// The first region's set has `members` cards, from its neighbour's first card on; they were
// recorded from the last to the first. A set of few cards is sorted, and the cards of any other are
// listed by bits.
fn listed<R: Eprint + AllocGlobal>(
    rt: &R,
    regions: u32,
    cards: u32,
    members: u32,
) -> Result<(), Failure> {
    let mut sets = Numbered::new(rt, regions, cards)?;
    for card in (cards..cards.saturating_add(members)).rev() {
        sets.add(rt, card, 0, 0)?;
    }
    let list = match sets.cards(0) {
        Err(Failure::NoMemory) => {
            refused(rt, "Sets::cards");
            equal(rt, "what a refused list left", sets.sets.total(), members)?;
            sets.cards(0)?
        }
        answer => answer?,
    };
    equal(
        rt,
        "how many cards a list has",
        list.len(),
        members as usize,
    )?;
    for (card, number) in list.as_slice().iter().zip(cards..=u32::MAX) {
        equal(rt, "a card of a list", card.number(), number)?;
    }
    Ok(())
}
