//! What no clause says: that the rule of hotness, in counts and cards written out, is the one that
//! is meant, and that the calls succeed.
ghost use Rattle.std.specs.Prelude.{◌≡◌, ◌≤◌, length, IfOk};
ghost use Rattle.g1_layout.specs.Shape.{card_count};

use g1_hot::{Hot, Offer};
use g1_layout::{Card, Layout};
use std::alloc::Global;
use std::test::Fail;
use test_support::Failure;
use test_support::checks::{check, equal};
use test_support::numbers::card;

/// A ring beside the layout whose cards it counts: 17 regions of 256 cards, more than a ring can
/// hold.
#[derive(Drop)]
struct Ring {
    layout: Layout,
    hot: Hot,
    ghost counts_each_card: { length hot.counts ≡ card_count layout },
}

/// What an offer answers, with numbers for cards.
#[derive(Clone, Copy)]
enum Want {
    Cold,
    Kept,
    Out(u32),
}

use Want::{Cold, Kept, Out};

impl Ring {
    fn new(alloc: Global, limit: u32, capacity: usize) -> Result<Ring, Failure>
        requires limit { limit ≤ 255 }
        requires some { 1 ≤ capacity }
        requires most { capacity ≤ 4096 }
    {
        let layout = Layout::new(17, 256, 1).ok_or(Failure::Wrong)?;
        let hot = Hot::new(alloc, layout, limit, capacity)?;
        Ok(Ring { layout, hot })
    }

    /// Offers the card of this number, which does not stand in the ring, after asking what the
    /// answer would be.
    fn offer(&mut self, rt: &impl Eprint, number: u32, want: Want) -> Result<(), Failure> {
        let card = card(self.layout, number)?;
        check(
            rt,
            !self.hot.contains(card),
            "a card in the ring is offered",
        )?;
        if self.hot.contains(card) {
            return Err(Failure::Wrong);
        }
        let want = match want {
            Cold => Offer::Cold,
            Kept => Offer::Kept,
            Out(oldest) => Offer::Out(self::card(self.layout, oldest)?),
        };
        equal(
            rt,
            "what it would answer",
            (number, self.hot.would(card)),
            (number, want),
        )?;
        equal(
            rt,
            "what it answers",
            (number, self.hot.offer(card)),
            (number, want),
        )
    }

    /// Checks that the oldest card of the ring is the one of this number, and takes it out.
    fn pop(&mut self, rt: &impl Eprint, number: Option<u32>) -> Result<(), Failure> {
        let oldest = (
            number_of(self.hot.oldest()),
            number_of(self.hot.pop_oldest()),
        );
        equal(rt, "the oldest", oldest, (number, number))
    }
}

fn number_of(card: Option<Card>) -> Option<u32> {
    Some(card?.number())
}

#[test]
fn a_card_is_hot_once_it_was_refined_as_often_as_the_limit(rt: HostRuntime) -> Result<(), Fail> {
    for limit in [0, 1, 255] {
        let mut ring = Ring::new(rt.alloc(), limit, 1)?;
        for _ in 0..limit {
            ring.offer(&rt, 3, Cold)?;
        }
        ring.offer(&rt, 3, Kept)?;
    }
    Ok(())
}

// The ring of one card hands out the card before; the largest ring, the card 4,096 before.
#[test]
fn a_full_ring_hands_out_its_oldest(rt: HostRuntime) -> Result<(), Fail> {
    for (capacity, end) in [(1, 5), (4096, 4352)] {
        let mut ring = Ring::new(rt.alloc(), 0, capacity as usize)?;
        for number in 0..end {
            let full = number >= capacity;
            let want = if full { Out(number - capacity) } else { Kept };
            ring.offer(&rt, number, want)?;
        }
        equal(&rt, "how many cards", ring.hot.len(), capacity as usize)?;
    }
    Ok(())
}

// Each card has its own count. A reset forgets the counts and keeps the ring, which empties oldest
// first.
#[test]
fn counts_and_ring(rt: HostRuntime) -> Result<(), Fail> {
    let mut ring = Ring::new(rt.alloc(), 1, 4)?;
    check(&rt, ring.hot.is_empty(), "a new ring")?;
    for (number, want) in [(7, Cold), (7, Kept), (4351, Cold), (0, Cold), (0, Kept)] {
        ring.offer(&rt, number, want)?;
    }
    ring.hot.reset_counts();
    ring.pop(&rt, Some(7))?;
    for (number, want) in [(7, Cold), (4351, Cold), (7, Kept), (4351, Kept)] {
        ring.offer(&rt, number, want)?;
    }
    for number in [Some(0), Some(7), Some(4351), None] {
        ring.pop(&rt, number)?;
    }
    Ok(check(&rt, ring.hot.is_empty(), "an empty ring")?)
}
