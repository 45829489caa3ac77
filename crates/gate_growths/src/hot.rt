//! The counts and the ring of hot cards: making them takes memory.
ghost use Rattle.std.specs.Prelude.{◌≡◌, length, IfOk};
ghost use Rattle.g1_layout.specs.Shape.{card_count};

use g1_hot::{Hot, Offer};
use g1_layout::Layout;
use test_support::Failure;
use test_support::checks::{check, equal};
use test_support::failure::retried;
use test_support::numbers::{card, small};

/// A ring beside the layout whose cards it counts.
#[derive(Drop)]
struct Ring {
    layout: Layout,
    hot: Hot,
    ghost counts_each_card: { length hot.counts ≡ card_count layout },
}

// A ring of two cards, which are hot after one refinement.
fn new_hot<R: Eprint + AllocGlobal>(rt: &R, layout: Layout) -> Result<Hot, Failure>
    ensures { IfOk result (λ hot. length hot.counts ≡ card_count layout) }
{
    let alloc = rt.alloc();
    retried(rt, "Hot::new", || Hot::new(alloc, layout, 1, 2))
}

// Offers the card of this number, which does not stand in the ring, and checks the answer.
fn offer(rt: &impl Eprint, ring: &mut Ring, number: u32, wanted: Offer) -> Result<(), Failure> {
    let card = card(ring.layout, number)?;
    if ring.hot.contains(card) {
        return Err(Failure::Wrong);
    }
    equal(
        rt,
        "an offer",
        (number, ring.hot.offer(card)),
        (number, wanted),
    )
}

/// A refused ring is made again, with each count 0 and no card in the ring.
pub(crate) fn new_ring<R: Eprint + AllocGlobal>(rt: &R) -> Result<(), Failure> {
    let layout = small()?;
    let hot = new_hot(rt, layout)?;
    check(rt, hot.is_empty(), "a new ring holds a card")?;
    let mut ring = Ring { layout, hot };
    for number in 0..8 {
        offer(rt, &mut ring, number, Offer::Cold)?;
    }
    offer(rt, &mut ring, 0, Offer::Kept)?;
    offer(rt, &mut ring, 7, Offer::Kept)?;
    offer(rt, &mut ring, 2, Offer::Out(card(layout, 0)?))
}
