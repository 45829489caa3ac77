//! Heaps that were drawn and counted by hand.
ghost use Rattle.std.specs.Prelude.{◌<◌};
ghost use Rattle.g1_layout.specs.Shape.{slot_count};

use g1_layout::{Layout, NoMemory, Slot};
use std::test::Fail;
use test_support::Failure;
use test_support::checks::equal;
use test_support::numbers::{card, region, slot};

// Each heap with whether `new` grants it, and `large`.
#[test]
fn limits(rt: HostRuntime) -> Result<(), Fail> {
    for (counts, good, large) in [
        ((1, 1, 1), true, true),
        ((256, 64, 64), true, true),
        ((256, 65, 64), false, true),
        ((256, 256, 16), true, true),
        ((256, 256, 17), false, true),
        ((1, 257, 1), false, true),
        ((256, 65_536, 64), false, true),
        ((1, 65_537, 1), false, false),
        ((0, 1, 1), false, false),
        ((1, 0, 1), false, false),
        ((1, 1, 0), false, false),
        ((257, 1, 1), false, false),
        ((1, 1, 65), false, false),
        ((65_536, 65_536, 1), false, false),
        ((1, 67_108_865, 64), false, false),
        ((u32::MAX, u32::MAX, u32::MAX), false, false),
    ] {
        let (regions, cards, slots) = counts;
        let made = counts_of(Layout::new(regions, cards, slots));
        equal(
            &rt,
            "a heap",
            (counts, made),
            (counts, good.then_some(counts)),
        )?;
        let made = counts_of(Layout::large(regions, cards, slots));
        equal(
            &rt,
            "a large heap",
            (counts, made),
            (counts, large.then_some(counts)),
        )?;
    }
    Ok(())
}

fn counts_of(layout: Option<Layout>) -> Option<(u32, u32, u32)> {
    Some(layout?.counts())
}

// Each slot with its card, its region, and the first slot of that card.
#[test]
fn places_of_slots(rt: HostRuntime) -> Result<(), Fail> {
    for (heap, number, wanted) in [
        ((4, 2, 4), 0, (0, 0, 0)),
        ((4, 2, 4), 7, (1, 0, 4)),
        ((4, 2, 4), 8, (2, 1, 8)),
        ((4, 2, 4), 31, (7, 3, 28)),
        ((3, 5, 7), 34, (4, 0, 28)),
        ((3, 5, 7), 35, (5, 1, 35)),
        ((3, 5, 7), 104, (14, 2, 98)),
        ((1, 256, 64), 16_383, (255, 0, 16_320)),
        ((256, 64, 64), 4_096, (64, 1, 4_096)),
        ((256, 64, 64), 1_048_575, (16_383, 255, 1_048_512)),
        (
            (256, 65_536, 64),
            1_073_741_823,
            (16_777_215, 255, 1_073_741_760),
        ),
        ((256, 65_535, 63), 4_128_704, (65_534, 0, 4_128_642)),
        (
            (256, 65_535, 63),
            1_056_948_479,
            (16_776_959, 255, 1_056_948_417),
        ),
        ((256, 1, 1), 255, (255, 255, 255)),
    ] {
        let (regions, cards, slots) = heap;
        let layout = Layout::large(regions, cards, slots).ok_or(Failure::Wrong)?;
        let place = place_of(layout, slot(layout, number)?);
        let (card, region, first) = wanted;
        equal(
            &rt,
            "a place",
            (heap, number, place),
            (heap, number, (card, region, region, first)),
        )?;
        let past = (
            layout.slot(layout.slot_count()),
            layout.card(layout.card_count()),
        );
        equal(&rt, "what lies past the heap", past, (None, None))?;
    }
    Ok(())
}

// The card of a slot, the region of both, and the first slot of the card.
fn place_of(layout: Layout, slot: Slot) -> (u32, u32, u32, u32)
    requires { slot < slot_count layout }
{
    let card = layout.card_of(slot);
    (
        card.number(),
        layout.region_of(slot).number(),
        layout.region_of_card(card).number(),
        layout.first_slot(card).number(),
    )
}

// Slots at an offset, and what places and a refused growth say as texts.
#[test]
fn offsets_and_texts(rt: HostRuntime) -> Result<(), Fail> {
    let layout = Layout::new(3, 5, 7).ok_or(Failure::Wrong)?;
    let (card, to) = (card(layout, 14)?, region(layout, 1)?);
    let last = layout.slot_at(card, 6);
    equal(&rt, "the last slot", last.number(), 104)?;
    let moved = layout.same_offset(last, to);
    let text = format!(in rt.alloc(); "slot {moved}, card {card:>3}, region {to}, {NoMemory}")?;
    let wanted = "slot 69, card  14, region 1, no memory";
    Ok(equal(&rt, "the texts", text.as_str(), wanted)?)
}
