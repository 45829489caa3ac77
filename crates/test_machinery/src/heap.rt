//! Heaps that were drawn and filled by hand.
use g1_heap::{Heap, Mark};
use g1_layout::{Layout, Slot};
use std::alloc::Global;
use std::test::Fail;
use test_support::Failure;
use test_support::checks::equal;
use test_support::numbers::{card, place, region, slot};

fn heap_of(alloc: Global, counts: (u32, u32, u32)) -> Result<Heap, Failure> {
    let (regions, cards, slots) = counts;
    let layout = Layout::new(regions, cards, slots).ok_or(Failure::Wrong)?;
    Ok(Heap::new(alloc, layout)?)
}

fn set(heap: &mut Heap, from: u32, to: Option<u32>) -> Result<(), Failure> {
    let layout = heap.layout();
    heap.set(slot(layout, from)?, place(layout, to)?);
    Ok(())
}

// A card refers into just these regions, in this order.
fn refers_into(rt: &impl Eprint, heap: &mut Heap, of: u32, wanted: &[u32]) -> Result<(), Failure> {
    let of = card(heap.layout(), of)?;
    let regions = heap.targets(of);
    equal(rt, "how many regions", regions.len(), wanted.len())?;
    for (region, number) in regions.as_slice().iter().zip(wanted) {
        equal(rt, "a region", region.number(), *number)?;
    }
    Ok(())
}

// The first slot of card 1 from an offset on that refers into a region: its offset, and its place.
fn next_into(heap: &mut Heap, from: u32, into: u32) -> Result<Option<(u32, Slot)>, Failure> {
    let (_, _, slots) = heap.layout().counts();
    if from > slots {
        return Err(Failure::Wrong);
    }
    let of = card(heap.layout(), 1)?;
    let into = region(heap.layout(), into)?;
    Ok(heap.next_into(of, from, into))
}

// Card 1 refers to the first and the last place of region 1, beside the last of region 0 and the
// first of region 2.
#[test]
fn the_next_slot_into_a_region_is_not_that_into_its_neighbours(
    rt: HostRuntime,
) -> Result<(), Fail> {
    let mut heap = heap_of(rt.alloc(), (3, 2, 12))?;
    for (from, to) in [(12, 23), (14, 24), (15, 48), (23, 47)] {
        set(&mut heap, from, Some(to))?;
    }
    for (from, into, wanted) in [
        (0, 1, Some((2, 24))),
        (2, 1, Some((2, 24))),
        (3, 1, Some((11, 47))),
        (11, 1, Some((11, 47))),
        (12, 1, None),
        (0, 0, Some((0, 23))),
        (0, 2, Some((3, 48))),
    ] {
        let wanted = match wanted {
            Some((offset, to)) => Some((offset, slot(heap.layout(), to)?)),
            None => None,
        };
        let next = next_into(&mut heap, from, into)?;
        equal(
            &rt,
            "the next slot",
            (from, into, next),
            (from, into, wanted),
        )?;
    }
    equal(
        &rt,
        "how many slots were read",
        heap.reads(),
        3 + 1 + 9 + 1 + 1 + 4,
    )?;
    refers_into(&rt, &mut heap, 1, &[1, 2])?;
    let from = slot(heap.layout(), 15)?;
    equal(&rt, "a slot", heap.get(from), heap.layout().slot(48))?;
    Ok(equal(&rt, "how many slots were read", heap.reads(), 19 + 12 + 1)?)
}

// One reference on a card of nulls, at each slot in turn: in a whole group of slots, and behind the
// last one.
#[test]
fn one_reference_is_found_wherever_it_stands(rt: HostRuntime) -> Result<(), Fail> {
    for slots in [1, 7, 8, 12, 64] {
        let mut heap = heap_of(rt.alloc(), (3, 2, slots))?;
        for offset in 0..slots {
            set(&mut heap, slots + offset, Some(4 * slots))?;
            refers_into(&rt, &mut heap, 1, &[2])?;
            let found = (offset, slot(heap.layout(), 4 * slots)?);
            equal(
                &rt,
                "the one slot",
                next_into(&mut heap, 0, 2)?,
                Some(found),
            )?;
            equal(
                &rt,
                "no other slot",
                next_into(&mut heap, offset + 1, 2)?,
                None,
            )?;
            set(&mut heap, slots + offset, None)?;
        }
        equal(
            &rt,
            "how many slots were read",
            heap.reads(),
            u64::from(2 * slots * slots),
        )?;
    }
    Ok(())
}

fn set_mark(heap: &mut Heap, number: u32, mark: Mark) -> Result<(), Failure> {
    let of = card(heap.layout(), number)?;
    heap.set_mark(of, mark);
    Ok(())
}

// One dirty card among 16,384, beside one that is held.
#[test]
fn the_next_dirty_card_is_neither_clean_nor_held(rt: HostRuntime) -> Result<(), Fail> {
    let mut heap = heap_of(rt.alloc(), (256, 64, 1))?;
    set_mark(&mut heap, 62, Mark::Held)?;
    for number in [0, 63, 64, 8_191, 16_383] {
        set_mark(&mut heap, number, Mark::Dirty)?;
        let dirty = card(heap.layout(), number)?;
        equal(&rt, "the dirty card", heap.next_dirty(0), Some(dirty))?;
        set_mark(&mut heap, number, Mark::Clean)?;
        equal(&rt, "no dirty card", heap.next_dirty(0), None)?;
    }
    let held = card(heap.layout(), 62)?;
    equal(&rt, "a mark", heap.mark(held), Mark::Held)?;
    Ok(equal(&rt, "how many slots were read", heap.reads(), 0)?)
}
