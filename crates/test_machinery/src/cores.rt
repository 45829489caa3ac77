//! What no trace shows of a core: buffers by hand, the order in which cards are refined, how many
//! slots are read, checks against a runtime's memory, and the limits of the settings.
use g1_core::{CardList, Config, Core, Fill, Kind, Slot};
use std::test::Fail;
use test_support::Failure;
use test_support::checks::{equal, numbered};
use test_support::numbers::{card, number_of, region, slot, small};
use test_support::players::{OnCore, state_of};
use test_support::step::Step::{
    self, Drain, Logged, Members, Pending, Redirect, Refine, RefineNone, Status, Store, Target,
};
use test_support::steps::play;

// At hot limit 255 no card is hot. Cards 0, 1 and 2 are dirty until they are refined themselves, by
// no buffer, an empty one and one of them.
const COLD: &[Step<'static>] = &[
    Logged(&[(0, 8), (4, 16), (8, 0)]),
    RefineNone,
    Refine(&[], &[], 0, 0),
    Status(3, 0),
    Refine(&[0, 1, 2], &[0, 1, 2], 0, 0),
    Status(0, 3),
    Members(0, &[2]),
    Members(1, &[0]),
    Members(2, &[1]),
];

// At hot limit 0 a ring of one. Cards outside the heap, a clean one, and one that is held since its
// first turn are skipped. Then card 0 pushes the held card out, and a drain refines the card in the
// ring before the dirty one.
const HELD: &[Step<'static>] = &[
    Logged(&[(0, 8), (4, 16), (8, 0)]),
    Refine(&[8, 2, 5, 65_535, 2], &[], 1, 4),
    Status(3, 0),
    Pending(2, true),
    Refine(&[1], &[2], 1, 0),
    Refine(&[1], &[], 0, 1),
    Drain(0, &[2], &[1, 0]),
];

// At hot limit 1 a card is hot the second time. Card 5 is held when the redirect begins, and cards
// 0 and 1 are dirty: the redirect refines them in the order of a drain. Card 5 is cold afterwards.
const WARM: &[Step<'static>] = &[
    Store(21, 15, Kind::Logged, Fill::No),
    Refine(&[5], &[5], 0, 0),
    Store(22, 14, Kind::Logged, Fill::Full),
    Refine(&[5], &[], 1, 0),
    Store(0, 9, Kind::Logged, Fill::No),
    Store(4, 8, Kind::Logged, Fill::Full),
    Redirect(1, 3, 4, &[5, 0, 1]),
    Target(21, Some(31)),
    Target(22, Some(30)),
    Target(0, Some(25)),
    Target(4, Some(24)),
    Status(0, 3),
    Store(20, 0, Kind::Logged, Fill::No),
    Refine(&[5], &[5], 0, 0),
    Drain(0, &[5], &[]),
    Drain(1, &[], &[]),
    Drain(2, &[], &[]),
    Drain(3, &[0, 1, 5], &[]),
];

#[test]
fn refinement_and_pauses(rt: HostRuntime) -> Result<(), Fail> {
    for (log, hot, ring, steps) in [(4, 255, 1, COLD), (4, 0, 1, HELD), (2, 1, 4, WARM)] {
        let config = Config::new(log, 4, hot, ring, 5).ok_or(Failure::Wrong)?;
        let mut core = OnCore::new(&rt, config)?;
        play(&rt, &mut core, steps)?;
    }
    Ok(())
}

// Stores of references, each a slot and its place.
fn refer(core: &mut Core, references: &[(u32, u32)]) -> Result<(), Failure> {
    for (from, to) in references {
        let from = slot(core.layout(), *from)?;
        let to = slot(core.layout(), *to)?;
        core.store_unlogged(from, Some(to));
    }
    Ok(())
}

// Two stores across regions on one card: the drain reads that card's slots once.
#[test]
fn a_drain_reads_each_card_once(rt: HostRuntime) -> Result<(), Fail> {
    let mut core = Core::new(rt.alloc(), small()?, Config::default())?;
    refer(&mut core, &[(0, 8), (1, 16)])?;
    let of = region(core.layout(), 1)?;
    let _drained = core.drain(of)?;
    Ok(equal(&rt, "how many slots are read", core.reads(), 4)?)
}

const KNOWN: [(u32, u32); 3] = [(0, 8), (3, 5), (4, 31)];

// A core with the known references, and what a runtime's memory has in each slot.
fn known<R: Eprint + AllocGlobal>(rt: &R) -> Result<(OnCore, [Option<Slot>; 32]), Failure> {
    let mut on = OnCore::new(rt, Config::default())?;
    refer(&mut on.core, &KNOWN)?;
    let mut memory = [None; 32];
    for (from, to) in KNOWN {
        memory[from as usize % 32] = small()?.slot(to);
    }
    Ok((on, memory))
}

// Of the slots from the first one on, this is the first that memory has otherwise, and there is
// none that no drain would find.
fn finds(
    rt: &impl Eprint,
    core: &mut Core,
    first: u32,
    memory: &[Option<Slot>],
    wanted: Option<u32>,
) -> Result<(), Failure> {
    let slots = core.layout().slot_count();
    if memory.len() > slots as usize || first > slots - memory.len() as u32 {
        return Err(Failure::Wrong);
    }
    let from = slot(core.layout(), first)?;
    let differing = number_of(core.first_differing(from, memory));
    let from = slot(core.layout(), first)?;
    let missing = number_of(core.first_missing(from, memory.len() as u32));
    equal(
        rt,
        "differing and missing",
        (differing, missing),
        (wanted, None),
    )
}

#[test]
fn the_first_slot_that_memory_has_otherwise_is_found(rt: HostRuntime) -> Result<(), Fail> {
    let (mut on, mut memory) = known(&rt)?;
    let core = &mut on.core;
    finds(&rt, core, 0, &memory, None)?;
    memory[30] = core.layout().slot(30);
    finds(&rt, core, 0, &memory, Some(30))?;
    memory[3] = None;
    finds(&rt, core, 0, &memory, Some(3))?;
    memory[0] = core.layout().slot(9);
    finds(&rt, core, 0, &memory, Some(0))?;
    let memory = &memory[..];
    finds(&rt, core, 1, &memory[1..], Some(3))?;
    finds(&rt, core, 4, &memory[4..30], None)?;
    Ok(finds(&rt, core, 5, &memory[5..5], None)?)
}

// Copies a range of slots, as a list copies a range within itself; just these cards are pending
// then.
fn copies(
    rt: &impl Eprint,
    on: &mut OnCore,
    memory: &mut [Option<Slot>; 32],
    range: (u32, u32, u32),
    pending: &[u32],
) -> Result<(), Failure> {
    let (from, to, count) = range;
    let layout = on.core.layout();
    if layout.slot_count() != 32 || count > 32 || from > 32 - count || to > 32 - count {
        return Err(Failure::Wrong);
    }
    memory.copy_within(from as usize..(from + count) as usize, to as usize);
    on.core
        .copy_slots(slot(layout, from)?, slot(layout, to)?, count);
    finds(rt, &mut on.core, 0, memory, None)?;
    equal(
        rt,
        "the pending cards",
        state_of(on)?.pending.as_slice(),
        pending,
    )
}

// The second and the third copy have ranges that overlap, upwards and downwards.
#[test]
fn copies_are_those_of_a_list(rt: HostRuntime) -> Result<(), Fail> {
    let (mut on, mut memory) = known(&rt)?;
    for (range, pending) in [
        ((0, 16, 5), [0, 1, 4, 5].as_slice()),
        ((16, 18, 5), &[0, 1, 4, 5]),
        ((18, 17, 6), &[0, 1, 4, 5]),
        ((3, 12, 0), &[0, 1, 4, 5]),
        ((0, 27, 5), &[0, 1, 4, 5, 6, 7]),
        ((1, 0, 31), &[0, 1, 4, 5, 6, 7]),
    ] {
        copies(&rt, &mut on, &mut memory, range, pending)?;
    }
    Ok(())
}

#[test]
fn a_list_of_cards_is_copied(rt: HostRuntime) -> Result<(), Fail> {
    let layout = small()?;
    let cards = [card(layout, 5)?, card(layout, 2)?];
    let list = CardList::of(Vec::from_slice(rt.alloc(), &cards)?);
    let copy = list.try_clone(rt.alloc())?;
    Ok(numbered(&rt, "the copy", copy.as_slice(), &[5, 2])?)
}

// The numbers at and beyond each limit, with the others as they are by default.
#[test]
fn limits_of_each_setting(rt: HostRuntime) -> Result<(), Fail> {
    for (numbers, good) in [
        ((0, 10, 4, 1024, 5), false),
        ((1, 10, 4, 1024, 5), true),
        ((257, 10, 4, 1024, 5), false),
        ((256, 0, 4, 1024, 5), false),
        ((256, 1, 4, 1024, 5), true),
        ((256, 1024, 4, 1024, 5), true),
        ((256, 1025, 4, 1024, 5), false),
        ((256, 10, 0, 1024, 5), true),
        ((256, 10, 255, 1024, 5), true),
        ((256, 10, 256, 1024, 5), false),
        ((256, 10, 4, 0, 5), false),
        ((256, 10, 4, 1, 5), true),
        ((256, 10, 4, 4096, 5), true),
        ((256, 10, 4, 4097, 5), false),
        ((256, 10, 4, 1024, 0), false),
        ((256, 10, 4, 1024, 1), true),
        ((256, 10, 4, 1024, 1024), true),
        ((256, 10, 4, 1024, 1025), false),
    ] {
        let (log, limit, hot, ring, start) = numbers;
        let config = Config::new(log, limit, hot, ring, start);
        equal(
            &rt,
            "settings",
            (numbers, config.is_some()),
            (numbers, good),
        )?;
    }
    let settings = Config::default();
    let wanted = Config::new(256, 10, 4, 1024, 5);
    Ok(equal(&rt, "the defaults", Some(settings), wanted)?)
}
