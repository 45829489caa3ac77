//! A race becomes a core, and the core a race again.
use crate::races::steps::Seen::{Has, Marked, Target};
use crate::races::steps::Step::{Refine, Store};
use crate::races::steps::{Step, open, race_on, see};
use g1_core::{Config, Core, Drained};
use g1_layout::Kind::{AlreadyDirty, Logged, Null};
use g1_layout::Layout;
use g1_race::{Closed, Paused, Race};
use std::alloc::Global;
use std::test::Fail;
use test_support::numbers::{card, number_of, region, slot, small};
use test_support::{Failure, check, equal, numbered};

// A core of the closed race, with the settings by default.
fn core_of(alloc: Global, closed: Closed) -> Result<Core, Failure> {
    match closed.into_core(alloc, Config::default()) {
        Ok(core) => Ok(core),
        Err((_closed, error)) => Err(error.into()),
    }
}

// A race over nulls, up to its core.
fn core_after(
    rt: &impl Eprint,
    alloc: Global,
    layout: Layout,
    steps: &[Step],
) -> Result<Core, Failure> {
    core_of(alloc, race_on(rt, open(alloc, layout)?, steps)?.close())
}

// A race that goes on from a core, up to its end.
fn closed_after(
    rt: &impl Eprint,
    alloc: Global,
    core: Core,
    steps: &[Step],
) -> Result<Closed, Failure> {
    match Race::from_core(alloc, core, 2, 1) {
        Ok((race, racers, sweepers)) => {
            Ok(race_on(rt, race.pause(racers, sweepers), steps)?.close())
        }
        Err((_core, error)) => Err(error.into()),
    }
}

// The core has read nothing, and the card is pending.
fn is_unread(rt: &impl Eprint, core: &Core, number: u32) -> Result<(), Failure> {
    let is_pending = core.is_pending(card(core.layout(), number)?);
    check(rt, is_pending, "a card that was dirty is pending")?;
    equal(rt, "reads of a new core", core.reads(), 0)
}

// A drain of the region lists just these cards.
fn drains(rt: &impl Eprint, core: &mut Core, number: u32, wanted: &[u32]) -> Result<(), Failure> {
    let region = region(core.layout(), number)?;
    match core.drain(region)? {
        Drained::Cards { cards, .. } => numbered(rt, "a drain", cards.as_slice(), wanted),
        Drained::Short { .. } => Err(Failure::NoMemory),
    }
}

#[test]
fn a_race_is_a_core_and_a_race_again(rt: HostRuntime) -> Result<(), Fail> {
    let steps = [
        Store(0, 0, Some(8), Logged),
        Store(1, 1, Some(16), AlreadyDirty),
    ];
    let mut core = core_after(&rt, rt.alloc(), small()?, &steps)?;
    is_unread(&rt, &core, 0)?;
    drains(&rt, &mut core, 1, &[0])?;
    let closed = closed_after(&rt, rt.alloc(), core, &[Store(0, 4, Some(8), Logged)])?;
    let seen = [
        Target(0, Some(8)),
        Target(4, Some(8)),
        Marked(0, false),
        Marked(1, true),
        Has(0, 1, true),
        Has(1, 1, false),
    ];
    see(&rt, &closed, &seen)?;
    let mut core = core_of(rt.alloc(), closed)?;
    drains(&rt, &mut core, 1, &[0, 1])?;
    Ok(drains(&rt, &mut core, 2, &[0])?)
}

#[test]
fn a_card_that_began_dirty_is_dirty_until_it_is_swept(rt: HostRuntime) -> Result<(), Fail> {
    let core = core_after(&rt, rt.alloc(), small()?, &[Store(0, 0, Some(8), Logged)])?;
    let steps = [
        Store(0, 1, Some(8), AlreadyDirty),
        Refine(0),
        Store(1, 0, None, Null),
    ];
    let closed = closed_after(&rt, rt.alloc(), core, &steps)?;
    Ok(see(
        &rt,
        &closed,
        &[Marked(0, false), Has(0, 1, true), Target(0, None)],
    )?)
}

// The heap has 2 regions of 40,000 cards of one slot, which `Layout::large` alone grants.
#[test]
fn a_large_race_is_a_core_and_a_race_again(rt: HostRuntime) -> Result<(), Fail> {
    let layout = Layout::large(2, 40_000, 1).ok_or("layout")?;
    let mut core = core_after(
        &rt,
        rt.alloc(),
        layout,
        &[Store(1, 79_999, Some(0), Logged)],
    )?;
    is_unread(&rt, &core, 79_999)?;
    drains(&rt, &mut core, 0, &[79_999])?;
    let closed = closed_after(&rt, rt.alloc(), core, &[Store(0, 0, Some(40_000), Logged)])?;
    let seen = [
        Marked(0, true),
        Marked(79_999, false),
        Has(79_999, 0, true),
        Target(79_999, Some(0)),
    ];
    see(&rt, &closed, &seen)?;
    let mut core = core_of(rt.alloc(), closed)?;
    drains(&rt, &mut core, 1, &[0])?;
    Ok(drains(&rt, &mut core, 0, &[79_999])?)
}

#[test]
fn a_core_has_null_for_data(rt: HostRuntime) -> Result<(), Fail> {
    let mut paused: Paused = open(rt.alloc(), small()?)?;
    let from = slot(paused.layout(), 0)?;
    paused.store_data(from, 1 << 32);
    equal(&rt, "the word of data", paused.word(from), 1 << 32)?;
    let mut core = core_of(rt.alloc(), paused.close())?;
    let from = slot(core.layout(), 0)?;
    Ok(equal(&rt, "data in a core", number_of(core.target(from)), None)?)
}
