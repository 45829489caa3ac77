//! What a pause lists: the calls that take memory, and that a program in C does not make.
use crate::races::steps::Step::{Refine, Store};
use crate::races::steps::{open, race_on};
use g1_core::{Drained, Redirected, Status};
use g1_layout::Kind::{AlreadyDirty, Logged, SameRegion};
use g1_race::Paused;
use std::alloc::Global;
use std::test::Fail;
use test_support::numbers::{region, regions, small};
use test_support::{Failure, equal, numbered};

// A drain of a region lists these cards, and refines those.
fn drains<R: Eprint + AllocGlobal>(
    rt: &R,
    paused: &mut Paused,
    number: u32,
    wanted: &[u32],
    wanted_refined: &[u32],
) -> Result<(), Failure> {
    let region = region(paused.layout(), number)?;
    let Drained::Cards { cards, refined } = paused.drain(rt.alloc(), region)? else {
        return Err(Failure::Wrong);
    };
    numbered(rt, "a drain", cards.as_slice(), wanted)?;
    numbered(
        rt,
        "what a drain refined",
        refined.as_slice(),
        wanted_refined,
    )
}

// A redirect changes this many slots, and refines these cards.
fn redirects<R: Eprint + AllocGlobal>(
    rt: &R,
    paused: &mut Paused,
    (from, to): (u32, u32),
    wanted: u32,
    wanted_refined: &[u32],
) -> Result<(), Failure> {
    let (from, to) = regions(paused.layout(), from, to)?;
    let Redirected::Moved { slots, refined } = paused.redirect(rt.alloc(), from, to)? else {
        return Err(Failure::Wrong);
    };
    equal(rt, "the slots of a redirect", slots, wanted)?;
    numbered(
        rt,
        "what a redirect refined",
        refined.as_slice(),
        wanted_refined,
    )
}

// The cards that are recorded for a region.
fn has_members<R: Eprint + AllocGlobal>(
    rt: &R,
    paused: &mut Paused,
    number: u32,
    wanted: &[u32],
) -> Result<(), Failure> {
    let region = region(paused.layout(), number)?;
    let cards = paused.members(rt.alloc(), region)?;
    numbered(rt, "members", cards.as_slice(), wanted)
}

#[test]
fn a_drain_lists_what_it_refined_and_a_second_one_the_same_set(
    rt: HostRuntime,
) -> Result<(), Fail> {
    let steps = [
        Store(0, 0, Some(8), Logged),
        Store(1, 16, Some(9), Logged),
        Store(1, 20, Some(2), Logged),
        Store(0, 31, Some(8), Logged),
        Refine(7),
    ];
    let mut paused = race_on(&rt, open(rt.alloc(), small()?)?, &steps)?;
    has_members(&rt, &mut paused, 1, &[7])?;
    drains(&rt, &mut paused, 1, &[0, 4, 7], &[0, 4, 5])?;
    drains(&rt, &mut paused, 1, &[0, 4, 7], &[])?;
    drains(&rt, &mut paused, 0, &[5], &[])?;
    let status = Status {
        pending: 0,
        recorded: 4,
    };
    Ok(equal(&rt, "the status", paused.status(), status)?)
}

// Slots 0 and 1 of region 0 and slot 16 of region 2 refer into region 1 from outside, and slot 9
// from inside. The three move to region 2, where slot 16 lies; then slots 0, 1 and 12 refer into
// it.
#[test]
fn a_redirect_lists_what_it_refined_and_records_its_cards(rt: HostRuntime) -> Result<(), Fail> {
    let steps = [
        Store(0, 0, Some(8), Logged),
        Store(0, 1, Some(9), AlreadyDirty),
        Store(1, 9, Some(10), SameRegion),
        Store(1, 16, Some(15), Logged),
    ];
    let mut paused = race_on(&rt, open(rt.alloc(), small()?)?, &steps)?;
    redirects(&rt, &mut paused, (1, 2), 3, &[0, 4])?;
    has_members(&rt, &mut paused, 1, &[])?;
    has_members(&rt, &mut paused, 2, &[0])?;
    let steps = [Store(0, 12, Some(17), Logged)];
    let mut paused = race_on(&rt, paused, &steps)?;
    redirects(&rt, &mut paused, (2, 3), 3, &[3])?;
    Ok(has_members(&rt, &mut paused, 3, &[0, 3])?)
}
