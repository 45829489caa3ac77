//! Comparisons and steps fail where something else was wanted: otherwise other tests would pass.
use g1_core::{Config, Fill, Kind};
use std::test::Fail;
use test_support::Failure;
use test_support::checks::{check, equal, numbered};
use test_support::numbers::{card, small};
use test_support::players::OnCore;
use test_support::step::Step::{
    self, ClearPending, Cleared, Drain, Logged, Members, Pending, Redirect, Refine, See, Status,
    StillReferenced, Store, Target,
};
use test_support::steps::play;

#[test]
fn values_that_differ_are_wrong(rt: HostRuntime) -> Result<(), Fail> {
    let cards = [card(small()?, 2)?, card(small()?, 5)?];
    check(&rt, true, "what holds")?;
    equal(&rt, "one number", 3, 3)?;
    numbered(&rt, "the cards", &cards, &[2, 5])?;
    let refused = [
        check(&rt, false, "(wanted) what does not hold"),
        equal(&rt, "(wanted) two numbers", 3, 4),
        numbered(&rt, "(wanted) another order", &cards, &[5, 2]),
        numbered(&rt, "(wanted) fewer cards", &cards, &[2]),
        numbered(&rt, "(wanted) more cards", &cards, &[2, 5, 7]),
    ];
    Ok(equal(&rt, "the comparisons", refused, [Err(Failure::Wrong); 5])?)
}

// Two cards are dirty, and nothing is recorded.
const BEFORE: [(u32, u32); 2] = [(0, 8), (4, 16)];

// A step that is right then, and one that is wrong.
static STEPS: [(Step<'static>, Step<'static>); 20] = [
    (Logged(&[(8, 0)]), Logged(&[(8, 12)])),
    (
        Store(8, 0, Kind::Logged, Fill::No),
        Store(8, 0, Kind::AlreadyDirty, Fill::No),
    ),
    (
        Store(8, 0, Kind::Logged, Fill::No),
        Store(8, 0, Kind::Logged, Fill::Full),
    ),
    (Refine(&[1], &[1], 0, 0), Refine(&[1], &[], 0, 0)),
    (Refine(&[1], &[1], 0, 0), Refine(&[1], &[1], 1, 0)),
    (Refine(&[1, 2], &[1], 0, 1), Refine(&[1, 2], &[1], 0, 0)),
    (Target(0, Some(8)), Target(0, Some(9))),
    (Target(1, None), Target(1, Some(0))),
    (Pending(1, true), Pending(1, false)),
    (Members(1, &[]), Members(1, &[0])),
    (Status(2, 0), Status(1, 0)),
    (Status(2, 0), Status(2, 1)),
    (Drain(1, &[0], &[0, 1]), Drain(1, &[0, 1], &[0, 1])),
    (Drain(1, &[0], &[0, 1]), Drain(1, &[0], &[1, 0])),
    (ClearPending(1, 2), ClearPending(1, 1)),
    (ClearPending(1, 2), Cleared(1)),
    (ClearPending(1, 2), StillReferenced(1, 0)),
    (Redirect(1, 3, 1, &[0, 1]), Redirect(1, 3, 2, &[0, 1])),
    (Redirect(1, 3, 1, &[0, 1]), Redirect(1, 3, 1, &[0])),
    (See(&BEFORE, &[0, 1], 0), See(&BEFORE, &[0], 0)),
];

#[test]
fn steps_that_a_core_answers_otherwise_are_wrong(rt: HostRuntime) -> Result<(), Fail> {
    for (right, wrong) in &STEPS {
        for (step, wanted) in [(right, Ok(())), (wrong, Err(Failure::Wrong))] {
            let mut core = OnCore::new(&rt, Config::default())?;
            play(&rt, &mut core, &[Logged(&BEFORE)])?;
            equal(&rt, "the steps", play(&rt, &mut core, &[*step]), wanted)?;
        }
    }
    Ok(())
}
