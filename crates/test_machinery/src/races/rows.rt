//! What a race leaves after a few steps, on the small heap: card `c` has the slots from `4 * c` on,
//! region `r` those from `8 * r` on.
use crate::races::steps::Seen::{Has, Marked, Target};
use crate::races::steps::Step::{Log, Refine, Store};
use crate::races::steps::{Seen, Step, open, race_on, see};
use g1_layout::Kind::{AlreadyDirty, Logged, Null, SameRegion};
use std::test::Fail;
use test_support::numbers::small;

// Each row: the steps, and what is seen once the race is closed.
const ROWS: [(&[Step], &[Seen]); 5] = [
    // A card is logged once, and refined with all its pairs.
    (
        &[
            Store(0, 0, Some(8), Logged),
            Store(1, 1, Some(16), AlreadyDirty),
            Log(0, &[0]),
            Log(1, &[]),
            Refine(0),
        ],
        &[Marked(0, false), Has(0, 1, true), Has(0, 2, true)],
    ),
    // A refined card stays recorded when its reference goes.
    (
        &[
            Store(0, 0, Some(8), Logged),
            Refine(0),
            Store(0, 0, None, Null),
            Log(0, &[0]),
        ],
        &[Target(0, None), Marked(0, false), Has(0, 1, true)],
    ),
    // A store after a refinement claims the card again.
    (
        &[
            Store(0, 0, Some(8), Logged),
            Log(0, &[0]),
            Refine(0),
            Store(0, 0, Some(8), Logged),
            Log(0, &[0]),
        ],
        &[Target(0, Some(8)), Marked(0, true), Has(0, 1, true)],
    ),
    // A clean card with nothing in it is refined to nothing.
    (
        &[Refine(7)],
        &[
            Marked(7, false),
            Has(7, 0, false),
            Has(7, 1, false),
            Has(7, 2, false),
            Has(7, 3, false),
        ],
    ),
    // Only a reference across regions is logged.
    (
        &[
            Store(0, 0, Some(5), SameRegion),
            Log(0, &[]),
            Store(0, 31, Some(0), Logged),
            Log(0, &[7]),
        ],
        &[
            Target(0, Some(5)),
            Target(31, Some(0)),
            Marked(7, true),
            Has(7, 0, false),
        ],
    ),
];

#[test]
fn what_steps_leave(rt: HostRuntime) -> Result<(), Fail> {
    for (steps, seen) in ROWS {
        let paused = race_on(&rt, open(rt.alloc(), small()?)?, steps)?;
        see(&rt, &paused.close(), seen)?;
    }
    Ok(())
}
