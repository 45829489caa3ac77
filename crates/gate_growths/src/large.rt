//! A large heap, which `Layout::large` alone grants: opening a core and a race takes memory.
//!
//! The heap has 2 regions of 40,000 cards of one slot.
use crate::race::{closed_after, place_after};
use g1_core::{Config, Core};
use g1_layout::Layout;
use test_support::Failure;
use test_support::checks::equal;
use test_support::failure::retried;
use test_support::numbers::slot;

fn large() -> Result<Layout, Failure> {
    Layout::large(2, 40_000, 1).ok_or(Failure::Wrong)
}

/// A core's last card is marked by a store.
pub(crate) fn new_core<R: Eprint + AllocGlobal>(rt: &R) -> Result<(), Failure> {
    let (alloc, layout) = (rt.alloc(), large()?);
    let mut core = retried(
        rt,
        "Core::new",
        || Core::new(alloc, layout, Config::default()),
    )?;
    let from = slot(core.layout(), 79_999)?;
    let to = slot(core.layout(), 0)?;
    core.store_unlogged(from, Some(to));
    equal(rt, "how many cards are pending", core.status().pending, 1)
}

/// The last slot of a race with no store is null.
pub(crate) fn untouched_race<R: Eprint + AllocGlobal>(rt: &R) -> Result<(), Failure> {
    let closed = closed_after(rt, large()?, &[], 0)?;
    equal(
        rt,
        "the last slot of a new race",
        place_after(&closed, 79_999)?,
        None,
    )
}
