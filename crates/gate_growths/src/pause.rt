//! The pause of a race: the lists that it answers take memory.
use crate::machinery::REFERENCES;
use g1_core::{Call, Fill, Reply};
use g1_layout::Layout;
use g1_race::Paused;
use std::alloc::Global;
use test_support::Failure;
use test_support::failure::retried;
use test_support::numbers::small;
use test_support::players::Calls;
use test_support::step::Answer;
use test_support::step::Step::{self, Drain, Logged, Members, Redirect, See};
use test_support::steps::play;

// A heap at a pause.
#[derive(Drop)]
struct OnPaused {
    paused: Paused,
    alloc: Global,
}

impl Calls for OnPaused {
    fn name(&self) -> &'static str {
        "Paused"
    }

    fn make(&mut self, step: &Step<'_>) -> Result<Answer, Failure> {
        let (paused, alloc) = (&mut self.paused, self.alloc);
        match step.call(paused.layout())? {
            Call::Store { slot, target } => {
                let kind = paused.store(slot, target);
                let (fill, short) = (Fill::No, false);
                Answer::new(Reply::Stored { kind, fill, short }, &[])
            }
            Call::Refine => Err(Failure::Wrong),
            Call::Target(slot) => Answer::new(Reply::Target(paused.target(slot)), &[]),
            Call::Pending(card) => Answer::new(Reply::Pending(paused.is_pending(card)), &[]),
            Call::Members(region) => {
                Answer::new(Reply::Cards(paused.members(alloc, region)?), &[])
            }
            Call::Status => Answer::new(Reply::Status(paused.status()), &[]),
            Call::Drain(region) => Answer::of_drain(paused.drain(alloc, region)?),
            Call::Clear(region) => Answer::new(Reply::Clear(paused.clear(region)), &[]),
            Call::Redirect { from, to } => {
                Answer::of_redirect(paused.redirect(alloc, from, to)?)
            }
        }
    }

    fn layout(&self) -> Layout {
        self.paused.layout()
    }
}

fn on_paused<R: Eprint + AllocGlobal>(rt: &R, steps: &[Step<'_>]) -> Result<(), Failure> {
    let (alloc, layout) = (rt.alloc(), small()?);
    let paused = retried(rt, "Paused::open", || Paused::open(alloc, layout, 1, 1))?;
    let mut on = OnPaused { paused, alloc };
    play(rt, &mut on, steps)
}

/// A drain lists the cards that hold into region 3.
pub(crate) fn drained<R: Eprint + AllocGlobal>(rt: &R) -> Result<(), Failure> {
    let steps = [
        Logged(&REFERENCES),
        Drain(3, &[0, 2], &[0, 1, 2]),
        See(&REFERENCES, &[], 3),
    ];
    on_paused(rt, &steps)
}

/// The references into region 3 move to region 1, where slot 8 lies.
pub(crate) fn redirected<R: Eprint + AllocGlobal>(rt: &R) -> Result<(), Failure> {
    let steps = [
        Logged(&REFERENCES),
        Redirect(3, 1, 2, &[0, 1, 2]),
        See(&[(0, 8), (4, 16), (8, 8)], &[], 2),
        Members(1, &[0]),
    ];
    on_paused(rt, &steps)
}
