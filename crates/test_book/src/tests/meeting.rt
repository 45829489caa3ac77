//! Jobs run concurrently: each waits until the other has begun.
ghost use Rattle.std.specs.Prelude.{true, All, IfOk};
ghost use Rattle.g1_layout.specs.Shape.{slot_count};
ghost use Rattle.g1_steps.specs.Ask.{ScriptFits};

use g1_book::{Desk, FlushReply, Job, Refusal, Script, Step, run_crew};
use g1_core::{CardList, Fill, RefineReply, StoreReply};
use g1_layout::{Kind, Layout, Slot};
use std::alloc::Global;
use std::hint;
use std::sync::atomic::{AtomicBool, Ordering};
use std::test::Fail;
use test_support::numbers::{slot, small};
use test_support::{Failure, equal};

/// A desk whose store waits until the other desk's store has begun.
#[derive(Drop)]
struct Meeting<'a> {
    alloc: Global,
    layout: Layout,
    mine: &'a AtomicBool,
    theirs: &'a AtomicBool,
}

/// Whether the flag was seen to be set. It is looked at for some seconds at most.
fn is_set(flag: &AtomicBool) -> bool {
    for _ in 0..200_000_000 {
        if flag.load(Ordering::SeqCst) {
            return true;
        }
        hint::spin_loop();
    }
    false
}

impl Desk for Meeting<'_> {
    ghost did = { λ s asks t. Unit {0} };

    ghost slots = { λ s. slot_count s.layout };

    ghost may_store = { λ _. true };

    fn store(&mut self, _slot: Slot, _target: Option<Slot>) -> Result<StoreReply, Refusal> {
        self.mine.store(true, Ordering::SeqCst);
        if !is_set(self.theirs) {
            return Err(Refusal::NoMemory);
        }
        Ok(StoreReply {
            kind: Kind::Null,
            fill: Fill::No,
            refined: CardList::new(self.alloc),
            short: false,
        })
    }

    fn flush(&mut self) -> Result<FlushReply, Refusal> {
        Err(Refusal::NoMemory)
    }

    fn work(&mut self) -> Result<RefineReply, Refusal> {
        Err(Refusal::NoMemory)
    }

    ghost none = { λ s. tt };

    ghost then = { λ s t u xs ys p q. tt };
}

/// A job of two stores at such a desk.
fn job<'a>(
    alloc: Global,
    mine: &'a AtomicBool,
    theirs: &'a AtomicBool,
) -> Result<Job<Meeting<'a>>, Failure>
    ensures { IfOk result (λ job. ScriptFits (slot_count job.desk.layout) true job.script) }
{
    let layout = small()?;
    let slot = slot(layout, 0)?;
    let steps = vec![in alloc; Step::Store(slot, None), Step::Store(slot, None)]?;
    let desk = Meeting {
        alloc,
        layout,
        mine,
        theirs,
    };
    Ok(Job {
        desk,
        script: Script::Mutate(steps),
        outcome: None,
    })
}

/// Two jobs, each of which waits until the other has begun.
fn both<'a>(
    alloc: Global,
    first: &'a AtomicBool,
    second: &'a AtomicBool,
) -> Result<Vec<Job<Meeting<'a>>>, Failure>
    ensures { IfOk result (λ jobs.
        All (λ job. ScriptFits (slot_count job.desk.layout) true job.script) jobs.items) }
{
    let one = job(alloc, first, second)?;
    let other = job(alloc, second, first)?;
    Ok(vec![in alloc; one, other]?)
}

/// Whether both jobs have made their two calls.
fn are_made(rt: &impl Eprint, done: &[Job<Meeting<'_>>]) -> Result<(), Failure> {
    for job in done {
        equal(rt, "calls", job.outcome, Some(Ok(2)))?;
    }
    equal(rt, "jobs", done.len(), 2)
}

#[test]
fn two_jobs_that_wait_for_each_other_end(rt: HostRuntime) -> Result<(), Fail> {
    let (first, second) = (AtomicBool::new(false), AtomicBool::new(false));
    let jobs = both(rt.alloc(), &first, &second)?;
    let done = run_crew(&rt, rt.alloc(), jobs)?;
    Ok(are_made(&rt, done.as_slice())?)
}
