//! Plays steps, and compares what each returns with what it must.
//!
//! A call that is refused for memory, or is short, says so on standard error. What it left is
//! compared with what the contracts say, and it is made again. So one table of steps serves a test,
//! in which no growth is refused, and a scenario in which any one is. In a scenario each card that
//! is refined has one pair to record, and either all cards of a buffer are hot or none is.
use crate::checks::{check, equal};
use crate::failure::Failure;
use crate::numbers::{Numbers, numbers_of};
use crate::players::{Calls, State, state_of};
use crate::step::{Answer, Step, is_short};
use arrayvec::ArrayVec;
use g1_core::{Call, Entry, Fill, Kind};
use g1_layout::Layout;

/// Plays the steps in order.
pub fn play<C: Calls>(rt: &impl Eprint, on: &mut C, steps: &[Step<'_>]) -> Result<(), Failure> {
    for step in steps {
        match *step {
            Step::Logged(references) => logged(rt, on, references)?,
            Step::See(references, pending, recorded) => {
                see(rt, on, references, pending, recorded)?
            }
            call => made(rt, on, call)?,
        }
    }
    Ok(())
}

fn logged<C: Calls>(
    rt: &impl Eprint,
    on: &mut C,
    references: &[(u32, u32)],
) -> Result<(), Failure> {
    for (from, to) in references {
        made(rt, on, Step::Store(*from, *to, Kind::Logged, Fill::No))?;
    }
    Ok(())
}

fn see<C: Calls>(
    rt: &impl Eprint,
    on: &mut C,
    references: &[(u32, u32)],
    pending: &[u32],
    recorded: u32,
) -> Result<(), Failure> {
    for number in 0..on.layout().slot_count() {
        made(rt, on, Step::Target(number, place_of(references, number)))?;
    }
    for number in 0..on.layout().card_count() {
        made(rt, on, Step::Pending(number, pending.contains(&number)))?;
    }
    let count = u32::try_from(pending.len()).map_err(|_| Failure::Wrong)?;
    made(rt, on, Step::Status(count, recorded))
}

/// The number of the place that the slot of this number refers to, by these references.
pub fn place_of(references: &[(u32, u32)], number: u32) -> Option<u32> {
    for (from, to) in references {
        if *from == number {
            return Some(*to);
        }
    }
    None
}

// Makes the call, and again where it was refused or is short: it takes up where it stopped.
fn made<C: Calls>(rt: &impl Eprint, on: &mut C, step: Step<'_>) -> Result<(), Failure> {
    let Some(done) = attempt(rt, on, step)? else {
        return Ok(());
    };
    let again = attempt(rt, on, rest(step, &done))?;
    check(rt, again.is_none(), "a call was refused twice")
}

// What a call has done that was refused or is short.
#[derive(Drop)]
struct Done {
    refined: Numbers,
    hot: u32,
}

// Makes the call once. Returns `None` if it was whole.
fn attempt<C: Calls>(
    rt: &impl Eprint,
    on: &mut C,
    step: Step<'_>,
) -> Result<Option<Done>, Failure> {
    let before = state_of(on)?;
    match on.make(&step) {
        Err(Failure::NoMemory) => {
            let _ = eprintln!(rt; "refused: {}::{}", on.name(), step.name());
            equal(rt, "what a refused call left", state_of(on)?, before)?;
            let refined = ArrayVec::new();
            Ok(Some(Done { refined, hot: 0 }))
        }
        Err(Failure::Wrong) => {
            let _ = eprintln!(rt; "wrong: {step:?} is no call of a {}", on.name());
            Err(Failure::Wrong)
        }
        Ok(answer) => {
            if let Some((caller, entry)) = on.entry() {
                is_entered(rt, entry, caller, on.layout(), &step, &answer)?;
            }
            if is_short(&answer.reply) {
                return Ok(Some(is_left(rt, on, step, &before, answer)?));
            }
            is_whole(rt, &step, &answer)?;
            Ok(None)
        }
    }
}

fn is_whole(rt: &impl Eprint, step: &Step<'_>, answer: &Answer) -> Result<(), Failure> {
    let is = step.is_reply(&answer.reply) && answer.refined.as_slice() == step.order();
    if !is {
        let _ = eprintln!(rt; "wrong: {step:?} returned {answer:?}");
        return Err(Failure::Wrong);
    }
    Ok(())
}

// Whether a short call has refined the first cards of the order, and left all else.
fn is_left<C: Calls>(
    rt: &impl Eprint,
    on: &mut C,
    step: Step<'_>,
    before: &State,
    answer: Answer,
) -> Result<Done, Failure> {
    let cards = answer.refined.len();
    let _ = eprintln!(rt;
        "short: {}::{}, {cards} cards refined",
        on.name(),
        step.name()
    );
    let is = step.order().starts_with(answer.refined.as_slice());
    check(rt, is, "which cards a short call refined")?;
    let entered = if on.entry().is_some() { 1 } else { 0 };
    let after = before.after(answer.refined.as_slice(), entered)?;
    equal(rt, "what a short call left", state_of(on)?, after)?;
    let hot = answer.hot();
    let refined = answer.refined;
    Ok(Done { refined, hot })
}

// What is left of a step. Each card of a buffer that was refined or found hot is skipped now.
fn rest<'a>(step: Step<'a>, done: &Done) -> Step<'a> {
    let first = done.refined.len();
    match step {
        Step::Drain(of, set, order) => Step::Drain(of, set, behind(order, first)),
        Step::Redirect(from, to, slots, order) => {
            Step::Redirect(from, to, slots, behind(order, first))
        }
        Step::Refine(cards, order, hot, skipped) => {
            let turns = done.hot.max(first as u32);
            let order = behind(order, first);
            let hot = hot.saturating_sub(done.hot);
            Step::Refine(cards, order, hot, skipped.saturating_add(turns))
        }
        other => other,
    }
}

/// The numbers behind the first ones.
pub fn behind(numbers: &[u32], first: usize) -> &[u32] {
    numbers.get(first..).unwrap_or(&[])
}

// Whether the entry is that of the call, with the same reply.
fn is_entered(
    rt: &impl Eprint,
    entry: &Entry,
    caller: u32,
    layout: Layout,
    step: &Step<'_>,
    answer: &Answer,
) -> Result<(), Failure> {
    if !is_short(&answer.reply) {
        return is_entry(rt, entry, layout, caller, step);
    }
    let call = step.call(layout)?;
    let is = is_short(&entry.reply) && is_of(entry, caller, &call);
    check(rt, is, "the entry of a short call")?;
    let refined = numbers_of(entry.refined.as_slice())?;
    check(
        rt,
        refined == answer.refined,
        "what the entry of a short call refined",
    )
}

// Whether the entry is of this caller and this call.
fn is_of(entry: &Entry, caller: u32, call: &Call) -> bool {
    entry.caller == caller && entry.call == *call
}

/// Says what the entry is where it is not that of a step by this caller.
pub fn is_entry(
    rt: &impl Eprint,
    entry: &Entry,
    layout: Layout,
    caller: u32,
    step: &Step<'_>,
) -> Result<(), Failure> {
    let refined = numbers_of(entry.refined.as_slice())?;
    let call = step.call(layout)?;
    let is = is_of(entry, caller, &call)
        && step.is_reply(&entry.reply)
        && refined.as_slice() == step.order();
    if !is {
        let _ = eprintln!(rt; "wrong: caller {caller} made {step:?}, and the entry is {entry:?}");
        return Err(Failure::Wrong);
    }
    Ok(())
}

/// The entries are just those of the steps by these callers, in order.
pub fn are_entries(
    rt: &impl Eprint,
    entries: &[Entry],
    layout: Layout,
    wanted: &[(u32, Step<'_>)],
) -> Result<(), Failure> {
    equal(rt, "how many entries", entries.len(), wanted.len())?;
    for (entry, (caller, step)) in entries.iter().zip(wanted) {
        is_entry(rt, entry, layout, *caller, step)?;
    }
    Ok(())
}
