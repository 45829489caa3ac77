//! Makes every call that takes memory, and looks at what it leaves where a growth is refused
//! (docs/internals/testing.md, Refused growths).
//!
//! A growth is one call of `malloc` or `realloc`. Run as it is, the program meets no refusal;
//! `.ci/checks/check-growths` runs it once for each of its growths, with that one refused. The call
//! that needed it answers `NoMemory`, or a short reply: the scenario says so on standard error,
//! compares what was left with what the call's contract says, and makes the call again. So every
//! run prints the same lines and ends with status 0.
//!
//! There is a file for each layer. The scenarios of a core and a book are tables of steps
//! (`machinery`), and so is most of a pause; the others have a function each.
#![tactic(auto)]

mod cycle;
mod heap;
mod hot;
mod large;
mod line;
mod logs;
mod machinery;
mod outcome;
mod pause;
mod race;
mod sets;
mod shared;

use outcome::told;
use std::process::ExitCode;
use std::sync::Wait;
use test_support::Failure;

fn main(rt: HostRuntime) -> ExitCode {
    match play(&rt) {
        Ok(()) => ExitCode::SUCCESS,
        Err(_) => ExitCode::FAILURE,
    }
}

// The scenarios, lowest layer first.
fn play<R: Wait + Print + Eprint + AllocGlobal>(rt: &R) -> Result<(), Failure> {
    told(rt, "a heap", heap::new_heap(rt))?;
    told(rt, "completed buffers", logs::completed(rt))?;
    told(rt, "a line", line::new_line(rt))?;
    told(rt, "a ring of hot cards", hot::new_ring(rt))?;
    sets::play(rt)?;
    machinery::play_all(rt)?;
    told(rt, "callers at a line", line::new_callers(rt))?;
    told(rt, "a book that is shared", shared::book(rt))?;
    told(rt, "a core that is shared", shared::core(rt))?;
    told(rt, "a race", race::untouched(rt))?;
    told(rt, "a drain at a pause", pause::drained(rt))?;
    told(rt, "a redirect at a pause", pause::redirected(rt))?;
    told(rt, "a core of a race", cycle::race_to_core(rt))?;
    told(rt, "a race that a core becomes", cycle::core_to_race(rt))?;
    told(rt, "a core of a large heap", large::new_core(rt))?;
    told(rt, "a race of a large heap", large::untouched_race(rt))
}
