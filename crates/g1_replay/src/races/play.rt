//! Makes the stores of each mutator in a race, in a thread of its own, and prints the result.
ghost use Rattle.std.specs.Prelude.{◌≡◌, ◌<◌, ◌^◌};
ghost use Rattle.g1_replay.specs.{List, true, All, vec_len, sum_by, slot_count, StepFits, Command};
ghost use Rattle.g1_replay.specs.{AreScripts, RaceRan, IsScriptReplayed, PrintsSome, racing, IfOk};
ghost use Rattle.g1_replay.specs.{core_of, stores_in, streams};

use crate::drains::put_left;
use crate::end::End;
use crate::races::jobs::run_race;
use crate::races::opening::open_race;
use crate::scripted::replay_scripts;
use crate::scripts::count_stores;
use crate::stop::Stop;
use g1_core::Core;
use g1_layout::{Layout, NoMemory};
use g1_options::Options;
use g1_race::Closed;
use g1_steps::Step;
use g1_trace::Mode;
use std::alloc::Global;
use std::io::{BufRead, Write};
use std::sync::Wait;
use std::thread::Threads;

// The core that the race has become, with the settings of the options.
fn adopted(alloc: Global, closed: Closed, options: &Options) -> Result<Core, NoMemory>
    ensures { IfOk result (λ core. core ≡ core_of closed options.now.config) }
{
    match closed.into_core(alloc, options.config) {
        Ok(core) => Ok(core),
        Err((_, refusal)) => Err(refusal),
    }
}

/// Races the scripts, and prints the result.
pub(crate) fn race_scripts<T: Threads + Wait + Sync, W: Write>(
    rt: &T,
    alloc: Global,
    layout: Layout,
    scripts: Vec<Vec<Step>>,
    output: &mut W,
    options: &Options,
) -> Result<(), Stop>
    requires count { vec_len scripts ≡ options.now.mutators }
    requires fits { All (λ steps.
        All (StepFits (slot_count layout) true) steps.items) scripts.items }
    requires few { sum_by (λ steps. stores_in steps.items) scripts.items < 2 ^ 64 }
    ensures { (commands : List Command)
        → AreScripts (λ steps. steps.items) scripts.items commands
        → PrintsSome (RaceRan options.now.mutators layout commands)
        (W.contents output.old) (W.contents output.new) result }
{
    let stores = count_stores(&scripts);
    let opened = open_race(alloc, layout, options)?;
    let closed = run_race(rt, alloc, opened, scripts, options)?;
    let mut core = adopted(alloc, closed, options)?;
    put_left(&mut core, layout, stores, output)
}

/// Replays a trace of stores by a race: reads all of it, and makes the stores of each mutator in a
/// thread of its own with no lock around them and refinement threads beside them. Then, with the
/// race closed and made a core, it writes how many stores were made and what a drain of each region
/// returns (docs/traces.md, A race).
///
/// It writes how many stores the trace has, then the lines of drains of the regions in order, and
/// then the line of the end, if it has one. By the drains each slot refers to what some mutator
/// stored to it last, or to nothing if none stores to it. A line `drained` lists cards outside its
/// region, ascending: every card that holds one of these references into the region, and only cards
/// to which the trace stores a reference into it.
///
/// Which of two racing stores to a slot comes last is free, and so is which cards a refinement
/// thread meets. So two runs may write different text for a trace that stores to a slot twice. It
/// is not claimed that a history of one thread explains a run, nor that a logged card ever reaches
/// a refinement thread: a card that none refines stays dirty, and the drains find it. The threads
/// wait for nothing but the queue of completed buffers.
pub fn race<T: Threads + Wait + Sync, R: BufRead, W: Write>(
    rt: &T,
    alloc: Global,
    input: &mut R,
    output: &mut W,
    options: &Options,
) -> End
    ensures { IsScriptReplayed (racing options.now)
        (streams (R.remaining input.old) (W.contents output.old))
        (streams (R.remaining input.new) (W.contents output.new)) result }
{
    replay_scripts(rt, alloc, Mode::Race, input, output, options)
}
