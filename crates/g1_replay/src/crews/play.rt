//! Makes the calls of each mutator in a thread of its own, and prints the result.
ghost use Rattle.std.specs.Prelude.{◌≡◌};
ghost use Rattle.g1_replay.specs.{List, true, vec_len, All, slot_count, AreScripts, PrintsSome};
ghost use Rattle.g1_replay.specs.{StepFits, Command, CrewRan, IsScriptReplayed, crewing, streams};

use crate::crews::jobs::run_jobs;
use crate::crews::output::put_crew;
use crate::end::End;
use crate::scripted::replay_scripts;
use crate::stop::Stop;
use g1_history::Book;
use g1_layout::Layout;
use g1_options::Options;
use g1_shared::Ledgers;
use g1_steps::Step;
use g1_trace::Mode;
use std::alloc::Global;
use std::io::{BufRead, Write};
use std::marker::Brand;
use std::sync::Wait;
use std::thread::Threads;

/// Runs the scripts, and prints the result.
pub(crate) fn run_scripts<T: Threads + Wait + Sync, W: Write>(
    rt: &T,
    alloc: Global,
    layout: Layout,
    scripts: Vec<Vec<Step>>,
    output: &mut W,
    options: &Options,
) -> Result<(), Stop>
    requires count { vec_len scripts ≡ options.now.mutators }
    requires fits { All (λ steps.
        All (StepFits (slot_count layout) true) steps.items) scripts.items }
    ensures { (commands : List Command)
        → AreScripts (λ steps. steps.items) scripts.items commands
        → PrintsSome (CrewRan options.now layout commands)
        (W.contents output.old) (W.contents output.new) result }
{
    let book = Book::open(
        alloc,
        layout,
        options.config,
        options.mutators,
        options.history as usize,
    )?;
    let ledgers = Ledgers::open(alloc, options.mutators + options.refiners)?;
    let (mut book, stores, refused) = run_jobs::<T, Brand, Brand>(
        rt, alloc, ledgers, book, scripts, options,
    )?;
    put_crew(&mut book, stores, refused, options.history, output)
}

/// Replays a trace by a crew: reads all of it, makes the calls of each mutator in a thread of its
/// own with refinement threads beside them, and writes how many stores were made and what a drain
/// of each region returns (docs/traces.md).
///
/// It writes how many stores the trace has, then the lines of the drains of each region in order,
/// and then the line of the end, if it has one. A permitted run of the plain table ends with these
/// drains. What stands before them is what the callers made: of each mutator just its stores, in
/// the order of the trace, with the refinements of its own help, and of each refinement thread
/// refinements alone. `book full` is written only if the run has as many entries as `options`
/// allows.
///
/// Which cards are refined between two stores is free. So two runs may write different text for a
/// trace that stores to a slot twice. The threads wait for the lock of the book.
pub fn crew<T: Threads + Wait + Sync, R: BufRead, W: Write>(
    rt: &T,
    alloc: Global,
    input: &mut R,
    output: &mut W,
    options: &Options,
) -> End
    ensures { IsScriptReplayed (crewing options.now)
        (streams (R.remaining input.old) (W.contents output.old))
        (streams (R.remaining input.new) (W.contents output.new)) result }
{
    replay_scripts(rt, alloc, Mode::Crew, input, output, options)
}
