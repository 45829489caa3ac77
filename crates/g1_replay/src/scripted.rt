//! A trace that is read to its end before its scripts are run, by a crew or by a race.
ghost use Rattle.g1_replay.specs.{PrintsSome, IsScriptReplayed, scripting, spot, streams};
ghost use Rattle.g1_replay.specs.Scripted.{Scripted};

use crate::crews::play::run_scripts;
use crate::end::{End, put_end};
use crate::lines::opening::read_layout;
use crate::lines::source::{Commands, Source};
use crate::races::play::race_scripts;
use crate::scripts::Scripts;
use crate::stop::Stop;
use g1_options::Options;
use g1_trace::{Dialect, Mode};
use std::alloc::Global;
use std::io::{BufRead, Write};
use std::sync::Wait;
use std::thread::Threads;

// The whole trace, of which nothing is written, and then its scripts, but for the line of the end.
fn play_scripts<T: Threads + Wait + Sync, R: BufRead, W: Write>(
    rt: &T,
    alloc: Global,
    mode: Mode,
    source: &mut Source,
    input: &mut R,
    output: &mut W,
    options: &Options,
) -> Result<(), Stop>
    ensures { PrintsSome (Scripted (scripting mode options.now)
        (spot source.old.number (R.remaining input.old))
        (spot source.new.number (R.remaining input.new)))
        (W.contents output.old) (W.contents output.new) result }
{
    let mut scripts = Scripts::new(alloc, options.mutators)?;
    let layout = read_layout(source, input)?;
    let dialect = Dialect {
        mode,
        mutators: options.mutators,
    };
    let mut commands = Commands {
        source,
        layout,
        dialect,
    };
    commands.play_all(rt, input, &mut scripts, output)?;
    match mode {
        Mode::Race => race_scripts(rt, alloc, layout, scripts.steps, output, options),
        _ => run_scripts(rt, alloc, layout, scripts.steps, output, options),
    }
}

/// Reads a trace to its end, runs its scripts by a race in that mode and else by a crew, and writes
/// what they come to and the line of the end.
pub(crate) fn replay_scripts<T: Threads + Wait + Sync, R: BufRead, W: Write>(
    rt: &T,
    alloc: Global,
    mode: Mode,
    input: &mut R,
    output: &mut W,
    options: &Options,
) -> End
    ensures { IsScriptReplayed (scripting mode options.now)
        (streams (R.remaining input.old) (W.contents output.old))
        (streams (R.remaining input.new) (W.contents output.new)) result }
{
    let mut source = Source::start();
    let outcome = play_scripts(rt, alloc, mode, &mut source, input, output, options);
    put_end(output, source.number, outcome)
}
