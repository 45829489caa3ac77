//! A replay by one thread: the header of its trace, its lines, and the line of its end.
ghost use Rattle.g1_replay.specs.{PrintsSome, Told, IsReplayed, running, spot, streams};

use crate::end::{End, put_end};
use crate::lines::opening::read_layout;
use crate::lines::source::{Commands, Source};
use crate::runs::opening::open_machinery;
use crate::stop::Stop;
use g1_options::Options;
use g1_trace::{Dialect, Mode};
use std::alloc::Global;
use std::io::{BufRead, Write};
use std::sync::Wait;

// The whole trace, but for the line of its end.
fn play_trace<T: Wait, R: BufRead, W: Write>(
    rt: &T,
    alloc: Global,
    source: &mut Source,
    input: &mut R,
    output: &mut W,
    options: &Options,
) -> Result<(), Stop>
    ensures { PrintsSome (Told options.now (spot source.old.number (R.remaining input.old))
        (spot source.new.number (R.remaining input.new)))
        (W.contents output.old) (W.contents output.new) result }
{
    let layout = read_layout(source, input)?;
    let mut machinery = open_machinery(alloc, layout, options)?;
    let dialect = Dialect {
        mode: Mode::Run,
        mutators: options.mutators,
    };
    let mut commands = Commands {
        source,
        layout,
        dialect,
    };
    let result = commands.play_all(rt, input, &mut machinery, output);
    let _history = machinery.book.entries();
    result
}

/// Replays a trace: reads it line by line, makes the calls of each command and writes its output
/// line (docs/traces.md).
///
/// It writes the text of a permitted run of the plain table that belongs to the commands that were
/// read, a line for each command, and then the line of the end, if it has one. With `Stopped` and
/// `ReadFailed` the commands are those before the end. `book full` is written only if the run has
/// as many entries as `options` allows. A fault is the end wherever its line was read whole: a
/// failed read or refused memory does not hide it.
///
/// Each command is a step of its own mutator or of the first taker, and of nobody else, and its
/// line is the text of what the step answers. Mutators begin with empty logs, the queue of
/// completed buffers begins empty, and a pause empties them. A command that is refused is the last,
/// and writes no line.
///
/// A round of `work` makes at most as many calls as one that begins at the start threshold of
/// `options` and sees no more completed buffers than their limit.
///
/// It holds one line of the trace at a time. Reading and writing take no memory; history and sets
/// grow, and the lists of replies. It may wait for the queue of completed buffers, which nothing
/// else uses.
pub fn run<T: Wait, R: BufRead, W: Write>(
    rt: &T,
    alloc: Global,
    input: &mut R,
    output: &mut W,
    options: &Options,
) -> End
    ensures { IsReplayed (running options.now)
        (streams (R.remaining input.old) (W.contents output.old))
        (streams (R.remaining input.new) (W.contents output.new)) result }
{
    let mut source = Source::start();
    let outcome = play_trace(rt, alloc, &mut source, input, output, options);
    put_end(output, source.number, outcome)
}
