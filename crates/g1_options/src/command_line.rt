//! What a command line means.
ghost use Rattle.std.specs.Prelude.{◌≡◌, List, [], Some, true, IfSome, IfOk, IfErr, OnOk, map};
ghost use Rattle.std.specs.Prelude.{string_bytes};
ghost use Rattle.clap.specs.Words.{Row, app_of, fault_of, found_of, kind_of, new_app, rows_of};
ghost use Rattle.clap.specs.Words.{subcommand_rows_of, takes};
ghost use Rattle.g1_core.specs.Settings.{IsWithin};
ghost use Rattle.g1_options.specs.Settings.{AreWithinLimits};
ghost use Rattle.g1_options.specs.CommandLine.{AreOptionsOf, AreSettingsRead, AreThreaded};
ghost use Rattle.g1_options.specs.CommandLine.{IsCommandLine, IsLocal, IsRead, line_app, line_top};
ghost use Rattle.g1_options.specs.CommandLine.{mode_name, with_shared, with_threads};
ghost use Rattle.g1_trace.specs.declared.mode.Mode.TheVariants.{Run as RunMode};

use crate::options::Options;
use crate::settings::{HISTORY, HOT, LIMIT, LOG, MUTATORS, REFINERS, RING, ROUNDS, START, Setting};
use clap::error::ErrorKind;
use clap::{ArgMatches, Command, Error};
use g1_core::Config;
use g1_trace::{Mode, TRACES};
use std::alloc::{AllocError, Global};
use thiserror::Error;

/// Why the program doesn't start: the command line was refused, asks for help or the version, or
/// memory was refused.
#[derive(Debug, Drop, Error)]
#[error("{text}")]
pub struct LineFault {
    /// What the program writes to standard error. It is empty if memory was refused.
    pub text: String,
}

// The version of the program, which `--version` tells.
const VERSION: &str = "0.5.0";

const ABOUT: &str = "Replays traces for the remembered-set log of a region-based garbage collector";

const AFTER_HELP: &str =
    "'g1replay COMMAND --help' has the options of a command, an example and the exit statuses.";

const RUN_ABOUT: &str =
    "Reads a trace on standard input and prints the reply of each command on standard output";

const RUN_OPTIONS: &str = "\
Each option takes one decimal whole number, and may be given once.";

const RUN_EXAMPLE: &str = "\
To replay a file:
  g1replay run < FILE

Example, with logs that one card fills:
  printf 'heap 4 2 4\\nstore 0 0 8\\nrefine\\nmembers 1\\n' | g1replay run --log 1
It makes a heap of 4 regions of 2 cards of 4 slots, stores a reference to slot 8, which lies
in region 1, into slot 0, and refines the card of slot 0. It prints
  logged full
  refined 1 hot 0 skipped 0
  cards 0

Exit status:
  0  the whole trace was done
  1  the command line was refused, or help or the version was asked for
  2  the trace was refused: the last line printed says which line, and why
  3  memory was refused, or the history is full: 'no memory' or 'book full' is printed
  4  a read of standard input failed: 'read failed' is printed
  5  a write to standard output failed";

const CREW_ABOUT: &str = "\
Reads a trace on standard input, runs each mutator in a thread of its own, then drains each region";

const CREW_AFTER_HELP: &str = "\
Each option takes one decimal whole number, and may be given once. Behind its header the trace has
'store' and 'flush' and no other command. It is read whole before any thread is started.

Example, with logs that one card fills:
  printf 'heap 4 2 4\\nstore 0 0 8\\nstore 1 16 8\\n' | g1replay crew --mutators 2 --log 1
It makes a heap of 4 regions of 2 cards of 4 slots. Two threads store a reference to slot 8, which
lies in region 1, into slot 0 and into slot 16, while a third refines. It prints
  stores 2
  drained
  drained 0 4
  drained
  drained
which is how many stores were made and, for each region in turn, the cards to scan for references
into it. They may differ from run to run where a slot is stored to more than once.

Exit status:
  0  the whole trace was done
  1  the command line was refused, or help or the version was asked for
  2  the trace was refused: the line printed says which line, and why
  3  memory or a thread was refused, or the history is full: 'no memory', 'no thread' or 'book full'
     is printed
  4  a read of standard input failed: 'read failed' is printed
  5  a write to standard output failed";

const RACE_ABOUT: &str =
    "Reads a trace on standard input, races the stores of the mutators, then drains each region";

const RACE_AFTER_HELP: &str = "\
Each option takes one decimal whole number, and may be given once. Behind its header the trace has
'store' and no other command. It is read whole before any thread is started. The stores of each
mutator are made in a thread of its own, with no lock around them; --hot, --ring, --start and
--history have no effect on what is printed.

Example, with logs that one card fills:
  printf 'heap 4 2 4\\nstore 0 0 8\\nstore 1 16 8\\n' | g1replay race --mutators 2 --log 1
It makes a heap of 4 regions of 2 cards of 4 slots. Two threads store a reference to slot 8, which
lies in region 1, into slot 0 and into slot 16, while a third refines. It prints
  stores 2
  drained
  drained 0 4
  drained
  drained
which is how many stores were made and, for each region in turn, the cards to scan for references
into it. They may differ from run to run where a slot is stored to more than once.

Each list is exact for references that these stores may leave: it has every card outside the region
that refers into it, and only cards to which the trace stores such a reference. No order of the
stores, one after the other, need explain these references, and a logged card need not reach a
refiner: the drains then find it dirty.

Exit status:
  0  the whole trace was done
  1  the command line was refused, or help or the version was asked for
  2  the trace was refused: the line printed says which line, and why
  3  memory or a thread was refused: 'no memory' or 'no thread' is printed
  4  a read of standard input failed: 'read failed' is printed
  5  a write to standard output failed";

/// Returns what the command line means. The first word is the program's name.
///
/// Each mode has the options of its own subcommand. Those that aren't given, and those that only
/// other subcommands have, have their defaults. Refused with a text for standard error are an
/// unknown word, an option given twice, a value that is no decimal whole number or is outside its
/// limits, a missing subcommand, and a request for help or the version. Refused memory has no text.
pub fn read_options(alloc: Global, words: &[&str]) -> Result<(Mode, Options), LineFault>
    ensures within { IfOk result (λ p. AreWithinLimits p.1) }
    ensures read { IfOk result (λ p. IsCommandLine (map (λ w. w.now) words.now) p.0 p.1) }
    ensures taken { OnOk result (fault_of line_app (map (λ w. w.now) words.now) ≡ []) }

    // A command line that the parser takes is refused only with no text, as if memory was refused.
    ensures refused { IfErr result (λ f.
        takes line_app (map (λ w. w.now) words.now) ≡ true → string_bytes f.text ≡ []) }
{
    let Ok(run_help) = format!(in alloc; "{RUN_OPTIONS}\n\n{TRACES}\n\n{RUN_EXAMPLE}") else {
        return Err(LineFault::silent(alloc));
    };
    let Ok(command) = line(alloc, &run_help) else {
        return Err(LineFault::silent(alloc));
    };
    let matches = match command.try_get_matches_from(words) {
        Ok(matches) => matches,
        Err(error) => return Err(LineFault::of(alloc, &error)),
    };
    match asked(&matches) {
        Some(asked) => Ok(asked),
        None => Err(LineFault::silent(alloc)),
    }
}

// The whole command line, with what the help of `run` says behind its options.
fn line<'a>(alloc: Global, run_help: &'a str) -> Result<Command<'a>, AllocError>
    ensures { IfOk result (λ c. app_of c ≡ line_app) }
{
    let run = with_shared(alloc, named(alloc, "run", RUN_ABOUT, run_help))?;
    let line = top(alloc).subcommand(run)?;
    let crew = with_threads(alloc, named(alloc, "crew", CREW_ABOUT, CREW_AFTER_HELP))?;
    let line = line.subcommand(crew)?;
    let race = with_threads(alloc, named(alloc, "race", RACE_ABOUT, RACE_AFTER_HELP))?;
    line.subcommand(race)
}

// The program, which has no subcommand yet.
fn top<'a>(alloc: Global) -> Command<'a>
    ensures { app_of result ≡ line_top }
{
    Command::new(alloc, "g1replay")
        .version(VERSION)
        .about(ABOUT)
        .after_help(AFTER_HELP)
        .arg_required_else_help(true)
        .subcommand_required(true)
}

// The subcommand of this name, which has no option yet.
fn named<'a>(alloc: Global, name: &'a str, about: &'a str, after_help: &'a str) -> Command<'a>
    ensures app { app_of result ≡ new_app name.now }
    ensures local { IsLocal result }
{
    Command::new(alloc, name)
        .about(about)
        .after_help(after_help)
}

// The subcommand with the options that those with threads have.
fn with_threads<'a>(alloc: Global, command: Command<'a>) -> Result<Command<'a>, AllocError>
    requires { IsLocal command }
    ensures app { IfOk result (λ c. app_of c ≡ with_threads (app_of command.entry)) }
    ensures local { IfOk result IsLocal }
{
    with_shared(alloc, command)?
        .arg(REFINERS.argument(alloc))?
        .arg(ROUNDS.argument(alloc))
}

// The subcommand with the options that all have.
fn with_shared<'a>(alloc: Global, command: Command<'a>) -> Result<Command<'a>, AllocError>
    requires { IsLocal command }
    ensures app { IfOk result (λ c. app_of c ≡ with_shared (app_of command.entry)) }
    ensures local { IfOk result IsLocal }
{
    command
        .arg(MUTATORS.argument(alloc))?
        .arg(LOG.argument(alloc))?
        .arg(LIMIT.argument(alloc))?
        .arg(HOT.argument(alloc))?
        .arg(RING.argument(alloc))?
        .arg(START.argument(alloc))?
        .arg(HISTORY.argument(alloc))
}

// The subcommand that was asked for, with its options.
fn asked(matches: &ArgMatches<'_>) -> Option<(Mode, Options)>
    ensures { IfSome result (λ p. (rows : List Row)
        × (subcommand_rows_of matches.now ≡ Some (mode_name p.0, rows))
        × AreOptionsOf p.0 rows p.1) }
{
    if let Some(run) = matches.subcommand_matches("run") {
        return Some((Mode::Run, run_options(run)?));
    }
    if let Some(crew) = matches.subcommand_matches("crew") {
        return Some((Mode::Crew, threaded_options(crew)?));
    }
    let race = matches.subcommand_matches("race")?;
    Some((Mode::Race, threaded_options(race)?))
}

// The options of `run` that the subcommand's matches have.
fn run_options(matches: &ArgMatches<'_>) -> Option<Options>
    ensures { IfSome result (AreOptionsOf RunMode (rows_of (found_of matches.now))) }
{
    let mut options = Options::default();
    options.mutators = value(matches, &MUTATORS)?;
    options.config = config(matches)?;
    options.history = value(matches, &HISTORY)?;
    Some(options)
}

// The settings of the core.
fn config(matches: &ArgMatches<'_>) -> Option<Config>
    ensures { IfSome result (AreSettingsRead (rows_of (found_of matches.now))) }
{
    let log = value(matches, &LOG)?;
    let limit = value(matches, &LIMIT)?;
    let hot = value(matches, &HOT)?;
    let ring = value(matches, &RING)?;
    let start = value(matches, &START)?;
    Config::new(
        log as usize,
        limit as usize,
        hot,
        ring as usize,
        start as usize,
    )
}

// The options of a subcommand with threads: those of `run` and two more.
fn threaded_options(matches: &ArgMatches<'_>) -> Option<Options>
    ensures { IfSome result (AreThreaded (rows_of (found_of matches.now))) }
{
    let mut options = run_options(matches)?;
    options.refiners = value(matches, &REFINERS)?;
    options.rounds = value(matches, &ROUNDS)?;
    Some(options)
}

// The value of an option. The parser has found it within its limits, which is tested once more for
// the proof.
fn value(matches: &ArgMatches<'_>, setting: &Setting) -> Option<u32>
    ensures read { IfSome result (IsRead (rows_of (found_of matches.now)) setting.now.name.now) }
    ensures within { IfSome result (IsWithin setting.now.limits) }
{
    let number = number(matches, setting.name)?;
    setting.limits.contain(number as usize).then_some(number)
}

// The number that stands for the option of this name.
fn number(matches: &ArgMatches<'_>, name: &str) -> Option<u32>
    ensures { IfSome result (IsRead (rows_of (found_of matches.now)) name.now) }
{
    matches.get_one::<u32>(name)
}

impl LineFault {
    // No text, if memory was refused.
    fn silent(alloc: Global) -> LineFault
        ensures { string_bytes result.text ≡ [] }
    {
        LineFault {
            text: String::new(alloc),
        }
    }

    // The text of a refusal or of help.
    fn of(alloc: Global, error: &Error) -> LineFault
        ensures { kind_of error.now ≡ ErrorKind.OutOfMemory → string_bytes result.text ≡ [] }
    {
        if error.kind() == ErrorKind::OutOfMemory {
            return LineFault::silent(alloc);
        }
        match format!(in alloc; "{error}") {
            Ok(text) => LineFault { text },
            Err(_) => LineFault::silent(alloc),
        }
    }
}
