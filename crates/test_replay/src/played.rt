//! Replays of a trace, and how their ends are compared.
ghost use Rattle.std.specs.Prelude.{◌≤◌};

use g1_core::Config;
use g1_replay::{End, Mode, Options, crew, race, run};
use std::fmt::Debug;
use std::io::{BufRead, Write};
use std::process::Abort;
use std::sync::Wait;
use std::thread::Threads;

/// `assert_eq!` as a function: what it does where the values differ is proved here once, and not in
/// each test.
pub(crate) fn assert_equal<T: PartialEq + Debug + Drop>(rt: &impl Abort, got: T, want: T) {
    assert_eq!(rt; got, want);
}

/// The subcommand's replay.
pub(crate) fn replay<T: Threads + Wait + Sync + AllocGlobal, R: BufRead, W: Write>(
    rt: &T,
    mode: Mode,
    input: &mut R,
    output: &mut W,
    options: &Options,
) -> End {
    match mode {
        Mode::Run => run(rt, rt.alloc(), input, output, options),
        Mode::Crew => crew(rt, rt.alloc(), input, output, options),
        Mode::Race => race(rt, rt.alloc(), input, output, options),
    }
}

/// Checks what `run` prints of this input, and how it ends.
pub(crate) fn prints<T: Abort + Wait + AllocGlobal, R: BufRead>(
    rt: &T,
    input: &mut R,
    options: &Options,
    (printed, end): (&[u8], End),
) {
    let mut output: Vec<u8> = Vec::new(rt.alloc());
    let found = run(rt, rt.alloc(), input, &mut output, options);
    assert_equal(rt, (output.as_slice(), found), (printed, end));
}

/// A mutator, a history of this many entries, and a refiner that makes no round.
pub(crate) fn without_rounds(history: u32) -> Options
    requires { (1 ≤ history) × (history ≤ 1000000) }
{
    Options {
        mutators: 1,
        config: Config::default(),
        history,
        refiners: 1,
        rounds: 0,
    }
}
