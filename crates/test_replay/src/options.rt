//! The options that a command line gives, and the texts of what is refused.
use crate::played::assert_equal;
use g1_core::Config;
use g1_replay::{LineFault, Mode, Options, TraceFault, read_options};
use std::alloc::AllocError;
use std::process::Abort;
use std::test::Fail;

const MODES: [(Mode, &str); 3] = [
    (Mode::Run, "run"),
    (Mode::Crew, "crew"),
    (Mode::Race, "race"),
];

/// What the words of a line give.
fn read<R: AllocGlobal>(
    rt: &R,
    line: &str,
) -> Result<Result<(Mode, Options), LineFault>, AllocError> {
    let mut words = Vec::new(rt.alloc());
    for word in line.split(' ') {
        words.push(word)?;
    }
    Ok(read_options(rt.alloc(), words.as_slice()))
}

/// The options of a line that is taken, and asks for this subcommand.
fn taken<R: Abort + AllocGlobal>(rt: &R, wanted: Mode, line: &str) -> Result<Options, AllocError> {
    match read(rt, line)? {
        Ok((mode, options)) => {
            assert_equal(rt, mode, wanted);
            Ok(options)
        }
        Err(fault) => panic!(rt; "{line} was refused: {}", fault.text),
    }
}

#[test]
fn defaults(rt: HostRuntime) -> Result<(), Fail> {
    let expected = Options {
        mutators: 1,
        config: Config::new(256, 10, 4, 1024, 5).unwrap_or_default(),
        history: 1_000_000,
        refiners: 1,
        rounds: 100,
    };
    assert_equal(&rt, taken(&rt, Mode::Run, "g1replay run")?, expected);
    assert_equal(&rt, taken(&rt, Mode::Crew, "g1replay crew")?, expected);
    assert_equal(&rt, taken(&rt, Mode::Race, "g1replay race")?, expected);
    assert_equal(&rt, Options::default(), expected);
    Ok(())
}

/// Options in any order, each by one word or by two, and the others by default.
#[test]
fn each_option_goes_to_its_field(rt: HostRuntime) -> Result<(), Fail> {
    let mut expected = Options {
        mutators: 5,
        config: Config::new(22, 23, 24, 25, 26).unwrap_or_default(),
        history: 27,
        refiners: 3,
        rounds: 28,
    };
    let line = "g1replay crew --rounds=28 --start 26 --history 0000000027 --refiners 3 --ring 25 \
                --hot=24 --limit 23 --log=22 --mutators 5";
    assert_equal(&rt, taken(&rt, Mode::Crew, line)?, expected);
    let line = "g1replay race --mutators 5 --rounds 28 --ring=25 --hot 24 --start 26 --refiners=3 \
                --limit 23 --log 22 --history=27";
    assert_equal(&rt, taken(&rt, Mode::Race, line)?, expected);
    expected.refiners = 1;
    expected.rounds = 100;
    let line = "g1replay run --start 26 --history 27 --ring 25 --hot 24 --limit=23 --log 22 \
                --mutators=5";
    assert_equal(&rt, taken(&rt, Mode::Run, line)?, expected);
    let mut log = Options::default();
    log.config = Config::new(1, 10, 4, 1024, 5).unwrap_or_default();
    assert_equal(&rt, taken(&rt, Mode::Run, "g1replay run --log=1")?, log);
    Ok(())
}

/// The value of the option of this name.
fn value_of(rt: &impl Abort, options: &Options, name: &str) -> u32 {
    match name {
        "--mutators" => options.mutators,
        "--log" => options.config.log() as u32,
        "--limit" => options.config.limit() as u32,
        "--hot" => options.config.hot(),
        "--ring" => options.config.ring() as u32,
        "--start" => options.config.start() as u32,
        "--history" => options.history,
        "--refiners" => options.refiners,
        "--rounds" => options.rounds,
        _ => panic!(rt; "no option {name}"),
    }
}

/// An option, what its value counts, and the least and the most that this may be.
type Limits = (&'static str, &'static str, u32, u32);

const LIMITS: [Limits; 7] = [
    ("--mutators", "COUNT", 1, 8),
    ("--log", "CARDS", 1, 256),
    ("--limit", "BUFFERS", 1, 1024),
    ("--hot", "TIMES", 0, 255),
    ("--ring", "CARDS", 1, 4096),
    ("--start", "BUFFERS", 1, 1024),
    ("--history", "ENTRIES", 1, 1_000_000),
];

const LIMITS_OF_THREADS: [Limits; 2] = [
    ("--refiners", "COUNT", 1, 4),
    ("--rounds", "COUNT", 0, 10_000),
];

#[test]
fn each_option_has_its_limits(rt: HostRuntime) -> Result<(), Fail> {
    for (mode, subcommand) in MODES {
        have_limits(&rt, mode, subcommand, &LIMITS)?;
        if mode != Mode::Run {
            have_limits(&rt, mode, subcommand, &LIMITS_OF_THREADS)?;
        }
    }
    Ok(())
}

/// Each option is taken at its limits, and refused outside them.
fn have_limits<R: Abort + AllocGlobal>(
    rt: &R,
    mode: Mode,
    subcommand: &str,
    rows: &[Limits],
) -> Result<(), AllocError> {
    for limits in rows {
        let (_, _, least, most) = *limits;
        is_taken(rt, mode, subcommand, limits, least)?;
        is_taken(rt, mode, subcommand, limits, most)?;
        is_outside(rt, subcommand, limits, i64::from(least) - 1)?;
        is_outside(rt, subcommand, limits, i64::from(most) + 1)?;
        is_outside(rt, subcommand, limits, 4_294_967_297)?;
    }
    Ok(())
}

/// The value is taken, as this number.
fn is_taken<R: Abort + AllocGlobal>(
    rt: &R,
    mode: Mode,
    subcommand: &str,
    limits: &Limits,
    value: u32,
) -> Result<(), AllocError> {
    let (name, _, _, _) = *limits;
    let line = format!(in rt.alloc(); "g1replay {subcommand} {name} {value}")?;
    let options = taken(rt, mode, line.as_str())?;
    assert_equal(rt, (name, value_of(rt, &options, name)), (name, value));
    Ok(())
}

/// The value is outside the limits, and the text says so, as does the error's own.
fn is_outside<R: Abort + AllocGlobal>(
    rt: &R,
    subcommand: &str,
    limits: &Limits,
    value: i64,
) -> Result<(), AllocError> {
    let (name, unit, least, most) = *limits;
    let line = format!(in rt.alloc(); "g1replay {subcommand} {name}={value}")?;
    let text = format!(in rt.alloc();
        "error: invalid value '{value}' for '{name} <{unit}>': {value} is not in {least}..={most}\n\
         \n\
         For more information, try '--help'.\n"
    )?;
    let Err(fault) = read(rt, line.as_str())? else {
        panic!(rt; "{line} was taken")
    };
    let shown = format!(in rt.alloc(); "{fault}")?;
    assert_equal(
        rt,
        (fault.text.as_str(), shown.as_str()),
        (text.as_str(), text.as_str()),
    );
    Ok(())
}

/// The faults of a trace, as a program shows them of its own accord.
#[test]
fn words_of_faults(rt: HostRuntime) -> Result<(), Fail> {
    let rows = [
        (TraceFault::TooLong, "too long"),
        (TraceFault::Cut, "cut"),
        (TraceFault::NoHeader, "heap expected"),
        (TraceFault::NoCommand, "no such command"),
        (TraceFault::Words, "wrong words"),
        (TraceFault::NotNumber, "not a number"),
        (TraceFault::BadHeap, "bad heap"),
        (TraceFault::NoMutator, "no such mutator"),
        (TraceFault::NoSlot, "no such slot"),
        (TraceFault::NoCard, "no such card"),
        (TraceFault::NoRegion, "no such region"),
        (TraceFault::Twice, "same region twice"),
    ];
    for (fault, words) in rows {
        let shown = format!(in rt.alloc(); "{fault}")?;
        assert_equal(&rt, shown.as_str(), words);
    }
    Ok(())
}
