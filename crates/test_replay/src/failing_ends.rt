//! Inputs and outputs that fail or end early, and what is written then.
use crate::played::{assert_equal, prints, replay, without_rounds};
use crate::streams::{failing_after, taking};
use g1_replay::{End, Mode, Options};
use g1_trace::put;
use std::io::{self, BufReader};
use std::process::Abort;
use std::sync::Wait;
use std::test::Fail;
use std::thread::Threads;

const TRACE: &[u8] = b"heap 4 2 4\nstore 0 0 8\ndrain 1\n";

/// One byte a read and one byte a write change nothing.
#[test]
fn byte_by_byte(rt: HostRuntime) -> Result<(), Fail> {
    let mut input = BufReader::new(rt.alloc(), failing_after(TRACE, 100, 0))?;
    let mut output = taking(rt.alloc(), 100, true);
    let end = replay(&rt, Mode::Run, &mut input, &mut output, &Options::default());
    assert_equal(&rt, end, End::Whole);
    assert!(rt; output.bytes.as_slice() == b"logged\ndrained 0\n".as_slice());
    Ok(())
}

/// The trace up to each of its bytes, behind which a read fails, once also behind its end: what its
/// whole lines print comes before. A crew and a race run nothing then: 23 bytes are the whole first
/// two lines, and 25 end in the middle of the third.
#[test]
fn reads_that_fail(rt: HostRuntime) -> Result<(), Fail> {
    for room in 0..=TRACE.len() {
        let wanted: &[u8] = match room {
            0..=22 => b"read failed\n",
            23..=30 => b"logged\nread failed\n",
            _ => b"logged\ndrained 0\nread failed\n",
        };
        prints_before_the_failure(&rt, Mode::Run, room, 0, wanted)?;
    }
    let all = b"logged\ndrained 0\nread failed\n";
    prints_before_the_failure(&rt, Mode::Run, TRACE.len(), 1, all)?;
    for (mode, room) in [
        (Mode::Crew, 23),
        (Mode::Crew, 25),
        (Mode::Race, 23),
        (Mode::Race, 25),
    ] {
        prints_before_the_failure(&rt, mode, room, 0, b"read failed\n")?;
    }
    Ok(())
}

fn prints_before_the_failure<R: Abort + Threads + Wait + Sync + AllocGlobal>(
    rt: &R,
    mode: Mode,
    room: usize,
    ends: usize,
    wanted: &[u8],
) -> io::Result<()> {
    let mut input = BufReader::new(rt.alloc(), failing_after(TRACE, room, ends))?;
    let mut output: Vec<u8> = Vec::new(rt.alloc());
    let end = replay(rt, mode, &mut input, &mut output, &without_rounds(1000));
    assert_equal(rt, end, End::ReadFailed);
    assert_equal(rt, (room, output.as_slice()), (room, wanted));
    // It would have gone on, and was not asked again.
    let read = input.get_ref();
    assert_equal(rt, read.bytes.len(), TRACE.len().saturating_sub(room));
    assert_equal(rt, read.reads, room.saturating_add(ends).saturating_add(1));
    Ok(())
}

/// After each byte of the output a write that fails, or takes no byte, is the last one: in the
/// lines of calls, in a list, in the line of a fault, and in the lines of a crew and of a race.
#[test]
fn writes_that_fail(rt: HostRuntime) {
    let cards = b"heap 64 64 64\nstore 0 64 4096\nstore 0 1280 4096\nstore 0 2560 4096\ndrain 1\n";
    let rows: [(Mode, &[u8], &[u8]); 5] = [
        (Mode::Run, TRACE, b"logged\ndrained 0\n"),
        (
            Mode::Run,
            cards,
            b"logged\nlogged\nlogged\ndrained 1 20 40\n",
        ),
        (Mode::Run, b"heap 4 2 4\nx\n", b"line 2: no such command\n"),
        (Mode::Crew, b"heap 1 1 1\n", b"stores 0\ndrained\n"),
        (Mode::Race, b"heap 1 1 1\n", b"stores 0\ndrained\n"),
    ];
    for (mode, trace, whole) in rows {
        for room in 0..whole.len() {
            stops_at(&rt, mode, trace, whole, (room, true));
            stops_at(&rt, mode, trace, whole, (room, false));
        }
    }
}

fn stops_at<R: Abort + Threads + Wait + Sync + AllocGlobal>(
    rt: &R,
    mode: Mode,
    trace: &[u8],
    whole: &[u8],
    (room, fails): (usize, bool),
) {
    let mut input = trace;
    let mut output = taking(rt.alloc(), room, fails);
    let end = replay(rt, mode, &mut input, &mut output, &without_rounds(1000));
    assert_equal(rt, end, End::WriteFailed);
    assert!(rt; whole.starts_with(output.bytes.as_slice()));
    assert_equal(rt, (output.bytes.len(), output.refused), (room, 1));
}

/// The error of such a write says so.
#[test]
fn words_of_a_failed_write(rt: HostRuntime) -> Result<(), Fail> {
    let Err(failed) = put(&mut taking(rt.alloc(), 1, true), b"yes\n") else {
        return Err(Fail::from("it was written"));
    };
    let shown = format!(in rt.alloc(); "{failed}")?;
    assert_equal(&rt, shown.as_str(), "write failed");
    Ok(())
}

/// What the trace prints, and how it ends, where only its first bytes are there.
fn cut(length: usize) -> (&'static [u8], End) {
    match length {
        0 => (b"line 1: heap expected\n", End::Refused),
        1..=10 => (b"line 1: cut\n", End::Refused),
        11 => (b"", End::Whole),
        12..=22 => (b"line 2: cut\n", End::Refused),
        23 => (b"logged\n", End::Whole),
        24..=30 => (b"logged\nline 3: cut\n", End::Refused),
        _ => (b"logged\ndrained 0\n", End::Whole),
    }
}

/// The trace cut after each of its bytes.
#[test]
fn every_beginning(rt: HostRuntime) {
    for length in 0..=TRACE.len() {
        let mut input = TRACE.get(..length).unwrap_or(TRACE);
        prints(&rt, &mut input, &Options::default(), cut(length));
    }
}
