//! How far a replay reads: long lines, lines that the reader's buffer cuts, and what it leaves
//! behind the line that ends it; and a list that is longer than the blocks of a writer.
use crate::played::{assert_equal, prints, without_rounds};
use crate::streams::failing_after;
use g1_replay::{End, Options};
use std::alloc::AllocError;
use std::fmt::Write;
use std::io;
use std::io::{BufReader, Read};
use std::process::Abort;
use std::sync::Wait;
use std::test::Fail;

/// 64 bytes are a line, 65 are too many, blank or a remark though they be, and whatever comes
/// behind them. Each row: how often which byte the second line begins with, and what comes then.
#[test]
fn long_lines(rt: HostRuntime) -> Result<(), Fail> {
    let status = (b"status pending 0 recorded 0\n".as_slice(), End::Whole);
    let too_long = (b"line 2: too long\n".as_slice(), End::Refused);
    let unknown = (b"line 2: no such command\n".as_slice(), End::Refused);
    let cut = (b"line 2: cut\n".as_slice(), End::Refused);
    let rows: [(u64, u8, &[u8], (&[u8], End)); 11] = [
        (64, b'7', b"\nstatus\n", unknown),
        (65, b'7', b"\nstatus\n", too_long),
        (64, b' ', b"\nstatus\n", status),
        (65, b' ', b"\nstatus\n", too_long),
        (58, b' ', b"status\n", status),
        (59, b' ', b"status\n", too_long),
        (64, b'#', b"\nstatus\n", status),
        (65, b'#', b"\nstatus\n", too_long),
        (64, b'7', b"", cut),
        (65, b'7', b"", too_long),
        (10_000, b'7', b"\n", too_long),
    ];
    for (count, byte, rest, wanted) in rows {
        is_answered(&rt, count, byte, rest, wanted)?;
    }
    Ok(())
}

/// Checks what such a line prints, through a buffer of 7 bytes.
fn is_answered<R: Abort + Wait + AllocGlobal>(
    rt: &R,
    count: u64,
    byte: u8,
    rest: &[u8],
    wanted: (&[u8], End),
) -> io::Result<()> {
    let head: &[u8] = b"heap 4 2 4\n";
    let bytes = head.chain(io::repeat(byte).take(count)).chain(rest);
    let mut input = BufReader::with_capacity(rt.alloc(), 7, bytes)?;
    prints(rt, &mut input, &Options::default(), wanted);
    Ok(())
}

/// The reader's buffer ends at each byte of a line in turn.
#[test]
fn lines_across_two_reads(rt: HostRuntime) -> Result<(), Fail> {
    let trace =
        "heap 4 2 4\nstore 0 0 8\nstore  1 4 16\nstore 1 4 null\nstore 0 9 10\nstore 1 31 00\n\
                 target 0\ntarget 31\nflush 1\nflush 0\n";
    let printed =
        "logged\nlogged\nnull\nsame region\nlogged\nslot 8\nslot 0\nflushed 2\nflushed 1\n";
    let mut options = Options::default();
    options.mutators = 2;
    for capacity in 1..160 {
        let mut input = BufReader::with_capacity(rt.alloc(), capacity, trace.as_bytes())?;
        prints(&rt, &mut input, &options, (printed.as_bytes(), End::Whole));
    }
    Ok(())
}

/// With 65 bytes read the line is too long, and no further byte is asked for.
#[test]
fn long_line_before_a_failing_read(rt: HostRuntime) -> Result<(), Fail> {
    let mut input = BufReader::new(rt.alloc(), failing_after(&[b'7'; 66], 65, 0))?;
    let wanted = (b"line 1: too long\n".as_slice(), End::Refused);
    prints(&rt, &mut input, &Options::default(), wanted);
    assert_equal(&rt, input.get_ref().reads, 65);
    Ok(())
}

/// Nothing behind the line that ends the replay is read: neither behind a fault nor behind a call
/// that is refused.
#[test]
fn lines_one_by_one(rt: HostRuntime) {
    let head = b"x\nflush 0\n".as_slice();
    let fault = b"heap 4 2 4\nflush 0\n#\nx\nrefine\n".as_slice();
    let full = b"heap 4 2 4\nstore 0 0 8\nstatus\ndrain 1\n".as_slice();
    leaves(
        &rt,
        head,
        (b"line 1: heap expected\n", End::Refused),
        b"flush 0\n",
    );
    leaves(
        &rt,
        fault,
        (b"flushed 0\nline 4: no such command\n", End::Refused),
        b"refine\n",
    );
    leaves(
        &rt,
        full,
        (b"logged\nbook full\n", End::Stopped),
        b"drain 1\n",
    );
}

/// Checks what the trace prints, and what is left of it, if the history has one entry.
fn leaves<R: Abort + Wait + AllocGlobal>(rt: &R, trace: &[u8], wanted: (&[u8], End), left: &[u8]) {
    let mut input = trace;
    prints(rt, &mut input, &without_rounds(1), wanted);
    assert_equal(rt, input, left);
}

/// Stores from each seventeenth card, this many from the first on, into the last region, and its
/// drain, which lists them.
fn is_listed<R: Abort + Wait + AllocGlobal>(rt: &R, length: u8) -> Result<(), AllocError> {
    let mut trace = String::from_str(rt.alloc(), "heap 256 16 16\n")?;
    let mut printed = String::new(rt.alloc());
    let mut cards = String::new(rt.alloc());
    for number in 0..length {
        writeln!(trace, "store 0 {} 65280", u32::from(number) * 272)?;
        printed.push_str("logged\n")?;
        write!(cards, " {}", u32::from(number) * 17)?;
    }
    trace.push_str("status\ndrain 255\n")?;
    writeln!(
        printed,
        "status pending {length} recorded 0\ndrained{cards}"
    )?;
    let wanted = (printed.as_bytes(), End::Whole);
    prints(rt, &mut trace.as_bytes(), &Options::default(), wanted);
    Ok(())
}

/// The writer has blocks of fewer bytes than such a line.
#[test]
fn a_list_of_more_than_one_block(rt: HostRuntime) -> Result<(), Fail> {
    for length in [12u8, 63, 64, 65, 200] {
        is_listed(&rt, length)?;
    }
    Ok(())
}
