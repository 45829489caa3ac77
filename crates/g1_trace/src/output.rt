//! The loop over `write`, and the parts of a line.
//!
//! A write that fails, or that takes no byte, is a failed write. Nothing is tried again, and a
//! beginning of the text stays written (docs/traces.md, Ends).
ghost use Rattle.std.specs.Prelude.{◌≡◌, ◌++◌, ◌+◌, ◌<◌, ◌≤◌, if◌then◌else◌};
ghost use Rattle.g1_trace.specs.Prelude.{ℕ, List, [], length, take, drop, MatchResult, decimal};
ghost use Rattle.g1_trace.specs.Prelude.{IfOk, OnErr, Appends};
ghost use Rattle.g1_trace.specs.Bytes.{Puts};
ghost use Rattle.g1_trace.specs.Text.{with_number, ending};

use itoa::{Buffer, write_digits};
use std::io::Write;
use thiserror::Error;

/// A write failed, or took no byte.
#[derive(Clone, Copy, Debug, PartialEq, Eq, Error)]
#[error("write failed")]
pub struct WriteFailed;

/// Writes all bytes, in as many writes as it takes.
///
/// Returns `WriteFailed` if a write fails or takes no byte. A beginning of the bytes stays written.
#[inline(always)]
pub fn put<W: Write>(output: &mut W, bytes: &[u8]) -> Result<(), WriteFailed>
    ensures { Puts (W.contents output.old) (W.contents output.new) result bytes.now }
{
    let mut rest = bytes;
    while !rest.is_empty() {
        let taken = write_some(output, rest)?;
        rest = rest.split_at(taken).1;
    }
    Ok(())
}

/// One write, which takes at least one byte or has failed.
#[inline(always)]
fn write_some<W: Write>(output: &mut W, bytes: &[u8]) -> Result<usize, WriteFailed>
    ensures count { IfOk result (λ n. (0 < n) × (n ≤ length bytes.now)) }
    ensures written { IfOk result (λ n.
        Appends (W.contents output.old) (W.contents output.new) (take n bytes.now)) }
    ensures failed { OnErr result (Appends (W.contents output.old) (W.contents output.new) []) }
{
    match output.write(bytes) {
        Ok(0) => Err(WriteFailed),
        Ok(taken) => Ok(taken),
        Err(_) => Err(WriteFailed),
    }
}

/// Writes one of two texts.
///
/// `WriteFailed` as with [`put`].
#[inline(always)]
pub fn put_either<W: Write>(
    output: &mut W,
    choice: bool,
    yes: &[u8],
    no: &[u8],
) -> Result<(), WriteFailed>
    ensures { Puts (W.contents output.old) (W.contents output.new) result
        (if choice then yes.now else no.now) }
{
    // Two calls, so that each copies a text of known length.
    if choice {
        put(output, yes)
    } else {
        put(output, no)
    }
}

/// Writes a number in decimal digits, without leading zeros.
///
/// `WriteFailed` as with [`put`].
pub fn put_number<W: Write>(output: &mut W, number: u64) -> Result<(), WriteFailed>
    ensures { Puts (W.contents output.old) (W.contents output.new) result (decimal number) }
{
    let mut buffer = Buffer::new();
    put(output, buffer.format(number).as_bytes())
}

/// Copies words in front of what the block has from `start` on. Returns where they begin.
#[inline(always)]
pub(crate) fn words_before(block: &mut [u8], start: usize, words: &[u8]) -> usize
    requires room { length words.now ≤ start }
    requires within { start ≤ length block.old }
    ensures text { drop result block.new ≡ words.now ++ drop start block.old }
    ensures start { result + length words.now ≡ start }
{
    let begin = start - words.len();
    block[begin..start].copy_from_slice(words);
    begin
}

/// Copies words and the number behind them in front of what the block has from `start` on. Returns
/// where they begin.
#[inline(always)]
pub(crate) fn counted_before(block: &mut [u8], start: usize, words: &[u8], number: u64) -> usize
    requires room { length words.now + 20 ≤ start }
    requires within { start ≤ length block.old }
    ensures text { drop result block.new ≡ with_number words.now number ++ drop start block.old }
    ensures room { start ≤ result + length words.now + 20 }
    ensures within { result ≤ length block.new }
{
    let digits = write_digits(number, block, start);
    words_before(block, digits, words)
}

/// Copies the end of the line of a reply that may be short to the end of the block. Returns where
/// it begins.
#[inline(always)]
pub(crate) fn ending_at_end(block: &mut [u8], short: bool) -> usize
    requires { 7 ≤ length block.old }
    ensures text { drop result block.new ≡ ending short }
    ensures room { length block.new ≤ result + 7 }
    ensures within { result ≤ length block.new }
{
    let end = block.len();
    words_before(block, end, if short { b" short\n" } else { b"\n" })
}

/// Writes words, a number, and words behind it.
pub(crate) fn put_between<W: Write>(
    output: &mut W,
    before: &[u8],
    number: u64,
    behind: &[u8],
) -> Result<(), WriteFailed>
    ensures { Puts (W.contents output.old) (W.contents output.new) result
        (with_number before.now number ++ behind.now) }
{
    put(output, before)?;
    put_number(output, number)?;
    put(output, behind)
}
