//! A store's line in its plain spelling, in one pass over longer bytes.
//!
//! Most lines of a trace are stores that a program wrote: single spaces, few digits. A store that
//! is not spelled so is read like any other line.
ghost use Rattle.std.specs.Prelude.{◌≤◌, ◌+◌};
ghost use Rattle.g1_trace.specs.{length, IfSome, IsShape, IsCommandOf, IsNumberBefore};
ghost use Rattle.g1_trace.specs.{IsTargetBefore, IsLineBefore};

use crate::command::Command;
use crate::dialect::Dialect;
use crate::places::{mutator, slot, target};
use crate::words::{is, leading_digits};
use g1_layout::Layout;

/// How many digits a number has at most in a plain spelling, with the byte behind them.
const NUMBER_BYTES: usize = 8;

/// How many bytes such a line has at most: the name, three numbers, and the byte behind each.
const STORE_BYTES: usize = 30;

// The number that the bytes begin with, if `end` comes right behind its digits, and what comes
// behind `end`.
#[inline(always)]
fn number_before(bytes: &[u8], end: u8) -> Option<(u64, &[u8])>
    requires { NUMBER_BYTES ≤ length bytes.now }
    ensures number { IfSome result (λ read. IsNumberBefore end bytes.now read.0 read.1.now) }
    ensures few { IfSome result (λ read. length bytes.now ≤ length read.1.now + NUMBER_BYTES) }
{
    let (count, value) = leading_digits(&bytes[..NUMBER_BYTES]);
    if count == 0 || count == NUMBER_BYTES || bytes[count] != end {
        return None;
    }
    Some((value, bytes.split_at(count + 1).1))
}

// The number or `null` that the bytes begin with, if a line feed comes right behind it, and what
// comes behind that.
#[inline(always)]
fn target_before(bytes: &[u8]) -> Option<(Option<u64>, &[u8])>
    requires { NUMBER_BYTES ≤ length bytes.now }
    ensures target { IfSome result (λ read. IsTargetBefore bytes.now read.0 read.1.now) }
    ensures few { IfSome result (λ read. length bytes.now ≤ length read.1.now + NUMBER_BYTES) }
{
    let (word, rest) = bytes.split_at(5);
    if is(word, b"null\n") {
        return Some((None, rest));
    }
    let (number, rest) = number_before(bytes, b'\n')?;
    Some((Some(number), rest))
}

/// Returns the store whose line the bytes begin with, and how many bytes the line has, with its
/// line feed.
///
/// Returns `None` unless the bytes begin with a complete, valid store in plain form: one space
/// between two words and none before or behind, numbers of at most 7 digits. It does so too if
/// there are fewer than 30 bytes. It takes no memory.
#[inline(always)]
pub fn read_store(layout: Layout, dialect: Dialect, bytes: &[u8]) -> Option<(Command, usize)>
    ensures line { IfSome result (λ read. IsLineBefore layout dialect bytes.now read.0 read.1) }
    ensures valid { IfSome result (λ read. IsCommandOf layout dialect.mutators read.0) }
    ensures within { IfSome result (λ read. read.1 ≤ length bytes.now) }
{
    let _counts = layout.counts();
    if bytes.len() < STORE_BYTES {
        return None;
    }
    let (name, rest) = bytes.split_at(6);
    if !is(name, b"store ") {
        return None;
    }
    let (by, rest) = number_before(rest, b' ')?;
    let (place, rest) = number_before(rest, b' ')?;
    let (reference, rest) = target_before(rest)?;
    let mutator = mutator(dialect.mutators, by).ok()?;
    let slot = slot(layout, place).ok()?;
    let target = target(layout, reference).ok()?;
    let command = Command::Store {
        mutator,
        slot,
        target,
    };
    Some((command, bytes.len() - rest.len()))
}
