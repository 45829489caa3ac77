//! One line of a trace at a time, of at most 64 bytes before its line feed.
ghost use Rattle.std.specs.Prelude.{◌≡◌, ◌≤◌, ◌<◌, ◌^◌, ◌+◌};
ghost use Rattle.g1_replay.specs.Prelude.{ℕ, List, [], length, Ok, true, Option, IfErr, Consumes};
ghost use Rattle.g1_replay.specs.Prelude.{IsPart};
ghost use Rattle.g1_replay.specs.Lines.{GoesIntoLine, HasPart, ReadsPartOfShown, IsSettled};
ghost use Rattle.g1_replay.specs.Lines.{ReadsPart, ReadsByte, ReadsLine, EndsAtFeed};
ghost use Rattle.g1_replay.specs.Reading.{IsReadStop};

use crate::lines::source::READ_LIMIT;
use crate::stop::Stop;
use arrayvec::ArrayVec;
use g1_trace::TraceFault;
use memchr::memchr_iter;
use std::io::{BufRead, Read};

/// How many bytes a line may have before its line feed (docs/traces.md, Lines and words).
pub const LINE_LIMIT: usize = 64;

/// How much of a line a reader shows.
#[derive(Clone, Copy)]
pub enum Part {
    /// All the rest of it, with its line feed.
    Whole,
    /// More than it has room for.
    TooLong,
    /// A part, after which more may come.
    More,
    /// Nothing: no byte is shown.
    Nothing,
    /// The reader failed to show its bytes.
    Failed,
}

/// What one read returned.
#[derive(Clone, Copy)]
pub enum Byte {
    /// One byte.
    Some(u8),
    /// The input has ended.
    End,
    /// The read failed.
    Failed,
}

// How many bytes there are before the first line feed.
#[tactic(auto, using(crate::proofs::feed_found))]
fn part_len(bytes: &[u8]) -> usize
    ensures bound { result ≤ length bytes.now }
    ensures ends { EndsAtFeed bytes.now result }
{
    memchr_iter(b'\n', bytes).next().unwrap_or(bytes.len())
}

/// Returns how much of a line the shown bytes are if it has room for `room` more, how many of them
/// belong to it, and how many to consume.
pub fn part_of(shown: &[u8], room: usize) -> (Part, usize, usize)
    ensures goes_on { GoesIntoLine shown.now room result.0 result.1 result.2 }
    ensures fits { result.1 ≤ room }
    ensures within { result.1 ≤ result.2 }
    ensures shown { result.2 ≤ length shown.now }
{
    if shown.is_empty() {
        return (Part::Nothing, 0, 0);
    }
    let count = part_len(&shown[..shown.len().min(room)]);
    if count == shown.len() {
        (Part::More, count, count)
    } else if shown[count] == b'\n' {
        (Part::Whole, count, count + 1)
    } else {
        (Part::TooLong, count, count + 1)
    }
}

// Keeps what the reader shows of a line that was begun. Returns how much of the line that is, and
// how many of the bytes it uses up.
fn keep_part(shown: &[u8], line: &mut ArrayVec<u8, 64>) -> (Part, usize)
    requires { length line.old.items ≤ 64 }
    ensures kept { ReadsPartOfShown shown.now result.0 result.1 line.old.items line.new.items }
    ensures within { result.1 ≤ length shown.now }
    ensures short { length line.new.items ≤ 64 }
{
    let (part, count, taken) = part_of(shown, LINE_LIMIT - line.len());
    let _fits = line.try_extend_from_slice(&shown[..count]);
    (part, taken)
}

// Takes what the reader shows of the line.
fn take_part<R: BufRead>(input: &mut R, line: &mut ArrayVec<u8, 64>) -> Part
    requires { length line.old.items ≤ 64 }
    ensures part { ReadsPart (R.remaining input.old) (R.remaining input.new) result line.old.items
        line.new.items }
    ensures short { length line.new.items ≤ 64 }
{
    let shown = match input.fill_buf() {
        Ok(shown) => shown,
        Err(_) => return Part::Failed,
    };
    let (part, taken) = keep_part(shown, line);
    input.consume(taken);
    part
}

/// One read of one byte. An error is not tried again.
fn read_byte<R: Read>(input: &mut R) -> Byte
    ensures { ReadsByte (R.remaining input.old) (R.remaining input.new) result }
{
    let mut one = [0u8];
    match input.read(&mut one) {
        Ok(0) => Byte::End,
        Ok(_) => Byte::Some(one[0]),
        Err(_) => Byte::Failed,
    }
}

// Adds the byte that was read. Returns whether there is a line, or `None` if more must be read.
fn settle_byte(byte: Byte, line: &mut ArrayVec<u8, 64>) -> Result<Option<bool>, Stop>
    requires { length line.old.items ≤ 64 }
    ensures settled { (begun old new : Option (List ℕ)) → Consumes begun old line.old.items
        → IsPart line.old.items → ReadsByte old new byte
        → IsSettled begun new result line.new.items }
    ensures stops { IfErr result IsReadStop }
    ensures short { length line.new.items ≤ 64 }
{
    match byte {
        Byte::Failed => Err(Stop::ReadFailed),
        Byte::End if line.is_empty() => Ok(Some(false)),
        Byte::End => Err(Stop::Fault(TraceFault::Cut)),
        Byte::Some(b'\n') => Ok(Some(true)),
        Byte::Some(_) if line.len() >= LINE_LIMIT => Err(Stop::Fault(TraceFault::TooLong)),
        Byte::Some(byte) => {
            line.push(byte);
            Ok(None)
        }
    }
}

// Returns whether there is a line after this part, or `None` if more must be read. If the reader
// showed nothing, one read of one byte tells whether the input has ended.
#[tactic(auto, using(crate::proofs::settled_long))]
fn settle<R: BufRead>(
    part: Part,
    reads: &mut u64,
    input: &mut R,
    line: &mut ArrayVec<u8, 64>,
) -> Result<Option<bool>, Stop>
    requires { length line.old.items ≤ 64 }
    ensures settled { (begun : Option (List ℕ))
        → HasPart begun (R.remaining input.old) part line.old.items
        → IsSettled begun (R.remaining input.new) result line.new.items }
    ensures stops { IfErr result IsReadStop }
    ensures short { length line.new.items ≤ 64 }
    ensures reads { reads.old ≤ reads.new }
    ensures limit { reads.old ≤ 2 ^ 40 → reads.new ≤ 2 ^ 40 }
{
    match part {
        Part::Whole => Ok(Some(true)),
        Part::TooLong => Err(Stop::Fault(TraceFault::TooLong)),
        Part::Failed => Err(Stop::ReadFailed),
        Part::More => Ok(None),
        Part::Nothing if *reads >= READ_LIMIT => Err(Stop::ReadFailed),
        Part::Nothing => {
            *reads += 1;
            let byte = read_byte(input);
            settle_byte(byte, line)
        }
    }
}

/// Reads the rest of a line, of which `first` was taken, into `line`. Returns and counts what
/// [`next_line`] does.
pub fn rest_of_line<R: BufRead>(
    first: Part,
    reads: &mut u64,
    input: &mut R,
    line: &mut ArrayVec<u8, 64>,
) -> Result<bool, Stop>
    requires { length line.old.items ≤ 64 }
    ensures line { (begun : Option (List ℕ))
        → HasPart begun (R.remaining input.old) first line.old.items
        → ReadsLine begun (R.remaining input.new) result line.new.items }
    ensures stops { IfErr result IsReadStop }
    ensures reads { reads.old ≤ reads.new }
    ensures limit { reads.old ≤ 2 ^ 40 → reads.new ≤ 2 ^ 40 }
{
    let mut part = first;
    'parts: loop {
        if let Some(found) = settle(part, reads, input, line)? {
            return Ok(found);
        }
        if *reads >= READ_LIMIT {
            return Err(Stop::ReadFailed);
        }
        *reads += 1;
        part = take_part(input, line);
    }
}

/// Reads the next line into `line`, which is empty, and counts the reads in `reads`
/// (docs/traces.md, Lines and words). Returns whether there is one: at the end of the input there
/// is none.
///
/// What the reader shows is taken at once. If it shows nothing, one read of one byte tells whether
/// the input has ended. Nothing behind the line feed is taken, and no read follows a failed one. It
/// takes no memory.
pub fn next_line<R: BufRead>(
    reads: &mut u64,
    input: &mut R,
    line: &mut ArrayVec<u8, 64>,
) -> Result<bool, Stop>
    requires { line.old.items ≡ [] }
    ensures line { ReadsLine (R.remaining input.old) (R.remaining input.new) result line.new.items }
    ensures reads { reads.old ≤ reads.new }
    ensures more { result ≡ Ok true → reads.old < reads.new }
    ensures limit { reads.old ≤ 2 ^ 40 → reads.new ≤ 2 ^ 40 }
{
    if *reads >= READ_LIMIT {
        return Err(Stop::ReadFailed);
    }
    *reads += 1;
    let part = take_part(input, line);
    rest_of_line(part, reads, input, line)
}
