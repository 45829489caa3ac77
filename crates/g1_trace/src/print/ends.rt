//! The lines of a fault and of the other ends (docs/traces.md, Faults, Ends).
ghost use Rattle.std.specs.Prelude.{◌≡◌};
ghost use Rattle.g1_trace.specs.{Puts, fault_line, fault_text, no_memory_line, book_full_line};
ghost use Rattle.g1_trace.specs.{no_thread_line, read_failed_line};

use crate::fault::TraceFault;
use crate::output::{WriteFailed, put, put_between};
use std::io::Write;

impl TraceFault {
    /// Returns the text of the fault, as its line has it.
    pub fn text(self) -> &'static str
        ensures { result.now ≡ fault_text self }
    {
        match self {
            TraceFault::TooLong => "too long",
            TraceFault::Cut => "cut",
            TraceFault::NoHeader => "heap expected",
            TraceFault::NoCommand => "no such command",
            TraceFault::Words => "wrong words",
            TraceFault::NotNumber => "not a number",
            TraceFault::BadHeap => "bad heap",
            TraceFault::NoMutator => "no such mutator",
            TraceFault::NoSlot => "no such slot",
            TraceFault::NoCard => "no such card",
            TraceFault::NoRegion => "no such region",
            TraceFault::Twice => "same region twice",
        }
    }
}

/// Writes the line of a fault: `line`, the number of the line and the text of the fault.
pub fn put_fault<W: Write>(
    output: &mut W,
    number: u64,
    fault: TraceFault,
) -> Result<(), WriteFailed>
    ensures { Puts (W.contents output.old) (W.contents output.new) result
        (fault_line number fault) }
{
    put_between(output, b"line ", number, b": ")?;
    put(output, fault.text().as_bytes())?;
    put(output, b"\n")
}

/// Writes the line of a replay that ends because memory was refused.
pub fn put_no_memory<W: Write>(output: &mut W) -> Result<(), WriteFailed>
    ensures { Puts (W.contents output.old) (W.contents output.new) result no_memory_line }
{
    put(output, b"no memory\n")
}

/// Writes the line of a replay that ends with a full history.
pub fn put_book_full<W: Write>(output: &mut W) -> Result<(), WriteFailed>
    ensures { Puts (W.contents output.old) (W.contents output.new) result book_full_line }
{
    put(output, b"book full\n")
}

/// Writes the line of a replay that ends because a thread could not be started.
pub fn put_no_thread<W: Write>(output: &mut W) -> Result<(), WriteFailed>
    ensures { Puts (W.contents output.old) (W.contents output.new) result no_thread_line }
{
    put(output, b"no thread\n")
}

/// Writes the line of a replay whose input could not be read to its end.
pub fn put_read_failed<W: Write>(output: &mut W) -> Result<(), WriteFailed>
    ensures { Puts (W.contents output.old) (W.contents output.new) result read_failed_line }
{
    put(output, b"read failed\n")
}
