//! How a replay ends: the line of its end, and the exit status that tells so.
ghost use Rattle.std.specs.Prelude.{◌≡◌};
ghost use Rattle.g1_replay.specs.{IsEndWritten, ending_line, end_or_failed, exit_status};

use crate::stop::Stop;
use g1_trace::{
    WriteFailed, put_book_full, put_fault, put_no_memory, put_no_thread, put_read_failed,
};
use std::io::Write;

/// How a replay ended (docs/traces.md, Ends).
#[derive(Clone, Copy, Debug, PartialEq, Eq)]
pub enum End {
    /// The whole trace was done.
    Whole,
    /// A line of the trace has a fault; its line was written.
    Refused,
    /// Memory was refused, the history was full, or a thread could not be started. A line says
    /// which.
    Stopped,
    /// A read of the input failed, or 2^40 reads were made; a line says so.
    ReadFailed,
    /// A write of the output failed. What was written is a beginning of the output.
    WriteFailed,
}

impl End {
    /// Returns the exit status of a program that ends so (docs/traces.md, Ends). No end has 1: a
    /// command line that is refused has it.
    pub fn status(self) -> u8
        ensures { result ≡ exit_status self }
    {
        match self {
            End::Whole => 0,
            End::Refused => 2,
            End::Stopped => 3,
            End::ReadFailed => 4,
            End::WriteFailed => 5,
        }
    }
}

/// Writes the line of the end.
pub(crate) fn put_end<W: Write>(output: &mut W, number: u64, outcome: Result<(), Stop>) -> End
    ensures { IsEndWritten (W.contents output.old) (W.contents output.new) outcome
        (ending_line number outcome) result }
{
    match outcome {
        Ok(()) => End::Whole,
        Err(Stop::WriteFailed) => End::WriteFailed,
        Err(Stop::Fault(fault)) => end_unless(put_fault(output, number, fault), End::Refused),
        Err(Stop::NoMemory) => end_unless(put_no_memory(output), End::Stopped),
        Err(Stop::BookFull) => end_unless(put_book_full(output), End::Stopped),
        Err(Stop::NoThread) => end_unless(put_no_thread(output), End::Stopped),
        Err(Stop::ReadFailed) => end_unless(put_read_failed(output), End::ReadFailed),
    }
}

// The end, unless its line could not be written.
fn end_unless(written: Result<(), WriteFailed>, end: End) -> End
    ensures { result ≡ end_or_failed written end }
{
    match written {
        Ok(()) => end,
        Err(_) => End::WriteFailed,
    }
}
