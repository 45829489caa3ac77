//! The lines of the questions whose replies are numbers.
ghost use Rattle.std.specs.Prelude.{◌++◌};
ghost use Rattle.g1_trace.specs.{Puts, target_text, status_text, with_number, codes};

use crate::output::{WriteFailed, counted_before, ending_at_end, put};
use g1_core::Status;
use g1_layout::Slot;
use std::io::Write;

/// Writes what a slot refers to: `slot` and its number, or `null`.
pub fn put_target<W: Write>(output: &mut W, target: Option<Slot>) -> Result<(), WriteFailed>
    ensures { Puts (W.contents output.old) (W.contents output.new) result (target_text target) }
{
    match target {
        None => put(output, b"null\n"),
        Some(slot) => {
            let mut line = [0u8; 32];
            let end = ending_at_end(&mut line, false);
            let start = counted_before(&mut line, end, b"slot ", u64::from(slot.number()));
            put(output, &line[start..])
        }
    }
}

/// Writes how many cards are pending and how many pairs of a card and a region are recorded.
pub fn put_status<W: Write>(output: &mut W, status: Status) -> Result<(), WriteFailed>
    ensures { Puts (W.contents output.old) (W.contents output.new) result (status_text status) }
{
    let mut line = [0u8; 72];
    let end = ending_at_end(&mut line, false);
    let middle = counted_before(&mut line, end, b" recorded ", u64::from(status.recorded));
    let start = counted_before(
        &mut line,
        middle,
        b"status pending ",
        u64::from(status.pending),
    );
    put(output, &line[start..])
}
