//! The lines of a clear and a redirect.
ghost use Rattle.std.specs.Prelude.{◌++◌};
ghost use Rattle.g1_trace.specs.{Puts, clear_text, redirected_line, with_number, codes};

use crate::output::{WriteFailed, put, put_between};
use g1_core::ClearReply;
use std::io::Write;

/// Writes the line of a clear: `cleared`, or why it was refused, with the number of pending cards
/// or the first slot that still refers into the region.
pub fn put_clear_reply<W: Write>(output: &mut W, reply: ClearReply) -> Result<(), WriteFailed>
    ensures { Puts (W.contents output.old) (W.contents output.new) result (clear_text reply) }
{
    match reply {
        ClearReply::Cleared => put(output, b"cleared\n"),
        ClearReply::Pending(cards) => {
            put_between(output, b"refused: ", u64::from(cards), b" pending\n")
        }
        ClearReply::StillReferenced(slot) => {
            put_between(
                output,
                b"refused: still referenced by slot ",
                u64::from(slot.number()),
                b"\n",
            )
        }
    }
}

/// Writes the line of a whole redirect: `redirected` and the number of slots that changed.
pub fn put_redirected<W: Write>(output: &mut W, slots: u32) -> Result<(), WriteFailed>
    ensures { Puts (W.contents output.old) (W.contents output.new) result (redirected_line slots) }
{
    put_between(output, b"redirected ", u64::from(slots), b"\n")
}
