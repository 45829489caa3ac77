//! The questions, drains, clears and redirects of a trace: each is one call of the first caller,
//! and its line.
ghost use Rattle.g1_replay.specs.{layout_in, Puts, at, IsCommandCall, call_line, IsCallPlayed};

use crate::stop::Stop;
use g1_core::{Call, Reply};
use g1_history::Book;
use g1_trace::{
    WriteFailed, put, put_cards, put_clear_reply, put_either, put_redirected, put_status,
    put_target,
};
use std::io::Write;

/// Makes the call and writes the line of its reply.
pub(crate) fn play_call<W: Write>(book: &mut Book, call: Call, output: &mut W) -> Result<(), Stop>
    requires { IsCommandCall (layout_in book.old) call }
    ensures { IsCallPlayed call (at book.old (W.contents output.old))
        (at book.new (W.contents output.new)) result }
{
    let reply = book.ask(0, call)?;
    put_call(output, &call, &reply)?;
    Ok(())
}

/// Writes the line of a call with this reply, and nothing for a store, a refinement or a reply that
/// no such call has.
pub(crate) fn put_call<W: Write>(
    output: &mut W,
    call: &Call,
    reply: &Reply,
) -> Result<(), WriteFailed>
    ensures { Puts (W.contents output.old) (W.contents output.new) result
        (call_line call.now reply.now) }
{
    match (call, reply) {
        (Call::Target(_), Reply::Target(place)) => put_target(output, *place),
        (Call::Pending(_), Reply::Pending(answer)) => {
            put_either(output, *answer, b"yes\n", b"no\n")
        }
        (Call::Members(_), Reply::Cards(cards)) => put_cards(output, b"cards", cards),
        (Call::Status, Reply::Status(status)) => put_status(output, *status),
        (Call::Drain(_), Reply::Cards(cards)) => put_cards(output, b"drained", cards),
        (Call::Drain(_), Reply::Short) => put(output, b"drained short\n"),
        (Call::Clear(_), Reply::Clear(reply)) => put_clear_reply(output, *reply),
        (Call::Redirect { .. }, Reply::Moved(slots)) => put_redirected(output, *slots),
        (Call::Redirect { .. }, Reply::Short) => put(output, b"redirected short\n"),
        _ => Ok(()),
    }
}
