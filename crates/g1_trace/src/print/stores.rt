//! The lines of a store and of a flush.
ghost use Rattle.std.specs.Prelude.{◌++◌};
ghost use Rattle.g1_trace.specs.{Puts, store_text, flushed_line, stored_line, stores_text};
ghost use Rattle.g1_trace.specs.{with_number, ending, codes, length};

use crate::output::{WriteFailed, counted_before, ending_at_end, put, put_between, put_either};
use g1_core::{CardList, Fill, StoreReply};
use g1_layout::Kind;
use std::io::Write;

/// Writes the line of a store: `null`, `same region`, `dirty`, `logged`, `logged full`, or
/// `logged helped` with the number of refined cards. It ends with ` short` if the reply is short.
#[inline(always)]
pub fn put_store_reply<W: Write>(output: &mut W, reply: &StoreReply) -> Result<(), WriteFailed>
    ensures { Puts (W.contents output.old) (W.contents output.new) result (store_text reply.now) }
{
    match reply.kind {
        Kind::SameRegion => put_either(
            output,
            reply.short,
            b"same region short\n",
            b"same region\n",
        ),
        Kind::Null => put_either(output, reply.short, b"null short\n", b"null\n"),
        Kind::AlreadyDirty => put_either(output, reply.short, b"dirty short\n", b"dirty\n"),
        Kind::Logged => put_logged(output, reply),
    }
}

// The line of a store that logged its card.
fn put_logged<W: Write>(output: &mut W, reply: &StoreReply) -> Result<(), WriteFailed>
    ensures { Puts (W.contents output.old) (W.contents output.new) result
        (stored_line Kind.Logged reply.now.fill (length reply.now.refined) reply.now.short) }
{
    match reply.fill {
        Fill::No => put_either(output, reply.short, b"logged short\n", b"logged\n"),
        Fill::Full => put_either(
            output,
            reply.short,
            b"logged full short\n",
            b"logged full\n",
        ),
        Fill::Helped => put_helped(output, &reply.refined, reply.short),
    }
}

/// Writes the line of a flush: `flushed` with the number of cards that left the log, or `helped`
/// with the number of refined cards if the mutator helped. It ends with ` short` if the reply is
/// short.
pub fn put_flushed<W: Write>(
    output: &mut W,
    cards: u32,
    fill: Fill,
    refined: &CardList,
    short: bool,
) -> Result<(), WriteFailed>
    ensures { Puts (W.contents output.old) (W.contents output.new) result
        (flushed_line cards fill (length refined.now) short) }
{
    let mut line = [0u8; 80];
    let ending = ending_at_end(&mut line, short);
    let end = match fill {
        Fill::No | Fill::Full => ending,
        Fill::Helped => counted_before(&mut line, ending, b" helped ", refined.len() as u64),
    };
    let start = counted_before(&mut line, end, b"flushed ", u64::from(cards));
    put(output, &line[start..])
}

// The line of a store whose mutator helped.
fn put_helped<W: Write>(output: &mut W, refined: &CardList, short: bool) -> Result<(), WriteFailed>
    ensures { Puts (W.contents output.old) (W.contents output.new) result
        (with_number (codes "logged helped ") (length refined.now) ++ ending short) }
{
    let mut line = [0u8; 64];
    let end = ending_at_end(&mut line, short);
    let start = counted_before(&mut line, end, b"logged helped ", refined.len() as u64);
    put(output, &line[start..])
}

/// Writes the line of how many stores there were.
pub fn put_stores<W: Write>(output: &mut W, stores: u64) -> Result<(), WriteFailed>
    ensures { Puts (W.contents output.old) (W.contents output.new) result (stores_text stores) }
{
    put_between(output, b"stores ", stores, b"\n")
}
