//! The lines of a refinement and of a round.
ghost use Rattle.std.specs.Prelude.{◌≡◌, ◌+◌, ◌≤◌, ◌++◌};
ghost use Rattle.g1_trace.specs.{Puts, refine_text, work_text, turned_text, with_number, ending};
ghost use Rattle.g1_trace.specs.{codes, length, drop};

use crate::output::{WriteFailed, counted_before, ending_at_end, put};
use g1_core::RefineReply;
use std::io::Write;

/// Writes the line of one refinement: `idle` if no buffer was taken, else how many cards were
/// refined, found hot and skipped. It ends with ` short` if the reply is short.
pub fn put_refine_reply<W: Write>(output: &mut W, reply: &RefineReply) -> Result<(), WriteFailed>
    ensures { Puts (W.contents output.old) (W.contents output.new) result (refine_text reply.now) }
{
    if reply.taken == 0 && !reply.short {
        put(output, b"idle\n")
    } else {
        put_refined(output, reply)
    }
}

// The line of a refinement that took a buffer, or was short.
fn put_refined<W: Write>(output: &mut W, reply: &RefineReply) -> Result<(), WriteFailed>
    ensures { Puts (W.contents output.old) (W.contents output.new) result
        (turned_text (length reply.now.refined) reply.now.hot reply.now.skipped
        ++ ending reply.now.short) }
{
    let mut line = [0u8; 128];
    let end = ending_at_end(&mut line, reply.short);
    let start = turns_before(&mut line, end, b"refined ", reply);
    put(output, &line[start..])
}

/// Writes the line of a round: how many buffers were taken, how many cards were refined, found hot
/// and skipped, and how many completed buffers are left. It ends with ` short` if the reply is
/// short.
pub fn put_work_reply<W: Write>(output: &mut W, reply: &RefineReply) -> Result<(), WriteFailed>
    ensures { Puts (W.contents output.old) (W.contents output.new) result (work_text reply.now) }
{
    let mut line = [0u8; 160];
    let end = ending_at_end(&mut line, reply.short);
    let left = counted_before(&mut line, end, b" left ", u64::from(reply.left));
    let turns = turns_before(&mut line, left, b" refined ", reply);
    let start = counted_before(&mut line, turns, b"worked ", u64::from(reply.taken));
    put(output, &line[start..])
}

// Copies what became of the cards in front of what the block has from `start` on. The first number
// is behind `words`.
fn turns_before(block: &mut [u8], start: usize, words: &[u8], reply: &RefineReply) -> usize
    requires room { length words.now + 74 ≤ start }
    requires within { start ≤ length block.old }
    ensures text { drop result block.new
        ≡ with_number words.now (length reply.now.refined)
        ++ with_number (codes " hot ") reply.now.hot
        ++ with_number (codes " skipped ") reply.now.skipped ++ drop start block.old }
    ensures room { start ≤ result + length words.now + 74 }
    ensures within { result ≤ length block.new }
{
    let skipped = counted_before(block, start, b" skipped ", u64::from(reply.skipped));
    let hot = counted_before(block, skipped, b" hot ", u64::from(reply.hot));
    counted_before(block, hot, words, reply.refined.len() as u64)
}
