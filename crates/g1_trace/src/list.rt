//! The text of a list of cards. A short list is written in one block with its line, a longer one in
//! many.
ghost use Rattle.std.specs.Prelude.{◌≡◌, ◌++◌, ◌+◌, ◌-◌, ◌*◌, ◌<◌, ◌≤◌};
ghost use Rattle.g1_trace.specs.{ℕ, List, [], length, drop, MatchResult, codes, Appends, Puts};
ghost use Rattle.g1_trace.specs.{list_text};

use crate::output::{WriteFailed, ending_at_end, put, words_before};
use g1_core::CardList;
use g1_layout::Card;
use itoa::write_digits;
use std::io::Write;

/// How many cards are written in one block, and the room that the longest numbers take there.
const BLOCK_CARDS: usize = 64;

const BLOCK_BYTES: usize = 704;

/// How many bytes of words and how many cards a line has at most that is made up in one block and
/// written at once, and the room for it.
const SHORT_WORDS: usize = 7;

const SHORT_CARDS: usize = 8;

const SHORT_BYTES: usize = 104;

/// Writes a space and the number for each card, in the given order.
///
/// Returns `WriteFailed` if a write fails or takes no byte. A beginning of the text stays written.
pub fn put_list<W: Write>(output: &mut W, cards: &[Card]) -> Result<(), WriteFailed>
    ensures { Puts (W.contents output.old) (W.contents output.new) result (list_text cards.now) }
{
    let mut rest = cards;
    while !rest.is_empty() {
        let (block, behind) = rest.split_at(rest.len().min(BLOCK_CARDS));
        put_block(output, block)?;
        rest = behind;
    }
    Ok(())
}

// A few cards, whose text has room on the stack.
fn put_block<W: Write>(output: &mut W, cards: &[Card]) -> Result<(), WriteFailed>
    requires { length cards.now ≤ BLOCK_CARDS }
    ensures { Puts (W.contents output.old) (W.contents output.new) result (list_text cards.now) }
{
    let mut block = [0u8; BLOCK_BYTES];
    let start = list_before(&mut block, BLOCK_BYTES, cards);
    put(output, &block[start..])
}

// Writes a space and the number for each card in front of what the block has from `end` on. It goes
// from the last card to the first, so that no number has to be measured. Returns where the text
// begins.
fn list_before(block: &mut [u8], end: usize, cards: &[Card]) -> usize
    requires room { 11 * length cards.now ≤ end }
    requires within { end ≤ length block.old }
    ensures text { drop result block.new ≡ list_text cards.now ++ drop end block.old }
    ensures room { end ≤ result + 11 * length cards.now }
    ensures within { result ≤ length block.new }
{
    let mut start = end;
    let mut left = cards.len();
    while left > 0 {
        left -= 1;
        start = write_digits(u64::from(cards[left].number()), block, start) - 1;
        block[start] = b' ';
    }
    start
}

/// Writes the line of a list: words, and a space and the number for each card.
///
/// `WriteFailed` as with [`put_list`].
#[inline(always)]
pub fn put_cards<W: Write>(
    output: &mut W,
    words: &[u8],
    cards: &CardList,
) -> Result<(), WriteFailed>
    ensures { Puts (W.contents output.old) (W.contents output.new) result
        (words.now ++ list_text cards.now ++ codes "\n") }
{
    let cards = cards.as_slice();
    if words.len() <= SHORT_WORDS && cards.len() <= SHORT_CARDS {
        return put_short(output, words, cards);
    }
    put(output, words)?;
    put_list(output, cards)?;
    put(output, b"\n")
}

// The line of words and cards that are few enough to have room in one block.
#[inline(always)]
fn put_short<W: Write>(output: &mut W, words: &[u8], cards: &[Card]) -> Result<(), WriteFailed>
    requires words { length words.now ≤ SHORT_WORDS }
    requires cards { length cards.now ≤ SHORT_CARDS }
    ensures { Puts (W.contents output.old) (W.contents output.new) result
        (words.now ++ list_text cards.now ++ codes "\n") }
{
    let mut line = [0u8; SHORT_BYTES];
    let end = ending_at_end(&mut line, false);
    let list = list_before(&mut line, end, cards);
    let start = words_before(&mut line, list, words);
    put(output, &line[start..])
}
