//! The header of a trace, which opens its heap.

ghost use Rattle.std.specs.Prelude.{◌≡◌};
ghost use Rattle.g1_trace.specs.{ℕ, [], words_from, heap_of_counts, read_opening, read_header};

use crate::fault::TraceFault;
use crate::places::{clamped, three_numbers};
use crate::words::{is, is_remark, split_word};
use g1_layout::Layout;

// The heap of three counts, if they are within the limits.
fn heap(regions: u64, cards: u64, slots: u64) -> Result<Layout, TraceFault>
    ensures { result ≡ heap_of_counts regions cards slots }
{
    match Layout::new(clamped(regions), clamped(cards), clamped(slots)) {
        Some(layout) => Ok(layout),
        None => Err(TraceFault::BadHeap),
    }
}

// The heap of a first word and the words behind it.
#[tactic(auto, unfolding(crate::specs::Grammar::read_opening))]
fn opening(name: &[u8], words: &[u8]) -> Result<Layout, TraceFault>
    ensures { result ≡ read_opening name.now (words_from [] words.now) }
{
    if !is(name, b"heap") {
        return Err(TraceFault::NoHeader);
    }
    let (regions, cards, slots) = three_numbers(words)?;
    heap(regions, cards, slots)
}

/// Returns the heap of the header, or `None` if the line is empty or a remark (docs/traces.md,
/// Commands).
///
/// The faults are tested in the order of docs/traces.md, Faults: no header, wrong words, not a
/// number, and then a bad heap. It makes one pass over the line, and takes no memory.
#[tactic(auto, unfolding(crate::specs::Grammar::read_header))]
pub fn read_header(line: &[u8]) -> Result<Option<Layout>, TraceFault>
    ensures { result ≡ read_header line.now }
{
    match split_word(line) {
        None => Ok(None),
        Some((name, _)) if is_remark(name) => Ok(None),
        Some((name, words)) => {
            let layout = opening(name, words)?;
            Ok(Some(layout))
        }
    }
}
