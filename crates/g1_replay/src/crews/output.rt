//! What a crew prints of its book: how many stores there were, and a drain of each region.
ghost use Rattle.std.specs.Prelude.{◌≡◌};
ghost use Rattle.g1_replay.specs.{List, None, length, count_by, is_store, is_store_command};
ghost use Rattle.g1_replay.specs.{Command, IsHistory, layout_in, CrewDrained, crew_book, crew_stop};
ghost use Rattle.g1_replay.specs.{PrintsSome};

use crate::drains::put_left;
use crate::stop::Stop;
use g1_history::{Book, Refusal};
use std::io::Write;

// Why a crew that was refused a call ends: the history is full, or memory was refused.
fn crew_stop(book: &Book, refusal: Refusal, history: u32) -> Stop
    ensures history { IsHistory book.now }
    ensures stop { result ≡ crew_stop (length book.now.entries) history refusal }
{
    let made = book.entries().len();
    if refusal == Refusal::BookFull && made == history as usize {
        return Stop::BookFull;
    }
    Stop::NoMemory
}

/// Prints the crew's result: the number of stores, and the drains that follow the entries of the
/// book. If a call was refused, it prints nothing, and returns why the crew ends.
pub(crate) fn put_crew<W: Write>(
    book: &mut Book,
    stores: u64,
    refused: Option<Refusal>,
    history: u32,
    output: &mut W,
) -> Result<(), Stop>
    requires limit { book.old.limit ≡ history }
    requires stores { stores ≡ count_by is_store book.old.entries }
    ensures { (commands : List Command)
        → (refused ≡ None → stores ≡ count_by is_store_command commands)
        → PrintsSome (CrewDrained
        (crew_book history (layout_in book.old) refused book.old.entries) commands)
        (W.contents output.old) (W.contents output.new) result }
{
    if let Some(refusal) = refused {
        return Err(crew_stop(book, refusal, history));
    }
    let layout = book.layout();
    let result = put_left(book, layout, stores, output);
    let _history = book.entries();
    result
}
