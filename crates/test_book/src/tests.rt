//! What no clause says: that calls succeed while there are memory and room, what texts say, and
//! that threads run beside each other. Replies were worked out by hand.
//!
//! The heap has 4 regions of 2 cards of 4 slots: card `c` has the slots from `4 * c` on, region `r`
//! those from `8 * r` on.
ghost use Rattle.std.specs.Prelude.{◌≡◌, [], IfOk};

use g1_book::{Book, NotStarted, Refusal};
use g1_core::{Config, Settings};
use std::alloc::Global;
use std::test::Fail;
use test_support::numbers::small;
use test_support::{Failure, equal};

mod desks;
mod lent;
mod meeting;
mod player;
mod shared;
mod threads;

/// The settings where nobody chooses otherwise, but for how many cards fill a log.
fn logs_of(log: usize) -> Settings {
    Settings {
        log,
        ..Settings::default()
    }
}

/// A new book of the small heap.
fn book(alloc: Global, settings: Settings, mutators: u32, history: usize) -> Result<Book, Failure>
    ensures entries { IfOk result (λ book. book.entries ≡ []) }
    ensures mutators { IfOk result (λ book. book.mutators ≡ mutators) }
{
    let config = Config::of(settings).ok_or(Failure::Wrong)?;
    if mutators < 1 || 8 < mutators || history < 1 || 1_000_000 < history {
        return Err(Failure::Wrong);
    }
    Ok(Book::open(alloc, small()?, config, mutators, history)?)
}

#[test]
fn refusals_have_their_texts(rt: HostRuntime) -> Result<(), Fail> {
    for (refusal, text) in [
        (Refusal::NoMemory, "no memory"),
        (Refusal::BookFull, "book full"),
    ] {
        equal(
            &rt,
            "a refusal",
            format!(in rt.alloc(); "{refusal}")?.as_str(),
            text,
        )?;
    }
    Ok(equal(
        &rt,
        "a crew",
        format!(in rt.alloc(); "{NotStarted}")?.as_str(),
        "no thread",
    )?)
}
