//! A book and a core that are shared: making the ledgers and sharing take memory. What a refused
//! call under the lock leaves is proved.
ghost use Rattle.std.specs.Prelude.{◌≡◌, IfErr};
ghost use Rattle.g1_shared.specs.Counts.{AreNone, shared_terms};

use crate::machinery::{REFERENCES, new_book, new_core};
use g1_book::{Book, Keeps, Ledgers, Shared, Terms};
use g1_core::Core;
use g1_layout::NoMemory;
use std::alloc::Global;
use std::marker::Brand;
use std::sync::Wait;
use std::sync::ledger::Ledger;
use test_support::Failure;
use test_support::checks::{check, equal};
use test_support::failure::refused;
use test_support::numbers::region;
use test_support::players::{OnCore, State, state_of};
use test_support::step::Step::{Logged, Refine};
use test_support::steps::play;

/// A new book is shared, and is new when it comes back; also where that is refused.
pub(crate) fn book<R: Wait + Eprint + AllocGlobal>(rt: &R) -> Result<(), Failure> {
    let book = match share(rt, new_book(rt)?) {
        Ok(book) => book,
        Err(book) => {
            check(rt, is_new(&book), "what a refused sharing left")?;
            share(rt, book).map_err(|_| Failure::NoMemory)?
        }
    };
    check(rt, is_new(&book), "what a sharing left")
}

fn is_new(book: &Book) -> bool {
    book.entries().is_empty() && book.mutators() == 1
}

/// A core whose three cards are recorded is shared without a history, and comes back as it was;
/// also where that is refused.
pub(crate) fn core<R: Wait + Eprint + AllocGlobal>(rt: &R) -> Result<(), Failure> {
    let mut on = new_core(rt, 4, 4)?;
    let steps = [Logged(&REFERENCES), Refine(&[0, 1, 2], &[0, 1, 2], 0, 0)];
    play(rt, &mut on, &steps)?;
    let before = state_of(&mut on)?;
    let OnCore { core, .. } = on;
    let core = drained(rt.alloc(), core)?;
    let core = match share(rt, Book::over(rt.alloc(), core, 1, u64::MAX)) {
        Ok(book) => book.into_core(),
        Err(book) => {
            let core = is_left(rt, book.into_core(), &before)?;
            let again = share(rt, Book::over(rt.alloc(), core, 1, u64::MAX));
            again.map_err(|_| Failure::NoMemory)?.into_core()
        }
    };
    is_left(rt, core, &before)?;
    Ok(())
}

// Where no entries are kept, no room is made for their lists: this drain, of a region into which
// nothing refers, takes no memory.
fn drained(alloc: Global, core: Core) -> Result<Core, Failure> {
    let of = region(core.layout(), 1)?;
    let mut book = Book::over(alloc, core, 1, 1);
    book.drain(0, of)?;
    Ok(book.into_core())
}

// The core, if it is as it was.
fn is_left(rt: &impl Eprint, core: Core, before: &State) -> Result<Core, Failure> {
    let mut on = OnCore::over(core);
    equal(rt, "a core that came back", &state_of(&mut on)?, before)?;
    let OnCore { core, .. } = on;
    Ok(core)
}

// Shares the book and ends that at once. Where its ledgers or the sharing are refused, it says so,
// and the book is the error.
fn share<H: Keeps, R: Eprint>(rt: &R, book: Book<H>) -> Result<Book<H>, Book<H>>
    requires empty { AreNone H.KEEPS book }
    requires mutators { book.mutators ≡ 1 }
    ensures { IfErr result (λ back. back ≡ book) }
{
    let Ok(ledgers) = Ledgers::open(book.allocator(), 1) else {
        refused(rt, "Ledgers::open");
        return Err(book);
    };
    share_by::<Brand, Brand, H, R>(rt, ledgers, book)
}

fn share_by<M: Terms, S: Ledger, H: Keeps, R: Eprint>(
    rt: &R,
    ledgers: Ledgers,
    book: Book<H>,
) -> Result<Book<H>, Book<H>>
    requires ledgers { (ledgers.made ≡ M.name) × (ledgers.stored ≡ S.name) }
    requires parts { (ledgers.parts ≡ 1) × (M.parts ≡ 1) × (S.parts ≡ 1) }
    requires terms { shared_terms book ledgers.records ≡ M.terms }
    requires empty { AreNone H.KEEPS book }
    requires mutators { book.mutators ≡ 1 }
    ensures { IfErr result (λ back. back ≡ book) }
{
    match Shared::<M, S, H>::open(ledgers, book, 1) {
        Ok((shared, callers)) => Ok(shared.finish(callers)),
        Err((book, NoMemory)) => {
            let call = if H::KEEPS {
                "Shared::open"
            } else {
                "SharedCore::open"
            };
            refused(rt, call);
            Err(book)
        }
    }
}
