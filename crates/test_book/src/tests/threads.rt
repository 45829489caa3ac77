//! Callers in threads of their own.
ghost use Rattle.std.specs.Prelude.{◌≡◌, All, IfOk};
ghost use Rattle.g1_core.specs.Run.{IsCallOf};
ghost use Rattle.g1_shared.specs.Callers.{IsCallerOf};
ghost use Rattle.g1_shared.specs.Counts.{AreNone, shared_terms};

use super::book;
use super::player::{flush, make, opened};
use g1_book::{Book, Caller, Entry, Keeps, Ledgers, Shared, Terms};
use g1_core::{Call, Config, Core, Fill, Settings};
use g1_layout::Layout;
use std::alloc::Global;
use std::marker::{Brand, Send};
use std::sync::Wait;
use std::sync::ledger::Ledger;
use std::test::Fail;
use std::thread;
use std::thread::Threads;
use test_support::numbers::{card, region, slot, small};
use test_support::{Failure, check, equal};

/// What a caller was answered: the entries that its calls have to be, what became of its log at its
/// first flush, and whether a call was refused.
#[derive(Drop)]
struct Record {
    entries: Vec<Entry>,
    flushed: Option<Fill>,
    outcome: Result<(), Failure>,
}

/// The calls of a caller in turn. It refers from a slot of its own region into the next one.
fn call_of(layout: Layout, caller: u32, turn: u32) -> Result<Call, Failure>
    ensures { IfOk result (IsCallOf layout) }
{
    let home = caller % 4;
    let next = (home + 1) % 4;
    Ok(match turn % 8 {
        0 => Call::Store {
            slot: slot(layout, 8 * home)?,
            target: Some(slot(layout, 8 * next)?),
        },
        1 => Call::Refine,
        2 => Call::Target(slot(layout, 8 * home)?),
        3 => Call::Pending(card(layout, 2 * home)?),
        4 => Call::Members(region(layout, next)?),
        5 => Call::Status,
        6 => Call::Drain(region(layout, next)?),
        _ => Call::Clear(region(layout, next)?),
    })
}

/// Makes the calls of a caller five times in turn. Each store is followed by a flush.
fn call_each<M: Terms, S: Ledger, H: Keeps, R: Wait + Eprint>(
    rt: &R,
    shared: &Shared<M, S, H>,
    caller: &mut Caller<M, S>,
    record: &mut Record,
) -> Result<(), Failure>
    requires { IsCallerOf shared.now caller.old }
{
    let layout = shared.lock(rt).book().layout();
    for turn in 0..40 {
        let call = call_of(layout, caller.number(), turn)?;
        record.entries.push(make(rt, shared, caller, &call)?)?;
        if turn % 8 == 0 {
            let fill = flush(rt, shared, caller)?.fill;
            record.flushed = record.flushed.or(Some(fill));
        }
    }
    Ok(())
}

/// The caller, once it has made its calls, and its record.
fn recorded<M: Terms, S: Ledger, H: Keeps, R: Wait + Eprint>(
    rt: &R,
    alloc: Global,
    shared: &Shared<M, S, H>,
    mut caller: Caller<M, S>,
) -> (Caller<M, S>, Record)
    requires { IsCallerOf shared.now caller }
{
    let mut record = Record {
        entries: Vec::new(alloc),
        flushed: None,
        outcome: Ok(()),
    };
    record.outcome = call_each(rt, shared, &mut caller, &mut record);
    (caller, record)
}

/// Shares the book among four callers, each in a thread of its own, and gives it back with their
/// records.
fn in_threads<H: Keeps + Send + Sync, R: Threads + Wait + Eprint + Sync>(
    rt: &R,
    alloc: Global,
    book: Book<H>,
) -> Result<(Book<H>, Vec<Record>), Failure>
    requires { AreNone H.KEEPS book }
{
    if book.mutators() != 4 {
        return Err(Failure::Wrong);
    }
    let ledgers = Ledgers::open(alloc, 4)?;
    four_threads::<Brand, Brand, H, R>(rt, alloc, ledgers, book)
}

fn four_threads<
    M: Terms + Send + Sync,
    S: Ledger + Send + Sync,
    H: Keeps + Send + Sync,
    R: Threads + Wait + Eprint + Sync,
>(rt: &R, alloc: Global, ledgers: Ledgers, book: Book<H>) -> Result<(Book<H>, Vec<Record>), Failure>
    requires ledgers { (ledgers.made ≡ M.name) × (ledgers.stored ≡ S.name) }
    requires parts { (ledgers.parts ≡ 4) × (M.parts ≡ 4) × (S.parts ≡ 4) }
    requires terms { shared_terms book ledgers.records ≡ M.terms }
    requires empty { AreNone H.KEEPS book }
    requires mutators { M.terms.mutators ≡ 4 }
{
    let (shared, callers) = opened::<M, S, H>(ledgers, book, 4)?;
    let (callers, records) = run_each(rt, alloc, &shared, callers)?;
    if callers.len() != 4 {
        return Err(Failure::Wrong);
    }
    Ok((shared.finish(callers), records))
}

/// The callers, each once it has made its calls in a thread of its own, and their records.
fn run_each<
    M: Terms + Send + Sync,
    S: Ledger + Send + Sync,
    H: Keeps + Send + Sync,
    R: Threads + Wait + Eprint + Sync,
>(
    rt: &R,
    alloc: Global,
    shared: &Shared<M, S, H>,
    callers: Vec<Caller<M, S>>,
) -> Result<(Vec<Caller<M, S>>, Vec<Record>), Failure>
    requires { All (IsCallerOf shared.now) callers.items }
{
    let ran = thread::map_vec(
        rt,
        callers,
        &|caller| -> (Caller<M, S>, Record)
            requires { IsCallerOf shared.now caller }
        { recorded(rt, alloc, shared, caller) },
    )?;
    let mut callers = Vec::new(alloc);
    let mut records = Vec::new(alloc);
    for (caller, record) in ran {
        callers.push(caller)?;
        records.push(record)?;
    }
    Ok((callers, records))
}

/// Says what the entry is where it is not the one that is wanted.
fn is_entry(rt: &impl Eprint, alloc: Global, got: &Entry, want: &Entry) -> Result<(), Failure> {
    let got = format!(in alloc; "{got:?}")?;
    let want = format!(in alloc; "{want:?}")?;
    equal(rt, "an entry", got.as_str(), want.as_str())
}

/// Whether the entries of the caller are those of its record.
fn is_recorded(
    rt: &impl Eprint,
    alloc: Global,
    book: &Book,
    caller: u32,
    record: &Record,
) -> Result<(), Failure> {
    record.outcome?;
    equal(rt, "the first flush", record.flushed, Some(Fill::Full))?;
    let mut wanted = record.entries.iter();
    for entry in book.entries() {
        if entry.caller == caller {
            is_entry(rt, alloc, entry, wanted.next().ok_or(Failure::Wrong)?)?;
        }
    }
    check(rt, wanted.next().is_none(), "whether an entry is missing")
}

/// Whether each caller's entries are those of its record.
fn are_recorded(
    rt: &impl Eprint,
    alloc: Global,
    book: &Book,
    records: &[Record],
) -> Result<(), Failure> {
    if records.len() != 4 {
        return Err(Failure::Wrong);
    }
    for (caller, record) in records.iter().enumerate() {
        is_recorded(rt, alloc, book, caller as u32, record)?;
    }
    Ok(())
}

/// Each caller's entries are the replies that it was given, in its order, whatever the others do
/// between them. A flush that helps nobody is none, and what is left in the line does not stand in
/// an entry.
#[test]
fn replies_are_entries(rt: HostRuntime) -> Result<(), Fail> {
    let book = book(rt.alloc(), Settings::default(), 4, 200)?;
    let (book, records) = in_threads(&rt, rt.alloc(), book)?;
    equal(&rt, "entries", book.entries().len(), 160)?;
    Ok(are_recorded(&rt, rt.alloc(), &book, records.as_slice())?)
}

/// Threads wait for the lock of a core otherwise than for that of a book.
#[test]
fn threads_share_a_core(rt: HostRuntime) -> Result<(), Fail> {
    let core = Core::new(rt.alloc(), small()?, Config::default())?;
    let book = Book::over(rt.alloc(), core, 4, 160);
    let (book, _) = in_threads(&rt, rt.alloc(), book)?;
    Ok(equal(&rt, "calls", (book.made(), book.stored()), (160, 20))?)
}
