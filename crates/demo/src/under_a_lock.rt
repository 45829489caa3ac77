//! A runtime whose threads share one book: mutators store beside a refinement thread, each in a
//! thread of its own, up to a pause that evacuates a region, and then up to a second one. The heap
//! has 4 regions of 2 cards of 4 slots: region r has slots 8r to 8r + 7, card c slots 4c to 4c + 3.
ghost use Rattle.std.specs.Prelude.{◌≡◌, ◌≢◌, ◌<◌, [], All, IfOk, vec_len};
ghost use Rattle.g1_core.specs.Run.{IsExact};
ghost use Rattle.g1_history.specs.History.{layout_in};
ghost use Rattle.g1_shared.specs.Callers.{IsCallerOf, caller_mark};
ghost use Rattle.g1_shared.specs.Counts.{shared_terms};

use anyhow::{Context, Result, bail};
use g1_book::{Book, Caller, Counted, Ledgers, Refusal, Shared, Terms};
use g1_core::{Call, CardList, Config, Drained, Redirected, Settings};
use g1_layout::{Layout, Region};
use std::marker::{Brand, Send};
use std::sync::Wait;
use std::sync::ledger::Ledger;
use std::thread::{self, Threads};

/// What one mutator stores: into which slots, and what each is to refer to.
type Stores = &'static [(u32, Option<u32>)];

// Up to the first pause slots 0, 4 and 16 of cards 0, 1 and 4 come to refer into region 1. So its
// drain lists these cards, and 3 slots are redirected.
static FIRST: [Stores; 2] = [
    &[(0, Some(8)), (1, Some(16)), (4, Some(9)), (5, Some(6))],
    &[(16, Some(10)), (17, Some(1)), (18, Some(20))],
];

// The objects of region 1 are in region 3 now. Up to the second pause card 1 loses its reference
// into it, and card 0 comes to have a second one: with slots 0 and 16 these are 3 slots, on cards 0
// and 4. Card 1 is listed too: a remembered set keeps a card until it is cleared.
static SECOND: [Stores; 2] = [&[(4, None), (1, Some(24))], &[(17, None), (18, Some(1))]];

/// Plays this program.
pub fn play<R: Threads + Wait + Sync + Print + AllocGlobal>(rt: &R) -> Result<()> {
    let layout = Layout::new(4, 2, 4).context("outside the limits of a heap")?;
    let config = Config::of(Settings {
        log: 2,
        limit: 1,
        start: 1,
        ..Settings::default()
    })
    .context("a setting outside its limits")?;
    let book = Book::open(rt.alloc(), layout, config, 2, 1_000)?;
    let ledgers = Ledgers::open(rt.alloc(), 3)?;
    let book = live::<R, Brand, Brand>(rt, ledgers, book)?;
    // each store is one entry: 7 up to the first pause, and 4 up to the second
    println!(rt; "{} stores in the history", count_stores(&book))?;
    Ok(())
}

fn count_stores(book: &Book) -> usize {
    book.entries()
        .iter()
        .filter(|entry| matches!(entry.call, Call::Store { .. }))
        .count()
}

// Shares a book among two mutators and a refinement thread. No clause can name what is under the
// lock, so conditions speak of `M.terms`.
fn live<R: Threads + Wait + Sync + Print, M: Terms + Send + Sync, S: Ledger + Send + Sync>(
    rt: &R,
    ledgers: Ledgers,
    book: Book,
) -> Result<Book>
    requires ledgers { (ledgers.made ≡ M.name) × (ledgers.stored ≡ S.name) }
    requires parts { (ledgers.parts ≡ 3) × (M.parts ≡ 3) × (S.parts ≡ 3) }
    requires terms { shared_terms book ledgers.records ≡ M.terms }
    requires mutators { M.terms.mutators ≡ 2 }
    requires empty { book.entries ≡ [] }
{
    let Ok((shared, mut callers)) = Shared::<M, S>::open(ledgers, book, 3) else {
        bail!("out of memory");
    };
    run(rt, &shared, &mut callers, &FIRST);
    evacuate(rt, &shared, &mut callers, 1, 3)?;
    run(rt, &shared, &mut callers, &SECOND);
    evacuate(rt, &shared, &mut callers, 3, 1)?;
    Ok(shared.finish(callers))
}

// Runs the callers up to the next pause. One that is refused a call ends before its time, and its
// stores are missing in the history.
fn run<R: Threads + Wait + Sync, M: Terms + Send + Sync, S: Ledger + Send + Sync>(
    rt: &R,
    shared: &Shared<M, S>,
    callers: &mut Vec<Caller<M, S>>,
    stores: &[Stores; 2],
)
    requires mutators { M.terms.mutators ≡ 2 }
    requires of { All (IsCallerOf shared.now) callers.old.items }
    ensures of { All (IsCallerOf shared.now) callers.new.items }
    ensures len { vec_len callers.new ≡ vec_len callers.old }
{
    thread::for_each_mut(
        rt,
        callers.as_mut_slice(),
        3,
        &|_, caller| {
            let _refused = run_one(rt, shared, caller, stores).is_err();
        },
    );
}

// Callers 0 and 1 are the mutators, and the third refines.
fn run_one<R: Wait, M: Terms, S: Ledger>(
    rt: &R,
    shared: &Shared<M, S>,
    caller: &mut Caller<M, S>,
    stores: &[Stores; 2],
) -> Result<(), Refusal>
    requires mutators { M.terms.mutators ≡ 2 }
    requires of { IsCallerOf shared.now caller.old }
    ensures { caller_mark caller.new ≡ caller_mark caller.old }
{
    match stores.get(caller.number() as usize) {
        Some(stores) => store_each(rt, shared, caller, stores),
        None => refine_each(rt, shared, caller),
    }
}

// A mutator's stores. A full log goes into the queue, or if that is full, the mutator refines it.
// What is left in its log stays pending until it is refined, by the pause's drain at the latest.
fn store_each<R: Wait, M: Terms, S: Ledger>(
    rt: &R,
    shared: &Shared<M, S>,
    caller: &mut Caller<M, S>,
    stores: Stores,
) -> Result<(), Refusal>
    requires mutator { caller.old.counts.number < M.terms.mutators }
    requires of { IsCallerOf shared.now caller.old }
    ensures { caller_mark caller.new ≡ caller_mark caller.old }
{
    let layout = shared.lock(rt).book().layout();
    for (slot, target) in stores {
        if let Some(slot) = layout.slot(*slot) {
            let target = target.and_then(|target| layout.slot(target));
            shared.store(rt, caller, slot, target)?;
        }
    }
    Ok(())
}

// The rounds of a refinement thread, up to a pause.
fn refine_each<R: Wait, M: Terms, S: Ledger>(
    rt: &R,
    shared: &Shared<M, S>,
    caller: &mut Caller<M, S>,
) -> Result<(), Refusal>
    requires { IsCallerOf shared.now caller.old }
    ensures { caller_mark caller.new ≡ caller_mark caller.old }
{
    for _ in 0..20 {
        shared.work(rt, caller)?;
    }
    Ok(())
}

// Evacuates region `from` into the empty region `to`, while no caller runs. The slots of `from` are
// null here; else the guard's stores would copy what they hold.
fn evacuate<R: Wait + Print, M: Terms, S: Ledger>(
    rt: &R,
    shared: &Shared<M, S>,
    callers: &mut Vec<Caller<M, S>>,
    from: u32,
    to: u32,
) -> Result<()>
    requires apart { from ≢ to }
    requires some { 0 < vec_len callers.old }
    requires of { All (IsCallerOf shared.now) callers.old.items }
    ensures of { All (IsCallerOf shared.now) callers.new.items }
    ensures len { vec_len callers.new ≡ vec_len callers.old }
{
    shared.pause(rt, callers.as_mut_slice());
    move_region(rt, shared, &mut callers[0], from, to)
}

// The calls of the pause, by one caller under one lock.
fn move_region<R: Wait + Print, M: Terms, S: Ledger>(
    rt: &R,
    shared: &Shared<M, S>,
    caller: &mut Caller<M, S>,
    from: u32,
    to: u32,
) -> Result<()>
    requires { from ≢ to }
    ensures { caller_mark caller.new ≡ caller_mark caller.old }
{
    let mut guard = shared.lock(rt);
    let layout = guard.book().layout();
    let from = layout.region(from).context("no such region")?;
    let to = layout.region(to).context("no such region")?;
    print!(rt; "region {}: scan", from.number())?;
    for card in drain(&mut guard, caller, from)?.as_slice() {
        print!(rt; " {}", card.number())?;
    }
    println!(rt; "")?;
    let Redirected::Moved { slots, .. } = guard.redirect(caller, from, to)? else {
        bail!("out of memory: no slot has moved, redirect again");
    };
    println!(rt; "{slots} slots refer into region {} now", to.number())?;
    Ok(())
}

// The cards to scan. A drain by the guard has the book's clauses, so its list is exact.
fn drain<M: Terms, S: Ledger>(
    book: &mut Counted<M, S>,
    caller: &mut Caller<M, S>,
    region: Region,
) -> Result<CardList>
    requires { region < M.terms.layout.regions }
    ensures exact { IfOk result (λ cards.
        IsExact (layout_in book.old) book.old.entries region cards) }
    ensures mark { caller_mark caller.new ≡ caller_mark caller.old }
{
    match book.drain(caller, region)? {
        Drained::Cards { cards, .. } => Ok(cards),
        Drained::Short { .. } => bail!("out of memory: the rest stays pending, drain again"),
    }
}
