//! One thread plays a table of steps by the callers of a shared book or core.
ghost use Rattle.std.specs.Prelude.{◌≡◌, ◌≤◌, ◌<◌, All, IfOk, vec_len};
ghost use Rattle.g1_layout.specs.Shape.{slot_count};
ghost use Rattle.g1_core.specs.Run.{IsCallOf};
ghost use Rattle.g1_shared.specs.Callers.{IsCallerOf, caller_mark};
ghost use Rattle.g1_shared.specs.Counts.{AreNone, shared_terms};

use g1_book::{Book, Caller, Entry, FlushReply, Keeps, Ledgers, Refusal, Reply, Shared, Terms};
use g1_core::{Call, CardList, Drained, Fill, Redirected, RefineReply};
use g1_layout::{Region, Slot};
use std::marker::Brand;
use std::sync::Wait;
use std::sync::ledger::Ledger;
use test_support::checks::are_numbered;
use test_support::numbers::{region, slot};
use test_support::steps::is_entry;
use test_support::{Failure, Step, check, equal, numbered};

/// A step of a caller, and its answer.
#[derive(Clone, Copy)]
pub(crate) enum Do<'a> {
    /// A call that is entered once.
    Call(Step<'a>),
    /// A flush of this many cards, and what becomes of the log.
    Flush(u32, Fill),
    /// A refinement of the oldest completed buffer.
    Refine(Counts<'a>),
    /// A round.
    Work(Counts<'a>),
    /// A pause of all callers.
    Pause,
    /// A call that the full book refuses.
    Full(Step<'a>),
    /// A round that it refuses.
    FullRound,
    /// Calls by the guard of the lock ([`hold`]), with which the steps end.
    Guard,
}

/// What a refinement or a round answers: buffers taken, cards refined, hot and skipped, and buffers
/// left.
pub(crate) type Counts<'a> = (u32, &'a [u32], u32, u32, u32);

/// Steps, each with the number of its caller.
pub(crate) type Steps<'a> = &'a [(usize, Do<'a>)];

/// Shares the book among so many callers, plays the steps, and gives the book back.
pub(crate) fn played<H: Keeps, R: Wait + Eprint>(
    rt: &R,
    book: Book<H>,
    callers: u32,
    steps: Steps<'_>,
) -> Result<Book<H>, Failure>
    requires { AreNone H.KEEPS book }
{
    if callers < 1 || callers < book.mutators() || 12 < callers {
        return Err(Failure::Wrong);
    }
    let ledgers = Ledgers::open(book.allocator(), callers)?;
    played_by::<Brand, Brand, H, R>(rt, ledgers, book, callers, steps)
}

fn played_by<M: Terms, S: Ledger, H: Keeps, R: Wait + Eprint>(
    rt: &R,
    ledgers: Ledgers,
    book: Book<H>,
    count: u32,
    steps: Steps<'_>,
) -> Result<Book<H>, Failure>
    requires ledgers { (ledgers.made ≡ M.name) × (ledgers.stored ≡ S.name) }
    requires parts { (ledgers.parts ≡ count) × (M.parts ≡ count) × (S.parts ≡ count) }
    requires terms { shared_terms book ledgers.records ≡ M.terms }
    requires empty { AreNone H.KEEPS book }
    requires callers { (1 ≤ count) × (M.terms.mutators ≤ count) × (count ≤ 12) }
{
    let (shared, mut callers) = opened::<M, S, H>(ledgers, book, count)?;
    play(rt, &shared, callers.as_mut_slice(), steps)?;
    if callers.len() != count as usize {
        return Err(Failure::Wrong);
    }
    Ok(shared.finish(callers))
}

/// The shared book, and its callers.
pub(crate) fn opened<M: Terms, S: Ledger, H: Keeps>(
    ledgers: Ledgers,
    book: Book<H>,
    count: u32,
) -> Result<(Shared<M, S, H>, Vec<Caller<M, S>>), Failure>
    requires ledgers { (ledgers.made ≡ M.name) × (ledgers.stored ≡ S.name) }
    requires parts { (ledgers.parts ≡ count) × (M.parts ≡ count) × (S.parts ≡ count) }
    requires terms { shared_terms book ledgers.records ≡ M.terms }
    requires empty { AreNone H.KEEPS book }
    requires callers { (M.terms.mutators ≤ count) × (count ≤ 12) }
    ensures len { IfOk result (λ opened. vec_len opened.1 ≡ count) }
    ensures mine { IfOk result (λ opened. All (IsCallerOf opened.0) opened.1.items) }
{
    match Shared::<M, S, H>::open(ledgers, book, count) {
        Ok(opened) => Ok(opened),
        Err(_) => Err(Failure::NoMemory),
    }
}

fn play<M: Terms, S: Ledger, H: Keeps, R: Wait + Eprint>(
    rt: &R,
    shared: &Shared<M, S, H>,
    callers: &mut [Caller<M, S>],
    steps: Steps<'_>,
) -> Result<(), Failure>
    requires { All (IsCallerOf shared.now) callers.old }
{
    for turn in steps {
        let (number, step) = *turn;
        if number >= callers.len() {
            return Err(Failure::Wrong);
        }
        match step {
            Do::Pause => shared.pause(rt, callers),
            Do::Guard => return hold(rt, shared, &mut callers[number]),
            step => take(rt, shared, &mut callers[number], step)?,
        }
    }
    Ok(())
}

fn take<M: Terms, S: Ledger, H: Keeps, R: Wait + Eprint>(
    rt: &R,
    shared: &Shared<M, S, H>,
    caller: &mut Caller<M, S>,
    step: Do<'_>,
) -> Result<(), Failure>
    requires { IsCallerOf shared.now caller.old }
    ensures { caller_mark caller.new ≡ caller_mark caller.old }
{
    let layout = shared.lock(rt).book().layout();
    let full = Some(Refusal::BookFull);
    match step {
        Do::Call(step) => {
            let entry = make(rt, shared, caller, &step.call(layout)?)?;
            is_entry(rt, &entry, layout, caller.number(), &step)
        }
        Do::Flush(cards, fill) => {
            let reply = flush(rt, shared, caller)?;
            let is = (reply.cards, reply.fill, reply.short);
            equal(rt, "a flush", is, (cards, fill, false))
        }
        Do::Refine(counts) => are_counts(rt, &shared.refine(rt, caller)?, counts),
        Do::Work(counts) => are_counts(rt, &shared.work(rt, caller)?, counts),
        Do::Full(step) => {
            let refusal = make(rt, shared, caller, &step.call(layout)?).err();
            equal(rt, step.name(), refusal, full)
        }
        Do::FullRound => equal(rt, "a round", shared.work(rt, caller).err(), full),
        Do::Pause | Do::Guard => Ok(()),
    }
}

/// Says what a whole refinement or round has answered where it is not this.
fn are_counts(
    rt: &impl Eprint,
    reply: &RefineReply,
    (taken, refined, hot, skipped, left): Counts<'_>,
) -> Result<(), Failure> {
    let is = (
        reply.taken,
        reply.hot,
        reply.skipped,
        reply.left,
        reply.short,
    );
    equal(rt, "counts", is, (taken, hot, skipped, left, false))?;
    numbered(rt, "refined cards", reply.refined.as_slice(), refined)
}

/// Empties the caller's log. None but a mutator has one.
pub(crate) fn flush<M: Terms, S: Ledger, H: Keeps, R: Wait + Eprint>(
    rt: &R,
    shared: &Shared<M, S, H>,
    caller: &mut Caller<M, S>,
) -> Result<FlushReply, Failure>
    requires { IsCallerOf shared.now caller.old }
    ensures { caller_mark caller.new ≡ caller_mark caller.old }
{
    if caller.number() >= shared.lock(rt).book().mutators() {
        return Err(Failure::Wrong);
    }
    Ok(shared.flush(rt, caller))
}

/// Under one lock slot 0 comes to refer to slot 8, and its card is refined. The drain of region 1
/// is asked by its value, and once the lock is left so are its members.
fn hold<M: Terms, S: Ledger, H: Keeps, R: Wait + Eprint>(
    rt: &R,
    shared: &Shared<M, S, H>,
    caller: &mut Caller<M, S>,
) -> Result<(), Failure> {
    let layout = shared.lock(rt).book().layout();
    let of = region(layout, 1)?;
    let drained = held(rt, shared, caller, slot(layout, 0)?, slot(layout, 8)?, of);
    let members = shared.ask(rt, caller, Call::Members(of));
    let is = are_cards(&drained, &[0]) && are_cards(&members, &[0]);
    check(rt, is, "the set of region 1")
}

fn held<M: Terms, S: Ledger, H: Keeps, R: Wait>(
    rt: &R,
    shared: &Shared<M, S, H>,
    caller: &mut Caller<M, S>,
    from: Slot,
    to: Slot,
    of: Region,
) -> Result<Reply, Refusal>
    requires slots { (from < slot_count M.terms.layout) × (to < slot_count M.terms.layout) }
    requires region { of < M.terms.layout.regions }
{
    let mut guard = shared.lock(rt);
    if caller.number() >= guard.book().mutators() {
        return Err(Refusal::NoMemory);
    }
    guard.check(caller);
    let (_, buffer) = guard.store(caller, from, Some(to))?;
    guard.refine(caller, buffer.as_ref())?;
    guard.ask(caller, Call::Drain(of))
}

fn are_cards(reply: &Result<Reply, Refusal>, numbers: &[u32]) -> bool {
    matches!(reply, Ok(Reply::Cards(cards)) if are_numbered(cards.as_slice(), numbers))
}

/// Makes the call, and returns the entry that it has to be. A caller that is no mutator stores
/// nothing, and is refused.
pub(crate) fn make<M: Terms, S: Ledger, H: Keeps, R: Wait>(
    rt: &R,
    shared: &Shared<M, S, H>,
    caller: &mut Caller<M, S>,
    call: &Call,
) -> Result<Entry, Refusal>
    requires call { IsCallOf M.terms.layout call.now }
    requires mine { IsCallerOf shared.now caller.old }
    ensures { caller_mark caller.new ≡ caller_mark caller.old }
{
    let alloc = shared.lock(rt).book().allocator();
    let (reply, refined) = match call {
        Call::Store { slot, target } => {
            if caller.number() >= shared.lock(rt).book().mutators() {
                return Err(Refusal::NoMemory);
            }
            let stored = shared.store(rt, caller, *slot, *target)?;
            let (kind, fill, short) = (stored.kind, stored.fill, stored.short);
            (Reply::Stored { kind, fill, short }, stored.refined)
        }
        Call::Refine => refined(shared.refine(rt, caller)?),
        Call::Target(slot) => (
            Reply::Target(shared.target(rt, caller, *slot)?),
            CardList::new(alloc),
        ),
        Call::Pending(card) => (
            Reply::Pending(shared.is_pending(rt, caller, *card)?),
            CardList::new(alloc),
        ),
        Call::Members(region) => (
            Reply::Cards(shared.members(rt, caller, *region)?),
            CardList::new(alloc),
        ),
        Call::Status => (
            Reply::Status(shared.status(rt, caller)?),
            CardList::new(alloc),
        ),
        Call::Drain(region) => drained(shared.drain(rt, caller, *region)?),
        Call::Clear(region) => (
            Reply::Clear(shared.clear(rt, caller, *region)?),
            CardList::new(alloc),
        ),
        Call::Redirect { from, to } => redirected(shared.redirect(rt, caller, *from, *to)?),
    };
    Ok(Entry {
        caller: caller.number(),
        call: *call,
        reply,
        refined,
    })
}

// What is left in the queue stands in no entry.
fn refined(reply: RefineReply) -> (Reply, CardList) {
    let counts = Reply::Refined {
        taken: reply.taken,
        hot: reply.hot,
        skipped: reply.skipped,
        left: 0,
        short: reply.short,
    };
    (counts, reply.refined)
}

fn drained(reply: Drained) -> (Reply, CardList) {
    match reply {
        Drained::Cards { cards, refined } => (Reply::Cards(cards), refined),
        Drained::Short { refined } => (Reply::Short, refined),
    }
}

fn redirected(reply: Redirected) -> (Reply, CardList) {
    match reply {
        Redirected::Moved { slots, refined } => (Reply::Moved(slots), refined),
        Redirected::Short { refined } => (Reply::Short, refined),
    }
}
