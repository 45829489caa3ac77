//! What a mutator does: stores, whose filled log goes into the queue of completed buffers, and
//! flushes.
ghost use Rattle.std.specs.Prelude.{◌≡◌, ◌≢◌, ◌<◌};
ghost use Rattle.g1_steps.specs.Prelude.{[], true, IfSome, IsNone, IsSome, slot_count, card_of};
ghost use Rattle.g1_steps.specs.Prelude.{IsSenderOf, put_of, IsSameSender};
ghost use Rattle.g1_steps.specs.Steps.{IsPassed, PutsBy, MayRefuse, nothing_flushed};

use crate::calls::Calls;
use g1_core::{CardList, Fill, StoreReply};
use g1_history::Refusal;
use g1_layout::Slot;
use g1_log::{Buffer, Line, Log, Sender};
use std::alloc::Global;
use std::marker::Model;
use std::sync::Wait;

/// The reply of a flush.
#[derive(Debug, Drop)]
pub struct FlushReply {
    /// How many cards left the log.
    pub cards: u32,
    /// What became of the cards: `No` if there were none, `Full` if the queue took them, `Helped`
    /// if it did not.
    pub fill: Fill,
    /// The cards that the help refined, in order.
    pub refined: CardList,
    /// Whether the help was refused, or a growth in the middle of it.
    pub short: bool,
}

/// A mutator: its dirty card queue, and its end of the queue of completed buffers.
///
/// Each step borrows that queue and what makes the calls. The sender has to be one of that queue's.
#[derive(Drop)]
pub struct Mutator {
    /// The cards that the mutator has logged and not yet handed out.
    pub log: Log,
    /// The mutator's end of the queue.
    pub sender: Sender,
    place: BufferPlace,
}

impl Mutator {
    ghost use Rattle.g1_steps.specs.Steps.{IsStoreStep, IsFlushStep, IsStopped};

    /// Returns a mutator with this log and this end of the queue. It takes about two kilobytes: its
    /// log, and a place for the buffer that the log completes.
    pub fn new(log: Log, sender: Sender) -> Mutator
        ensures log { result.log ≡ log }
        ensures sender { result.sender ≡ sender }
    {
        Mutator {
            log,
            sender,
            place: BufferPlace::new(),
        }
    }

    /// Stores a reference, or null (docs/rules.md, The steps of a caller).
    ///
    /// A log that the store fills is put into the queue of completed buffers: `fill` is `Full`. If
    /// the queue hands the buffer back, the mutator helps: it refines that buffer by one more call.
    /// Then `fill` is `Helped`, and `refined` lists the cards that the help refined. Otherwise
    /// `fill` is `No`, and the reply is that of the one call.
    ///
    /// The store is made whatever becomes of the buffer. A help that is refused makes the reply
    /// short. Each card of the buffer is then pending by its mark, unless it was refined meanwhile.
    /// Returns `Err` if the store itself was refused; calls, log and sender are then as they were.
    /// A store that fills no log is one call, and doesn't touch the queue.
    #[inline(always)]
    pub fn store<C: Calls, R: Wait>(
        &mut self,
        rt: &R,
        line: &Line,
        calls: &mut C,
        slot: Slot,
        target: Option<Slot>,
    ) -> Result<StoreReply, Refusal>
        requires caller { C.may_store calls.old ≡ true }
        requires slot { slot < slot_count (C.layout calls.old) }
        requires target { IfSome target (λ place. place < slot_count (C.layout calls.old)) }
        requires line { IsSenderOf line.now self.old.sender }
        ensures { IsStoreStep C.did line.now calls.old self.old
            slot target (card_of (C.layout calls.old) slot) result self.new calls.new }
    {
        let first = calls.store(&mut self.log, &mut self.place.buffer, slot, target)?;
        if self.place.buffer.is_none() {
            return Ok(first);
        }
        let passed = pass_from(rt, line, &mut self.sender, calls, &mut self.place.buffer);
        Ok(StoreReply {
            kind: first.kind,
            fill: passed.fill,
            refined: passed.refined,
            short: passed.short,
        })
    }

    /// Empties the mutator's log. If it has cards, they become a completed buffer and go the way of
    /// a filled log (docs/rules.md, The steps of a caller).
    ///
    /// `cards` is how many cards left the log. A flush is never refused, and makes a call only if
    /// it helps. A help that is refused makes the reply short. Each of the cards is then pending by
    /// its mark, unless it was refined meanwhile.
    pub fn flush<C: Calls, R: Wait>(&mut self, rt: &R, line: &Line, calls: &mut C) -> FlushReply
        requires line { IsSenderOf line.now self.old.sender }
        ensures { IsFlushStep C.did line.now calls.old self.old result self.new calls.new }
    {
        if self.log.is_empty() {
            return nothing_flushed(calls.allocator());
        }
        self.flush_cards(rt, line, calls)
    }

    // The same of a log with cards. It is a call of its own, since its place for a buffer is filled
    // with zeros first.
    #[inline(never)]
    fn flush_cards<C: Calls, R: Wait>(&mut self, rt: &R, line: &Line, calls: &mut C) -> FlushReply
        requires line { IsSenderOf line.now self.old.sender }
        requires some { self.old.log.cards ≢ [] }
        ensures { IsFlushStep C.did line.now calls.old self.old result self.new calls.new }
    {
        let Some(buffer) = self.log.take() else {
            unreachable!()
        };
        let cards = buffer.cards().len() as u32;
        let passed = pass_on(rt, line, &mut self.sender, calls, buffer);
        FlushReply {
            cards,
            fill: passed.fill,
            refined: passed.refined,
            short: passed.short,
        }
    }

    /// Gives up the cards of the log. Each of them is pending by its mark, unless it was refined
    /// meanwhile.
    pub fn stop(&mut self)
        ensures { IsStopped self.old self.new }
    {
        drop(self.log.take());
    }
}

/// Where a completed buffer lies on its way from a log to the queue. Between two calls it is empty.
#[derive(Drop)]
pub struct BufferPlace {
    pub(crate) buffer: Option<Buffer>,
}

impl Model for BufferPlace {
    ghost use Rattle.g1_steps.specs.Prelude.{IsNone};

    ghost Value = { Unit {0} };

    ghost view = { λ p. tt };

    ghost invariant = { λ p. IsNone p.buffer };
}

impl BufferPlace {
    /// An empty place.
    pub(crate) fn new() -> BufferPlace {
        BufferPlace { buffer: None }
    }
}

/// What became of a buffer that left its log: `Full` if the queue took it, `Helped` if its mutator
/// refined it.
#[derive(Drop)]
struct Passed {
    fill: Fill,
    refined: CardList,
    short: bool,
}

/// Passes the buffer in the place on, and leaves the place empty. It is a call of its own, since a
/// place for a buffer by value is zeroed where a function begins.
#[inline(never)]
fn pass_from<C: Calls, R: Wait>(
    rt: &R,
    line: &Line,
    sender: &mut Sender,
    calls: &mut C,
    place: &mut Option<Buffer>,
) -> Passed
    requires line { IsSenderOf line.now sender.old }
    requires some { IsSome place.old }
    ensures passed { IfSome place.old (λ cards.
        IsPassed C.did calls.old cards result calls.new) }
    ensures put { IfSome place.old (λ cards.
        PutsBy result.fill cards (put_of sender.old) (put_of sender.new)) }
    ensures helped { result.fill ≡ Fill.Helped → MayRefuse line.now sender.old }
    ensures same { IsSameSender sender.new sender.old }
    ensures empty { IsNone place.new }
{
    let Some(buffer) = place.take() else {
        unreachable!()
    };
    pass_on(rt, line, sender, calls, buffer)
}

/// Puts a buffer into the queue, and refines it if the queue hands it back.
#[inline(always)]
fn pass_on<C: Calls, R: Wait>(
    rt: &R,
    line: &Line,
    sender: &mut Sender,
    calls: &mut C,
    buffer: Buffer,
) -> Passed
    requires line { IsSenderOf line.now sender.old }
    ensures passed { IsPassed C.did calls.old buffer result calls.new }
    ensures put { PutsBy result.fill buffer (put_of sender.old) (put_of sender.new) }
    ensures helped { result.fill ≡ Fill.Helped → MayRefuse line.now sender.old }
    ensures same { IsSameSender sender.new sender.old }
{
    let alloc = calls.allocator();
    let Err(back) = line.put(rt, sender, buffer) else {
        return Passed {
            fill: Fill::Full,
            refined: CardList::new(alloc),
            short: false,
        };
    };
    match calls.refine(Some(&back)) {
        Ok(reply) => Passed {
            fill: Fill::Helped,
            refined: reply.refined,
            short: reply.short,
        },
        Err(_) => Passed {
            fill: Fill::Helped,
            refined: CardList::new(alloc),
            short: true,
        },
    }
}

/// The reply of a flush of an empty log.
fn nothing_flushed(alloc: Global) -> FlushReply
    ensures { result ≡ nothing_flushed }
{
    FlushReply {
        cards: 0,
        fill: Fill::No,
        refined: CardList::new(alloc),
        short: false,
    }
}
