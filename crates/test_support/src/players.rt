//! What steps are played on: a core, and a book.
use crate::failure::{Failure, retried};
use crate::numbers::{Numbers, card, number_of, numbers_of, small};
use crate::step::{Answer, Step};
use arrayvec::ArrayVec;
use g1_core::{Call, Config, Core, Entry, Reply, StoreReply};
use g1_history::Book;
use g1_layout::Layout;
use g1_log::Log;

/// What has the calls of a core, on a small heap.
pub trait Calls {
    /// The name of its type.
    fn name(&self) -> &'static str;

    /// Makes the call of a step.
    fn make(&mut self, step: &Step<'_>) -> Result<Answer, Failure>;

    /// The layout of its heap.
    fn layout(&self) -> Layout;

    /// The caller and the entry of the last call, where calls are entered.
    fn entry(&self) -> Option<(u32, &Entry)> {
        None
    }

    /// What is seen of it without a call, where calls are entered. What a slot refers to is asked
    /// by steps alone then.
    fn seen(&self) -> Result<Option<State>, Failure> {
        Ok(None)
    }
}

/// What is seen of it, by no call that is entered.
pub fn state_of<C: Calls>(on: &mut C) -> Result<State, Failure> {
    match on.seen()? {
        Some(state) => Ok(state),
        None => asked(on),
    }
}

// What is seen by questions, which take no memory.
fn asked<C: Calls>(on: &mut C) -> Result<State, Failure> {
    let mut references = ArrayVec::new();
    for number in 0..on.layout().slot_count() {
        references.try_push(asked_target(on, number)?)?;
    }
    let mut pending = ArrayVec::new();
    for number in 0..on.layout().card_count() {
        let answer = on.make(&Step::Pending(number, true))?;
        if matches!(&answer.reply, Reply::Pending(true)) {
            pending.try_push(number)?;
        }
    }
    Ok(State {
        references,
        pending,
        recorded: asked_recorded(on)?,
        entries: 0,
    })
}

fn asked_target<C: Calls>(on: &mut C, number: u32) -> Result<Option<u32>, Failure> {
    let answer = on.make(&Step::Target(number, None))?;
    match &answer.reply {
        Reply::Target(place) => Ok(number_of(*place)),
        _ => Err(Failure::Wrong),
    }
}

fn asked_recorded<C: Calls>(on: &mut C) -> Result<usize, Failure> {
    let answer = on.make(&Step::Status(0, 0))?;
    match &answer.reply {
        Reply::Status(status) => Ok(status.recorded as usize),
        _ => Err(Failure::Wrong),
    }
}

/// What is seen of a small heap and its calls.
#[derive(Debug, PartialEq, Drop)]
pub struct State {
    /// What each slot refers to, where that is seen.
    pub references: ArrayVec<Option<u32>, 32>,
    pub pending: Numbers,
    /// How many pairs are recorded.
    pub recorded: usize,
    /// How many calls are entered.
    pub entries: usize,
}

impl State {
    /// The same once these cards are refined, each of which has one pair to record, by a call that
    /// was entered as often as this.
    pub fn after(&self, refined: &[u32], entered: usize) -> Result<State, Failure> {
        let mut pending = ArrayVec::new();
        for number in &self.pending {
            if !refined.contains(number) {
                pending.try_push(*number)?;
            }
        }
        Ok(State {
            references: self.references.clone()?,
            pending,
            recorded: self.recorded.saturating_add(refined.len()),
            entries: self.entries.saturating_add(entered),
        })
    }
}

fn stored(reply: &StoreReply) -> Result<Answer, Failure> {
    let became = Reply::Stored {
        kind: reply.kind,
        fill: reply.fill,
        short: reply.short,
    };
    Answer::new(became, reply.refined.as_slice())
}

/// A core, and the log of its mutator.
#[derive(Drop)]
pub struct OnCore {
    pub core: Core,
    pub log: Log,
}

impl OnCore {
    /// A new core of the small heap, with an empty log.
    pub fn new<R: Eprint + AllocGlobal>(rt: &R, config: Config) -> Result<OnCore, Failure> {
        let (alloc, layout) = (rt.alloc(), small()?);
        let core = retried(rt, "Core::new", || Core::new(alloc, layout, config))?;
        Ok(OnCore::over(core))
    }

    /// A core that was made, with an empty log.
    pub fn over(core: Core) -> OnCore {
        let log = core.config().new_log();
        OnCore { core, log }
    }
}

impl Calls for OnCore {
    fn name(&self) -> &'static str {
        "Core"
    }

    fn make(&mut self, step: &Step<'_>) -> Result<Answer, Failure> {
        let core = &mut self.core;
        match step.call(core.layout())? {
            Call::Store { slot, target } => {
                let (reply, _completed) = core.store(&mut self.log, slot, target);
                stored(&reply)
            }
            Call::Refine => Answer::of_refine(&core.refine(step.buffer()?.as_ref())?),
            Call::Target(slot) => Answer::new(Reply::Target(core.target(slot)), &[]),
            Call::Pending(card) => Answer::new(Reply::Pending(core.is_pending(card)), &[]),
            Call::Members(region) => Answer::new(Reply::Cards(core.members(region)?), &[]),
            Call::Status => Answer::new(Reply::Status(core.status()), &[]),
            Call::Drain(region) => Answer::of_drain(core.drain(region)?),
            Call::Clear(region) => Answer::new(Reply::Clear(core.clear(region)), &[]),
            Call::Redirect { from, to } => Answer::of_redirect(core.redirect(from, to)?),
        }
    }

    fn layout(&self) -> Layout {
        self.core.layout()
    }
}

/// A book, its caller, and the log of that one.
#[derive(Drop)]
pub struct OnBook {
    pub book: Book,
    pub caller: u32,
    pub log: Log,
}

impl OnBook {
    /// Calls of a book by its first caller, whose log is empty.
    pub fn over(book: Book) -> OnBook {
        let log = book.config().new_log();
        OnBook {
            book,
            caller: 0,
            log,
        }
    }

    // What the last call refined.
    fn refined(&self) -> Result<Numbers, Failure> {
        let entry = self.book.entries().last().ok_or(Failure::Wrong)?;
        numbers_of(entry.refined.as_slice())
    }
}

impl Calls for OnBook {
    fn name(&self) -> &'static str {
        "Book"
    }

    fn make(&mut self, step: &Step<'_>) -> Result<Answer, Failure> {
        let (book, caller) = (&mut self.book, self.caller);
        match step.call(book.layout())? {
            Call::Store { slot, target } => {
                if caller >= book.mutators() {
                    return Err(Failure::Wrong);
                }
                let (reply, _completed) = book.store(caller, &mut self.log, slot, target)?;
                stored(&reply)
            }
            Call::Refine => Answer::of_refine(&book.refine(caller, step.buffer()?.as_ref())?),
            call => {
                let reply = book.ask(caller, call)?;
                let refined = self.refined()?;
                Ok(Answer { reply, refined })
            }
        }
    }

    fn layout(&self) -> Layout {
        self.book.layout()
    }

    fn entry(&self) -> Option<(u32, &Entry)> {
        Some((self.caller, self.book.entries().last()?))
    }

    fn seen(&self) -> Result<Option<State>, Failure> {
        let core = self.book.core();
        let mut pending = ArrayVec::new();
        for number in 0..core.layout().card_count() {
            if core.is_pending(card(core.layout(), number)?) {
                pending.try_push(number)?;
            }
        }
        Ok(Some(State {
            references: ArrayVec::new(),
            pending,
            recorded: core.status().recorded as usize,
            entries: self.book.entries().len(),
        }))
    }
}
