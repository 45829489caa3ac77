//! A call with numbers for its arguments, and what it must return.
ghost use Rattle.std.specs.Prelude.{IfOk};
ghost use Rattle.g1_core.specs.Run.{IsCallOf};

use crate::checks::are_numbered;
use crate::failure::Failure;
use crate::numbers::{Numbers, buffer, card, number_of, numbers_of, place, region, regions, slot};
use g1_core::{Call, Card, ClearReply, Drained, Fill, Kind, Redirected, RefineReply, Reply};
use g1_layout::Layout;
use g1_log::Buffer;

/// A call with numbers for its arguments, and what it must return.
#[derive(Clone, Copy, Debug)]
pub enum Step<'a> {
    /// A store of a place into a slot: its kind, and what becomes of the log.
    Store(u32, u32, Kind, Fill),
    /// A store of null into a slot.
    Null(u32),
    /// Stores of these references, each a slot and its place: each logs its card, and none fills
    /// the log.
    Logged(&'a [(u32, u32)]),
    /// A refinement of a buffer of cards: which are refined in which order, how many are found hot,
    /// and how many are skipped.
    Refine(&'a [u32], &'a [u32], u32, u32),
    /// A refinement of no buffer, which refines nothing.
    RefineNone,
    /// The place that a slot refers to.
    Target(u32, Option<u32>),
    /// Whether a card is pending.
    Pending(u32, bool),
    /// The recorded cards of a region.
    Members(u32, &'a [u32]),
    /// How many cards are pending, and how many pairs are recorded.
    Status(u32, u32),
    /// A drain of a region: its set, and which cards are refined in which order.
    Drain(u32, &'a [u32], &'a [u32]),
    /// A clear of a region.
    Cleared(u32),
    /// One that is refused while this many cards are pending.
    ClearPending(u32, u32),
    /// One that is refused since this slot still refers into the region.
    StillReferenced(u32, u32),
    /// A redirect from one region to another: how many slots change, and which cards are refined in
    /// which order.
    Redirect(u32, u32, u32, &'a [u32]),
    /// Questions: just these slots refer, each to its place, just these cards are pending, and so
    /// many pairs are recorded.
    See(&'a [(u32, u32)], &'a [u32], u32),
}

/// What a call returned: its reply, and the cards that it refined in order.
#[derive(Debug, Drop)]
pub struct Answer {
    pub reply: Reply,
    pub refined: Numbers,
}

impl Answer {
    /// The reply with the numbers of the refined cards. `Wrong` if these are more than a small heap
    /// has.
    pub fn new(reply: Reply, refined: &[Card]) -> Result<Answer, Failure> {
        Ok(Answer {
            reply,
            refined: numbers_of(refined)?,
        })
    }

    /// What a refinement returned: its counts of buffers and cards, as an entry has them.
    pub fn of_refine(reply: &RefineReply) -> Result<Answer, Failure> {
        let counts = Reply::Refined {
            taken: reply.taken,
            hot: reply.hot,
            skipped: reply.skipped,
            left: reply.left,
            short: reply.short,
        };
        Answer::new(counts, reply.refined.as_slice())
    }

    /// What a drain returned: the cards of its set, or that it was short.
    pub fn of_drain(answer: Drained) -> Result<Answer, Failure> {
        match answer {
            Drained::Cards { cards, refined } => {
                Answer::new(Reply::Cards(cards), refined.as_slice())
            }
            Drained::Short { refined } => Answer::new(Reply::Short, refined.as_slice()),
        }
    }

    /// What a redirect returned: how many slots changed, or that it was short.
    pub fn of_redirect(answer: Redirected) -> Result<Answer, Failure> {
        match answer {
            Redirected::Moved { slots, refined } => {
                Answer::new(Reply::Moved(slots), refined.as_slice())
            }
            Redirected::Short { refined } => Answer::new(Reply::Short, refined.as_slice()),
        }
    }

    // How many cards a refinement found hot.
    pub(crate) fn hot(&self) -> u32 {
        match &self.reply {
            Reply::Refined { hot, .. } => *hot,
            _ => 0,
        }
    }
}

/// Whether a growth was refused midway.
pub fn is_short(reply: &Reply) -> bool {
    match reply {
        Reply::Short => true,
        Reply::Refined { short, .. } => *short,
        Reply::Stored { short, .. } => *short,
        _ => false,
    }
}

impl Step<'_> {
    /// The name of the call.
    pub fn name(&self) -> &'static str {
        match self {
            Step::Store(..) | Step::Null(_) | Step::Logged(_) => "store",
            Step::Refine(..) | Step::RefineNone => "refine",
            Step::Target(..) | Step::See(..) => "target",
            Step::Pending(..) => "is_pending",
            Step::Members(..) => "members",
            Step::Status(..) => "status",
            Step::Drain(..) => "drain",
            Step::Cleared(_) | Step::ClearPending(..) | Step::StillReferenced(..) => "clear",
            Step::Redirect(..) => "redirect",
        }
    }

    /// The call by its value. Some steps are several calls, and have none.
    pub fn call(&self, layout: Layout) -> Result<Call, Failure>
        ensures { IfOk result (IsCallOf layout) }
    {
        Ok(match *self {
            Step::Store(from, to, _, _) => Call::Store {
                slot: slot(layout, from)?,
                target: place(layout, Some(to))?,
            },
            Step::Null(of) => Call::Store {
                slot: slot(layout, of)?,
                target: None,
            },
            Step::Refine(..) | Step::RefineNone => Call::Refine,
            Step::Target(of, _) => Call::Target(slot(layout, of)?),
            Step::Pending(of, _) => Call::Pending(card(layout, of)?),
            Step::Members(of, _) => Call::Members(region(layout, of)?),
            Step::Status(..) => Call::Status,
            Step::Drain(of, _, _) => Call::Drain(region(layout, of)?),
            Step::Cleared(of) | Step::ClearPending(of, _) | Step::StillReferenced(of, _) => {
                Call::Clear(region(layout, of)?)
            }
            Step::Redirect(from, to, _, _) => {
                let (from, to) = regions(layout, from, to)?;
                Call::Redirect { from, to }
            }
            Step::Logged(_) | Step::See(..) => return Err(Failure::Wrong),
        })
    }

    /// The buffer that is refined.
    pub fn buffer(&self) -> Result<Option<Buffer>, Failure> {
        match self {
            Step::Refine(cards, ..) => Ok(Some(buffer(cards)?)),
            _ => Ok(None),
        }
    }

    /// The cards that are refined, in order.
    pub fn order(&self) -> &[u32] {
        match self {
            Step::Refine(_, order, _, _) => order,
            Step::Drain(_, _, order) => order,
            Step::Redirect(_, _, _, order) => order,
            _ => &[],
        }
    }

    /// Whether this is the reply, where the call is whole.
    pub fn is_reply(&self, reply: &Reply) -> bool {
        match reply {
            Reply::Stored { kind, fill, short } => !*short && self.is_stored(*kind, *fill),
            Reply::Refined {
                taken,
                hot,
                skipped,
                left,
                short,
            } => !*short && *left == 0 && self.is_refined(*taken, *hot, *skipped),
            Reply::Target(to) => {
                matches!(self, Step::Target(_, wanted) if number_of(*to) == *wanted)
            }
            Reply::Pending(is) => matches!(self, Step::Pending(_, wanted) if *is == *wanted),
            Reply::Cards(cards) => self.is_set(cards.as_slice()),
            Reply::Status(status) => {
                matches!(self, Step::Status(pending, recorded)
                    if status.pending == *pending && status.recorded == *recorded)
            }
            Reply::Short => false,
            Reply::Clear(answer) => self.is_clear(*answer),
            Reply::Moved(slots) => {
                matches!(self, Step::Redirect(_, _, wanted, _) if *slots == *wanted)
            }
        }
    }

    fn is_stored(&self, is: Kind, became: Fill) -> bool {
        match self {
            Step::Store(_, _, kind, fill) => is == *kind && became == *fill,
            Step::Null(_) => is == Kind::Null && became == Fill::No,
            _ => false,
        }
    }

    fn is_refined(&self, taken: u32, found: u32, passed: u32) -> bool {
        match self {
            Step::Refine(_, _, hot, skipped) => taken == 1 && found == *hot && passed == *skipped,
            Step::RefineNone => taken == 0 && found == 0 && passed == 0,
            _ => false,
        }
    }

    fn is_set(&self, cards: &[Card]) -> bool {
        match self {
            Step::Members(_, set) => are_numbered(cards, set),
            Step::Drain(_, set, _) => are_numbered(cards, set),
            _ => false,
        }
    }

    fn is_clear(&self, answer: ClearReply) -> bool {
        match (self, answer) {
            (Step::Cleared(_), ClearReply::Cleared) => true,
            (Step::ClearPending(_, wanted), ClearReply::Pending(cards)) => cards == *wanted,
            (Step::StillReferenced(_, wanted), ClearReply::StillReferenced(slot)) => {
                slot.number() == *wanted
            }
            _ => false,
        }
    }
}
