//! Entries of a history: calls of a core with what they returned.
ghost use Rattle.std.specs.Prelude.{◌≡◌};
ghost use Rattle.g1_core.specs.Calls.{drain_reply, redirect_reply};

use crate::list::CardList;
use crate::reply::{ClearReply, Drained, Fill, Redirected, Status};
use g1_layout::{Card, Kind, Region, Slot};

/// A call with its arguments. A refinement's buffer is not kept: its entry lists the cards that
/// were refined.
#[derive(Clone, Copy, Debug, PartialEq, Eq)]
pub enum Call {
    /// A reference was stored.
    Store {
        /// The slot that was written.
        slot: Slot,
        /// What it refers to now.
        target: Option<Slot>,
    },
    /// A buffer was refined.
    Refine,
    /// What does the slot refer to?
    Target(Slot),
    /// Is the card pending?
    Pending(Card),
    /// Which cards are in the region's remembered set?
    Members(Region),
    /// How much is pending and recorded?
    Status,
    /// The region's remembered set was drained.
    Drain(Region),
    /// The region's remembered set was to be cleared.
    Clear(Region),
    /// References into one region were to be moved to another.
    Redirect {
        /// The region that they referred into.
        from: Region,
        /// The region that they are moved to.
        to: Region,
    },
}

/// What a call returned, but for the cards that it refined.
#[derive(Debug, Drop)]
pub enum Reply {
    /// What became of a store.
    Stored {
        /// The kind of the store.
        kind: Kind,
        /// What became of the log.
        fill: Fill,
        /// Whether a growth was refused midway.
        short: bool,
    },
    /// What a refinement counted.
    Refined {
        /// How many buffers were refined to the end.
        taken: u32,
        /// How many cards were found hot.
        hot: u32,
        /// How many cards were skipped because they were not dirty.
        skipped: u32,
        /// How many completed buffers are left.
        left: u32,
        /// Whether a growth was refused midway.
        short: bool,
    },
    /// What the slot refers to.
    Target(Option<Slot>),
    /// Whether the card is pending.
    Pending(bool),
    /// The cards of a remembered set, ascending.
    Cards(CardList),
    /// How much is pending and recorded.
    Status(Status),
    /// A growth was refused midway in a drain or a redirect.
    Short,
    /// What became of a clear.
    Clear(ClearReply),
    /// How many slots a redirect changed.
    Moved(u32),
}

impl From<Drained> for Reply {
    /// What a drain returned, without the cards that it refined.
    fn from(answer: Drained) -> Reply
        ensures { result ≡ drain_reply answer }
    {
        match answer {
            Drained::Cards { cards, .. } => Reply::Cards(cards),
            Drained::Short { .. } => Reply::Short,
        }
    }
}

impl From<&Redirected> for Reply {
    /// What a redirect returned, without the cards that it refined.
    fn from(answer: &Redirected) -> Reply
        ensures { result ≡ redirect_reply answer.now }
    {
        match answer {
            Redirected::Moved { slots, .. } => Reply::Moved(*slots),
            Redirected::Short { .. } => Reply::Short,
        }
    }
}

/// One call of the history: who made it, what it was, and exactly what it returned.
///
/// It takes 80 bytes in the history's own block. Those of its lists that hold cards take further
/// memory: 4 bytes a card (docs/rules.md, The history).
#[derive(Debug, Drop)]
pub struct Entry {
    /// Who called: for a store the number of its mutator.
    pub caller: u32,
    /// The call.
    pub call: Call,
    /// What it returned, but for `refined`.
    pub reply: Reply,
    /// The cards that it refined, in order.
    pub refined: CardList,
}
