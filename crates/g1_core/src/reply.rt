//! What the calls of a core return.
use crate::list::CardList;
use g1_layout::{Kind, Slot};

/// What became of the mutator's log.
#[derive(Clone, Copy, Debug, PartialEq, Eq)]
pub enum Fill {
    /// The log was not filled.
    No,
    /// The log became a completed buffer.
    Full,
    /// The queue of completed buffers handed the log's buffer back, and the mutator helped: it
    /// refined the buffer by a call of its own, unless that was refused.
    Helped,
}

/// What a store returns.
#[derive(Debug, Drop)]
pub struct StoreReply {
    /// The kind of the store.
    pub kind: Kind,
    /// What became of the log.
    pub fill: Fill,
    /// The cards that the mutator's help refined, in order. A store without help refines none.
    pub refined: CardList,
    /// Whether the help was refused, or a growth was refused midway. The store has been made even
    /// so.
    pub short: bool,
}

/// What a refinement returns.
#[derive(Debug, Drop)]
pub struct RefineReply {
    /// How many buffers were refined to the end.
    pub taken: u32,
    /// The cards that were refined, in order.
    pub refined: CardList,
    /// How many cards were found hot.
    pub hot: u32,
    /// How many cards were skipped because they were not dirty.
    pub skipped: u32,
    /// How many completed buffers were left in the queue when it was last looked at. It is 0 from a
    /// core, which has no queue.
    pub left: u32,
    /// Whether a growth was refused midway, or a round ended early at a refusal.
    pub short: bool,
}

/// What a drain returns.
#[derive(Debug, Drop)]
pub enum Drained {
    /// The drain is whole: nothing is pending.
    Cards {
        /// The region's remembered set, ascending, each card once.
        cards: CardList,
        /// The cards that were refined, in order.
        refined: CardList,
    },
    /// A growth was refused after just these cards were refined. The others are pending as before.
    Short {
        /// The cards that were refined, in order.
        refined: CardList,
    },
}

/// What a clear returns.
#[derive(Clone, Copy, Debug, PartialEq, Eq)]
pub enum ClearReply {
    /// The region's remembered set is empty.
    Cleared,
    /// As many cards as this are pending. Nothing has changed.
    Pending(u32),
    /// The least slot outside the region that refers into it. Only the count of reads has changed.
    StillReferenced(Slot),
}

/// What a redirect returns.
#[derive(Debug, Drop)]
pub enum Redirected {
    /// The references were moved.
    Moved {
        /// How many slots changed.
        slots: u32,
        /// The cards that were refined, in order.
        refined: CardList,
    },
    /// A growth was refused after just these cards were refined. No slot has changed.
    Short {
        /// The cards that were refined, in order.
        refined: CardList,
    },
}

/// How much is pending and recorded.
#[derive(Clone, Copy, Debug, PartialEq, Eq)]
pub struct Status {
    /// How many cards are pending.
    pub pending: u32,
    /// How many pairs of a card and a region are recorded.
    pub recorded: u32,
}
