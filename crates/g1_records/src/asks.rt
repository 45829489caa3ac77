//! Which entry a call makes, by what was asked and what was answered.
use g1_core::{CardList, ClearReply, Drained, Redirected, RefineReply, Status, StoreReply};
use g1_layout::{Card, Region, Slot};

/// A call as it was asked: its arguments, which with the answer tell which call it was.
pub trait Asks<A> {
    ghost use Rattle.std.specs.Prelude.{ℕ};
    ghost use Rattle.g1_core.specs.declared.entry.Entry.{Entry};

    /// The entry of this call by the caller of this number.
    ghost entry: { ℕ → Self → A → Entry };
}

impl Asks<StoreReply> for (Slot, Option<Slot>) {
    ghost use Rattle.g1_core.specs.Calls.{store_entry};

    ghost entry = { λ n asked answer. store_entry n asked.0 asked.1 answer };
}

impl Asks<RefineReply> for () {
    ghost use Rattle.g1_core.specs.Calls.{refine_entry};

    ghost entry = { λ n asked answer. refine_entry n answer };
}

impl Asks<Option<Slot>> for Slot {
    ghost use Rattle.g1_core.specs.Calls.{target_entry};

    ghost entry = { target_entry };
}

impl Asks<bool> for Card {
    ghost use Rattle.g1_core.specs.Calls.{pending_entry};

    ghost entry = { pending_entry };
}

impl Asks<CardList> for Region {
    ghost use Rattle.g1_core.specs.Calls.{members_entry};

    ghost entry = { members_entry };
}

impl Asks<Status> for () {
    ghost use Rattle.g1_core.specs.Calls.{status_entry};

    ghost entry = { λ n asked answer. status_entry n answer };
}

impl Asks<Drained> for Region {
    ghost use Rattle.g1_core.specs.Calls.{drain_entry};

    ghost entry = { drain_entry };
}

impl Asks<ClearReply> for Region {
    ghost use Rattle.g1_core.specs.Calls.{clear_entry};

    ghost entry = { clear_entry };
}

impl Asks<Redirected> for (Region, Region) {
    ghost use Rattle.g1_core.specs.Calls.{redirect_entry};

    ghost entry = { λ n asked answer. redirect_entry n asked.0 asked.1 answer };
}
