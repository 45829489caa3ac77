//! Checks for a debug build: of the table against what a runtime's memory has, and of the cards.
ghost use Rattle.std.specs.Prelude.{◌≡◌, ◌+◌, ◌<◌, ◌≤◌, ◌↔◌};
ghost use Rattle.g1_core.specs.Prelude.{IsTrue, IfSome, length, map};
ghost use Rattle.g1_core.specs.Prelude.{slot_count, reads_after};
ghost use Rattle.std.specs.FinSet as set;

use crate::machinery::Core;
use g1_layout::{Card, Layout, Region, Slot};

/// What a runtime's memory has in a slot: null, or a reference to a place.
pub trait Reference {
    ghost use Rattle.std.specs.Prelude.{◌≡◌, ◌↔◌};
    ghost use Rattle.g1_core.specs.Prelude.{ℕ, Option, IsTrue};

    ghost place: { Self → Option ℕ };

    /// Whether it refers to this place, or to none if that is `None`.
    fn refers_to(&self, target: Option<Slot>) -> bool
        ensures { IsTrue result ↔ (place self.now ≡ target) };
}

impl Reference for Option<Slot> {
    ghost place = { λ target. target };

    fn refers_to(&self, target: Option<Slot>) -> bool {
        *self == target
    }
}

/// The number of a place, or the greatest `u32` for null.
impl Reference for u32 {
    ghost use Rattle.std.specs.Prelude.{◌==◌, if◌then◌else◌};
    ghost use Rattle.g1_core.specs.Prelude.{None, Some};

    ghost place = { λ word. if word == 4294967295 then None else Some word };

    fn refers_to(&self, target: Option<Slot>) -> bool {
        match target {
            None => *self == u32::MAX,
            Some(place) => *self != u32::MAX && *self == place.number(),
        }
    }
}

impl Core {
    ghost use Rattle.g1_core.specs.{IsOnlyRead, IsFirst, IsMissing, Differs, looked_for};

    /// Returns the least slot that refers to something else than a runtime's memory does, or `None`
    /// if there is none. `memory` is what that has in as many slots from `first` on.
    ///
    /// It is for a runtime's debug build: the mistake that is made most often is a store that was
    /// never reported. Reads the slots in order, up to the one that it returns, and takes no
    /// memory.
    #[tactic(auto, using(crate::proofs::of_a_slot))]
    pub fn first_differing<M: Reference>(&mut self, first: Slot, memory: &[M]) -> Option<Slot>
        requires { first + length memory.now ≤ slot_count self.old.state.table.layout }
        ensures first { IsFirst (Differs self.old.state.table first (map M.place memory.now))
            first (length memory.now) result }
        ensures within { IfSome result (λ slot. slot < slot_count self.old.state.table.layout) }
        ensures read { IsOnlyRead self.old self.new }
        ensures reads { self.new.reads
            ≡ reads_after self.old.reads (looked_for first (length memory.now) result) }
    {
        let layout = self.layout();
        let _reads = self.reads();
        for i in 0..memory.len() {
            let slot = slot_behind(layout, first, i as u32);
            if !memory[i].refers_to(self.target(slot)) {
                return Some(slot);
            }
        }
        None
    }

    /// Returns the least of `count` slots from `first` on that refers into another region while its
    /// card is neither pending nor recorded for that region, so that no drain would return the
    /// card. Returns `None` if there is none.
    ///
    /// No core has one: the clause `later` of each call that changes a core says so (`cover` of
    /// `IsSound`). So it is for a debug build that looks whether something else wrote to the core's
    /// memory (HotSpot's `VerifyRememberedSets` looks for the same). Reads the slots in order, up
    /// to the one that it returns, and takes no memory.
    pub fn first_missing(&mut self, first: Slot, count: u32) -> Option<Slot>
        requires { first + count ≤ slot_count self.old.state.table.layout }
        ensures first { IsFirst (IsMissing self.old.state.table) first count result }
        ensures within { IfSome result (λ slot. slot < slot_count self.old.state.table.layout) }
        ensures read { IsOnlyRead self.old self.new }
        ensures reads { self.new.reads
            ≡ reads_after self.old.reads (looked_for first count result) }
    {
        let layout = self.layout();
        let _reads = self.reads();
        for i in 0..count {
            let slot = slot_behind(layout, first, i);
            if self.is_missing(slot) {
                return Some(slot);
            }
        }
        None
    }

    // Whether the slot refers into another region from a card that is neither pending nor recorded.
    fn is_missing(&mut self, slot: Slot) -> bool
        requires { slot < slot_count self.old.state.table.layout }
        ensures missing { IsTrue result ↔ IsMissing self.old.state.table slot }
        ensures read { IsOnlyRead self.old self.new }
        ensures reads { self.new.reads ≡ reads_after self.old.reads 1 }
    {
        let Some(place) = self.target(slot) else {
            return false;
        };
        let layout = self.layout();
        let region = layout.region_of(place);
        if layout.region_of(slot) == region {
            return false;
        }
        let card = layout.card_of(slot);
        !self.is_pending(card) && !self.is_recorded(card, region)
    }

    // Whether the card is recorded for the region.
    fn is_recorded(&self, card: Card, region: Region) -> bool
        requires { region < self.now.state.table.layout.regions }
        ensures { result ≡ set.contains self.now.state.table.recorded (card, region) }
    {
        self.memory.sets.has(card, region)
    }
}

/// The slot that lies so far behind the first one.
pub(crate) fn slot_behind(layout: Layout, first: Slot, distance: u32) -> Slot
    requires { first + distance < slot_count layout }
    ensures { result ≡ first + distance }
{
    let Some(slot) = layout.slot(first.number() + distance) else {
        unreachable!()
    };
    slot
}
