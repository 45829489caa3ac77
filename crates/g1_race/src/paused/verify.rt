//! Checks of a heap at a pause, for a debug build: against what a runtime's memory has, and of the
//! cards.
ghost use Rattle.std.specs.Prelude.{◌≡◌, ◌+◌, ◌<◌, ◌≤◌, ◌↔◌};
ghost use Rattle.g1_race.specs.{IsTrue, IfSome, length, map, slot_count, IsFirst, IsMissing};
ghost use Rattle.g1_race.specs.{Differs, table_at};

use crate::paused::Paused;
use crate::paused::copy::slot_behind;
use crate::paused::holds::HoldsRace;
use g1_core::verify::Reference;
use g1_layout::Slot;

impl<R: HoldsRace> Paused<R> {
    /// Returns the least slot that refers to something else than a runtime's memory does, or `None`
    /// if there is none. `memory` is what that has in as many slots from `first` on. A slot with
    /// data refers to nothing.
    ///
    /// It is for the debug build of a runtime that keeps its references itself: the mistake that is
    /// made most often is a store that was never reported. Reads the slots in order, up to the one
    /// that it returns, and takes no memory.
    pub fn first_differing<M: Reference>(&mut self, first: Slot, memory: &[M]) -> Option<Slot>
        requires { first + length memory.now ≤ slot_count self.old.layout }
        ensures first { IsFirst (Differs (table_at self.old) first (map M.place memory.now)) first
            (length memory.now) result }
        ensures within { IfSome result (λ slot. slot < slot_count self.old.layout) }
        ensures same { self.new ≡ self.old }
    {
        let layout = self.race.race().layout;
        for i in 0..memory.len() {
            let slot = slot_behind(layout, first, i as u32);
            if !memory[i].refers_to(self.target(slot)) {
                return Some(slot);
            }
        }
        None
    }

    /// Returns the least of `count` slots from `first` on that refers into another region while its
    /// card is neither dirty nor recorded for that region, so that no drain would return the card.
    /// Returns `None` if there is none.
    ///
    /// There is none if parties alone have written to the heap's words. So it is for a debug build,
    /// which looks whether a runtime whose fields these words are has written to them itself
    /// (HotSpot's `VerifyRememberedSets` looks for the same). Reads the slots in order, up to the
    /// one that it returns, and takes no memory.
    #[tactic(auto, using(crate::specs::below_more))]
    pub fn first_missing(&mut self, first: Slot, count: u32) -> Option<Slot>
        requires { first + count ≤ slot_count self.old.layout }
        ensures first { IsFirst (IsMissing (table_at self.old)) first count result }
        ensures within { IfSome result (λ slot. slot < slot_count self.old.layout) }
        ensures same { self.new ≡ self.old }
    {
        let layout = self.race.race().layout;
        for i in 0..count {
            let slot = slot_behind(layout, first, i);
            if self.is_missing(slot) {
                return Some(slot);
            }
        }
        None
    }

    // Whether the slot refers into another region from a card that is neither dirty nor recorded.
    fn is_missing(&mut self, slot: Slot) -> bool
        requires { slot < slot_count self.old.layout }
        ensures missing { IsTrue result ↔ IsMissing (table_at self.old) slot }
        ensures same { self.new ≡ self.old }
    {
        let Some(place) = self.target(slot) else {
            return false;
        };
        let layout = self.race.race().layout;
        let region = layout.region_of(place);
        if layout.region_of(slot) == region {
            return false;
        }
        let card = layout.card_of(slot);
        !self.is_pending(card) && !self.has(card, region)
    }
}
