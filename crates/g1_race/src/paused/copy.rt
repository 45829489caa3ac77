//! A range of slots is copied to another one.
ghost use Rattle.std.specs.Prelude.{◌≡◌, ◌+◌, ◌<◌, ◌≤◌};
ghost use Rattle.g1_race.specs.{slice_index, slot_count, target_of, stored, table_at, IsSameRace};
ghost use Rattle.g1_race.specs.{SlotsBecome, one_word, Copies, FlagsRise, slot_card};

use crate::paused::Paused;
use crate::paused::holds::HoldsRace;
use crate::word::refers_to;
use g1_layout::{Layout, Slot};

impl<R: HoldsRace> Paused<R> {
    /// Copies the words of `count` slots, from `from` on, into as many slots from `to` on:
    /// references, null and data. The two ranges may overlap: each slot gets the word that its
    /// source had before the call.
    ///
    /// Each copy is a store as [`Paused::store`] or [`Paused::store_data`] makes it. So a slot's
    /// card becomes dirty if the reference crosses regions from there, and no log gets the card.
    /// Takes time in proportion to `count`, and no memory.
    pub fn copy_slots(&mut self, from: Slot, to: Slot, count: u32)
        requires from { from + count ≤ slot_count self.old.layout }
        requires to { to + count ≤ slot_count self.old.layout }
        ensures { Copies self.old from to count self.new }
    {
        let layout = self.race.race().layout;
        // Where the ranges overlap, each slot is read before it is written.
        let upwards = to.number() <= from.number();
        for i in 0..count {
            let distance = if upwards { i } else { count - 1 - i };
            self.copy_slot(
                slot_behind(layout, from, distance),
                slot_behind(layout, to, distance),
            );
        }
    }

    // Stores the word of a slot into another one.
    #[tactic(auto, using(crate::specs::read_is))]
    fn copy_slot(&mut self, from: Slot, to: Slot)
        requires from { from < slot_count self.old.layout }
        requires to { to < slot_count self.old.layout }
        ensures race { IsSameRace self.old self.new }
        ensures words { let word = slice_index self.old.words from in
            SlotsBecome (one_word to word) self.old self.new }
        ensures table { table_at self.new
            ≡ stored (table_at self.old) to (target_of (table_at self.old) from) }
        ensures flags { FlagsRise (λ card. card ≡ slot_card self.old.shape to) self.old self.new }
    {
        let layout = self.race.race().layout;
        let word = self.word(from);
        if word > u32::MAX as u64 {
            self.store_data(to, word);
            return;
        }
        let target = refers_to(layout, word);
        self.store(to, target);
    }
}

// The slot that lies so far behind the first one.
pub(crate) fn slot_behind(layout: Layout, first: Slot, distance: u32) -> Slot
    requires { first + distance < slot_count layout }
    ensures { result ≡ first + distance }
{
    let Some(slot) = layout.slot(first.number() + distance) else {
        unreachable!()
    };
    slot
}
