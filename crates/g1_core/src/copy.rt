//! A range of slots is copied to another one.
ghost use Rattle.std.specs.Prelude.{◌≡◌, ◌+◌, ◌≤◌, ◌<◌};
ghost use Rattle.g1_core.specs.{slot_count};

use crate::machinery::Core;
use crate::verify::slot_behind;
use g1_layout::Slot;

impl Core {
    ghost use Rattle.g1_core.specs.{reads_after, target_of, IsLater, stored, DoesCopy};

    /// Copies what `count` slots refer to, from `from` on, into as many slots from `to` on. The two
    /// ranges may overlap: each slot gets what its source had before the call.
    ///
    /// Each copy is a store as [`Core::store_unlogged`] makes it, whose card the marks alone
    /// remember: it becomes pending if the reference crosses regions from there. Reads each of the
    /// copied slots, and takes no memory.
    pub fn copy_slots(&mut self, from: Slot, to: Slot, count: u32)
        requires from { from + count ≤ slot_count self.old.state.table.layout }
        requires to { to + count ≤ slot_count self.old.state.table.layout }
        ensures did { DoesCopy from to count self.old self.new }
        ensures later { IsLater self.old self.new }
    {
        let layout = self.layout();
        let _reads = self.reads();
        // Where the ranges overlap, each slot is read before it is written.
        let upwards = to.number() <= from.number();
        for i in 0..count {
            let distance = if upwards { i } else { count - 1 - i };
            self.copy_slot(
                slot_behind(layout, from, distance),
                slot_behind(layout, to, distance),
            );
        }
    }

    // Stores what a slot refers to into another one.
    fn copy_slot(&mut self, from: Slot, to: Slot)
        requires from { from < slot_count self.old.state.table.layout }
        requires to { to < slot_count self.old.state.table.layout }
        ensures table { self.new.state.table
            ≡ stored self.old.state.table to (target_of self.old.state.table from) }
        ensures ring { self.new.state.ring ≡ self.old.state.ring }
        ensures reads { self.new.reads ≡ reads_after self.old.reads 1 }
        ensures later { IsLater self.old self.new }
    {
        let target = self.target(from);
        let (_kind, _dirtied) = self.store_unlogged(to, target);
    }
}
