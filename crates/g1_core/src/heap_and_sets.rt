//! The heap of a core with its remembered sets, and the refinement of one card.
ghost use Rattle.std.specs.Prelude.{◌≡◌, ◌<◌, ◌≤◌, ◌+◌};
ghost use Rattle.g1_core.specs.Prelude.{OnOk, OnErr, card_count, Clean};
ghost use Rattle.g1_core.specs.Prelude.{with_mark, with_reads};
ghost use Rattle.g1_core.specs.Machine.{gained};

use arrayvec::ArrayVec;
use g1_heap::{Heap, Mark};
use g1_layout::{Card, NoMemory, Region};
use g1_sets::Sets;

/// What stands for the plain table of a core: the heap with its card table, the remembered sets,
/// and how many cards are pending.
#[derive(Drop)]
pub(crate) struct HeapAndSets {
    pub(crate) heap: Heap,
    pub(crate) sets: Sets,
    pub(crate) pending: u32,
    // The targets of the card that is being refined. Contracts do not see them.
    pub(crate) targets: ArrayVec<Region, 64>,
}

impl HeapAndSets {
    /// Refines a card: its pairs are recorded and its mark is cleaned, or neither.
    #[inline(always)]
    pub(crate) fn refine(&mut self, card: Card) -> Result<(), NoMemory>
        requires card { card < card_count self.old.heap.layout }
        requires layouts { self.old.sets.layout ≡ self.old.heap.layout }
        requires some { 1 ≤ self.old.pending }
        ensures cleaned { OnOk result (self.new.heap
            ≡ with_mark (with_reads self.old.heap self.old.heap.layout.slots) card Clean) }
        ensures pairs { OnOk result
            (self.new.sets.pairs ≡ gained self.old.heap self.old.sets.pairs card) }
        ensures layout { self.new.sets.layout ≡ self.old.sets.layout }
        ensures less { OnOk result (self.new.pending + 1 ≡ self.old.pending) }
        ensures err { OnErr result ((self.new.sets ≡ self.old.sets)
            × (self.new.heap ≡ with_reads self.old.heap self.old.heap.layout.slots)
            × (self.new.pending ≡ self.old.pending)) }
    {
        self.record(card)?;
        self.heap.set_mark(card, Mark::Clean);
        self.pending -= 1;
        Ok(())
    }

    /// Records the regions that the card refers into and is not recorded for yet, all of them or
    /// none.
    #[inline(always)]
    fn record(&mut self, card: Card) -> Result<(), NoMemory>
        requires card { card < card_count self.old.heap.layout }
        requires layouts { self.old.sets.layout ≡ self.old.heap.layout }
        ensures heap { self.new.heap ≡ with_reads self.old.heap self.old.heap.layout.slots }
        ensures layout { self.new.sets.layout ≡ self.old.sets.layout }
        ensures pairs { OnOk result
            (self.new.sets.pairs ≡ gained self.old.heap self.old.sets.pairs card) }
        ensures err { OnErr result (self.new.sets ≡ self.old.sets) }
        ensures pending { self.new.pending ≡ self.old.pending }
    {
        // The contract of `layout` says that the heap's numbers are within the limits.
        let _ = self.heap.layout();
        let known = self.sets.regions_of(card);
        self.heap.list_targets(card, known, &mut self.targets);
        if self.targets.as_slice().is_empty() {
            return Ok(());
        }
        self.sets.record(card, self.targets.as_slice())?;
        Ok(())
    }
}
