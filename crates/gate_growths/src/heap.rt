//! The slots and the card table: one call takes memory.
use g1_heap::{Heap, Mark};
use test_support::Failure;
use test_support::checks::check;
use test_support::failure::retried;
use test_support::numbers::{card, slot, small};

/// A refused heap is made again, of nulls and clean cards.
pub(crate) fn new_heap<R: Eprint + AllocGlobal>(rt: &R) -> Result<(), Failure> {
    let (alloc, layout) = (rt.alloc(), small()?);
    let mut heap = retried(rt, "Heap::new", || Heap::new(alloc, layout))?;
    check(rt, heap.reads() == 0, "a new heap was read")?;
    for number in 0..8 {
        let is = heap.mark(card(heap.layout(), number)?) == Mark::Clean;
        check(rt, is, "a card of a new heap is marked")?;
    }
    for number in 0..32 {
        let from = slot(heap.layout(), number)?;
        check(rt, heap.get(from).is_none(), "a slot of a new heap refers")?;
    }
    Ok(())
}
