//! Queries on a heap at a pause: what a slot refers to, whether a card is pending, how much is
//! pending and recorded, what is recorded for a region or several of them, and what is dirty.
ghost use Rattle.std.specs.Prelude.{◌≡◌, ◌≤◌, ◌==◌};
ghost use Rattle.g1_c.specs.{ToldByHeap, TellsTarget, table_at, reference_of, LacksSlot};
ghost use Rattle.g1_c.specs.{TellsPending, LacksCard, TellsStatus, ListsOfHeap, listing};
ghost use Rattle.g1_c.specs.{TellsMembers, TellsNextMember, LacksRegion, IsNextPending};
ghost use Rattle.g1_c.specs.{TellsNextInto, LacksSomeRegion};

use crate::calling::on_heap;
use crate::one_core::queries::Totals;
use crate::tell::{tell, tell_set, tell_whether};
use g1_core::Status;
use g1_handles::code::NULL;
use g1_handles::handles::HeapHandle;
use g1_handles::heap::at_pause::PausedHeap;
use g1_handles::heap::queries::{
    is_pending_at, next_dirty_at, next_into_at, next_member_at, status_at, target_at,
};
use g1_handles::heap::sets::{Which, set_of_heap};

/// As in `g1.h`.
#[unsafe(no_mangle)]
pub extern "C" fn g1_heap_target(heap: &mut HeapHandle, slot: u32, target: &mut u32) -> u32
    ensures { ToldByHeap result heap.old heap.new target.new (target.new ≡ 4294967295) (λ target
        old. TellsTarget (table_at old) slot (reference_of target)) (λ old. LacksSlot old.layout
        slot) }
{
    let answer = on_heap!(heap, target_at(slot));
    tell(answer, NULL, target)
}

/// As in `g1.h`.
#[unsafe(no_mangle)]
pub extern "C" fn g1_heap_is_pending(heap: &mut HeapHandle, card: u32, pending: &mut u32) -> u32
    ensures told { ToldByHeap result heap.old heap.new (pending.new == 1) (pending.new ≡ 0) (λ
        answer old. TellsPending (table_at old) card answer) (λ old. LacksCard old.layout card) }
    ensures word { pending.new ≤ 1 }
{
    let answer = on_heap!(heap, is_pending_at(card));
    tell_whether(answer, pending)
}

/// As in `g1.h`.
#[unsafe(no_mangle)]
pub extern "C" fn g1_heap_status(heap: &mut HeapHandle, totals: &mut Totals) -> u32
    ensures { ToldByHeap result heap.old heap.new totals.new (totals.new ≡ record {
      pending = 0;
      recorded = 0;
    }) (λ totals old. TellsStatus (table_at old) (record {
      pending =
          totals.pending;
      recorded = totals.recorded;
    })) (λ old r. ⊥) }
{
    let none = Totals {
        pending: 0,
        recorded: 0,
    };
    let answer = on_heap!(heap, Ok(totals_at()));
    tell(answer, none, totals)
}

// How much is pending and recorded at a pause.
fn totals_at(heap: &mut PausedHeap) -> Totals
    ensures status { TellsStatus (table_at heap.old)
        (record { pending = result.pending; recorded = result.recorded }) }
    ensures same { heap.new ≡ heap.old }
{
    let Status { pending, recorded } = status_at(heap);
    Totals { pending, recorded }
}

/// As in `g1.h`.
#[unsafe(no_mangle)]
pub extern "C" fn g1_heap_members(
    heap: &mut HeapHandle,
    region: u32,
    cards: &mut [u32],
    count: &mut u32,
) -> u32
    ensures members { ListsOfHeap result heap.old heap.new (listing cards.old cards.new count.new)
        (λ old new. TellsMembers (table_at old) region) region }
    ensures same { heap.new.value ≡ heap.old.value }
{
    *count = 0;
    tell_set!(set_of_heap(heap, Which::Recorded, region, cards), count)
}

/// As in `g1.h`.
#[unsafe(no_mangle)]
pub extern "C" fn g1_heap_next_member(
    heap: &mut HeapHandle,
    region: u32,
    from: u32,
    card: &mut u32,
) -> u32
    ensures { ToldByHeap result heap.old heap.new card.new (card.new ≡ 4294967295) (λ card old.
        TellsNextMember (table_at old) region from (reference_of card)) (λ old. LacksRegion
        old.layout region) }
{
    let answer = on_heap!(heap, next_member_at(region, from));
    tell(answer, NULL, card)
}

/// As in `g1.h`.
#[unsafe(no_mangle)]
pub extern "C" fn g1_heap_next_dirty(heap: &mut HeapHandle, from: u32, card: &mut u32) -> u32
    ensures { ToldByHeap result heap.old heap.new card.new (card.new ≡ 4294967295) (λ card old.
        IsNextPending (table_at old) from (reference_of card)) (λ old r. ⊥) }
{
    let answer = on_heap!(heap, Ok(next_dirty_at(from)));
    tell(answer, NULL, card)
}

/// As in `g1.h`.
#[unsafe(no_mangle)]
pub extern "C" fn g1_heap_next_into(
    heap: &mut HeapHandle,
    regions: &[u32],
    from: u32,
    card: &mut u32,
) -> u32
    ensures { ToldByHeap result heap.old heap.new card.new (card.new ≡ 4294967295) (λ card old.
        TellsNextInto (table_at old) regions.now from (reference_of card)) (λ old. LacksSomeRegion
        old.layout regions.now) }
{
    let answer = on_heap!(heap, next_into_at(regions, from));
    tell(answer, NULL, card)
}
