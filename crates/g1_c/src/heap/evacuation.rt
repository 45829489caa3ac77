//! What follows an evacuation of a heap at a pause: references are moved or a remembered set is
//! emptied, and regions are freed.
ghost use Rattle.std.specs.Prelude.{◌≡◌, ◌⊎◌};
ghost use Rattle.g1_c.specs.{ClearsOnHeap, ClearsAt, LacksRegion, FreesAt, LacksSomeRegion};
ghost use Rattle.g1_c.specs.{OnHeap, Redirects, SaysNoMove, Wipes, Forgets, RefersOut};

use crate::calling::on_heap;
use crate::tell::{answer_word, tell, tell_reply};
use g1_core::ClearReply;
use g1_handles::code::Reason;
use g1_handles::handles::HeapHandle;
use g1_handles::heap::evacuation::{clear_at, forget_at, free_at, redirect_at, wipe_at};

/// As in `g1.h`.
#[unsafe(no_mangle)]
pub extern "C" fn g1_heap_clear(heap: &mut HeapHandle, region: u32, detail: &mut u32) -> u32
    ensures { ClearsOnHeap result heap.old heap.new detail.new (λ old reply new. ClearsAt old region
        reply new) (λ old. LacksRegion old.layout region) }
{
    tell_reply!(on_heap!(heap, clear_at(region)), detail)
}

/// As in `g1.h`.
#[unsafe(no_mangle)]
pub extern "C" fn g1_heap_free(heap: &mut HeapHandle, regions: &[u32], detail: &mut u32) -> u32
    ensures { ClearsOnHeap result heap.old heap.new detail.new (λ old reply new. FreesAt old
        regions.now reply new) (λ old. LacksSomeRegion old.layout regions.now) }
{
    tell_reply!(on_heap!(heap, free_at(regions)), detail)
}

/// As in `g1.h`.
#[unsafe(no_mangle)]
pub extern "C" fn g1_heap_redirect(
    heap: &mut HeapHandle,
    from: u32,
    to: u32,
    moved: &mut u32,
) -> u32
    ensures { OnHeap 0 result heap.old heap.new (moved.new ≡ 0) (λ old new. Redirects old from to
        moved.new new) (λ old. SaysNoMove old.layout from to) }
{
    tell(on_heap!(heap, redirect_at(from, to)), 0, moved)
}

/// As in `g1.h`.
#[unsafe(no_mangle)]
pub extern "C" fn g1_heap_wipe(heap: &mut HeapHandle, region: u32) -> u32
    ensures { OnHeap 0 result heap.old heap.new (Unit {0}) (λ old new. Wipes old region new) (λ old.
        LacksRegion old.layout region) }
{
    answer_word(on_heap!(heap, wipe_at(region)))
}

/// As in `g1.h`.
#[unsafe(no_mangle)]
pub extern "C" fn g1_heap_forget(heap: &mut HeapHandle, region: u32) -> u32
    ensures { OnHeap 0 result heap.old heap.new (Unit {0}) (λ old new. Forgets old region new ×
        (RefersOut old region → ⊥)) (λ old r. LacksRegion old.layout region r ⊎ ((r ≡
        Reason.StillReferenced) × RefersOut old region)) }
{
    answer_word(on_heap!(heap, forget_at(region)))
}
