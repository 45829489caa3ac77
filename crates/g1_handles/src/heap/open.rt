//! How a heap whose stores race begins and ends: at a pause.
ghost use Rattle.std.specs.Prelude.{◌≡◌};
ghost use Rattle.g1_handles.specs.{IsTrue, Some, None, All, IfOk, IfErr, OnOk, OnErr};
ghost use Rattle.g1_handles.specs.{vec_len, arc_value, layout_of, IsNewHeap};
ghost use Rattle.g1_handles.specs.{IsHeapOpenRefused, AreHeapCounts, OfPaused, IsCloseRefused};
ghost use Rattle.g1_handles.specs.{HasNewParties, AreNew, boxed_counts};

use crate::any_handle::{AnyHandle, closed, into_box, is_closed, opened};
use crate::code::Reason;
use crate::handles::HeapHandle;
use crate::heap::racing_heap::{AtPause, RacingHeap, Readers, Room};
use crate::one_core::open::Counts;
use crate::party::counts::PartyCounts;
use crate::party::{Party, Role};
use core::mem::replace;
use g1_layout::{Layout, NoMemory};
use g1_race::{Paused, Race};
use std::alloc::Global;
use std::sync::Arc;

/// Opens a heap at a pause in a closed handle, for this many racers and sweepers, 1 to 64 of each.
/// Its slots are all null and its cards are all clean. Takes all memory that the heap ever takes.
///
/// Returns `AlreadyOpen`, whatever else is so, `BadHandles`, `BadLayout` or `NoMemory`: the handle
/// has not changed.
pub fn open_heap(
    alloc: Global,
    handle: &mut HeapHandle,
    counts: &Counts,
    racers: u32,
    sweepers: u32,
) -> Result<(), Reason>
    ensures opened { OnOk result
        (OfPaused handle.new.value (IsNewHeap (layout_of counts.now) racers sweepers)) }
    ensures parties { OnOk result (HasNewParties handle.new.value) }
    ensures closed { OnOk result (handle.old.value ≡ None) }
    ensures why { IfErr result (λ refusal.
        IsHeapOpenRefused handle.old.value (layout_of counts.now) racers sweepers refusal) }
    ensures refused { OnErr result (handle.new.value ≡ handle.old.value) }
{
    if !is_closed(handle) {
        return Err(Reason::AlreadyOpen);
    }
    if !are_heap_counts(racers, sweepers) {
        return Err(Reason::BadHandles);
    }
    let layout = Layout::large(counts.regions, counts.cards, counts.slots);
    let layout = layout.ok_or(Reason::BadLayout)?;
    let heap = new_heap(alloc, layout, racers, sweepers).or(Err(Reason::NoMemory))?;
    *handle = opened(heap);
    Ok(())
}

/// Whether a heap can have this many racers and sweepers.
fn are_heap_counts(racers: u32, sweepers: u32) -> bool
    ensures some { IsTrue result → AreHeapCounts racers sweepers }
    ensures none { AreHeapCounts racers sweepers → IsTrue result }
{
    1 <= racers && racers <= 64 && 1 <= sweepers && sweepers <= 64
}

fn new_heap(
    alloc: Global,
    layout: Layout,
    racers: u32,
    sweepers: u32,
) -> Result<Box<RacingHeap>, NoMemory>
    requires { AreHeapCounts racers sweepers }
    ensures opened { IfOk result (λ heap.
        OfPaused (Some heap.value) (IsNewHeap layout racers sweepers)) }
    ensures parties { IfOk result (λ heap. HasNewParties (Some heap.value)) }
{
    let paused = Paused::open(alloc, layout, racers, sweepers)?;
    let (pause, race) = paused.shared(alloc)?;
    let racers = waiting(alloc, &race, racers as usize)?;
    let sweepers = waiting(alloc, &race, sweepers as usize)?;
    let readers = idle_readers(alloc, &race, pause.reader_limit())?;
    let at = AtPause {
        race,
        pause,
        racers,
        sweepers,
        readers,
    };
    Ok(Box::new(alloc, RacingHeap::Paused(at))?)
}

/// As many readers that read nothing, with room for all of them.
fn idle_readers(alloc: Global, race: &Arc<Race, Global>, count: usize) -> Result<Readers, NoMemory>
    ensures count { IfOk result (λ readers. vec_len readers.idle ≡ count) }
    ensures race { IfOk result (λ readers.
        All (λ m. arc_value m.value.race ≡ arc_value race.now) readers.idle.items) }
    ensures counts { IfOk result (λ readers. AreNew (boxed_counts readers.idle)) }
{
    let idle = waiting(alloc, race, count)?;
    let out = Room {
        count: 0,
        roles: Vec::with_capacity(alloc, count)?,
        boxes: Vec::with_capacity(alloc, count)?,
    };
    Ok(Readers { idle, out })
}

/// As many parties that wait, each in its box, and have counted nothing. The number of each is its
/// index.
fn waiting<P: Role>(
    alloc: Global,
    race: &Arc<Race, Global>,
    count: usize,
) -> Result<Vec<Box<Party<P>>>, NoMemory>
    ensures count { IfOk result (λ parties. vec_len parties ≡ count) }
    ensures race { IfOk result (λ parties.
        All (λ m. arc_value m.value.race ≡ arc_value race.now) parties.items) }
    ensures counts { IfOk result (λ parties. AreNew (boxed_counts parties)) }
{
    let mut parties = Vec::with_capacity(alloc, count)?;
    for number in 0..count {
        let race = Arc::try_clone(race)?;
        let party = Party {
            race,
            role: None,
            counts: PartyCounts::none(number),
            apart: [0; 8],
        };
        parties.push(Box::new(alloc, party)?)?;
    }
    Ok(parties)
}

/// Closes a heap at a pause, and frees all that it has.
///
/// Returns `NotOpen`, or `NotPaused` if its parties are out or readers read it: the handle has not
/// changed.
pub fn close_heap(alloc: Global, handle: &mut HeapHandle) -> Result<(), Reason>
    ensures closed { OnOk result (handle.new.value ≡ None) }
    ensures paused { OnOk result (OfPaused handle.old.value (λ p. Unit {0})) }
    ensures why { IfErr result (λ refusal. IsCloseRefused handle.old.value refusal) }
    ensures refused { OnErr result (handle.new.value ≡ handle.old.value) }
{
    let heap = handle.value_mut().ok_or(Reason::NotOpen)?;
    if !matches!(&*heap, RacingHeap::Paused(_)) {
        return Err(Reason::NotPaused);
    }
    let _heap = into_box(replace(handle, closed(alloc)));
    Ok(())
}
