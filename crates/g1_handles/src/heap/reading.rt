//! How a heap at a pause is lent to several threads, each of which reads it by a reader, and how it
//! is at its pause again.
ghost use Rattle.std.specs.Prelude.{◌≡◌, ◌+◌, ◌≤◌, ◌++◌, IsPermutation};
ghost use Rattle.g1_handles.specs.{Some, All, IfErr, OnOk, OnErr, vec_len, vec_capacity, arc_value};
ghost use Rattle.g1_handles.specs.{Race, OfPaused, OfRead, BeginsReading, held_readers, IsLentHeap};
ghost use Rattle.g1_handles.specs.{IsReadRefused, AreOut, AreShared, OfAtPause, EndsReading};
ghost use Rattle.g1_handles.specs.{IsReadEndRefused, AreOnlyItsReaders};

use crate::any_handle::{AnyHandle, are_closed};
use crate::code::Reason;
use crate::handles::{HeapHandle, ReaderHandle};
use crate::heap::one_race::check_parties;
use crate::heap::phases::{gather, hand_out_to};
use crate::heap::racing_heap::{AtPause, BeingRead, RacingHeap, Readers, Room};
use crate::party::{Party, Role};
use core::mem::replace_with;
use std::alloc::Global;

/// Lets threads read the heap of a handle, which is at a pause, and puts a reader into each of
/// these closed handles. A reader reads what the pause has. Nothing changes until the reading ends.
/// Takes no memory.
///
/// Returns `NotOpen`, `NotPaused`, `BadHandles` if there are more handles than the heap has racers
/// and sweepers, or `AlreadyOpen` for a reader's handle: nothing has changed.
pub fn read_heap(handle: &mut HeapHandle, readers: &mut [ReaderHandle]) -> Result<(), Reason>
    ensures lent { OnOk result (BeginsReading handle.old.value handle.new.value
        readers.old readers.new) }
    ensures why { IfErr result (IsReadRefused handle.old.value (held_readers readers.old)) }
    ensures refused { OnErr result ((handle.new.value ≡ handle.old.value)
        × (held_readers readers.new ≡ held_readers readers.old)) }
{
    let Some(heap) = handle.value_mut() else {
        return Err(Reason::NotOpen);
    };
    let RacingHeap::Paused(at) = &*heap else {
        return Err(Reason::NotPaused);
    };
    if readers.len() > at.readers.idle.len() {
        return Err(Reason::BadHandles);
    }
    if !are_closed(readers) {
        return Err(Reason::AlreadyOpen);
    }
    replace_with(heap, readers.len(), lend);
    let RacingHeap::Read(being_read) = heap else {
        unreachable!()
    };
    let out = &mut being_read.readers.out;
    hand_out_to(readers, &mut out.boxes, &mut out.roles);
    Ok(())
}

/// Lends a heap at a pause to this many readers, which are not handed out yet.
fn lend(heap: RacingHeap, count: usize) -> (RacingHeap, ())
    requires { OfPaused (Some heap) (λ p. count ≤ p.shape.parties) }
    ensures lent { IsLentHeap (Some heap) (Some result.0) }
    ensures out { OfRead (Some result.0) (AreOut count) }
    ensures shared { OfAtPause (Some heap) (λ a. OfRead (Some result.0) (AreShared a)) }
{
    let RacingHeap::Paused(at) = heap else {
        unreachable!()
    };
    let AtPause {
        race,
        pause,
        racers,
        sweepers,
        readers,
    } = at;
    let Readers { mut idle, out } = readers;
    let Room {
        count: _,
        mut roles,
        mut boxes,
    } = out;
    roles.clear();
    boxes.clear();
    move_boxes(&mut idle, &mut boxes, count);
    let reading = pause.read_by(&mut roles, count);
    let out = Room {
        count,
        roles,
        boxes,
    };
    let being_read = BeingRead {
        race,
        reading,
        racers,
        sweepers,
        readers: Readers { idle, out },
    };
    (RacingHeap::Read(being_read), ())
}

/// Moves this many boxes of parties that wait from one list to another.
pub(crate) fn move_boxes<P: Role>(
    from: &mut Vec<Box<Party<P>>>,
    to: &mut Vec<Box<Party<P>>>,
    count: usize,
)
    requires some { count ≤ vec_len from.old }
    requires room { vec_len to.old + count ≤ vec_capacity to.old }
    ensures from { vec_len from.new + count ≡ vec_len from.old }
    ensures to { vec_len to.new ≡ vec_len to.old + count }
    ensures room { (vec_capacity from.new ≡ vec_capacity from.old)
        × (vec_capacity to.new ≡ vec_capacity to.old) }
    ensures same { IsPermutation (to.old.items ++ from.old.items) (to.new.items ++ from.new.items) }
    ensures race { (race : Race) → All (λ m. arc_value m.value.race ≡ race) from.old.items →
        All (λ m. arc_value m.value.race ≡ race) to.old.items →
        All (λ m. arc_value m.value.race ≡ race) from.new.items
        × All (λ m. arc_value m.value.race ≡ race) to.new.items }
{
    for _i in 0..count {
        let Some(party) = from.pop() else {
            unreachable!()
        };
        to.push_reserved(party);
    }
}

/// Ends the reading of the heap of a handle, which is then at its pause as it was. All its readers
/// must be handed in, and their handles are closed. Takes no memory.
///
/// Returns `NotOpen`, also for a reader's handle, `NotPaused` if the heap's parties are out,
/// `BadHandles` if not as many readers read it, or `OtherRace` for a reader of another heap or one
/// that is given twice: nothing has changed. Readers of other heaps are refused before anything
/// relies on the condition `one`.
pub fn end_read_of_heap(
    alloc: Global,
    handle: &mut HeapHandle,
    readers: &mut [ReaderHandle],
) -> Result<(), Reason>
    requires one { AreOnlyItsReaders handle.old.value readers.old }
    ensures ended { OnOk result (EndsReading handle.old.value handle.new.value
        readers.old readers.new) }
    ensures why { IfErr result (IsReadEndRefused handle.old.value (held_readers readers.old)) }
    ensures refused { OnErr result ((handle.new.value ≡ handle.old.value)
        × (held_readers readers.new ≡ held_readers readers.old)) }
{
    let Some(heap) = handle.value_mut() else {
        return Err(Reason::NotOpen);
    };
    let being_read = match &*heap {
        RacingHeap::Read(being_read) => being_read,
        RacingHeap::Paused(_) => return Err(Reason::BadHandles),
        RacingHeap::Racing(_) => return Err(Reason::NotPaused),
    };
    if readers.len() != being_read.readers.out.count {
        return Err(Reason::BadHandles);
    }
    check_parties(&being_read.race, readers)?;
    let RacingHeap::Read(being_read) = heap else {
        unreachable!()
    };
    let out = &mut being_read.readers.out;
    gather(alloc, readers, &mut out.roles, &mut out.boxes);
    replace_with(heap, (), end);
    Ok(())
}

/// The heap is at its pause again once its readers are in.
fn end(heap: RacingHeap, _nothing: ()) -> (RacingHeap, ())
    requires { OfRead (Some heap) (λ b. AreOut b.readers.out.count b) }
    ensures lent { IsLentHeap (Some result.0) (Some heap) }
    ensures shared { OfAtPause (Some result.0) (λ a. OfRead (Some heap) (AreShared a)) }
{
    let RacingHeap::Read(being_read) = heap else {
        unreachable!()
    };
    let BeingRead {
        race,
        reading,
        racers,
        sweepers,
        readers,
    } = being_read;
    let Readers { mut idle, out } = readers;
    let Room {
        count,
        mut roles,
        mut boxes,
    } = out;
    let pause = reading.pause(&mut roles);
    move_boxes(&mut boxes, &mut idle, count);
    let out = Room {
        count: 0,
        roles,
        boxes,
    };
    let at = AtPause {
        race,
        pause,
        racers,
        sweepers,
        readers: Readers { idle, out },
    };
    (RacingHeap::Paused(at), ())
}
