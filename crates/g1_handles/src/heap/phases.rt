//! How a heap whose stores race comes to a pause, and how it goes on after it.
ghost use Rattle.std.specs.Prelude.{◌≡◌, ◌≤◌};
ghost use Rattle.g1_handles.specs.{Some, All, IfErr, OnOk, OnErr, IsSome, length, map};
ghost use Rattle.g1_handles.specs.{vec_capacity, arc_value, Race, racer_view, sweeper_view};
ghost use Rattle.g1_handles.specs.{racer_log, OfPaused, OfRacing, HasParties, IsPauseOf};
ghost use Rattle.g1_handles.specs.{IsPauseRefused, FillRoom, heap_race, heap_counts, idle_counts};
ghost use Rattle.g1_handles.specs.{boxed_counts, waiting_counts, ComesToPause, held_racers};
ghost use Rattle.g1_handles.specs.{held_sweepers, role_in, AreClosed, BelongsTo, counts_of};
ghost use Rattle.g1_handles.specs.{AreOnlyItsOwn, HoldSame, LeavesPause, OfAtPause};
ghost use Rattle.g1_handles.specs.{IsResumeRefused, Resumes};

use crate::any_handle::{AnyHandle, are_closed, closed, into_box, opened};
use crate::code::Reason;
use crate::handles::{HeapHandle, RacerHandle, SweeperHandle};
use crate::heap::one_race::check_parties;
use crate::heap::racing_heap::{AtPause, RacingHeap, Room, UnderWay};
use crate::party::{Party, Role};
use core::mem::{replace, replace_with};
use g1_race::{Paused, Race};
use std::alloc::Global;
use std::sync::Arc;

/// Brings the heap of a handle to a pause. All its racers and sweepers must be handed in, and their
/// handles are closed. What each party has counted stays with the heap. Takes no memory.
///
/// Returns `NotOpen`, also for a party's handle, `NotRacing`, `BadHandles` if there are not as
/// many handles as the heap was opened for, or `OtherRace` for a party of another heap or one that
/// is given twice: nothing has changed. Parties of other heaps are refused before anything relies
/// on the condition `one`.
pub fn pause_heap(
    alloc: Global,
    handle: &mut HeapHandle,
    racers: &mut [RacerHandle],
    sweepers: &mut [SweeperHandle],
) -> Result<(), Reason>
    requires one { AreOnlyItsOwn handle.old.value racers.old sweepers.old }
    ensures paused { OnOk result (ComesToPause handle.old.value handle.new.value
        racers.old racers.new sweepers.old sweepers.new) }
    ensures why { IfErr result (IsPauseRefused handle.old.value
        (held_racers racers.old) (held_sweepers sweepers.old)) }
    ensures refused { OnErr result ((handle.new.value ≡ handle.old.value)
        × HoldSame racers.old racers.new sweepers.old sweepers.new) }
{
    let Some(heap) = handle.value_mut() else {
        return Err(Reason::NotOpen);
    };
    let RacingHeap::Racing(under_way) = &*heap else {
        return Err(Reason::NotRacing);
    };
    if racers.len() != under_way.racers.count || sweepers.len() != under_way.sweepers.count {
        return Err(Reason::BadHandles);
    }
    check_parties(&under_way.race, racers)?;
    check_parties(&under_way.race, sweepers)?;
    let share = Arc::try_clone(&under_way.race).or(Err(Reason::OtherRace))?;
    let RacingHeap::Racing(under_way) = heap else {
        unreachable!()
    };
    let racing = &mut under_way.racers;
    gather(alloc, racers, &mut racing.roles, &mut racing.boxes);
    let sweeping = &mut under_way.sweepers;
    gather(alloc, sweepers, &mut sweeping.roles, &mut sweeping.boxes);
    replace_with(heap, share, enter_pause);
    Ok(())
}

/// The heap is at a pause once its parties are in.
fn enter_pause(heap: RacingHeap, share: Arc<Race, Global>) -> (RacingHeap, ())
    requires { OfRacing (Some heap) (λ b. (arc_value share ≡ arc_value b.race)
        × FillRoom (arc_value b.race) b.racers.count b.racers.boxes b.racers.roles
        × FillRoom (arc_value b.race) b.sweepers.count b.sweepers.boxes b.sweepers.roles) }
    ensures paused { OfRacing (Some heap) (λ b. OfPaused (Some result.0) (IsPauseOf
        (arc_value b.race) (map racer_view b.racers.roles.items)
        (map sweeper_view b.sweepers.roles.items) (map racer_log b.racers.roles.items))) }
    ensures parties { OfRacing (Some heap) (λ b.
        HasParties (Some result.0) b.racers.count b.sweepers.count) }
    ensures race { heap_race (Some result.0) ≡ heap_race (Some heap) }
    ensures counts { OfRacing (Some heap) (λ b.
        heap_counts (Some result.0) ≡ waiting_counts b) }
    ensures idle { idle_counts (Some result.0) ≡ idle_counts (Some heap) }
{
    let RacingHeap::Racing(under_way) = heap else {
        unreachable!()
    };
    let UnderWay {
        race,
        racers,
        sweepers,
        readers,
    } = under_way;
    let pause = Paused::of(share, racers.roles, sweepers.roles);
    let at = AtPause {
        race,
        pause,
        racers: racers.boxes,
        sweepers: sweepers.boxes,
        readers,
    };
    (RacingHeap::Paused(at), ())
}

/// Takes the roles of these handles' parties, and lets their boxes wait. The handles are closed
/// then.
pub(crate) fn gather<P: Role, H: AnyHandle<Value = Party<P>>>(
    alloc: Global,
    handles: &mut [H],
    roles: &mut Vec<P>,
    boxes: &mut Vec<Box<Party<P>>>,
)
    requires room { (length handles.old ≤ vec_capacity roles.old)
        × (length handles.old ≤ vec_capacity boxes.old) }
    requires roles { All (λ m. IsSome (role_in m)) (map H.value handles.old) }
    ensures room { (vec_capacity roles.new ≡ vec_capacity roles.old)
        × (vec_capacity boxes.new ≡ vec_capacity boxes.old) }
    ensures closed { AreClosed (map H.value handles.new) }
    ensures parties { (race : Race) → All (BelongsTo race) (map H.value handles.old) →
        FillRoom race (length handles.old) boxes.new roles.new }
    ensures roles { map Some roles.new.items ≡ map role_in (map H.value handles.old) }
    ensures counts { boxed_counts boxes.new ≡ map counts_of (map H.value handles.old) }
{
    roles.clear();
    boxes.clear();
    for i in 0..handles.len() {
        let Some(mut party) = into_box(replace(&mut handles[i], closed(alloc))) else {
            unreachable!()
        };
        let Some(role) = party.park() else {
            unreachable!()
        };
        roles.push_reserved(role);
        boxes.push_reserved(party);
    }
}

/// Lets the heap of a handle go on, and puts its racers and its sweepers into handles that are
/// closed. The race begins with the table that the pause left, and each racer has its log, which is
/// empty if all was refined. Each party has what the one at its index had counted. Takes no
/// memory.
///
/// Returns `NotOpen`, `NotPaused`, `BadHandles` if there are not as many handles as the heap was
/// opened for, or `AlreadyOpen` for a party's handle: nothing has changed.
pub fn resume_heap(
    handle: &mut HeapHandle,
    racers: &mut [RacerHandle],
    sweepers: &mut [SweeperHandle],
) -> Result<(), Reason>
    ensures resumed { OnOk result (Resumes handle.old.value handle.new.value
        racers.old racers.new sweepers.old sweepers.new) }
    ensures why { IfErr result (IsResumeRefused handle.old.value
        (held_racers racers.old) (held_sweepers sweepers.old)) }
    ensures refused { OnErr result ((handle.new.value ≡ handle.old.value)
        × HoldSame racers.old racers.new sweepers.old sweepers.new) }
{
    let Some(heap) = handle.value_mut() else {
        return Err(Reason::NotOpen);
    };
    let RacingHeap::Paused(at) = &*heap else {
        return Err(Reason::NotPaused);
    };
    if racers.len() != at.racers.len() || sweepers.len() != at.sweepers.len() {
        return Err(Reason::BadHandles);
    }
    if !are_closed(racers) || !are_closed(sweepers) {
        return Err(Reason::AlreadyOpen);
    }
    replace_with(heap, (), leave_pause);
    let RacingHeap::Racing(under_way) = heap else {
        unreachable!()
    };
    let racing = &mut under_way.racers;
    hand_out_to(racers, &mut racing.boxes, &mut racing.roles);
    let sweeping = &mut under_way.sweepers;
    hand_out_to(sweepers, &mut sweeping.boxes, &mut sweeping.roles);
    Ok(())
}

/// Ends the pause. The parties are not handed out yet.
fn leave_pause(heap: RacingHeap, _nothing: ()) -> (RacingHeap, ())
    requires { OfPaused (Some heap) (λ p. Unit {0}) }
    ensures { OfAtPause (Some heap) (λ a. OfRacing (Some result.0) (LeavesPause a)) }
{
    let RacingHeap::Paused(at) = heap else {
        unreachable!()
    };
    let AtPause {
        race,
        pause,
        racers,
        sweepers,
        readers,
    } = at;
    let (_share, racer_roles, sweeper_roles) = pause.resume();
    let under_way = UnderWay {
        race,
        racers: Room {
            count: racers.len(),
            roles: racer_roles,
            boxes: racers,
        },
        sweepers: Room {
            count: sweepers.len(),
            roles: sweeper_roles,
            boxes: sweepers,
        },
        readers,
    };
    (RacingHeap::Racing(under_way), ())
}

/// Gives each handle the role at its index, in the box at that index.
pub(crate) fn hand_out_to<P: Role, H: AnyHandle<Value = Party<P>>>(
    handles: &mut [H],
    boxes: &mut Vec<Box<Party<P>>>,
    roles: &mut Vec<P>,
)
    requires { (race : Race) × FillRoom race (length handles.old) boxes.old roles.old }
    ensures roles { map role_in (map H.value handles.new) ≡ map Some roles.old.items }
    ensures counts { map counts_of (map H.value handles.new) ≡ boxed_counts boxes.old }
    ensures race { (race : Race) → All (λ m. arc_value m.value.race ≡ race) boxes.old.items →
        All (BelongsTo race) (map H.value handles.new) }
    ensures capacity { (vec_capacity boxes.new ≡ vec_capacity boxes.old)
        × (vec_capacity roles.new ≡ vec_capacity roles.old) }
{
    let mut left = handles.len();
    while left > 0 {
        left -= 1;
        let Some(mut party) = boxes.pop() else {
            unreachable!()
        };
        let Some(role) = roles.pop() else {
            unreachable!()
        };
        party.seat(role);
        handles[left] = opened(party);
    }
}
