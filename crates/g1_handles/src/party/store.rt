//! Lock-free stores in a race.
ghost use Rattle.std.specs.Prelude.{◌≡◌};
ghost use Rattle.g1_handles.specs.{IfOk, IfErr, IsOk, OnErr, race_id, racer_race, reference_of};
ghost use Rattle.g1_handles.specs.{Stores, racing, CanStore, SaysNoStore, IsMadeByRacer};

use crate::code::Reason;
use crate::one_core::store::store_of;
use crate::party::Party;
use crate::party::counts::PartyCounts;
use g1_layout::{Kind, Slot};
use g1_race::{Race, Racer};

/// Stores a target into a slot by a racer. Returns the kind of the store, or `NotOpen`, `NoSlot`
/// for the slot or the target, or `LogFull` if the reference crosses regions and the log is full:
/// nothing has changed.
#[inline(always)]
pub fn store_by(party: &mut Party<Racer>, slot: u32, target: u32) -> Result<Kind, Reason>
    ensures { IsMadeByRacer party.old result party.new (λ a kind b.
        CanStore a.race a.racer slot target × Stores a slot (reference_of target) kind b)
        (λ a. SaysNoStore a.race a.racer slot target) }
{
    let Some(racer) = &mut party.role else {
        return Err(Reason::NotOpen);
    };
    store_next(&party.race, racer, &mut party.counts, slot, target)
}

/// Makes one store by a racer of the race, and counts it. Returns the kind of the store, or
/// `NoSlot` for the slot or the target, or `LogFull`: nothing has changed.
#[inline(always)]
pub(crate) fn store_next(
    race: &Race,
    racer: &mut Racer,
    counts: &mut PartyCounts,
    slot: u32,
    target: u32,
) -> Result<Kind, Reason>
    requires same { racer_race racer.old ≡ race_id race.now }
    ensures same { racer_race racer.new ≡ racer_race racer.old }
    ensures stored { IfOk result (λ kind. Stores (racing race.now racer.old counts.old) slot
        (reference_of target) kind (racing race.now racer.new counts.new)) }
    ensures can { IsOk result → CanStore race.now racer.old slot target }
    ensures why { IfErr result (SaysNoStore race.now racer.old slot target) }
    ensures refused { OnErr result ((racer.new ≡ racer.old) × (counts.new ≡ counts.old)) }
{
    let (slot, target) = may_store(race, racer, slot, target)?;
    let kind = racer.store(race, slot, target);
    counts.add_store(kind);
    Ok(kind)
}

/// Returns the slot and the target of a store that a racer can make, or `NoSlot` or `LogFull`.
#[inline(always)]
pub(crate) fn may_store(
    race: &Race,
    racer: &Racer,
    slot: u32,
    target: u32,
) -> Result<(Slot, Option<Slot>), Reason>
    ensures can { IsOk result → CanStore race.now racer.now slot target }
    ensures store { IfOk result (λ store. (store.0 ≡ slot) × (store.1 ≡ reference_of target)) }
    ensures why { IfErr result (SaysNoStore race.now racer.now slot target) }
{
    let (slot, target) = store_of(race.layout(), slot, target)?;
    if !racer.has_room_for(race, &slot, &target) {
        return Err(Reason::LogFull);
    }
    Ok((slot, target))
}
