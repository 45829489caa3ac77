//! Whether parties are all those of one heap's race.
//!
//! A share of a race is a pointer, and the toolchain compares no pointers into two blocks, so this
//! counts owners. One more share of the heap's race raises the count that a party sees if that
//! party is of the same race, and only then. Each party also has a number, so that a party that
//! is given twice is seen. No proof uses what the counts say: the clauses say only that nothing
//! changes, and that each party has its role in a race with as many parties.
ghost use Rattle.std.specs.Prelude.{◌≡◌, ◌⊎◌};
ghost use Rattle.g1_handles.specs.{All, Any, OnOk, IfErr, map, arc_value, race_shape, TakesPart};
ghost use Rattle.g1_handles.specs.{SaysNoParty};

use crate::any_handle::AnyHandle;
use crate::code::Reason;
use crate::party::{Party, Role};
use g1_race::Race;
use std::alloc::Global;
use std::sync::Arc;

/// Checks that each handle has a party of this race, and that none is given twice.
pub(crate) fn check_parties<P: Role, H: AnyHandle<Value = Party<P>>>(
    race: &Arc<Race, Global>,
    handles: &mut [H],
) -> Result<(), Reason>
    ensures same { map H.value handles.new ≡ map H.value handles.old }
    ensures among { OnOk result
        (All (TakesPart (race_shape (arc_value race.now)).parties) (map H.value handles.old)) }
    ensures why { IfErr result (λ refusal. (refusal ≡ Reason.OtherRace)
        ⊎ Any (λ m. SaysNoParty m refusal) (map H.value handles.old)) }
{
    let mut given = [false; 128];
    for i in 0..handles.len() {
        let number = check_party(race, &mut handles[i])?;
        if number >= given.len() || given[number] {
            return Err(Reason::OtherRace);
        }
        given[number] = true;
    }
    Ok(())
}

/// Checks that a handle has a party of this race, and returns its number among those of its kind.
fn check_party<P: Role, H: AnyHandle<Value = Party<P>>>(
    race: &Arc<Race, Global>,
    handle: &mut H,
) -> Result<usize, Reason>
    ensures same { H.value handle.new ≡ H.value handle.old }
    ensures among { OnOk result
        (TakesPart (race_shape (arc_value race.now)).parties (H.value handle.old)) }
    ensures why { IfErr result (λ refusal. (refusal ≡ Reason.OtherRace)
        ⊎ SaysNoParty (H.value handle.old) refusal) }
{
    let party = handle.value_mut().ok_or(Reason::NotOpen)?;
    if party.role.is_none() {
        return Err(Reason::NotOpen);
    }
    if party.race.party_count() != race.party_count() || !is_same(&party.race, race) {
        return Err(Reason::OtherRace);
    }
    Ok(party.counts.number)
}

/// Whether a party's race is that of a share.
fn is_same(race: &Arc<Race, Global>, share: &Arc<Race, Global>) -> bool {
    let owners = Arc::strong_count(share);
    if Arc::strong_count(race) != owners {
        return false;
    }
    let Ok(_one_more) = Arc::try_clone(share) else {
        return false;
    };
    Arc::strong_count(race) - 1 == owners
}
