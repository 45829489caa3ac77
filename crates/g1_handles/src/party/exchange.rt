//! Stores in a race that return what the slot referred to before, or depend on it.
ghost use Rattle.std.specs.Prelude.{◌⊎◌};
ghost use Rattle.g1_handles.specs.Prelude.{race_layout};
ghost use Rattle.g1_handles.specs.Codes.{IsStoreOf, reference_of};
ghost use Rattle.g1_handles.specs.RaceStores.{Swaps, IsExchange};
ghost use Rattle.g1_handles.specs.Refusals.{CanStore, SaysNoStore, LacksPlace, IsMadeByRacer};

use crate::code::Reason;
use crate::one_core::queries::reference_word;
use crate::one_core::store::reference;
use crate::party::Party;
use crate::party::store::may_store;
use g1_layout::Kind;
use g1_race::Racer;

/// What a swap did.
#[derive(Clone, Copy)]
pub struct Swapped {
    /// The kind of the store.
    pub kind: Kind,
    /// The word of what the slot referred to.
    pub old: u32,
}

/// What a compare-and-swap came to.
#[derive(Clone, Copy)]
pub enum Exchange {
    /// The slot had what was expected, and has the target by a store of this kind.
    Stored(Kind),
    /// The slot has something else, and nothing was stored. This is the word of what it refers to;
    /// if it has data, that is the word for null.
    Differs(u32),
}

/// Stores a target into a slot by a racer, and returns also what the slot referred to. Returns
/// `NotOpen`, `NoSlot` for the slot or the target, or `LogFull`, if the call was refused: nothing
/// has changed.
#[inline(always)]
pub fn swap_by(party: &mut Party<Racer>, slot: u32, target: u32) -> Result<Swapped, Reason>
    ensures { IsMadeByRacer party.old result party.new (λ a swapped b.
        CanStore a.race a.racer slot target × Swaps a slot (reference_of target)
        (reference_of swapped.old) swapped.kind b) (λ a. SaysNoStore a.race a.racer slot target) }
{
    let Some(racer) = &mut party.role else {
        return Err(Reason::NotOpen);
    };
    let (slot, target) = may_store(&party.race, racer, slot, target)?;
    let layout = party.race.layout();
    let (kind, old) = racer.swap(&party.race, slot, target);
    party.counts.add_store(kind);
    let old = reference_word(layout, old);
    Ok(Swapped { kind, old })
}

/// Stores a target into a slot by a racer, if the slot has what is expected. Returns `NotOpen`,
/// `NoSlot` for one of the words, or `LogFull` for the target, if the call was refused: nothing has
/// changed.
#[inline(always)]
pub fn compare_exchange_by(
    party: &mut Party<Racer>,
    slot: u32,
    expected: u32,
    target: u32,
) -> Result<Exchange, Reason>
    ensures { IsMadeByRacer party.old result party.new (λ a exchange b.
        IsStoreOf (race_layout a.race) slot expected × CanStore a.race a.racer slot target
        × IsExchange a slot (reference_of expected) (reference_of target) exchange b)
        (λ a r. SaysNoStore a.race a.racer slot target r
        ⊎ LacksPlace (race_layout a.race) slot expected r) }
{
    let Some(racer) = &mut party.role else {
        return Err(Reason::NotOpen);
    };
    let layout = party.race.layout();
    let Some(expected) = reference(layout, expected) else {
        return Err(Reason::NoSlot);
    };
    let (slot, target) = may_store(&party.race, racer, slot, target)?;
    match racer.compare_exchange(&party.race, slot, expected, target) {
        Ok(kind) => {
            party.counts.add_store(kind);
            Ok(Exchange::Stored(kind))
        }
        Err(found) => Ok(Exchange::Differs(reference_word(layout, found))),
    }
}
