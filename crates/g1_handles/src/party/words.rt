//! Stores of words and of data in a race: a slot may hold null, a reference or data.
ghost use Rattle.std.specs.Prelude.{◌≡◌, ◌⊎◌, ◌<◌, ◌≤◌, ◌^◌};
ghost use Rattle.g1_handles.specs.{IfOk, IfErr, IsOk, SwapsWord, IsWordExchange, IsWordFor};
ghost use Rattle.g1_handles.specs.{CanStoreWord, MayHave, LacksWordPlace, SaysNoWordStore};
ghost use Rattle.g1_handles.specs.{SaysBadWord, IsMadeByRacer, slot_count, StoresData, SaysNoData};
ghost use Rattle.g1_handles.specs.{race_layout};

use crate::code::Reason;
use crate::party::Party;
use g1_layout::{Kind, Layout, Slot};
use g1_race::{Race, Racer};

/// Stores a word into a slot by a racer: null, a reference or data. Returns the kind of the store
/// and the word that it overwrote, or `NotOpen`, `NoSlot`, `BadWord` for a word that no slot may
/// have, or `LogFull` for a reference that crosses regions: nothing has changed.
#[inline(always)]
pub fn swap_word_by(party: &mut Party<Racer>, slot: u32, word: u64) -> Result<(Kind, u64), Reason>
    ensures { IsMadeByRacer party.old result party.new (λ a swapped b.
        CanStoreWord a.race a.racer slot word × SwapsWord a slot word swapped.1 swapped.0 b)
        (λ a. SaysNoWordStore a.race a.racer slot word) }
{
    let Some(racer) = &mut party.role else {
        return Err(Reason::NotOpen);
    };
    let slot = slot_of(&party.race, slot, word)?;
    if !racer.has_room_for_word(&party.race, slot, word) {
        return Err(Reason::LogFull);
    }
    let (kind, old) = racer.swap_word(&party.race, slot, word);
    party.counts.add_store(kind);
    Ok((kind, old))
}

/// Stores a word into a slot by a racer, if the slot has the word that is expected. Returns the
/// kind of the store, or the word that the slot has: nothing was stored.
///
/// Returns `NotOpen`, `NoSlot`, `BadWord` for a word that no slot may have, or `LogFull` for a new
/// word that crosses regions, if the call was refused: nothing has changed.
#[inline(always)]
pub fn compare_exchange_word_by(
    party: &mut Party<Racer>,
    slot: u32,
    expected: u64,
    word: u64,
) -> Result<Result<Kind, u64>, Reason>
    ensures { IsMadeByRacer party.old result party.new (λ a exchange b.
        CanStoreWord a.race a.racer slot word × MayHave a.race expected
        × IsWordExchange a slot expected word exchange b)
        (λ a r. SaysNoWordStore a.race a.racer slot word r ⊎ SaysBadWord a.race expected r) }
{
    let Some(racer) = &mut party.role else {
        return Err(Reason::NotOpen);
    };
    let slot = slot_of(&party.race, slot, word)?;
    if !party.race.is_word(expected) {
        return Err(Reason::BadWord);
    }
    if !racer.has_room_for_word(&party.race, slot, word) {
        return Err(Reason::LogFull);
    }
    match racer.compare_exchange_word(&party.race, slot, expected, word) {
        Ok(kind) => {
            party.counts.add_store(kind);
            Ok(Ok(kind))
        }
        Err(found) => Ok(Err(found)),
    }
}

/// Returns the slot of this number, or `NoSlot`, or `BadWord` for a word that no slot may have.
#[inline(always)]
fn slot_of(race: &Race, slot: u32, word: u64) -> Result<Slot, Reason>
    ensures slot { IfOk result (λ found. found ≡ slot) }
    ensures fits { IsOk result → IsWordFor race.now slot word }
    ensures why { IfErr result (LacksWordPlace race.now slot word) }
{
    let Some(slot) = race.layout().slot(slot) else {
        return Err(Reason::NoSlot);
    };
    if !race.is_word(word) {
        return Err(Reason::BadWord);
    }
    Ok(slot)
}

/// The least word that is data.
pub const DATA: u64 = 4_294_967_296;

/// Stores data into a slot by a racer: a word from 2^32 on, which refers to nothing. Returns the
/// slot's word before, or `NotOpen`, `NoSlot`, or `BadWord` for a lower word: nothing has changed.
#[inline(always)]
pub fn store_data_by(party: &mut Party<Racer>, slot: u32, word: u64) -> Result<u64, Reason>
    ensures { IsMadeByRacer party.old result party.new (λ a old b. StoresData a slot word old b)
        (λ a. SaysNoData (race_layout a.race) slot word) }
{
    let Some(racer) = &mut party.role else {
        return Err(Reason::NotOpen);
    };
    let slot = data_slot(party.race.layout(), slot, word)?;
    let old = racer.store_data(&party.race, slot, word);
    party.counts.add_store(Kind::Null);
    Ok(old)
}

/// Returns the slot of a store of data, or `NoSlot`, or `BadWord` for a word that is no data.
#[inline(always)]
pub(crate) fn data_slot(layout: Layout, slot: u32, word: u64) -> Result<Slot, Reason>
    ensures slot { IfOk result (λ found. found ≡ slot) }
    ensures data { IsOk result → (slot < slot_count layout) × (2 ^ 32 ≤ word) }
    ensures why { IfErr result (SaysNoData layout slot word) }
{
    let Some(slot) = layout.slot(slot) else {
        return Err(Reason::NoSlot);
    };
    if word < DATA {
        return Err(Reason::BadWord);
    }
    Ok(slot)
}
