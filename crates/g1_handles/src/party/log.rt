//! The log of a racer.
ghost use Rattle.std.specs.Prelude.{◌≡◌, ◌⊎◌, ◌<◌};
ghost use Rattle.g1_handles.specs.{IfOk, IfErr, OnErr, length};
ghost use Rattle.g1_handles.specs.{take, IsWritten, OfRacer, TakesLog, SaysNoParty};

use crate::any_handle::AnyHandle;
use crate::code::Reason;
use crate::handles::RacerHandle;
use crate::list::write_list;

/// How many cards a racer's log has room for.
pub const LOG: usize = 256;

/// Takes the log of the racer of a handle, which goes on with an empty one. Writes the cards to the
/// front of an array, oldest first, and returns how many they are.
///
/// Returns `NotOpen`, or `NoRoom` if the array has less room than a log: nothing has changed.
pub fn take_log(handle: &mut RacerHandle, cards: &mut [u32]) -> Result<u32, Reason>
    ensures log { IfOk result (λ count. OfRacer handle.old.value (λ a.
        OfRacer handle.new.value (λ b. TakesLog a (take count cards.new) b))) }
    ensures why { IfErr result (λ refusal. SaysNoParty handle.old.value refusal
        ⊎ ((refusal ≡ Reason.NoRoom) × (length cards.old < 256))) }
    ensures refused { OnErr result ((handle.new.value ≡ handle.old.value)
        × (cards.new ≡ cards.old)) }
    ensures written { IfOk result (λ count. IsWritten cards.old count cards.new) }
{
    if cards.len() < LOG {
        return Err(Reason::NoRoom);
    }
    let party = handle.value_mut().ok_or(Reason::NotOpen)?;
    match &mut party.role {
        Some(racer) => Ok(write_list(racer.take_log().as_slice(), cards)),
        None => Err(Reason::NotOpen),
    }
}
