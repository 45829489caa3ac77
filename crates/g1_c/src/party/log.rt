//! The log of a racer.
ghost use Rattle.std.specs.Prelude.{◌≡◌, ◌⊎◌, ◌<◌};
ghost use Rattle.g1_c.specs.{IsMadeOrRefused, called, OfRacer, TakesLog, take, SaysNoParty};
ghost use Rattle.g1_c.specs.{length, IsWritten};

use crate::tell::tell;
use g1_handles::code::Reason;
use g1_handles::handles::RacerHandle;
use g1_handles::party::log::take_log;

/// As in `g1.h`.
#[unsafe(no_mangle)]
pub extern "C" fn g1_race_take_log(
    racer: &mut RacerHandle,
    cards: &mut [u32],
    count: &mut u32,
) -> u32
    ensures log { IsMadeOrRefused 0 (called result racer.old.value racer.new.value)
        (count.new ≡ 0) (OfRacer racer.old.value (λ a. OfRacer racer.new.value (λ b.
        TakesLog a (take count.new cards.new) b))) (λ refusal. SaysNoParty racer.old.value refusal
        ⊎ ((refusal ≡ Reason.NoRoom) × (length cards.old < 256))) }
    ensures written { IsWritten cards.old count.new cards.new }
{
    tell(take_log(racer, cards), 0, count)
}
