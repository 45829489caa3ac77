//! Lock-free stores in a race.
ghost use Rattle.std.specs.Prelude.{◌≡◌};
ghost use Rattle.g1_c.specs.{OnRacer, StoresAs, CanStore, Stores, reference_of, SaysNoStore};

use crate::calling::on_racer;
use crate::tell::tell_kind;
use g1_handles::handles::RacerHandle;
use g1_handles::party::store::store_by;

/// As in `g1.h`.
#[unsafe(no_mangle)]
pub extern "C" fn g1_race_store(
    racer: &mut RacerHandle,
    slot: u32,
    target: u32,
    kind: &mut u32,
) -> u32
    ensures { OnRacer 0 result racer.old racer.new (kind.new ≡ 0) (λ a b. StoresAs kind.new
        (CanStore a.race a.racer slot target) (λ k. Stores a slot (reference_of target) k b)) (λ a.
        SaysNoStore a.race a.racer slot target) }
{
    tell_kind!(on_racer!(racer, store_by(slot, target)), kind)
}
