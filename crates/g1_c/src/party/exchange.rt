//! Stores in a race that tell what the slot referred to before, or depend on it.
ghost use Rattle.std.specs.Prelude.{◌≡◌, ◌⊎◌, ◌<◌};
ghost use Rattle.g1_c.specs.{OnRacer, StoresAs, CanStore, Swaps, reference_of, SaysNoStore};
ghost use Rattle.g1_c.specs.{ComparesAndSwaps, IsStoreOf, race_layout, OfKind, Exchanges};
ghost use Rattle.g1_c.specs.{FindsOther, LacksPlace};

use crate::calling::on_racer;
use g1_handles::code::{DIFFERS, DONE, NULL, kind_word};
use g1_handles::handles::RacerHandle;
use g1_handles::party::exchange::{Exchange, compare_exchange_by, swap_by};

/// As in `g1.h`.
#[unsafe(no_mangle)]
pub extern "C" fn g1_race_swap(
    racer: &mut RacerHandle,
    slot: u32,
    target: u32,
    old: &mut u32,
    kind: &mut u32,
) -> u32
    ensures { OnRacer 0 result racer.old racer.new ((old.new ≡ 4294967295) × (kind.new ≡ 0)) (λ a b.
        StoresAs kind.new (CanStore a.race a.racer slot target) (λ k. Swaps a slot (reference_of
        target) (reference_of old.new) k b)) (λ a. SaysNoStore a.race a.racer slot target) }
{
    match on_racer!(racer, swap_by(slot, target)) {
        Err(refusal) => {
            *old = NULL;
            *kind = 0;
            refusal.word()
        }
        Ok(swapped) => {
            *old = swapped.old;
            *kind = kind_word(swapped.kind);
            DONE
        }
    }
}

/// As in `g1.h`.
#[unsafe(no_mangle)]
pub extern "C" fn g1_race_compare_exchange(
    racer: &mut RacerHandle,
    slot: u32,
    expected: u32,
    target: u32,
    found: &mut u32,
    kind: &mut u32,
) -> u32
    ensures exchanged { OnRacer 2 result racer.old racer.new (found.new ≡ 4294967295) (λ a b.
        ComparesAndSwaps result (IsStoreOf (race_layout a.race) slot expected × CanStore a.race
        a.racer slot target) ((found.new ≡ expected) × OfKind kind.new (λ k. Exchanges a slot
        (reference_of expected) (reference_of target) k b)) (FindsOther a slot (reference_of
        expected) (reference_of found.new) b)) (λ a r. SaysNoStore a.race a.racer slot target r ⊎
        LacksPlace (race_layout a.race) slot expected r) }
    ensures none { 0 < result → kind.new ≡ 0 }
{
    *kind = 0;
    match on_racer!(racer, compare_exchange_by(slot, expected, target)) {
        Err(refusal) => {
            *found = NULL;
            refusal.word()
        }
        Ok(Exchange::Differs(other)) => {
            *found = other;
            DIFFERS
        }
        Ok(Exchange::Stored(stored)) => {
            *found = expected;
            *kind = kind_word(stored);
            DONE
        }
    }
}
