//! Stores of words and of data in a race: a slot may hold null, a reference or data.
ghost use Rattle.std.specs.Prelude.{◌≡◌, ◌⊎◌, ◌<◌};
ghost use Rattle.g1_c.specs.{OnRacer, StoresAs, CanStoreWord, SwapsWord, SaysNoWordStore};
ghost use Rattle.g1_c.specs.{ComparesAndSwaps, MayHave, OfKind, FindsOtherWord, SaysBadWord};
ghost use Rattle.g1_c.specs.{StoresData, SaysNoData, race_layout};

use crate::calling::on_racer;
use g1_handles::code::{DIFFERS, DONE, kind_word};
use g1_handles::handles::RacerHandle;
use g1_handles::party::words::{compare_exchange_word_by, store_data_by, swap_word_by};

/// As in `g1.h`.
#[unsafe(no_mangle)]
pub extern "C" fn g1_race_swap_word(
    racer: &mut RacerHandle,
    slot: u32,
    word: u64,
    old: &mut u64,
    kind: &mut u32,
) -> u32
    ensures { OnRacer 0 result racer.old racer.new ((old.new ≡ 0) × (kind.new ≡ 0)) (λ a b. StoresAs
        kind.new (CanStoreWord a.race a.racer slot word) (λ k. SwapsWord a slot word old.new k b))
        (λ a. SaysNoWordStore a.race a.racer slot word) }
{
    match on_racer!(racer, swap_word_by(slot, word)) {
        Err(refusal) => {
            *old = 0;
            *kind = 0;
            refusal.word()
        }
        Ok((stored, found)) => {
            *old = found;
            *kind = kind_word(stored);
            DONE
        }
    }
}

/// As in `g1.h`.
#[unsafe(no_mangle)]
pub extern "C" fn g1_race_compare_exchange_word(
    racer: &mut RacerHandle,
    slot: u32,
    expected: u64,
    word: u64,
    found: &mut u64,
    kind: &mut u32,
) -> u32
    ensures exchanged { OnRacer 2 result racer.old racer.new (found.new ≡ 0) (λ a b.
        ComparesAndSwaps result (CanStoreWord a.race a.racer slot word × MayHave a.race expected)
        ((found.new ≡ expected) × OfKind kind.new (λ k. SwapsWord a slot word expected k b))
        (FindsOtherWord a slot expected found.new b)) (λ a r. SaysNoWordStore a.race a.racer slot
        word r ⊎ SaysBadWord a.race expected r) }
    ensures none { 0 < result → kind.new ≡ 0 }
{
    *kind = 0;
    match on_racer!(racer, compare_exchange_word_by(slot, expected, word)) {
        Err(refusal) => {
            *found = 0;
            refusal.word()
        }
        Ok(Err(other)) => {
            *found = other;
            DIFFERS
        }
        Ok(Ok(stored)) => {
            *found = expected;
            *kind = kind_word(stored);
            DONE
        }
    }
}

/// As in `g1.h`.
#[unsafe(no_mangle)]
pub extern "C" fn g1_race_store_data(
    racer: &mut RacerHandle,
    slot: u32,
    word: u64,
    old: &mut u64,
) -> u32
    ensures { OnRacer 0 result racer.old racer.new (old.new ≡ 0) (λ a b. StoresData a slot word
        old.new b) (λ a. SaysNoData (race_layout a.race) slot word) }
{
    match on_racer!(racer, store_data_by(slot, word)) {
        Err(refusal) => {
            *old = 0;
            refusal.word()
        }
        Ok(found) => {
            *old = found;
            DONE
        }
    }
}
