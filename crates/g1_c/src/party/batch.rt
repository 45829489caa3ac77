//! Several stores, or a row of words, in a race by one call.
ghost use Rattle.std.specs.Prelude.{◌≡◌, ◌≢◌};
ghost use Rattle.g1_c.specs.{OnRacer, StoresSeveral, StoresAll, take, length, IsFaultAt};
ghost use Rattle.g1_c.specs.{race_layout, IsFullAt, StoresRow, LacksRow};

use crate::calling::on_racer;
use g1_handles::code::{DONE, FULL, STOPPED};
use g1_handles::handles::RacerHandle;
use g1_handles::one_core::batch::Store;
use g1_handles::party::batch::{BatchEnd, store_all_by, store_words_by};

/// As in `g1.h`.
#[unsafe(no_mangle)]
pub extern "C" fn g1_race_store_all(
    racer: &mut RacerHandle,
    stores: &[Store],
    stored: &mut usize,
) -> u32
    ensures { OnRacer 4 result racer.old racer.new (stored.new ≡ 0) (λ a b. StoresSeveral result
        (StoresAll a (take stored.new stores.now) b) (stored.new ≡ length stores.now) (IsFaultAt
        (race_layout a.race) stores.now stored.new) (IsFullAt a.race stores.now stored.new b.racer))
        (λ a r. ⊥) }
{
    match on_racer!(racer, store_all_by(stores)) {
        Err(refusal) => {
            *stored = 0;
            refusal.word()
        }
        Ok(answer) => {
            *stored = answer.count;
            match answer.end {
                BatchEnd::Whole => DONE,
                BatchEnd::Stopped => STOPPED,
                BatchEnd::Full => FULL,
            }
        }
    }
}

/// As in `g1.h`.
#[unsafe(no_mangle)]
pub extern "C" fn g1_race_store_words(
    racer: &mut RacerHandle,
    slot: u32,
    words: &[u64],
    stored: &mut usize,
) -> u32
    ensures { OnRacer 4 result racer.old racer.new (stored.new ≡ 0) (λ a b. StoresSeveral result
        (StoresRow a slot words.now stored.new b) (stored.new ≡ length words.now) ⊥ (stored.new ≢
        length words.now)) (λ a. LacksRow (race_layout a.race) slot words.now) }
{
    match on_racer!(racer, store_words_by(slot, words)) {
        Err(refusal) => {
            *stored = 0;
            refusal.word()
        }
        Ok(count) => {
            *stored = count;
            if count == words.len() { DONE } else { FULL }
        }
    }
}
