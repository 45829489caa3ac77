//! Several stores by one call.
ghost use Rattle.std.specs.Prelude.{◌≡◌};
ghost use Rattle.g1_c.specs.{OnCore, StoresSeveral, AreStored, take, length, IsFaultAt};
ghost use Rattle.g1_c.specs.{AreStoresRefused, IsWritten};

use crate::calling::on_core;
use g1_handles::code::{DONE, STOPPED};
use g1_handles::handles::Handle;
use g1_handles::list::write_list;
use g1_handles::one_core::batch::{Store, store_all_in};

/// What several stores counted.
#[repr(C)]
#[derive(Clone, Copy, Debug)]
pub struct Batch {
    /// How many stores were made.
    pub stored: u32,
    /// How many of them were logged.
    pub logged: u32,
}

/// As in `g1.h`.
#[unsafe(no_mangle)]
pub extern "C" fn g1_store_all(
    handle: &mut Handle,
    stores: &[Store],
    cards: &mut [u32],
    batch: &mut Batch,
) -> u32
    ensures stored { OnCore 3 result handle.old handle.new ((batch.new.stored ≡ 0) ×
        (batch.new.logged ≡ 0)) (λ old new. StoresSeveral result (AreStored old (take
        batch.new.stored stores.now) (take batch.new.logged cards.new) new) (batch.new.stored ≡
        length stores.now) (IsFaultAt old.state.table.layout stores.now batch.new.stored) ⊥) (λ old.
        AreStoresRefused (length stores.now) (length cards.old)) }
    ensures written { IsWritten cards.old batch.new.logged cards.new }
{
    *batch = Batch {
        stored: 0,
        logged: 0,
    };
    let room = cards.len();
    match on_core!(handle, store_all_in(stores, room)) {
        Err(refusal) => refusal.word(),
        Ok(stored) => {
            *batch = Batch {
                stored: stored.count as u32,
                logged: write_list(stored.cards.as_slice(), cards),
            };
            if stored.is_whole { DONE } else { STOPPED }
        }
    }
}
