//! Stores.
ghost use Rattle.std.specs.Prelude.{◌≡◌};
ghost use Rattle.g1_c.specs.{OnCore, OfKind, StoresTo, reference_of, LacksPlace};

use crate::calling::on_core;
use crate::tell::tell_kind;
use g1_handles::handles::Handle;
use g1_handles::one_core::store::store_in;

/// As in `g1.h`.
#[unsafe(no_mangle)]
pub extern "C" fn g1_store(handle: &mut Handle, slot: u32, target: u32, kind: &mut u32) -> u32
    ensures { OnCore 0 result handle.old handle.new (kind.new ≡ 0) (λ old new. OfKind kind.new (λ k.
        StoresTo old slot (reference_of target) k new)) (λ old. LacksPlace old.state.table.layout
        slot target) }
{
    tell_kind!(on_core!(handle, store_in(slot, target)), kind)
}
