//! A range of slots of a core is copied to another one.
ghost use Rattle.g1_c.specs.{OnCore, CopiesWithin, slot_count, DoesCopy, LacksRanges};

use crate::calling::on_core;
use crate::tell::answer_word;
use g1_handles::handles::Handle;
use g1_handles::one_core::copy::copy_in;

/// As in `g1.h`.
#[unsafe(no_mangle)]
pub extern "C" fn g1_copy(handle: &mut Handle, from: u32, to: u32, count: u32) -> u32
    ensures { OnCore 0 result handle.old handle.new (Unit {0}) (λ old new. CopiesWithin (slot_count
        old.state.table.layout) from to count (DoesCopy from to count old new)) (λ old. LacksRanges
        old.state.table.layout from count to count) }
{
    answer_word(on_core!(handle, copy_in(from, to, count)))
}
