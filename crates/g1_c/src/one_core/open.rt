//! Opening and closing a handle.
ghost use Rattle.std.specs.Prelude.{◌≡◌};
ghost use Rattle.g1_c.specs.{IsMadeOrRefused, called, Opens, Some, new_machine, layout_of};
ghost use Rattle.g1_c.specs.{settings_of, IsOpenRefused, Closes, IsSome, SaysNotOpen};

use crate::tell::answer_word;
use core::mem::replace_with;
use g1_handles::handles::Handle;
use g1_handles::one_core::open::{Counts, close_core, open_core};
use std::alloc::Global;

/// As in `g1.h`.
#[unsafe(no_mangle)]
pub extern "C" fn g1_open(
    alloc: Global,
    handle: &mut Handle,
    counts: &Counts,
    hot: u32,
    ring: u32,
) -> u32
    ensures { IsMadeOrRefused 0 (called result handle.old.value handle.new.value) (Unit {0})
        (Opens handle.old.value (handle.new.value
        ≡ Some (new_machine (layout_of counts.now) (settings_of hot ring))))
        (IsOpenRefused handle.old.value (layout_of counts.now) (settings_of hot ring)) }
{
    answer_word(open_core(alloc, handle, counts, hot, ring))
}

/// As in `g1.h`.
#[unsafe(no_mangle)]
pub extern "C" fn g1_close(alloc: Global, handle: &mut Handle) -> u32
    ensures { IsMadeOrRefused 0 (called result handle.old.value handle.new.value) (Unit {0})
        (Closes (IsSome handle.old.value) handle.new.value) (SaysNotOpen handle.old.value) }
{
    replace_with(handle, alloc, close_core)
}
