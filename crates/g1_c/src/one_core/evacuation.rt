//! The clear and the redirect, which may follow an evacuation.
ghost use Rattle.std.specs.Prelude.{◌≡◌, ◌<◌};
ghost use Rattle.g1_c.specs.{IsCleared, called, Between, ClearsTo, IsCallRefused, LacksRegion};
ghost use Rattle.g1_c.specs.{AreOnlyRead, OnCore, RedirectsTo, redirected_of, take};
ghost use Rattle.g1_c.specs.{IsRedirectRefused, length, IsWritten};

use crate::calling::on_core;
use crate::tell::tell_reply;
use g1_core::{ClearReply, Redirected};
use g1_handles::code::{DONE, SHORT};
use g1_handles::handles::Handle;
use g1_handles::list::write_list;
use g1_handles::one_core::evacuation::{clear_in, redirect_in};

/// As in `g1.h`.
///
/// A refused clear may have raised the core's count of reads.
#[unsafe(no_mangle)]
pub extern "C" fn g1_clear(handle: &mut Handle, region: u32, detail: &mut u32) -> u32
    ensures cleared { IsCleared (called result handle.old.value handle.new.value) detail.new (λ
        reply. Between handle.old.value handle.new.value (λ old new. ClearsTo old region reply new))
        (IsCallRefused handle.old.value (λ old. LacksRegion old.state.table.layout region)) }
    ensures refused { 0 < result → AreOnlyRead handle.old.value handle.new.value }
{
    tell_reply!(on_core!(handle, clear_in(region)), detail)
}

/// As in `g1.h`.
#[unsafe(no_mangle)]
pub extern "C" fn g1_redirect(
    handle: &mut Handle,
    from: u32,
    to: u32,
    moved: &mut u32,
    refined: &mut [u32],
    refined_count: &mut u32,
) -> u32
    ensures redirected { OnCore 1 result handle.old handle.new (refined_count.new ≡ 0) (λ old new.
        RedirectsTo old from to (redirected_of result moved.new (take refined_count.new
        refined.new)) new) (λ old. IsRedirectRefused old.state.table.layout from to (length
        refined.old)) }
    ensures none { 0 < result → moved.new ≡ 0 }
    ensures written { IsWritten refined.old refined_count.new refined.new }
{
    *moved = 0;
    *refined_count = 0;
    let room = refined.len();
    match on_core!(handle, redirect_in(from, to, room)) {
        Err(refusal) => refusal.word(),
        Ok(Redirected::Short { refined: list }) => {
            *refined_count = write_list(list.as_slice(), refined);
            SHORT
        }
        Ok(
            Redirected::Moved {
                slots,
                refined: list,
            },
        ) => {
            *moved = slots;
            *refined_count = write_list(list.as_slice(), refined);
            DONE
        }
    }
}
