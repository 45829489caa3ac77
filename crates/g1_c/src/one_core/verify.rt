//! Checks of a core for a debug build.
ghost use Rattle.std.specs.Prelude.{◌≡◌};
ghost use Rattle.g1_c.specs.{OnCore, Checks, LacksRanges, length};

use crate::calling::on_core;
use g1_handles::code::{DONE, NULL};
use g1_handles::handles::Handle;
use g1_handles::one_core::verify::verify_in;

/// As in `g1.h`.
#[unsafe(no_mangle)]
pub extern "C" fn g1_verify(
    handle: &mut Handle,
    first: u32,
    count: u32,
    references: &[u32],
    differing: &mut u32,
    missing: &mut u32,
) -> u32
    ensures { OnCore 0 result handle.old handle.new ((differing.new ≡ 4294967295) × (missing.new ≡
        4294967295)) (λ old new. Checks old first count references.now differing.new missing.new
        new) (λ old. LacksRanges old.state.table.layout first count first (length references.now)) }
{
    match on_core!(handle, verify_in(first, count, references)) {
        Err(refusal) => {
            *differing = NULL;
            *missing = NULL;
            refusal.word()
        }
        Ok(found) => {
            *differing = found.differing;
            *missing = found.missing;
            DONE
        }
    }
}
