//! The pause.
ghost use Rattle.std.specs.Prelude.{◌≡◌, ◌<◌};
ghost use Rattle.g1_c.specs.{OnCore, DrainsTo, drained_of, take, IsDrainRefused, length, IsWritten};

use crate::calling::on_core;
use g1_core::Drained;
use g1_handles::code::{DONE, SHORT};
use g1_handles::handles::Handle;
use g1_handles::list::write_list;
use g1_handles::one_core::pause::drain_in;

/// As in `g1.h`.
#[unsafe(no_mangle)]
pub extern "C" fn g1_drain(
    handle: &mut Handle,
    region: u32,
    cards: &mut [u32],
    count: &mut u32,
    refined: &mut [u32],
    refined_count: &mut u32,
) -> u32
    ensures drained { OnCore 1 result handle.old handle.new (refined_count.new ≡ 0)
        (λ old new. DrainsTo old region (drained_of result (take count.new cards.new)
        (take refined_count.new refined.new)) new) (λ old.
        IsDrainRefused old.state.table.layout region (length cards.old) (length refined.old)) }
    ensures none { 0 < result → count.new ≡ 0 }
    ensures cards { IsWritten cards.old count.new cards.new }
    ensures refined { IsWritten refined.old refined_count.new refined.new }
{
    *count = 0;
    *refined_count = 0;
    let room = cards.len();
    let refined_room = refined.len();
    match on_core!(handle, drain_in(region, room, refined_room)) {
        Err(refusal) => refusal.word(),
        Ok(Drained::Short { refined: list }) => {
            *refined_count = write_list(list.as_slice(), refined);
            SHORT
        }
        Ok(
            Drained::Cards {
                cards: members,
                refined: list,
            },
        ) => {
            *count = write_list(members.as_slice(), cards);
            *refined_count = write_list(list.as_slice(), refined);
            DONE
        }
    }
}
