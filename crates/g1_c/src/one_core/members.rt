//! The remembered set of a region, as it is recorded.
ghost use Rattle.std.specs.Prelude.{◌≡◌, ◌<◌};
ghost use Rattle.g1_c.specs.{IsListed, called, listing, OfOpen, TellsMembers, take, Overflows};
ghost use Rattle.g1_c.specs.{length, IsCallRefused, AreMembersRefused};

use crate::calling::on_core;
use g1_handles::code::{DONE, Reason};
use g1_handles::handles::Handle;
use g1_handles::list::write_list;
use g1_handles::one_core::members::{Listed, members_in};

/// As in `g1.h`.
#[unsafe(no_mangle)]
pub extern "C" fn g1_members(
    handle: &mut Handle,
    region: u32,
    cards: &mut [u32],
    count: &mut u32,
) -> u32
    ensures members { IsListed (called result handle.old.value handle.new.value) (listing cards.old
        cards.new count.new) (OfOpen handle.old.value (λ core. TellsMembers core.state.table region
        (take count.new cards.new))) (OfOpen handle.old.value (λ core. Overflows (TellsMembers
        core.state.table region) (length cards.old) count.new)) (IsCallRefused handle.old.value (λ
        old. AreMembersRefused old.state.table.layout region)) }
    ensures unwritten { 0 < result → cards.new ≡ cards.old }
    ensures same { handle.new.value ≡ handle.old.value }
{
    *count = 0;
    let room = cards.len();
    match on_core!(handle, members_in(region, room)) {
        Err(refusal) => refusal.word(),
        Ok(Listed::NoRoom(needed)) => {
            *count = needed;
            Reason::NoRoom.word()
        }
        Ok(Listed::Members(members)) => {
            *count = write_list(members.as_slice(), cards);
            DONE
        }
    }
}
