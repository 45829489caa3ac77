//! The remembered set of a region, as it is recorded.
ghost use Rattle.std.specs.Prelude.{◌≤◌};
ghost use Rattle.g1_handles.specs.Prelude.{length, IfOk, IfErr, TellsMembers};
ghost use Rattle.g1_handles.specs.Queries.{Lists, IsListOf};
ghost use Rattle.g1_handles.specs.Refusals.{AreMembersRefused};

use crate::code::Reason;
use g1_core::{CardList, Core};

/// What C gets of the list of members.
#[derive(Drop)]
pub enum Listed {
    /// The members.
    Members(CardList),
    /// The array is too small. There are this many members.
    NoRoom(u32),
}

/// Returns the remembered set of a region as it is recorded in a core, or how many cards it has if
/// the caller's array, whose length is `room`, is shorter. Returns `NoRegion` or `NoMemory` if the
/// call was refused.
pub fn members_in(core: &Core, region: u32, room: usize) -> Result<Listed, Reason>
    ensures listed { IfOk result (Lists (TellsMembers core.now.state.table region) room) }
    ensures why { IfErr result (AreMembersRefused core.now.state.table.layout region) }
{
    let layout = core.layout();
    let region = layout.region(region).ok_or(Reason::NoRegion)?;
    let Ok(members) = core.members(region) else {
        return Err(Reason::NoMemory);
    };
    Ok(list_of(members, room))
}

/// The cards, or how many they are if an array of this length has no room for them.
pub(crate) fn list_of(cards: CardList, room: usize) -> Listed
    requires { length cards ≤ 16777216 }
    ensures { IsListOf cards room result }
{
    if cards.len() <= room {
        Listed::Members(cards)
    } else {
        Listed::NoRoom(cards.len() as u32)
    }
}
