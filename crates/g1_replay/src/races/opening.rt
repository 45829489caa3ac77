//! How a race is opened by the options of a replay.
ghost use Rattle.g1_replay.specs.{IfOk, IsOpenedBy};

use crate::races::desk::Party;
use crate::races::parties::parties_of;
use g1_layout::{Layout, NoMemory};
use g1_log::Line;
use g1_options::Options;
use g1_race::Race;
use std::alloc::Global;

/// A race that has not begun, the queue of its completed buffers, and its parties, the racers
/// first.
#[derive(Drop)]
pub(crate) struct OpenRace {
    pub race: Race,
    pub line: Line,
    pub parties: Vec<Party>,
}

/// Opens a race by the options: a racer for each mutator, a sweeper for each refinement thread, and
/// a queue of as many buffers as the limit says.
///
/// Returns `NoMemory` if a growth was refused.
pub(crate) fn open_race(
    alloc: Global,
    layout: Layout,
    options: &Options,
) -> Result<OpenRace, NoMemory>
    ensures { IfOk result (IsOpenedBy layout options.now) }
{
    let (mutators, refiners) = (options.mutators, options.refiners);
    let (race, racers, sweepers) = Race::open(alloc, layout, mutators, refiners)?;
    let (line, senders, takers) = Line::new(alloc, options.config.limit(), mutators, refiners)?;
    let parties = parties_of(alloc, &race, &line, (racers, senders), (sweepers, takers))?;
    Ok(OpenRace {
        race,
        line,
        parties,
    })
}
