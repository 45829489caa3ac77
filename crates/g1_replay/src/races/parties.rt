//! The parties of a race: each racer with an end of the queue into which it puts its logs, each
//! sweeper with one from which it takes them.
ghost use Rattle.std.specs.Prelude.{◌≡◌, ◌+◌, ◌++◌, ◌∷◌};
ghost use Rattle.g1_replay.specs.Prelude.{List, [], All, IfOk, OnOk, sum_by, vec_len};
ghost use Rattle.g1_replay.specs.Prelude.{sender_rights, taker_rights, IsSenderOf, IsTakerOf};
ghost use Rattle.g1_replay.specs.Prelude.{null_of, race_shape, AreFreshRacers, AreFreshSweepers};
ghost use Rattle.g1_replay.specs.Prelude.{HaveBegun};
ghost use Rattle.g1_replay.specs.Parties.{party_rights};
ghost use Rattle.g1_replay.specs.RaceJobs.{AllFrom, HasBack, IsNewParty};
ghost use Rattle.g1_replay.specs.declared.races.desk.Party.{Party};

use crate::races::desk::Party;
use g1_layout::NoMemory;
use g1_log::{Line, Sender, Taker};
use g1_race::{Race, Racer, Sweeper};
use std::alloc::Global;

/// The parties of a race that has not begun, the racers first.
///
/// Returns `NoMemory` if a growth of the list was refused.
pub(crate) fn parties_of(
    alloc: Global,
    race: &Race,
    line: &Line,
    racing_ends: (Vec<Racer>, Vec<Sender>),
    sweeping_ends: (Vec<Sweeper>, Vec<Taker>),
) -> Result<Vec<Party>, NoMemory>
    requires racers { AreFreshRacers race.now (vec_len racing_ends.0) racing_ends.0 }
    requires senders { (vec_len racing_ends.1 ≡ vec_len racing_ends.0)
        × All (IsSenderOf line.now) racing_ends.1.items }
    requires sweepers { AreFreshSweepers race.now (vec_len sweeping_ends.0) sweeping_ends.0 }
    requires begun { HaveBegun (null_of (race_shape race.now)) racing_ends.0 sweeping_ends.0 }
    requires takers { (vec_len sweeping_ends.1 ≡ vec_len sweeping_ends.0)
        × All (IsTakerOf line.now) sweeping_ends.1.items }
    ensures new { IfOk result (λ parties.
        AllFrom (IsNewParty race.now line.now (vec_len racing_ends.0)) 0 parties.items) }
    ensures len { IfOk result (λ parties.
        vec_len parties ≡ vec_len racing_ends.0 + vec_len sweeping_ends.0) }
    ensures rights { IfOk result (λ parties.
        sum_by party_rights parties.items
        ≡ sum_by sender_rights racing_ends.1.items + sum_by taker_rights sweeping_ends.1.items) }
{
    let (racers, mut senders) = racing_ends;
    let (sweepers, mut takers) = sweeping_ends;
    let mut parties = Vec::new(alloc);
    for racer in racers {
        parties.push(Party::Racing(racer, senders.take_last()))?;
    }
    for sweeper in sweepers {
        parties.push(Party::Sweeping(sweeper, takers.take_last()))?;
    }
    Ok(parties)
}

/// The parties of a race that has been run, each kind in a list of its own, as are the ends of the
/// queue.
#[derive(Drop)]
pub(crate) struct Returned {
    pub racers: Vec<Racer>,
    pub senders: Vec<Sender>,
    pub sweepers: Vec<Sweeper>,
    pub takers: Vec<Taker>,
}

impl Returned {
    /// No party is back yet.
    pub(crate) fn new(alloc: Global) -> Returned
        ensures { HasBack [] result }
    {
        Returned {
            racers: Vec::new(alloc),
            senders: Vec::new(alloc),
            sweepers: Vec::new(alloc),
            takers: Vec::new(alloc),
        }
    }

    /// Puts a party and its end of the queue into their lists.
    ///
    /// Returns `NoMemory` if a growth of a list was refused: the party is given up.
    pub(crate) fn place(&mut self, party: Party) -> Result<(), NoMemory>
        ensures { OnOk result ((parties : List Party) → HasBack parties self.old
            → HasBack (parties ++ party ∷ []) self.new) }
    {
        match party {
            Party::Racing(racer, sender) => {
                self.racers.push(racer)?;
                self.senders.push(sender)?;
            }
            Party::Sweeping(sweeper, taker) => {
                self.sweepers.push(sweeper)?;
                self.takers.push(taker)?;
            }
        }
        Ok(())
    }
}
