//! The jobs of a race, and the table that they leave.
ghost use Rattle.std.specs.Prelude.{◌≡◌, ◌+◌};
ghost use Rattle.g1_replay.specs.{ℕ, List, drop, true, All, IfErr, IfOk, OnOk, None, map, vec_len};
ghost use Rattle.g1_replay.specs.{slot_count, race_layout, ScriptFits, StepFits, Command, is_racer};
ghost use Rattle.g1_replay.specs.{AllFrom, AreScripts, HasBack, IsNewParty, IsScriptAt};
ghost use Rattle.g1_replay.specs.{IsTableLeftBy, IsUnstarted, first_refusal, with_flush};
ghost use Rattle.g1_replay.specs.{IsOpenedBy, capacity_of};

use crate::races::desk::{Party, RaceDesk};
use crate::races::opening::OpenRace;
use crate::races::parties::Returned;
use crate::scripts::{append, next_script, refusal_of};
use crate::stop::Stop;
use g1_layout::NoMemory;
use g1_log::Line;
use g1_options::Options;
use g1_race::{Closed, Race};
use g1_steps::{Job, Script, Step, run_crew};
use g1_trace::Command;
use std::alloc::Global;
use std::sync::Wait;
use std::thread::Threads;

// The next script: the calls of a mutator and one flush, or rounds if none is left.
fn race_script(scripts: &mut Vec<Vec<Step>>, rounds: u32) -> Result<Script, NoMemory>
    ensures { IfOk result (λ script. (all : _) (k : ℕ) → scripts.old.items ≡ drop k all
        → IsScriptAt (with_flush (λ steps. steps.items)) rounds all k script
        × (scripts.new.items ≡ drop (k + 1) all)) }
{
    match next_script(scripts, rounds) {
        Script::Refine(rounds) => Ok(Script::Refine(rounds)),
        Script::Mutate(mut steps) => {
            append(&mut steps, &Command::Flush { mutator: 0 })?;
            Ok(Script::Mutate(steps))
        }
    }
}

// One job for each party, in their order.
fn jobs_of<'a, T>(
    rt: &'a T,
    alloc: Global,
    race: &'a Race,
    line: &'a Line,
    parties: Vec<Party>,
    scripts: Vec<Vec<Step>>,
    options: &Options,
) -> Result<Vec<Job<RaceDesk<'a, T>>>, NoMemory>
    requires parties { AllFrom (IsNewParty race.now line.now options.now.mutators) 0
        parties.items }
    requires many { vec_len parties ≡ options.now.mutators + options.now.refiners }
    requires capacity { capacity_of line.now ≡ options.now.config.limit }
    requires count { vec_len scripts ≡ options.now.mutators }
    requires fits { All (λ steps. All (StepFits (slot_count (race_layout race.now)) true)
        steps.items) scripts.items }
    ensures parties { IfOk result (λ jobs.
        map (λ job. job.desk.party) jobs.items ≡ parties.items) }
    ensures logs { IfOk result (λ jobs.
        All (λ job. job.desk.fill ≡ options.now.config.log) jobs.items) }
    ensures jobs { IfOk result (λ jobs.
        AllFrom (λ k job. IsNewParty race.now line.now options.now.mutators k job.desk.party
        × IsScriptAt (with_flush (λ steps. steps.items)) options.now.rounds scripts.items k
        job.script) 0 jobs.items) }
    ensures fits { IfOk result (λ jobs.
        All (λ job. ScriptFits (slot_count (race_layout job.desk.race.now))
        (is_racer job.desk.party) job.script) jobs.items) }
{
    let mut jobs = Vec::with_capacity(alloc, parties.len())?;
    let mut left = scripts;
    for party in parties {
        let script = race_script(&mut left, options.rounds)?;
        jobs.push_reserved(Job {
            desk: RaceDesk::new(rt, alloc, race, line, options.config.log(), party),
            script,
            outcome: None,
        });
    }
    Ok(jobs)
}

// The parties of the jobs, none of which was refused.
//
// `NoMemory` is returned if one was, or a growth of the lists.
fn returned_by<'a, T>(alloc: Global, jobs: Vec<Job<RaceDesk<'a, T>>>) -> Result<Returned, NoMemory>
    ensures back { IfOk result (HasBack (map (λ job. job.desk.party) jobs.entry.items)) }
    ensures whole { OnOk result (first_refusal (map (λ job. job.outcome) jobs.entry.items) ≡ None) }
{
    let mut returned = Returned::new(alloc);
    for job in jobs {
        let Job { desk, outcome, .. } = job;
        let None = refusal_of(outcome) else {
            return Err(NoMemory);
        };
        returned.place(desk.into_party())?;
    }
    Ok(returned)
}

/// Runs a race that was opened by the options: one job for each mutator, with its script and one
/// flush, and one for each refinement thread. As many cards fill a log as the options say. Returns
/// the closed race.
///
/// Returns `NoMemory` if a growth for jobs or scripts was refused, or a job was, and `NoThread` if
/// a thread could not be started. The race is then given up. All threads have been joined.
pub(crate) fn run_race<T: Threads + Wait + Sync>(
    rt: &T,
    alloc: Global,
    opened: OpenRace,
    scripts: Vec<Vec<Step>>,
    options: &Options,
) -> Result<Closed, Stop>
    requires opened { IsOpenedBy (race_layout opened.race) options.now opened }
    requires count { vec_len scripts ≡ options.now.mutators }
    requires fits { All (λ steps.
        All (StepFits (slot_count (race_layout opened.race)) true) steps.items) scripts.items }
    ensures layout { IfOk result (λ closed. closed.layout ≡ race_layout opened.race) }
    ensures left { IfOk result (λ closed. (commands : List Command)
        → AreScripts (λ steps. steps.items) scripts.items commands
        → IsTableLeftBy options.now.mutators commands closed) }
    ensures stops { IfErr result IsUnstarted }
{
    let OpenRace {
        race,
        line,
        parties,
    } = opened;
    let jobs = jobs_of(rt, alloc, &race, &line, parties, scripts, options)?;
    let done = run_crew(rt, alloc, jobs)?;
    let returned = returned_by(alloc, done)?;
    line.settle(rt, returned.senders, returned.takers);
    Ok(race.close(returned.racers, returned.sweepers))
}
