//! The scripts of a trace: what each mutator of a crew or a race is to do, kept as the trace is
//! read, and why a job was refused.
ghost use Rattle.std.specs.Prelude.{◌≡◌, ◌<◌, ◌+◌, ◌^◌, ◌++◌};
ghost use Rattle.g1_replay.specs.Prelude.{ℕ, [], drop, All, IfOk, OnOk, OnErr, vec_len, sum_by};
ghost use Rattle.g1_replay.specs.Scripts.{IsScriptAt, asked_in, calls_in, keeping, refusal_in};
ghost use Rattle.g1_replay.specs.Scripts.{stores_in};
ghost use Rattle.g1_steps.specs.declared.crew.desk.Step.{Step};

use crate::lines::player::Player;
use crate::stop::Stop;
use g1_history::Refusal;
use g1_layout::{Layout, NoMemory};
use g1_steps::{Outcome, Script, Step};
use g1_trace::{Command, Dialect};
use std::alloc::Global;
use std::io::Write;
use std::sync::Wait;

/// For each mutator the calls that were read so far. None of them is made.
#[derive(Drop)]
pub(crate) struct Scripts {
    pub steps: Vec<Vec<Step>>,
}

impl Scripts {
    /// No calls yet.
    pub(crate) fn new(alloc: Global, mutators: u32) -> Result<Scripts, NoMemory>
        ensures len { IfOk result (λ scripts. vec_len scripts.steps ≡ mutators) }
        ensures none { IfOk result (λ scripts.
            All (λ steps. steps.items ≡ []) scripts.steps.items) }
    {
        let mut steps = Vec::with_capacity(alloc, mutators as usize)?;
        'scripts: while steps.len() < mutators as usize {
            steps.push_reserved(Vec::new(alloc));
        }
        Ok(Scripts { steps })
    }
}

impl Player for Scripts {
    ghost plays = { keeping };

    /// Keeps the call behind those of its mutator.
    fn play<T: Wait, W: Write>(
        &mut self,
        _rt: &T,
        _layout: Layout,
        _dialect: Dialect,
        command: Command,
        _output: &mut W,
    ) -> Result<(), Stop> {
        let Some((by, _step)) = asked(command) else {
            return Ok(());
        };
        append(&mut self.steps[by as usize], &command)?;
        Ok(())
    }
}

// The call that a command asks of a mutator, and of which one.
fn asked(command: Command) -> Option<(u32, Step)>
    ensures { result ≡ asked_in command }
{
    match command {
        Command::Store {
            mutator,
            slot,
            target,
        } => Some((mutator, Step::Store(slot, target))),
        Command::Flush { mutator } => Some((mutator, Step::Flush)),
        Command::Refine | Command::Work | Command::Call(_) => None,
    }
}

// How many of the calls are stores.
fn stores_of(script: &[Step]) -> u64
    ensures { result ≡ stores_in script.now }
{
    let mut stores = 0;
    for step in script {
        if let Step::Store(..) = step {
            stores += 1;
        }
    }
    stores
}

/// How many stores the scripts have.
pub(crate) fn count_stores(scripts: &[Vec<Step>]) -> u64
    requires few { sum_by (λ script. stores_in script.items) scripts.now < 2 ^ 64 }
    ensures { result ≡ sum_by (λ script. stores_in script.items) scripts.now }
{
    let mut stores: u64 = 0;
    for script in scripts {
        stores += stores_of(script);
    }
    stores
}

/// The next script: the calls of a mutator, or rounds if none is left.
pub(crate) fn next_script(scripts: &mut Vec<Vec<Step>>, rounds: u32) -> Script
    ensures { (all : _) (k : ℕ) → scripts.old.items ≡ drop k all
        → IsScriptAt (λ steps. steps.items) rounds all k result
        × (scripts.new.items ≡ drop (k + 1) all) }
{
    if scripts.is_empty() {
        return Script::Refine(rounds);
    }
    Script::Mutate(scripts.remove(0))
}

/// Adds the call that a command asks of a mutator behind these, if it asks for one.
pub(crate) fn append(steps: &mut Vec<Step>, command: &Command) -> Result<(), NoMemory>
    ensures ok { OnOk result (steps.new.items ≡ steps.old.items ++ calls_in command.now) }
    ensures err { OnErr result (steps.new.items ≡ steps.old.items) }
{
    let Some((_, step)) = asked(*command) else {
        return Ok(());
    };
    steps.reserve(1)?;
    steps.push_reserved(step);
    Ok(())
}

/// Why a job was refused, if it was.
pub(crate) fn refusal_of(outcome: Option<Outcome>) -> Option<Refusal>
    ensures { result ≡ refusal_in outcome }
{
    match outcome {
        Some(Err((_, refusal))) => Some(refusal),
        _ => None,
    }
}
