//! How callers begin: with a queue of completed buffers, an empty log for each mutator, and their
//! ends of the queue.
ghost use Rattle.std.specs.Prelude.{◌≡◌, ◌≤◌};
ghost use Rattle.g1_steps.specs.{vec_len, vec_capacity, IfOk, All, capacity_of, AreNewSenders};
ghost use Rattle.g1_steps.specs.{IsNewTaker, AreNewMutators, AreAll, map};

use crate::steps::Mutator;
use g1_core::Config;
use g1_layout::NoMemory;
use g1_log::{Line, Sender, Taker};
use std::alloc::Global;

/// Returns a queue of completed buffers for a core or a book with these settings, its mutators, and
/// its takers (docs/rules.md, The steps of a caller).
///
/// There are 1 to 8 mutators and 1 to 12 takers. The queue holds as many buffers as the settings'
/// limit. Mutator `k` has an empty log of the settings' size and sender `k`. These senders and
/// takers are all of the queue's. Returns `NoMemory` if a growth was refused. No other step takes
/// memory for queue or logs.
pub fn open_line(
    alloc: Global,
    config: Config,
    mutators: u32,
    takers: u32,
) -> Result<(Line, Vec<Mutator>, Vec<Taker>), NoMemory>
    requires mutators { (1 ≤ mutators) × (mutators ≤ 8) }
    requires takers { (1 ≤ takers) × (takers ≤ 12) }
    ensures capacity { IfOk result (λ made. capacity_of made.0 ≡ config.limit) }
    ensures mutators { IfOk result (λ made.
        (vec_len made.1 ≡ mutators) × AreNewMutators made.0 config.log 0 made.1.items) }
    ensures takers { IfOk result (λ made.
        (vec_len made.2 ≡ takers) × All (IsNewTaker made.0) made.2.items) }
    ensures all { IfOk result (λ made. AreAll (map (λ m. m.sender) made.1.items) made.2.items) }
{
    let room = Vec::with_capacity(alloc, mutators as usize)?;
    let (line, senders, takers) = Line::new(alloc, config.limit(), mutators, takers)?;
    let mutators = mutators_of(&line, &config, senders, room);
    Ok((line, mutators, takers))
}

/// A mutator with an empty log for each sender.
#[tactic(auto, using(crate::proofs::OpeningLemmas::mutators_more, crate::proofs::started_more))]
fn mutators_of(
    line: &Line,
    config: &Config,
    senders: Vec<Sender>,
    room: Vec<Mutator>,
) -> Vec<Mutator>
    requires senders { AreNewSenders line.now 0 senders.items }
    requires empty { vec_len room ≡ 0 }
    requires room { vec_len senders ≤ vec_capacity room }
    ensures many { vec_len result ≡ vec_len senders }
    ensures new { AreNewMutators line.now config.now.log 0 result.items }
    ensures senders { map (λ m. m.sender) result.items ≡ senders.items }
{
    let _line = line;
    let mut mutators = room;
    for sender in senders {
        let log = config.new_log();
        mutators.push_reserved(Mutator::new(log, sender));
    }
    mutators
}
