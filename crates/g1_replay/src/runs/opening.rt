//! How a machinery is opened by the options of a replay.
ghost use Rattle.g1_replay.specs.{IfOk, IsNewMachinery};

use crate::runs::machinery::Machinery;
use g1_history::Book;
use g1_layout::{Layout, NoMemory};
use g1_options::Options;
use g1_steps::open_line;
use std::alloc::Global;

/// An empty heap, history and queue of completed buffers, and an empty log for each mutator.
///
/// Returns `NoMemory` if a growth for heap, queue or callers was refused.
#[tactic(auto, using(crate::proofs::PlayedLemmas::are_senders))]
pub(crate) fn open_machinery(
    alloc: Global,
    layout: Layout,
    options: &Options,
) -> Result<Machinery, NoMemory>
    ensures { IfOk result (IsNewMachinery layout options.now) }
{
    let callers = options.mutators;
    let (line, mutators, takers) = open_line(alloc, options.config, callers, callers)?;
    let book = Book::open(
        alloc,
        layout,
        options.config,
        callers,
        options.history as usize,
    )?;
    Ok(Machinery {
        book,
        line,
        mutators,
        takers,
    })
}
