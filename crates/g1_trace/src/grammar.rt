//! What a line of a trace asks for: its command.

ghost use Rattle.std.specs.Prelude.{◌≡◌};
ghost use Rattle.g1_trace.specs.{ℕ, [], IfOk, IfSome, words_from, IsShape, has_stores_alone};
ghost use Rattle.g1_trace.specs.{is_script, read_call, read_named, read_command, redirect_of};
ghost use Rattle.g1_trace.specs.{IsCommandCall, IsCommandOf};

use crate::command::Command;
use crate::dialect::Dialect;
use crate::fault::TraceFault;
use crate::mode::Mode;
use crate::places::{
    nothing, one_card, one_mutator, one_region, one_slot, store_places, two_regions,
};
use crate::words::{is, is_remark, split_word};
use g1_core::Call;
use g1_layout::{Layout, Region};

/// What a trace is, in the words of a help: for each command the words of its line, and what it
/// does or asks.
pub const TRACES: &str = "\
A trace is lines of text. The first is 'heap R C S', a heap of R regions of C cards of S slots, and
each other one is a command. M is a mutator, S and T are slots, C is a card, and R, A and B are
regions, all of them numbers from 0:
  store M S T   mutator M stores a reference to slot T, or 'null', into slot S
  flush M       mutator M passes its log on as it is
  refine        the oldest completed buffer is refined
  work          a round of refinement
  target S      what does slot S refer to?
  pending C     is card C pending?
  members R     which cards are in the remembered set of region R?
  status        how many cards are pending, and how many pairs of a card and a region recorded?
  drain R       a pause: what is pending is refined, and the remembered set of region R listed
  clear R       empties the remembered set of region R, if nothing refers into the region any more
  redirect A B  a pause, after which the references into region A refer into region B
Empty lines, and lines whose first word begins with '#', are passed over.";

// Whether a trace in this mode may only store and flush.
fn is_script(mode: Mode) -> bool
    ensures { result ≡ is_script mode }
{
    match mode {
        Mode::Run => false,
        Mode::Crew => true,
        Mode::Race => true,
    }
}

// Whether a trace in this mode may only store.
fn has_stores_alone(mode: Mode) -> bool
    ensures { result ≡ has_stores_alone mode }
{
    match mode {
        Mode::Run | Mode::Crew => false,
        Mode::Race => true,
    }
}

// Two regions, which differ.
fn redirect(from: Region, to: Region) -> Result<Call, TraceFault>
    ensures { result ≡ redirect_of from to }
{
    if from == to {
        return Err(TraceFault::Twice);
    }
    Ok(Call::Redirect { from, to })
}

// The call of a first word and the words behind it.
#[tactic(auto, unfolding(crate::specs::Grammar::read_call))]
fn call_named(layout: Layout, name: &[u8], words: &[u8]) -> Result<Call, TraceFault>
    requires { IsShape layout }
    ensures read { result ≡ read_call layout name.now (words_from [] words.now) }
    ensures valid { IfOk result (λ call. IsCommandCall layout call) }
{
    if is(name, b"target") {
        let slot = one_slot(layout, words)?;
        return Ok(Call::Target(slot));
    }
    if is(name, b"pending") {
        let card = one_card(layout, words)?;
        return Ok(Call::Pending(card));
    }
    if is(name, b"members") {
        let region = one_region(layout, words)?;
        return Ok(Call::Members(region));
    }
    if is(name, b"status") {
        nothing(words)?;
        return Ok(Call::Status);
    }
    if is(name, b"drain") {
        let region = one_region(layout, words)?;
        return Ok(Call::Drain(region));
    }
    if is(name, b"clear") {
        let region = one_region(layout, words)?;
        return Ok(Call::Clear(region));
    }
    if is(name, b"redirect") {
        let (from, to) = two_regions(layout, words)?;
        return redirect(from, to);
    }
    Err(TraceFault::NoCommand)
}

// The command of a first word and the words behind it.
#[tactic(auto, unfolding(crate::specs::Grammar::read_named))]
fn named(layout: Layout, dialect: Dialect, name: &[u8], words: &[u8]) -> Result<Command, TraceFault>
    requires { IsShape layout }
    ensures read { result ≡ read_named layout dialect name.now (words_from [] words.now) }
    ensures valid { IfOk result (λ c. IsCommandOf layout dialect.mutators c) }
{
    if is(name, b"store") {
        let (mutator, slot, target) = store_places(layout, dialect.mutators, words)?;
        return Ok(Command::Store {
            mutator,
            slot,
            target,
        });
    }
    if has_stores_alone(dialect.mode) {
        return Err(TraceFault::NoCommand);
    }
    if is(name, b"flush") {
        let mutator = one_mutator(dialect.mutators, words)?;
        return Ok(Command::Flush { mutator });
    }
    if is_script(dialect.mode) {
        return Err(TraceFault::NoCommand);
    }
    if is(name, b"refine") {
        nothing(words)?;
        return Ok(Command::Refine);
    }
    if is(name, b"work") {
        nothing(words)?;
        return Ok(Command::Work);
    }
    let call = call_named(layout, name, words)?;
    Ok(Command::Call(call))
}

/// Returns the command of a line, or `None` if the line is empty or a remark (docs/traces.md,
/// Commands).
///
/// The faults are tested in the order of docs/traces.md, Faults: no such command, wrong words, then
/// each word that is no number, then the leftmost number that is too large for its place, and last
/// a region named twice. It makes one pass over the line, and takes no memory.
#[tactic(auto, unfolding(crate::specs::Grammar::read_command))]
pub fn read_command(
    layout: Layout,
    dialect: Dialect,
    line: &[u8],
) -> Result<Option<Command>, TraceFault>
    ensures read { result ≡ read_command layout dialect line.now }
    ensures valid { IfOk result (λ o. IfSome o (IsCommandOf layout dialect.mutators)) }
{
    let _counts = layout.counts();
    match split_word(line) {
        None => Ok(None),
        Some((name, _)) if is_remark(name) => Ok(None),
        Some((name, words)) => {
            let command = named(layout, dialect, name, words)?;
            Ok(Some(command))
        }
    }
}
