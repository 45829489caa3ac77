//! The calls of a command, and its output line.
ghost use Rattle.std.specs.Prelude.{◌≡◌, ◌<◌};
ghost use Rattle.g1_replay.specs.{true, IfSome, vec_len, slot_count, layout_in, IsCommandCall};
ghost use Rattle.g1_replay.specs.{IsCommandOf, stepping, at, is_pause, AreStill, IsPlayed};
ghost use Rattle.g1_replay.specs.{StoresAt, FlushesAt, RefinesAt, WorksAt, IsCallPlayed, StandIf};
ghost use Rattle.g1_replay.specs.{StandStill};

use crate::calls::play_call;
use crate::lines::player::Player;
use crate::runs::machinery::Machinery;
use crate::stop::Stop;
use g1_core::{Call, RefineReply, StoreReply};
use g1_history::Refusal;
use g1_layout::{Layout, Slot};
use g1_steps::{FlushReply, LentBook, refine as refine_next, stand_still, work as work_round};
use g1_trace::{Command, Dialect, put_flushed, put_refine_reply, put_store_reply, put_work_reply};
use std::io::Write;
use std::sync::Wait;

impl Player for Machinery {
    ghost plays = { stepping };

    /// Makes the calls of a command and writes its output line.
    #[inline(always)]
    #[tactic(auto, using(crate::proofs::played_does, crate::proofs::played_stops))]
    fn play<T: Wait, W: Write>(
        &mut self,
        rt: &T,
        _layout: Layout,
        _dialect: Dialect,
        command: Command,
        output: &mut W,
    ) -> Result<(), Stop> {
        play_command(rt, self, command, output)
    }
}

// The step of a command, and its output line.
#[inline(always)]
fn play_command<T: Wait, W: Write>(
    rt: &T,
    machinery: &mut Machinery,
    command: Command,
    output: &mut W,
) -> Result<(), Stop>
    requires command { IsCommandOf (layout_in machinery.old.book) machinery.old.book.mutators
        command }
    requires mutators { vec_len machinery.old.mutators ≡ machinery.old.book.mutators }
    ensures { IsPlayed command (at machinery.old (W.contents output.old))
        (at machinery.new (W.contents output.new)) result }
{
    match command {
        Command::Store {
            mutator,
            slot,
            target,
        } => {
            let reply = store(rt, machinery, mutator, slot, target)?;
            put_store_reply(output, &reply)?;
        }
        Command::Flush { mutator } => {
            let reply = flush(rt, machinery, mutator);
            put_flushed(output, reply.cards, reply.fill, &reply.refined, reply.short)?;
        }
        Command::Refine => {
            let reply = refine(rt, machinery)?;
            put_refine_reply(output, &reply)?;
        }
        Command::Work => {
            let reply = work(rt, machinery)?;
            put_work_reply(output, &reply)?;
        }
        Command::Call(call) => one_call(rt, machinery, call, output)?,
    }
    Ok(())
}

// Whether the mutators are stopped for the call.
fn is_pause(call: &Call) -> bool
    ensures { result ≡ is_pause call.now }
{
    matches!(call, Call::Drain(_) | Call::Redirect { .. })
}

// The mutators are stopped for a drain and a redirect.
#[inline(always)]
#[tactic(auto, using(crate::proofs::PlayedLemmas::stand_paused))]
fn stand_for<T: Wait>(rt: &T, machinery: &mut Machinery, call: &Call)
    ensures stand { StandIf (is_pause call.now) machinery.old machinery.new }
    ensures still { is_pause call.now ≡ true → AreStill machinery.new.mutators.items }
    ensures book { machinery.new.book ≡ machinery.old.book }
{
    if is_pause(call) {
        stop_all(rt, machinery);
    }
}

// The log of each mutator is emptied, and the queue of completed buffers by the taker of the first
// caller.
fn stop_all<T: Wait>(rt: &T, machinery: &mut Machinery)
    ensures stand { StandStill machinery.old machinery.new }
    ensures still { AreStill machinery.new.mutators.items }
    ensures book { machinery.new.book ≡ machinery.old.book }
{
    let mutators = machinery.mutators.as_mut_slice();
    stand_still(rt, &machinery.line, &mut machinery.takers[0], mutators);
}

fn one_call<T: Wait, W: Write>(
    rt: &T,
    machinery: &mut Machinery,
    call: Call,
    output: &mut W,
) -> Result<(), Stop>
    requires { IsCommandCall (layout_in machinery.old.book) call }
    ensures { IsPlayed (Command.Call call) (at machinery.old (W.contents output.old))
        (at machinery.new (W.contents output.new)) result }
{
    stand_for(rt, machinery, &call);
    answer_call(machinery, call, output)
}

// The call of the book, for which the mutators are stopped if it is a pause.
fn answer_call<W: Write>(machinery: &mut Machinery, call: Call, output: &mut W) -> Result<(), Stop>
    requires call { IsCommandCall (layout_in machinery.old.book) call }
    requires still { is_pause call ≡ true → AreStill machinery.old.mutators.items }
    ensures asked { IsCallPlayed call (at machinery.old.book (W.contents output.old))
        (at machinery.new.book (W.contents output.new)) result }
    ensures mutators { machinery.new.mutators ≡ machinery.old.mutators }
    ensures line { (machinery.new.line ≡ machinery.old.line)
        × (machinery.new.takers ≡ machinery.old.takers) }
{
    play_call(&mut machinery.book, call, output)
}

// Stores and flushes are calls of their mutator, refinements and rounds of the first.
#[inline(always)]
fn store<T: Wait>(
    rt: &T,
    machinery: &mut Machinery,
    mutator: u32,
    slot: Slot,
    target: Option<Slot>,
) -> Result<StoreReply, Refusal>
    requires mutator { mutator < machinery.old.book.mutators }
    requires slot { slot < slot_count (layout_in machinery.old.book) }
    requires target { IfSome target (λ place. place < slot_count (layout_in machinery.old.book)) }
    requires mutators { vec_len machinery.old.mutators ≡ machinery.old.book.mutators }
    ensures { StoresAt machinery.old mutator (slot, target) result machinery.new }
{
    let caller = &mut machinery.mutators[mutator as usize];
    let mut calls = LentBook::new(&mut machinery.book, mutator);
    caller.store(rt, &machinery.line, &mut calls, slot, target)
}

fn flush<T: Wait>(rt: &T, machinery: &mut Machinery, mutator: u32) -> FlushReply
    requires mutator { mutator < machinery.old.book.mutators }
    requires mutators { vec_len machinery.old.mutators ≡ machinery.old.book.mutators }
    ensures { FlushesAt machinery.old mutator result machinery.new }
{
    let caller = &mut machinery.mutators[mutator as usize];
    let mut calls = LentBook::new(&mut machinery.book, mutator);
    caller.flush(rt, &machinery.line, &mut calls)
}

fn refine<T: Wait>(rt: &T, machinery: &mut Machinery) -> Result<RefineReply, Refusal>
    ensures { RefinesAt machinery.old result machinery.new }
{
    let mut calls = LentBook::new(&mut machinery.book, 0);
    let taker = &mut machinery.takers[0];
    refine_next(rt, &machinery.line, taker, &mut calls)
}

fn work<T: Wait>(rt: &T, machinery: &mut Machinery) -> Result<RefineReply, Refusal>
    ensures { WorksAt machinery.old result machinery.new }
{
    let start = machinery.book.config().start();
    let mut calls = LentBook::new(&mut machinery.book, 0);
    let taker = &mut machinery.takers[0];
    work_round(rt, &machinery.line, taker, &mut calls, start)
}
