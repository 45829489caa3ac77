//! What a refinement thread does: it takes completed buffers from the queue and refines them, one
//! or a round of them.
ghost use Rattle.std.specs.Prelude.{◌≡◌, ◌<◌, ◌≤◌, ◌+◌, ◌^◌};
ghost use Rattle.g1_steps.specs.Prelude.{[], true, false, length, vec_len, vec_capacity, IfOk};
ghost use Rattle.g1_steps.specs.Prelude.{IfErr, OnOk, IsTakerOf, IsSameTaker, taken_of};
ghost use Rattle.g1_steps.specs.Prelude.{capacity_of};
ghost use Rattle.g1_steps.specs.Steps.{IsRefineStep, IsOfCalls};
ghost use Rattle.g1_steps.specs.Rounds.{round_size, IsRefused, IsRoundIn, IsWorkStep, IsNextOf};
ghost use Rattle.g1_steps.specs.Rounds.{so_far, progress};

use crate::calls::Calls;
use g1_core::{CardList, RefineReply};
use g1_history::Refusal;
use g1_layout::Card;
use g1_log::{Line, Taker};
use std::alloc::Global;
use std::sync::Wait;

/// How many buffers the queue holds, as it was seen at some moment of the call.
pub(crate) fn completed<R: Wait>(rt: &R, line: &Line) -> u32
    ensures within { result ≤ capacity_of line.now }
    ensures few { result ≤ 1024 }
{
    line.len(rt) as u32
}

/// Takes the oldest completed buffer from the queue and refines it, as one call. If the queue was
/// empty, the call refines nothing (docs/rules.md, The steps of a caller).
///
/// `left` is how many buffers the queue held at some moment after the take. If the call is refused,
/// a buffer that was taken is given up. Each of its cards is then pending by its mark, unless it
/// was refined meanwhile.
#[tactic(auto, using(crate::proofs::gains_nothing, crate::proofs::gains_single))]
pub fn refine<C: Calls, R: Wait>(
    rt: &R,
    line: &Line,
    taker: &mut Taker,
    calls: &mut C,
) -> Result<RefineReply, Refusal>
    requires taker { IsTakerOf line.now taker.old }
    ensures { IsRefineStep C.did line.now calls.old taker.old result taker.new calls.new }
{
    if !line.is_empty_for(taker) {
        return refine_oldest(rt, line, taker, calls);
    }
    let left = completed(rt, line);
    let mut reply = calls.refine(None)?;
    reply.left = left;
    Ok(reply)
}

// The same with a take. It is a call of its own, since its place for a parcel is filled with zeros
// first.
#[inline(never)]
#[tactic(auto, using(crate::proofs::gains_nothing, crate::proofs::gains_single))]
fn refine_oldest<C: Calls, R: Wait>(
    rt: &R,
    line: &Line,
    taker: &mut Taker,
    calls: &mut C,
) -> Result<RefineReply, Refusal>
    requires taker { IsTakerOf line.now taker.old }
    ensures { IsRefineStep C.did line.now calls.old taker.old result taker.new calls.new }
{
    let parcel = line.take(rt, taker);
    let left = completed(rt, line);
    let mut reply = match &parcel {
        Some(taken) => calls.refine(Some(&taken.buffer))?,
        None => calls.refine(None)?,
    };
    reply.left = left;
    Ok(reply)
}

/// Makes a round of refinement. If the queue has `n` completed buffers and `n` is at least the
/// threshold `start`, it takes and refines the oldest until a quarter of the threshold, rounded
/// down, is left, each by a call of its own (docs/rules.md, The steps of a caller).
///
/// The round ends early, without a further call, if the queue is empty. A refusal at the first take
/// or call is returned. At a later one, or after a short call, the round ends with `short` true.
/// Room for 256 more cards is asked for before each take, and a refusal of it is no call.
///
/// The reply has the sums of the calls and their lists joined. `left` is the queue's length that
/// was seen last: after the take of the last call that was made, or at the beginning if none was.
#[tactic(auto, using(crate::proofs::RoundLemmas::round_told))]
pub fn work<C: Calls, R: Wait>(
    rt: &R,
    line: &Line,
    taker: &mut Taker,
    calls: &mut C,
    start: usize,
) -> Result<RefineReply, Refusal>
    requires taker { IsTakerOf line.now taker.old }
    ensures { IsWorkStep C.did line.now start calls.old taker.old result taker.new calls.new }
{
    let seen = completed(rt, line);
    let count = round_size(start, seen);
    let round = run_round(rt, line, taker, calls, seen, count)?;
    Ok(RefineReply {
        taken: round.taken,
        refined: CardList::of(round.refined),
        hot: round.hot,
        skipped: round.skipped,
        left: round.left,
        short: round.short,
    })
}

/// Makes `count` calls of a round that has seen `seen` completed buffers, or fewer if the queue is
/// empty, a call is short, one is refused, or the list lacks room for 256 more cards.
#[tactic(auto, using(crate::proofs::RoundLemmas::round_begins))]
fn run_round<C: Calls, R: Wait>(
    rt: &R,
    line: &Line,
    taker: &mut Taker,
    calls: &mut C,
    seen: u32,
    count: u32,
) -> Result<Sums, Refusal>
    requires taker { IsTakerOf line.now taker.old }
    requires seen { seen ≤ capacity_of line.now }
    requires count { count ≤ 1024 }
    ensures round { IfOk result (λ sums.
        IsRoundIn C.did (vec_capacity sums.refined < length sums.refined.items + 256)
        calls.old (taken_of taker.old) count (so_far sums) (taken_of taker.new) calls.new) }
    ensures counts { IfOk result (λ sums. IsOfCalls count (so_far sums)) }
    ensures left { IfOk result (λ sums. sums.left ≤ capacity_of line.now) }
    ensures same { IsSameTaker taker.new taker.old }
    ensures err { IfErr result (λ refusal. IsRefused C.did (Unit {0})
        calls.old (taken_of taker.old) refusal calls.new (taken_of taker.new)) }
{
    let mut sums = Sums::new(calls.allocator(), seen);
    for turn in 0..count {
        match next_of_round(rt, line, taker, calls, &mut sums) {
            Ok(true) => {}
            Ok(false) => return Ok(sums),
            Err(refusal) => {
                if turn == 0 {
                    return Err(refusal);
                }
                sums.short = true;
                return Ok(sums);
            }
        }
    }
    Ok(sums)
}

/// Makes one more call of a round. Returns whether the round goes on: it does not if the queue was
/// empty or the call was short. Room for the cards comes first, so that a buffer is taken only if
/// they have a place.
#[tactic(auto, using(crate::proofs::gains_nothing, crate::proofs::gains_single))]
fn next_of_round<C: Calls, R: Wait>(
    rt: &R,
    line: &Line,
    taker: &mut Taker,
    calls: &mut C,
    sums: &mut Sums,
) -> Result<bool, Refusal>
    requires taker { IsTakerOf line.now taker.old }
    requires few { (sums.old.taken < 2 ^ 20) × (sums.old.hot < 2 ^ 20)
        × (sums.old.skipped < 2 ^ 20) }
    ensures next { IfOk result (λ more.
        IsNextOf C.did (progress calls.old sums.old taker.old) more
        (progress calls.new sums.new taker.new)) }
    ensures few { (sums.new.taken ≤ sums.old.taken + 1)
        × (length sums.new.refined.items + sums.new.skipped ≤ length sums.old.refined.items
        + sums.old.skipped + 256) × (sums.new.hot ≤ sums.old.hot + 256) }
    ensures left { sums.old.left ≤ capacity_of line.now → sums.new.left ≤ capacity_of line.now }
    ensures same { IsSameTaker taker.new taker.old }
    ensures room { OnOk result
        (length sums.old.refined.items + 256 ≤ vec_capacity sums.new.refined) }
    ensures capacity { vec_capacity sums.old.refined ≤ vec_capacity sums.new.refined }
    ensures err { IfErr result (λ refusal. IsRefused C.did
        (vec_capacity sums.new.refined < length sums.new.refined.items + 256)
        calls.old (taken_of taker.old) refusal calls.new (taken_of taker.new)
        × (so_far sums.new ≡ so_far sums.old)) }
{
    sums.refined.reserve(MOST_CARDS)?;
    let Some(parcel) = line.take(rt, taker) else {
        return Ok(false);
    };
    let left = completed(rt, line);
    let reply = calls.refine(Some(&parcel.buffer))?;
    sums.add(&reply, left);
    Ok(!reply.short)
}

/// What the calls of a round add up to so far.
#[derive(Drop)]
struct Sums {
    taken: u32,
    refined: Vec<Card>,
    hot: u32,
    skipped: u32,
    // The queue's length that was seen last.
    left: u32,
    short: bool,
}

// No buffer has more cards.
const MOST_CARDS: usize = 256;

impl Sums {
    ghost use Rattle.g1_steps.specs.Rounds.{so_far, sums_with};

    /// No call yet, and `left` buffers seen in the queue.
    fn new(alloc: Global, left: u32) -> Sums
        ensures numbers { (result.taken ≡ 0) × (result.hot ≡ 0) × (result.skipped ≡ 0) }
        ensures refined { result.refined.items ≡ [] }
        ensures short { result.short ≡ false }
        ensures left { result.left ≡ left }
    {
        Sums {
            taken: 0,
            refined: Vec::new(alloc),
            hot: 0,
            skipped: 0,
            left,
            short: false,
        }
    }

    /// Adds the reply of a call, in room that was made for it, and how many buffers the queue had
    /// after its take.
    fn add(&mut self, reply: &RefineReply, left: u32)
        requires few { (self.old.taken < 2 ^ 20) × (self.old.hot < 2 ^ 20)
            × (self.old.skipped < 2 ^ 20) }
        requires counts { IsOfCalls 1 reply.now }
        requires room { vec_len self.old.refined + length reply.now.refined
            ≤ vec_capacity self.old.refined }
        ensures sums { so_far self.new ≡ sums_with (so_far self.old) reply.now }
        ensures capacity { vec_capacity self.old.refined ≤ vec_capacity self.new.refined }
        ensures left { self.new.left ≡ left }
    {
        let Ok(()) = self.refined.extend_from_slice(reply.refined.as_slice()) else {
            unreachable!()
        };
        self.taken += reply.taken;
        self.hot += reply.hot;
        self.skipped += reply.skipped;
        self.left = left;
        self.short = reply.short;
    }
}

/// How many calls a round makes at most, if it begins at `start` completed buffers and sees `seen`.
fn round_size(start: usize, seen: u32) -> u32
    ensures size { result ≡ round_size start seen }
    ensures within { result ≤ seen }
{
    if (seen as usize) < start {
        0
    } else {
        seen - (start / 4) as u32
    }
}
