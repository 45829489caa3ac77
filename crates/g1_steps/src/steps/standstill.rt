//! What a pause does once the mutators are stopped: it empties their logs and the queue of
//! completed buffers.
ghost use Rattle.std.specs.Prelude.{◌<◌};
ghost use Rattle.g1_steps.specs.{ℕ, length, slice_index_or, IsTakerOf, IsSameTaker, taken_of};
ghost use Rattle.g1_steps.specs.{capacity_of, Empties, IsStopped};
ghost use Rattle.g1_steps.specs.declared.steps.mutator.Mutator.{Mutator as M};

use crate::steps::Mutator;
use g1_log::{Line, Taker};
use std::sync::Wait;

/// Empties the logs of mutators that are stopped, and the queue by this taker (`empty_line`). It
/// makes no call. Each card that was there is pending by its mark, unless it was refined meanwhile,
/// and a drain refines each that is pending (docs/rules.md, The steps of a caller).
pub fn stand_still<R: Wait>(rt: &R, line: &Line, taker: &mut Taker, mutators: &mut [Mutator])
    requires taker { IsTakerOf line.now taker.old }
    ensures stopped { (k : ℕ) (d : M) → k < length mutators.old
        → IsStopped (slice_index_or mutators.old k d) (slice_index_or mutators.new k d) }
    ensures emptied { Empties (taken_of taker.old) (capacity_of line.now) (taken_of taker.new) }
    ensures same { IsSameTaker taker.new taker.old }
{
    for at in 0..mutators.len() {
        mutators[at].stop();
    }
    empty_line(rt, line, taker);
}

/// Takes buffers from the queue until it sees it empty, at most as many as its capacity, and gives
/// them up. It makes no call. Each of their cards is pending by its mark, unless it was refined
/// meanwhile.
///
/// If nothing is put meanwhile, the queue is then empty.
#[tactic(auto, using(crate::proofs::of_a_take))]
pub fn empty_line<R: Wait>(rt: &R, line: &Line, taker: &mut Taker)
    requires taker { IsTakerOf line.now taker.old }
    ensures emptied { Empties (taken_of taker.old) (capacity_of line.now) (taken_of taker.new) }
    ensures same { IsSameTaker taker.new taker.old }
{
    for turn in 0..line.capacity() {
        let _turn = turn;
        if line.take(rt, taker).is_none() {
            return;
        }
    }
}
