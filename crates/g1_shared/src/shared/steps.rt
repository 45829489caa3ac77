//! The steps of a caller over the locked book, and the pause.
ghost use Rattle.std.specs.Prelude.{◌≡◌, ◌<◌, ◌≤◌};
ghost use Rattle.g1_shared.specs.{ℕ, length, IfOk, OnErr, IfSome, All, slice_index_or, true, false};
ghost use Rattle.g1_shared.specs.{slot_count, capacity_of, Empties, IsKindAt};
ghost use Rattle.g1_shared.specs.{CallerState, caller_mark, IsCallerOf, taken_list, StoresBy};
ghost use Rattle.g1_shared.specs.{FlushesBy, RefinesBy, WorksBy, IsCallerAtPause};

use crate::caller::Caller;
use crate::ledgers::Terms;
use crate::locked_calls::LockedCalls;
use crate::shared::Shared;
use g1_core::{RefineReply, StoreReply};
use g1_history::{Keeps, Refusal};
use g1_layout::Slot;
use g1_steps::{FlushReply, empty_line, refine, work};
use std::sync::Wait;
use std::sync::ledger::Ledger;

impl<M: Terms, S: Ledger, H: Keeps> Shared<M, S, H> {
    /// Stores a reference, or null, as a mutator does (`Mutator::store`), by a call under the lock.
    ///
    /// A log that was filled goes into the queue of completed buffers once the lock is left. If the
    /// queue hands the buffer back, the caller refines it by one more call. A filtered store costs
    /// the lock and its entry. Returns `Err` if the store itself was refused, which leaves the
    /// caller as it was.
    pub fn store<R: Wait>(
        &self,
        rt: &R,
        caller: &mut Caller<M, S>,
        slot: Slot,
        target: Option<Slot>,
    ) -> Result<StoreReply, Refusal>
        requires mutator { caller.old.counts.number < M.terms.mutators }
        requires slot { slot < slot_count M.terms.layout }
        requires target { IfSome target (λ place. place < slot_count M.terms.layout) }
        requires mine { IsCallerOf self.now caller.old }
        ensures mark { caller_mark caller.new ≡ caller_mark caller.old }
        ensures stored { StoresBy M.terms.layout self.now caller.old slot target result
            caller.new }
        ensures kind { IfOk result (λ reply. IsKindAt M.terms.layout slot target reply.kind) }
        ensures err { OnErr result (caller.new ≡ caller.old) }
    {
        let mutator = caller.mutator.as_mut().unwrap();
        let mut calls = LockedCalls {
            rt,
            counted: &self.counted,
            counts: &mut caller.counts,
            alloc: self.alloc,
        };
        mutator.store(rt, &self.line, &mut calls, slot, target)
    }

    /// Empties the caller's log, as a mutator does (`Mutator::flush`). It takes no lock unless it
    /// helps, and is never refused.
    pub fn flush<R: Wait>(&self, rt: &R, caller: &mut Caller<M, S>) -> FlushReply
        requires mutator { caller.old.counts.number < M.terms.mutators }
        requires mine { IsCallerOf self.now caller.old }
        ensures mark { caller_mark caller.new ≡ caller_mark caller.old }
        ensures flushed { FlushesBy M.terms.layout self.now caller.old result caller.new }
    {
        let mutator = caller.mutator.as_mut().unwrap();
        let mut calls = LockedCalls {
            rt,
            counted: &self.counted,
            counts: &mut caller.counts,
            alloc: self.alloc,
        };
        mutator.flush(rt, &self.line, &mut calls)
    }

    /// Takes the oldest completed buffer and refines it by a call under the lock (`refine`). If the
    /// queue was empty, the call refines nothing.
    ///
    /// If the call is refused, a buffer that was taken is given up. Each of its cards is then
    /// pending by its mark, unless it was refined meanwhile.
    #[tactic(auto, using(crate::proofs::refines))]
    pub fn refine<R: Wait>(&self, rt: &R, caller: &mut Caller<M, S>) -> Result<RefineReply, Refusal>
        requires mine { IsCallerOf self.now caller.old }
        ensures { RefinesBy M.terms.layout self.now caller.old result caller.new }
    {
        let mut calls = LockedCalls {
            rt,
            counted: &self.counted,
            counts: &mut caller.counts,
            alloc: self.alloc,
        };
        refine(rt, &self.line, &mut caller.taker, &mut calls)
    }

    /// Makes a round of refinement (`work`), each of its calls under the lock by itself.
    ///
    /// A refusal at the first take or call is returned. At a later one, or after a short call, the
    /// round ends with `short` true.
    pub fn work<R: Wait>(&self, rt: &R, caller: &mut Caller<M, S>) -> Result<RefineReply, Refusal>
        requires mine { IsCallerOf self.now caller.old }
        ensures { WorksBy M.terms self.now caller.old result caller.new }
    {
        let mut calls = LockedCalls {
            rt,
            counted: &self.counted,
            counts: &mut caller.counts,
            alloc: self.alloc,
        };
        work(rt, &self.line, &mut caller.taker, &mut calls, self.start)
    }

    /// Makes a pause, once the mutators are stopped. It empties the logs of the given callers, and
    /// the queue by the taker of the first (`empty_line`). It makes no call. Each card that was
    /// there is pending by its mark, unless it was refined meanwhile, and a drain refines each that
    /// is pending.
    ///
    /// With no callers it does nothing. It takes no lock and no memory.
    pub fn pause<R: Wait>(&self, rt: &R, callers: &mut [Caller<M, S>])
        requires mine { All (IsCallerOf self.now) callers.old }
        ensures paused { (k : ℕ) (d : CallerState) → k < length callers.old
            → IsCallerAtPause (slice_index_or callers.old k d) (slice_index_or callers.new k d) }
        ensures first { (d : CallerState) → 0 < length callers.old
            → Empties (taken_list (slice_index_or callers.old 0 d)) (capacity_of self.now)
            (taken_list (slice_index_or callers.new 0 d)) }
        ensures others { (k : ℕ) (d : CallerState) → 1 ≤ k → k < length callers.old
            → (slice_index_or callers.new k d).taker ≡ (slice_index_or callers.old k d).taker }
    {
        for at in 0..callers.len() {
            self.pause_one(rt, &mut callers[at], at == 0);
        }
    }

    /// Empties the caller's log and, if it takes, the queue.
    fn pause_one<R: Wait>(&self, rt: &R, caller: &mut Caller<M, S>, takes: bool)
        requires mine { IsCallerOf self.now caller.old }
        ensures paused { IsCallerAtPause caller.old caller.new }
        ensures emptied { takes ≡ true
            → Empties (taken_list caller.old) (capacity_of self.now) (taken_list caller.new) }
        ensures kept { takes ≡ false → caller.new.taker ≡ caller.old.taker }
    {
        if takes {
            empty_line(rt, &self.line, &mut caller.taker);
        }
        if let Some(mutator) = &mut caller.mutator {
            mutator.stop();
        }
    }
}
