//! The calls of one caller at a book or core under a lock.
ghost use Rattle.std.specs.Prelude.{◌≡◌};
ghost use Rattle.g1_shared.specs.Prelude.{refl, nat_lt, ◌∙◌, ap};
ghost use Rattle.g1_shared.specs.Counts.{CountsDid, counts_did_then, did_nothing};

use crate::caller::CallerCounts;
use crate::counted::Counted;
use crate::ledgers::Terms;
use crate::lock::Lock;
use g1_core::{RefineReply, StoreReply};
use g1_history::{Keeps, Refusal};
use g1_layout::Slot;
use g1_log::{Buffer, Log};
use g1_steps::Calls;
use std::alloc::Global;
use std::sync::Wait;
use std::sync::ledger::Ledger;

/// A counted book or core under its lock, which each call takes and leaves, and the counts of the
/// caller.
///
/// A clause cannot name what is under the lock, so these calls promise only the caller's record and
/// what follows from the arguments.
#[derive(Drop)]
pub(crate) struct LockedCalls<'a, R, M: Terms, S: Ledger, H: Keeps> {
    pub(crate) rt: &'a R,
    pub(crate) counted: &'a Lock<Counted<M, S, H>>,
    pub(crate) counts: &'a mut CallerCounts<M, S>,
    pub(crate) alloc: Global,
}

impl<'a, R: Wait, M: Terms, S: Ledger, H: Keeps> Calls for LockedCalls<'a, R, M, S, H> {
    ghost layout = { λ s. M.terms.layout };

    ghost may_store = { λ s. nat_lt s.counts.now.number M.terms.mutators };

    ghost did = { λ s ms t. (t.counts.ghost_name ≡ s.counts.ghost_name)
        × CountsDid M.terms.layout s.counts.now ms t.counts.now };

    #[inline(always)]
    fn store(
        &mut self,
        log: &mut Log,
        completed: &mut Option<Buffer>,
        slot: Slot,
        target: Option<Slot>,
    ) -> Result<StoreReply, Refusal> {
        self.counted
            .lock(self.rt)
            .store_by(self.counts, log, completed, slot, target)
    }

    fn refine(&mut self, buffer: Option<&Buffer>) -> Result<RefineReply, Refusal> {
        self.counted.lock(self.rt).refine_by(self.counts, buffer)
    }

    fn allocator(&self) -> Global {
        self.alloc
    }

    ghost none = { λ s. (refl, (did_nothing s.counts.now, tt)) };

    ghost then = { λ s t u xs ys h k. (
      k.0 ∙ h.0,
      counts_did_then M.terms.layout s.counts.now t.counts.now u.counts.now xs ys h.1 k.1,
    ) };

    ghost stays = { λ s t ms h. (
      refl,
      ap (λ n. nat_lt n M.terms.mutators) (ap (λ t. t.number) h.1.0),
    ) };
}
