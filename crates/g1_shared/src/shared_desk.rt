//! A desk at a shared book.
ghost use Rattle.std.specs.Prelude.{◌≡◌};
ghost use Rattle.g1_shared.specs.Prelude.{refl, nat_lt, slot_count, capacity_of, Ok};
ghost use Rattle.std.proofs.Props.{props};
ghost use Rattle.g1_shared.specs.Callers.{IsCallerOf, StoresBy, FlushesBy, WorksBy};
ghost use Rattle.g1_shared.specs.Did.{IsRefusedAt};
ghost use Rattle.g1_shared.specs.Answers.{IsKindAt};
ghost use Rattle.g1_shared.specs.Did.{DeskDid, caller_did_none, desk_did_then};

use crate::caller::Caller;
use crate::ledgers::Terms;
use crate::shared::Shared;
use g1_core::{RefineReply, StoreReply};
use g1_history::{Keeps, Kept, Refusal};
use g1_layout::Slot;
use g1_steps::{Desk, FlushReply};
use std::sync::Wait;
use std::sync::ledger::Ledger;

/// A shared book and one of its callers, with the runtime by which the caller waits for the lock.
///
/// Its calls are those of [`Shared`], with what these say of the caller and of the reply. What was
/// under the lock no clause can name.
#[derive(Drop)]
pub struct SharedDesk<'a, R, M: Terms, S: Ledger, H: Keeps = Kept> {
    rt: &'a R,
    shared: &'a Shared<M, S, H>,
    caller: Caller<M, S>,
    ghost of: { IsCallerOf shared.now caller } by { Prim.hlevel props },
}

impl<'a, R, M: Terms, S: Ledger, H: Keeps> SharedDesk<'a, R, M, S, H> {
    /// Returns a desk of this caller at the book or core that made it.
    pub fn new(
        rt: &'a R,
        shared: &'a Shared<M, S, H>,
        caller: Caller<M, S>,
    ) -> SharedDesk<'a, R, M, S, H>
        requires { IsCallerOf shared.now caller }
        ensures caller { result.caller ≡ caller }
        ensures shared { result.shared.now ≡ shared.now }
    {
        SharedDesk { rt, shared, caller }
    }

    /// Returns the caller, once the work is done.
    pub fn into_caller(self) -> Caller<M, S>
        ensures caller { result ≡ self.entry.caller }
        ensures of { IsCallerOf self.entry.shared.now result }
    {
        let SharedDesk { caller, .. } = self;
        caller
    }
}

#[tactic(auto, using(crate::proofs::makes_none, crate::proofs::makes_lost))]
impl<'a, R: Wait, M: Terms, S: Ledger, H: Keeps> Desk for SharedDesk<'a, R, M, S, H> {
    ghost did = { λ s asks t. DeskDid M.terms.layout (capacity_of s.shared.now) s.caller asks
        (capacity_of t.shared.now) t.caller };

    ghost slots = { λ s. slot_count M.terms.layout };

    ghost may_store = { λ s. nat_lt s.caller.counts.number M.terms.mutators };

    ghost stored = { λ s slot target reply t.
        StoresBy M.terms.layout s.shared.now s.caller slot target (Ok reply) t.caller
        × IsKindAt M.terms.layout slot target reply.kind };

    ghost flushed = { λ s reply t.
        FlushesBy M.terms.layout s.shared.now s.caller reply t.caller };

    ghost worked = { λ s reply t.
        WorksBy M.terms s.shared.now s.caller (Ok reply) t.caller };

    ghost refused = { λ s ask why t. IsRefusedAt s.caller ask t.caller };

    fn store(&mut self, slot: Slot, target: Option<Slot>) -> Result<StoreReply, Refusal> {
        self.shared.store(self.rt, &mut self.caller, slot, target)
    }

    fn flush(&mut self) -> Result<FlushReply, Refusal> {
        Ok(self.shared.flush(self.rt, &mut self.caller))
    }

    fn work(&mut self) -> Result<RefineReply, Refusal> {
        self.shared.work(self.rt, &mut self.caller)
    }

    ghost none = { λ s.
        (refl, caller_did_none M.terms.layout (capacity_of s.shared.now) s.caller) };

    ghost then = { λ s t u. desk_did_then M.terms.layout (capacity_of s.shared.now)
        (capacity_of t.shared.now) (capacity_of u.shared.now) s.caller t.caller u.caller };
}
