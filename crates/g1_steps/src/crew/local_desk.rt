//! A desk that shares what it works on with no other desk.
ghost use Rattle.std.specs.Prelude.{◌≡◌};
ghost use Rattle.g1_steps.specs.Prelude.{Some, Ok, [], refl, ◌∙◌, slot_count, card_of, IsSenderOf};
ghost use Rattle.g1_steps.specs.Prelude.{IsTakerOf};
ghost use Rattle.std.proofs.Props.{props};
ghost use Rattle.g1_steps.specs.Steps.{IsStoreStep, IsFlushStep};
ghost use Rattle.g1_steps.specs.Rounds.{IsWorkStep};
ghost use Rattle.g1_steps.specs.Marks.{mutator_mark, taker_mark};
ghost use Rattle.g1_steps.specs.Served.{HasServed, IsRefusedFor, served_then};

use crate::calls::Calls;
use crate::crew::desk::Desk;
use crate::steps::{FlushReply, Mutator, work};
use g1_core::{RefineReply, StoreReply};
use g1_history::Refusal;
use g1_layout::Slot;
use g1_log::{Line, Taker};
use std::sync::Wait;

/// Makes the calls of one caller, at a borrowed book, by the caller's mutator and taker and the
/// queue of completed buffers that both belong to.
///
/// Its calls are the steps of that caller (docs/rules.md, The steps of a caller).
#[derive(Drop)]
pub struct LocalDesk<'a, R, C> {
    rt: &'a R,
    line: &'a Line,
    mutator: Mutator,
    taker: Taker,
    calls: C,
    start: usize,
    ghost of: { IsSenderOf line.now mutator.sender
        × IsTakerOf line.now taker } by { Prim.hlevel props },
}

impl<'a, R, C> LocalDesk<'a, R, C> {
    /// Returns a desk of these calls, with a mutator and a taker of this queue
    /// ([`open_line`](crate::open_line) makes all three). Its rounds begin at `start` completed
    /// buffers.
    pub fn new(
        rt: &'a R,
        line: &'a Line,
        mutator: Mutator,
        taker: Taker,
        calls: C,
        start: usize,
    ) -> LocalDesk<'a, R, C>
        requires sender { IsSenderOf line.now mutator.sender }
        requires taker { IsTakerOf line.now taker }
        ensures line { result.line.now ≡ line.now }
        ensures caller { (result.mutator ≡ mutator) × (result.taker ≡ taker) }
        ensures calls { result.calls ≡ calls }
        ensures start { result.start ≡ start }
    {
        LocalDesk {
            rt,
            line,
            mutator,
            taker,
            calls,
            start,
        }
    }

    /// Returns what made the calls, the mutator and the taker, once the work is done.
    pub fn into_parts(self) -> (C, Mutator, Taker)
        ensures calls { result.0 ≡ self.entry.calls }
        ensures mutator { result.1 ≡ self.entry.mutator }
        ensures taker { result.2 ≡ self.entry.taker }
        ensures of { IsSenderOf self.entry.line.now result.1.sender
            × IsTakerOf self.entry.line.now result.2 }
    {
        let LocalDesk {
            calls,
            mutator,
            taker,
            ..
        } = self;
        (calls, mutator, taker)
    }
}

impl<'a, R: Wait, C: Calls> Desk for LocalDesk<'a, R, C> {
    ghost did = { λ s asks t. HasServed C.did s.calls asks t.calls
        × (mutator_mark (Some t.mutator) ≡ mutator_mark (Some s.mutator))
        × (taker_mark t.taker ≡ taker_mark s.taker) × (t.start ≡ s.start) };

    ghost slots = { λ s. slot_count (C.layout s.calls) };

    ghost may_store = { λ s. C.may_store s.calls };

    ghost stored = { λ s slot target reply t. IsStoreStep C.did s.line.now s.calls s.mutator
        slot target (card_of (C.layout s.calls) slot) (Ok reply) t.mutator t.calls
        × (t.taker ≡ s.taker) };

    ghost flushed = { λ s reply t.
        IsFlushStep C.did s.line.now s.calls s.mutator reply t.mutator t.calls
        × (t.taker ≡ s.taker) };

    ghost worked = { λ s reply t.
        IsWorkStep C.did s.line.now s.start s.calls s.taker (Ok reply) t.taker t.calls
        × (t.mutator ≡ s.mutator) };

    ghost refused = { λ s ask why t.
        IsRefusedFor C.did s.calls s.mutator s.taker ask why t.calls t.mutator t.taker };

    fn store(&mut self, slot: Slot, target: Option<Slot>) -> Result<StoreReply, Refusal> {
        let calls = &mut self.calls;
        let reply = self.mutator.store(self.rt, self.line, calls, slot, target)?;
        Ok(reply)
    }

    fn flush(&mut self) -> Result<FlushReply, Refusal> {
        Ok(self.mutator.flush(self.rt, self.line, &mut self.calls))
    }

    fn work(&mut self) -> Result<RefineReply, Refusal> {
        let (taker, calls) = (&mut self.taker, &mut self.calls);
        let reply = work(self.rt, self.line, taker, calls, self.start)?;
        Ok(reply)
    }

    ghost none = { λ s.
        (record { calls = []; made = C.none s.calls; serves = refl }, refl, refl, refl) };

    ghost then = { λ s t u xs ys p q. (
      served_then C.did C.then s.calls t.calls u.calls xs ys p.0 q.0,
      q.1 ∙ p.1,
      q.2 ∙ p.2,
      q.3 ∙ p.3,
    ) };
}
