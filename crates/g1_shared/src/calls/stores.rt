//! Stores and refinement under the lock. Those of a [`Shared`](crate::Shared) are steps of its
//! callers, which take more than one call.
ghost use Rattle.std.specs.Prelude.{◌≡◌, ◌+◌, ◌<◌, ◌∷◌};
ghost use Rattle.g1_shared.specs.{IfOk, OnErr, IfSome, IsNone, option_map, slot_count};
ghost use Rattle.g1_shared.specs.{card_of, store_entry, refine_entry, IsLent, DoesStore};
ghost use Rattle.g1_shared.specs.{DoesRefine, MakesCall, made_of, IsKindAt, IsReplyAt};
ghost use Rattle.g1_shared.specs.{did_more, gained, is_store, false, [], CallsOnce, HandsOut};

use crate::caller::{Caller, CallerCounts};
use crate::counted::Counted;
use crate::ledgers::{Terms, raise};
use g1_core::{RefineReply, StoreReply};
use g1_history::{Book, Keeps, Refusal};
use g1_layout::Slot;
use g1_log::{Buffer, Log};
use g1_records::{Asks, Records};
use std::sync::ledger;
use std::sync::ledger::Ledger;

/// Each is the call of the book, by the number of its caller.
#[tactic(auto, using(crate::proofs::counted_call, crate::proofs::KindLemmas::kind_at))]
impl<M: Terms, S: Ledger, H: Keeps> Counted<M, S, H> {
    /// Stores a reference, or null, with this caller's log, as `Book::store` does.
    ///
    /// The caller is a mutator. Each card of a buffer that is handed out stays pending until it is
    /// refined.
    pub fn store(
        &mut self,
        caller: &mut Caller<M, S>,
        slot: Slot,
        target: Option<Slot>,
    ) -> Result<(StoreReply, Option<Buffer>), Refusal>
        requires caller { caller.old.counts.number < M.terms.mutators }
        requires slot { slot < slot_count M.terms.layout }
        requires target { IfSome target (λ place. place < slot_count M.terms.layout) }
        ensures call { MakesCall H.KEEPS self.old
            (λ answer. store_entry caller.old.counts.number slot target answer.0)
            (λ answer. DoesStore slot target answer.0) result self.new }
        ensures buffer { IfOk result (λ answer.
            HandsOut caller.old (card_of M.terms.layout slot) answer.0 answer.1 caller.new) }
        ensures counts { IfOk result (λ answer. caller.new.counts ≡ did_more caller.old.counts
            (store_entry caller.old.counts.number slot target answer.0 ∷ [])) }
        ensures err { OnErr result (caller.new ≡ caller.old) }
    {
        let mutator = caller.mutator.as_mut().unwrap();
        let counts = &mut caller.counts;
        let mut completed = None;
        let reply = self.store_by(counts, &mut mutator.log, &mut completed, slot, target)?;
        Ok((reply, completed))
    }

    /// As the book's store, by these counts' caller, with the given log and the lent place.
    #[inline(always)]
    pub(crate) fn store_by(
        &mut self,
        counts: &mut CallerCounts<M, S>,
        log: &mut Log,
        completed: &mut Option<Buffer>,
        slot: Slot,
        target: Option<Slot>,
    ) -> Result<StoreReply, Refusal>
        requires caller { counts.old.number < M.terms.mutators }
        requires empty { IsNone completed.old }
        requires places { (slot < slot_count M.terms.layout)
            × IfSome target (λ place. place < slot_count M.terms.layout) }
        ensures call { MakesCall H.KEEPS self.old (store_entry counts.old.number slot target)
            (DoesStore slot target) result self.new }
        ensures lent { IfOk result (λ reply.
            IsLent (card_of M.terms.layout slot) reply log.old log.new completed.new
            × IsKindAt M.terms.layout slot target reply.kind) }
        ensures counts { IfOk result (λ reply. counts.new ≡ did_more counts.old
            (store_entry counts.old.number slot target reply ∷ [])) }
        ensures err { OnErr result ((counts.new ≡ counts.old) × (log.new ≡ log.old)
            × (completed.new ≡ completed.old)) }
    {
        let asked = (slot, again(&target));
        let reply = self
            .book
            .store_into(counts.number(), log, completed, slot, target)?;
        let _layout = self.book.layout();
        raise(&mut self.made, &mut counts.made_share, &mut counts.made);
        raise(
            &mut self.stored,
            &mut counts.stored_share,
            &mut counts.stored,
        );
        self.records.enter(&mut counts.own, &asked, &reply);
        Ok(reply)
    }

    /// Refines a buffer for this caller, as `Book::refine` does.
    pub fn refine(
        &mut self,
        caller: &mut Caller<M, S>,
        buffer: Option<&Buffer>,
    ) -> Result<RefineReply, Refusal>
        ensures call { MakesCall H.KEEPS self.old (refine_entry caller.old.counts.number)
            (DoesRefine (option_map (λ b. b.now) buffer.entry)) result self.new }
        ensures counts { CallsOnce caller.old (refine_entry caller.old.counts.number) result
            caller.new }
    {
        self.refine_by(&mut caller.counts, buffer)
    }

    /// As the book's refinement, by these counts' caller.
    pub(crate) fn refine_by(
        &mut self,
        counts: &mut CallerCounts<M, S>,
        buffer: Option<&Buffer>,
    ) -> Result<RefineReply, Refusal>
        ensures call { MakesCall H.KEEPS self.old (refine_entry counts.old.number)
            (DoesRefine (option_map (λ b. b.now) buffer.entry)) result self.new }
        ensures answer { IfOk result
            (IsReplyAt M.terms.layout (option_map (λ b. b.now) buffer.entry)) }
        ensures counts { IfOk result (λ reply. counts.new ≡ did_more counts.old
            (refine_entry counts.old.number reply ∷ [])) }
        ensures err { OnErr result (counts.new ≡ counts.old) }
    {
        let reply = self.book.refine(counts.number(), buffer)?;
        raise_made(
            &self.book,
            &mut self.made,
            &mut self.records,
            counts,
            &(),
            &reply,
        );
        Ok(reply)
    }
}

// One more call in the total of all calls, in the counts of the caller that made it, and in the
// records. It is no store.
#[tactic(auto, using(crate::proofs::counts_did))]
pub(super) fn raise_made<Q: Asks<A>, A, M: Terms, S: Ledger, H: Keeps>(
    book: &Book<H>,
    total: &mut ledger::Book<M>,
    records: &mut Records,
    counts: &mut CallerCounts<M, S>,
    asked: &Q,
    answer: &A,
)
    requires entered { made_of H.KEEPS book.now.entries book.now.totals ≡ total.old.total + 1 }
    requires table { records.old.table ≡ M.terms.records }
    requires by { (Q.entry counts.old.number asked.now answer.now).caller ≡ counts.old.number }
    requires plain { is_store (Q.entry counts.old.number asked.now answer.now) ≡ false }
    ensures total { total.new.total ≡ total.old.total + 1 }
    ensures records { records.new
        ≡ gained records.old (Q.entry counts.old.number asked.now answer.now) }
    ensures counts { counts.new
        ≡ did_more counts.old (Q.entry counts.old.number asked.now answer.now ∷ []) }
{
    let _layout = book.layout();
    raise(total, &mut counts.made_share, &mut counts.made);
    records.enter(&mut counts.own, asked, answer);
}

// The same value again.
#[inline(always)]
fn again<T: Copy>(value: &T) -> T
    ensures { result ≡ value.now }
{
    *value
}
