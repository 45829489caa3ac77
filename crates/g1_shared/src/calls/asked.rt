//! Queries, drains, clears and redirects under the lock, and any of these calls by its value.
ghost use Rattle.std.specs.Prelude.{◌≢◌, ◌<◌};
ghost use Rattle.g1_core.specs.Calls.{target_entry, pending_entry, members_entry, status_entry};
ghost use Rattle.g1_core.specs.Calls.{DoesTarget, DoesPending, DoesMembers, DoesStatus};
ghost use Rattle.g1_shared.specs.{IfOk, slot_count, card_count, drain_entry, clear_entry};
ghost use Rattle.g1_shared.specs.{redirect_entry, DoesDrain, DoesClear, DoesRedirect, IsAsked};
ghost use Rattle.g1_shared.specs.{MakesCall, MakesAsked, AnswersBy, CallsOnce, AsksOnce};

use crate::caller::Caller;
use crate::calls::stores::raise_made;
use crate::counted::Counted;
use crate::ledgers::Terms;
use crate::shared::Shared;
use g1_core::{Call, CardList, ClearReply, Drained, Redirected, Reply, Status};
use g1_history::{Keeps, Refusal};
use g1_layout::{Card, Region, Slot};
use std::sync::Wait;
use std::sync::ledger::Ledger;

/// Each is the call of the book, by the number of its caller.
#[tactic(auto, using(crate::proofs::counted_call))]
impl<M: Terms, S: Ledger, H: Keeps> Counted<M, S, H> {
    /// Returns what a slot refers to, as `Book::target` does, for this caller.
    pub fn target(&mut self, caller: &mut Caller<M, S>, slot: Slot) -> Result<Option<Slot>, Refusal>
        requires { slot < slot_count M.terms.layout }
        ensures call { MakesCall H.KEEPS self.old (target_entry caller.old.counts.number slot)
            (DoesTarget slot) result self.new }
        ensures counts { CallsOnce caller.old (target_entry caller.old.counts.number slot)
            result caller.new }
    {
        let target = self.book.target(caller.counts.number(), slot)?;
        let (made, records) = (&mut self.made, &mut self.records);
        let counts = &mut caller.counts;
        raise_made(&self.book, made, records, counts, &slot, &target);
        Ok(target)
    }

    /// Returns whether a card is pending, as `Book::is_pending` does, for this caller.
    pub fn is_pending(&mut self, caller: &mut Caller<M, S>, card: Card) -> Result<bool, Refusal>
        requires { card < card_count M.terms.layout }
        ensures call { MakesCall H.KEEPS self.old (pending_entry caller.old.counts.number card)
            (DoesPending card) result self.new }
        ensures counts { CallsOnce caller.old (pending_entry caller.old.counts.number card)
            result caller.new }
    {
        let answer = self.book.is_pending(caller.counts.number(), card)?;
        let (made, records) = (&mut self.made, &mut self.records);
        let counts = &mut caller.counts;
        raise_made(&self.book, made, records, counts, &card, &answer);
        Ok(answer)
    }

    /// Returns the recorded remembered set of a region, as `Book::members` does, for this caller.
    pub fn members(
        &mut self,
        caller: &mut Caller<M, S>,
        region: Region,
    ) -> Result<CardList, Refusal>
        requires { region < M.terms.layout.regions }
        ensures call { MakesCall H.KEEPS self.old (members_entry caller.old.counts.number region)
            (DoesMembers region) result self.new }
        ensures counts { CallsOnce caller.old (members_entry caller.old.counts.number region)
            result caller.new }
    {
        let cards = self.book.members(caller.counts.number(), region)?;
        let (made, records) = (&mut self.made, &mut self.records);
        let counts = &mut caller.counts;
        raise_made(&self.book, made, records, counts, &region, &cards);
        Ok(cards)
    }

    /// Returns how much is pending and recorded, as `Book::status` does, for this caller.
    pub fn status(&mut self, caller: &mut Caller<M, S>) -> Result<Status, Refusal>
        ensures call { MakesCall H.KEEPS self.old (status_entry caller.old.counts.number)
            DoesStatus result self.new }
        ensures counts { CallsOnce caller.old (status_entry caller.old.counts.number)
            result caller.new }
    {
        let status = self.book.status(caller.counts.number())?;
        let (made, records) = (&mut self.made, &mut self.records);
        let counts = &mut caller.counts;
        raise_made(&self.book, made, records, counts, &(), &status);
        Ok(status)
    }

    /// Drains a region, as `Book::drain` does, for this caller. The list of a whole drain is exact.
    pub fn drain(&mut self, caller: &mut Caller<M, S>, region: Region) -> Result<Drained, Refusal>
        requires { region < M.terms.layout.regions }
        ensures call { MakesCall H.KEEPS self.old (drain_entry caller.old.counts.number region)
            (DoesDrain region) result self.new }
        ensures counts { CallsOnce caller.old (drain_entry caller.old.counts.number region)
            result caller.new }
        ensures exact { IfOk result (AnswersBy H.KEEPS self.old region) }
    {
        let answer = self.book.drain(caller.counts.number(), region)?;
        let (made, records) = (&mut self.made, &mut self.records);
        let counts = &mut caller.counts;
        raise_made(&self.book, made, records, counts, &region, &answer);
        Ok(answer)
    }

    /// Clears the remembered set of a region, as `Book::clear` does, for this caller.
    pub fn clear(
        &mut self,
        caller: &mut Caller<M, S>,
        region: Region,
    ) -> Result<ClearReply, Refusal>
        requires { region < M.terms.layout.regions }
        ensures call { MakesCall H.KEEPS self.old (clear_entry caller.old.counts.number region)
            (DoesClear region) result self.new }
        ensures counts { CallsOnce caller.old (clear_entry caller.old.counts.number region)
            result caller.new }
    {
        let answer = self.book.clear(caller.counts.number(), region)?;
        let (made, records) = (&mut self.made, &mut self.records);
        let counts = &mut caller.counts;
        raise_made(&self.book, made, records, counts, &region, &answer);
        Ok(answer)
    }

    /// Redirects a region's references, as `Book::redirect` does, for this caller.
    pub fn redirect(
        &mut self,
        caller: &mut Caller<M, S>,
        from: Region,
        to: Region,
    ) -> Result<Redirected, Refusal>
        requires from { from < M.terms.layout.regions }
        requires to { to < M.terms.layout.regions }
        requires apart { from ≢ to }
        ensures call { MakesCall H.KEEPS self.old (redirect_entry caller.old.counts.number from to)
            (DoesRedirect from to) result self.new }
        ensures counts { CallsOnce caller.old (redirect_entry caller.old.counts.number from to)
            result caller.new }
    {
        let answer = self.book.redirect(caller.counts.number(), from, to)?;
        let (made, records) = (&mut self.made, &mut self.records);
        let counts = &mut caller.counts;
        raise_made(&self.book, made, records, counts, &(from, to), &answer);
        Ok(answer)
    }

    /// As the book's `ask`, for this caller.
    pub fn ask(&mut self, caller: &mut Caller<M, S>, call: Call) -> Result<Reply, Refusal>
        requires { IsAsked M.terms.layout call }
        ensures call { MakesAsked H.KEEPS self.old caller.old.counts.number call result self.new }
        ensures counts { AsksOnce caller.old call result caller.new }
    {
        match call {
            Call::Target(slot) => Ok(Reply::Target(self.target(caller, slot)?)),
            Call::Pending(card) => Ok(Reply::Pending(self.is_pending(caller, card)?)),
            Call::Members(region) => Ok(Reply::Cards(self.members(caller, region)?)),
            Call::Status => Ok(Reply::Status(self.status(caller)?)),
            Call::Drain(region) => Ok(Reply::from(self.drain(caller, region)?)),
            Call::Clear(region) => Ok(Reply::Clear(self.clear(caller, region)?)),
            Call::Redirect { from, to } => Ok(Reply::from(&self.redirect(caller, from, to)?)),
            Call::Store { .. } | Call::Refine => unreachable!(),
        }
    }
}

/// Each call waits for the lock, makes the call of what is kept under it for the caller, and
/// returns its reply. The caller's record has one entry more, of this call with this reply, or the
/// call is refused, which leaves the caller as it was. No clause can name what was under the lock:
/// that the entry stands in a permitted run `finish` says. The guard (`lock`) makes the same calls
/// with their whole contracts.
impl<M: Terms, S: Ledger, H: Keeps> Shared<M, S, H> {
    /// Returns what a slot refers to, by a call under the lock (`Counted::target`).
    pub fn target<R: Wait>(
        &self,
        rt: &R,
        caller: &mut Caller<M, S>,
        slot: Slot,
    ) -> Result<Option<Slot>, Refusal>
        requires { slot < slot_count M.terms.layout }
        ensures counts { CallsOnce caller.old (target_entry caller.old.counts.number slot)
            result caller.new }
    {
        self.counted.lock(rt).target(caller, slot)
    }

    /// Returns whether a card is pending, by a call under the lock (`Counted::is_pending`).
    pub fn is_pending<R: Wait>(
        &self,
        rt: &R,
        caller: &mut Caller<M, S>,
        card: Card,
    ) -> Result<bool, Refusal>
        requires { card < card_count M.terms.layout }
        ensures counts { CallsOnce caller.old (pending_entry caller.old.counts.number card)
            result caller.new }
    {
        self.counted.lock(rt).is_pending(caller, card)
    }

    /// Returns the recorded remembered set of a region, by a call under the lock
    /// (`Counted::members`).
    pub fn members<R: Wait>(
        &self,
        rt: &R,
        caller: &mut Caller<M, S>,
        region: Region,
    ) -> Result<CardList, Refusal>
        requires { region < M.terms.layout.regions }
        ensures counts { CallsOnce caller.old (members_entry caller.old.counts.number region)
            result caller.new }
    {
        self.counted.lock(rt).members(caller, region)
    }

    /// Returns how much is pending and recorded, by a call under the lock (`Counted::status`).
    pub fn status<R: Wait>(&self, rt: &R, caller: &mut Caller<M, S>) -> Result<Status, Refusal>
        ensures counts { CallsOnce caller.old (status_entry caller.old.counts.number)
            result caller.new }
    {
        self.counted.lock(rt).status(caller)
    }

    /// Drains a region by a call under the lock (`Counted::drain`). Its list is exact where its
    /// entry stands in the history; the guard's drain has a clause that says so at once.
    pub fn drain<R: Wait>(
        &self,
        rt: &R,
        caller: &mut Caller<M, S>,
        region: Region,
    ) -> Result<Drained, Refusal>
        requires { region < M.terms.layout.regions }
        ensures counts { CallsOnce caller.old (drain_entry caller.old.counts.number region)
            result caller.new }
    {
        self.counted.lock(rt).drain(caller, region)
    }

    /// Clears the remembered set of a region, by a call under the lock (`Counted::clear`).
    pub fn clear<R: Wait>(
        &self,
        rt: &R,
        caller: &mut Caller<M, S>,
        region: Region,
    ) -> Result<ClearReply, Refusal>
        requires { region < M.terms.layout.regions }
        ensures counts { CallsOnce caller.old (clear_entry caller.old.counts.number region)
            result caller.new }
    {
        self.counted.lock(rt).clear(caller, region)
    }

    /// Redirects a region's references, by a call under the lock (`Counted::redirect`).
    pub fn redirect<R: Wait>(
        &self,
        rt: &R,
        caller: &mut Caller<M, S>,
        from: Region,
        to: Region,
    ) -> Result<Redirected, Refusal>
        requires from { from < M.terms.layout.regions }
        requires to { to < M.terms.layout.regions }
        requires apart { from ≢ to }
        ensures counts { CallsOnce caller.old (redirect_entry caller.old.counts.number from to)
            result caller.new }
    {
        self.counted.lock(rt).redirect(caller, from, to)
    }

    /// Makes any call but a store and a refinement by its value, under the lock (`Counted::ask`):
    /// `target` makes a `Call::Target`, and so on.
    pub fn ask<R: Wait>(
        &self,
        rt: &R,
        caller: &mut Caller<M, S>,
        call: Call,
    ) -> Result<Reply, Refusal>
        requires { IsAsked M.terms.layout call }
        ensures counts { AsksOnce caller.old call result caller.new }
    {
        self.counted.lock(rt).ask(caller, call)
    }
}
