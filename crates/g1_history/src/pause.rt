//! Drains, clears and redirects that are entered in the history.
ghost use Rattle.std.specs.Prelude.{◌≡◌, ◌≢◌, ◌≤◌, ◌<◌};
ghost use Rattle.g1_history.specs.{true, length, IfOk, vec_len, vec_capacity, drain_cards};
ghost use Rattle.g1_history.specs.{drain_refined, drain_reply, redirect_refined};

use crate::book::{Book, again};
use crate::keeps::Keeps;
use crate::refusal::Refusal;
use crate::room::{copied, list_room, pending_room};
use g1_core::{Call, CardList, ClearReply, Drained, Redirected, Reply};
use g1_layout::{Card, Region};

impl<H: Keeps> Book<H> {
    ghost use Rattle.g1_history.specs.{drain_entry, clear_entry, redirect_entry, DoesDrain};
    ghost use Rattle.g1_history.specs.{DoesClear, DoesRedirect, MakesCall, AnswersBy, layout_in};

    /// Refines all pending cards, as the core does, returns the region's remembered set, and enters
    /// the call (docs/rules.md, The pause).
    ///
    /// The list of a whole drain is exact and ascending. It has each card outside the region that
    /// now holds a reference into it, and only cards outside it that held one since its set was
    /// last cleared. A short drain is entered too.
    ///
    /// Returns `BookFull` exactly if the history is full, `NoMemory` if room for the entry or for a
    /// list was refused. Either changes nothing. The entry's lists take 4 bytes for each card that
    /// was returned or refined. Room for as many as may come is made first, and what is not needed
    /// is given back.
    pub fn drain(&mut self, caller: u32, region: Region) -> Result<Drained, Refusal>
        requires { region < (layout_in self.old).regions }
        ensures call { MakesCall H.KEEPS self.old (drain_entry caller region) (DoesDrain region)
            result self.new }
        ensures exact { IfOk result (AnswersBy H.KEEPS self.old region) }
    {
        self.history.make_room()?;
        let refined_room = pending_room::<H>(self.alloc, &self.core)?;
        let cards_room = list_room::<H>(self.alloc, self.core.layout().card_count() as usize)?;
        let answer = self.core.drain(region)?;
        let reply = copied_reply::<H>(cards_room, &answer);
        let refined = copied::<H>(refined_room, drained_cards(&answer));
        self.history
            .enter(caller, Call::Drain(region), reply, refined);
        Ok(answer)
    }

    /// Empties the region's remembered set if no card is pending and no reference enters the region
    /// from outside, and enters the outcome (docs/rules.md, Clear).
    ///
    /// `Pending` and `StillReferenced` are replies with an entry. They leave all but the count of
    /// reads as it was. A clear reads no more slots than the cards in the set have, and none while
    /// a card is pending.
    ///
    /// Returns `BookFull` exactly if the history is full, `NoMemory` if room for the entry was
    /// refused. Either changes nothing. The entry holds no list.
    pub fn clear(&mut self, caller: u32, region: Region) -> Result<ClearReply, Refusal>
        requires { region < (layout_in self.old).regions }
        ensures { MakesCall H.KEEPS self.old (clear_entry caller region) (DoesClear region)
            result self.new }
    {
        self.history.make_room()?;
        let answer = self.core.clear(region);
        let none = CardList::new(self.alloc);
        let reply = Reply::Clear(again(&answer));
        self.history.enter(caller, Call::Clear(region), reply, none);
        Ok(answer)
    }

    /// Makes each slot outside `from` that refers into it refer to the same offset of `to`, as the
    /// core does, and enters the call (docs/rules.md, Redirect).
    ///
    /// A short redirect only refined the cards that it lists. It is entered too. Returns `BookFull`
    /// exactly if the history is full, `NoMemory` if room for the entry or for a list was refused.
    /// Either changes nothing. The entry's list takes 4 bytes for each refined card. Room for all
    /// pending cards is made first, and what is not needed is given back.
    pub fn redirect(&mut self, caller: u32, from: Region, to: Region) -> Result<Redirected, Refusal>
        requires from { from < (layout_in self.old).regions }
        requires to { to < (layout_in self.old).regions }
        requires apart { from ≢ to }
        ensures { MakesCall H.KEEPS self.old (redirect_entry caller from to) (DoesRedirect from to)
            result self.new }
    {
        self.history.make_room()?;
        let room = pending_room::<H>(self.alloc, &self.core)?;
        let answer = self.core.redirect(from, to)?;
        let call = Call::Redirect { from, to };
        let refined = copied::<H>(room, redirected_cards(&answer));
        self.history
            .enter(caller, call, Reply::from(&answer), refined);
        Ok(answer)
    }
}

/// The reply of a drain, whose list is copied into the room.
fn copied_reply<H: Keeps>(room: Vec<Card>, answer: &Drained) -> Reply
    requires empty { vec_len room ≡ 0 }
    requires room { H.KEEPS ≡ true → length (drain_cards answer.now) ≤ vec_capacity room }
    ensures { H.KEEPS ≡ true → result ≡ drain_reply answer.now }
{
    match answer {
        Drained::Cards { cards, .. } => Reply::Cards(copied::<H>(room, cards)),
        Drained::Short { .. } => Reply::Short,
    }
}

/// The cards that a drain refined.
fn drained_cards(answer: &Drained) -> &CardList
    ensures { result.now ≡ drain_refined answer.now }
{
    match answer {
        Drained::Cards { refined, .. } => refined,
        Drained::Short { refined } => refined,
    }
}

/// The cards that a redirect refined.
fn redirected_cards(answer: &Redirected) -> &CardList
    ensures { result.now ≡ redirect_refined answer.now }
{
    match answer {
        Redirected::Moved { refined, .. } => refined,
        Redirected::Short { refined } => refined,
    }
}
