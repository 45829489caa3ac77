//! Questions to the core that are entered in the history.
ghost use Rattle.std.specs.Prelude.{◌<◌};
ghost use Rattle.g1_history.specs.{slot_count, card_count};

use crate::book::{Book, again};
use crate::keeps::Keeps;
use crate::refusal::Refusal;
use crate::room::{copied, list_room};
use g1_core::{Call, CardList, Reply, Status};
use g1_layout::{Card, Region, Slot};

impl<H: Keeps> Book<H> {
    ghost use Rattle.g1_core.specs.Calls.{target_entry, pending_entry, members_entry, status_entry};
    ghost use Rattle.g1_core.specs.Calls.{DoesTarget, DoesPending, DoesMembers, DoesStatus};
    ghost use Rattle.g1_history.specs.{MakesCall, layout_in, IsAsked, MakesAsked};

    /// Returns the place that a slot refers to, or `None` if it is null, and enters the call. One
    /// slot is read.
    ///
    /// Returns `BookFull` exactly if the history is full, `NoMemory` if room for the entry was
    /// refused. Either changes nothing. Constant time except for the growth of the history. The
    /// entry holds no list.
    pub fn target(&mut self, caller: u32, slot: Slot) -> Result<Option<Slot>, Refusal>
        requires { slot < slot_count (layout_in self.old) }
        ensures { MakesCall H.KEEPS self.old (target_entry caller slot) (DoesTarget slot)
            result self.new }
    {
        self.history.make_room()?;
        let target = self.core.target(slot);
        let none = CardList::new(self.alloc);
        let reply = Reply::Target(again(&target));
        self.history.enter(caller, Call::Target(slot), reply, none);
        Ok(target)
    }

    /// Returns whether a card is pending, that is, dirty or held in the hot ring, and enters the
    /// call.
    ///
    /// Returns `BookFull` exactly if the history is full, `NoMemory` if room for the entry was
    /// refused. Either changes nothing. Constant time except for the growth of the history. The
    /// entry holds no list.
    pub fn is_pending(&mut self, caller: u32, card: Card) -> Result<bool, Refusal>
        requires { card < card_count (layout_in self.old) }
        ensures { MakesCall H.KEEPS self.old (pending_entry caller card) (DoesPending card)
            result self.new }
    {
        self.history.make_room()?;
        let _layout = self.core.layout();
        let answer = self.core.is_pending(card);
        let none = CardList::new(self.alloc);
        let reply = Reply::Pending(answer);
        self.history.enter(caller, Call::Pending(card), reply, none);
        Ok(answer)
    }

    /// Returns the cards of a region's remembered set as it is recorded, ascending, each once, and
    /// enters the call.
    ///
    /// Returns `BookFull` exactly if the history is full, `NoMemory` if room for the entry or for a
    /// list was refused. Either changes nothing. The entry's list takes 4 bytes a card. The
    /// question changes nothing in the core, so this list is made after it, with exactly the room
    /// that it needs.
    pub fn members(&mut self, caller: u32, region: Region) -> Result<CardList, Refusal>
        requires { region < (layout_in self.old).regions }
        ensures { MakesCall H.KEEPS self.old (members_entry caller region) (DoesMembers region)
            result self.new }
    {
        self.history.make_room()?;
        let _layout = self.core.layout();
        let cards = self.core.members(region)?;
        let room = list_room::<H>(self.alloc, cards.len())?;
        let reply = Reply::Cards(copied::<H>(room, &cards));
        let none = CardList::new(self.alloc);
        let call = Call::Members(region);
        self.history.enter(caller, call, reply, none);
        Ok(cards)
    }

    /// Returns how many cards are pending and how many pairs of a card and a region are recorded,
    /// and enters the call.
    ///
    /// Returns `BookFull` exactly if the history is full, `NoMemory` if room for the entry was
    /// refused. Either changes nothing. The time grows with the number of regions. The entry holds
    /// no list.
    pub fn status(&mut self, caller: u32) -> Result<Status, Refusal>
        ensures { MakesCall H.KEEPS self.old (status_entry caller) DoesStatus result self.new }
    {
        self.history.make_room()?;
        let _layout = self.core.layout();
        let status = self.core.status();
        let none = CardList::new(self.alloc);
        let reply = Reply::Status(status);
        self.history.enter(caller, Call::Status, reply, none);
        Ok(status)
    }

    /// Makes any call but a store and a refinement, and returns its reply as it is entered.
    ///
    /// The call is made by the function of its name: `target` makes a `Call::Target`, and so on.
    /// Returns `BookFull` exactly if the history is full, `NoMemory` if room for the entry or for a
    /// list was refused. Either changes nothing. Its time and its memory are those of that
    /// function.
    #[tactic(auto, using(crate::proofs::HistoryLemmas::drain_asked, crate::proofs::HistoryLemmas::redirect_asked))]
    pub fn ask(&mut self, caller: u32, call: Call) -> Result<Reply, Refusal>
        requires { IsAsked (layout_in self.old) call }
        ensures { MakesAsked H.KEEPS self.old caller call result self.new }
    {
        match call {
            Call::Target(slot) => Ok(Reply::Target(self.target(caller, slot)?)),
            Call::Pending(card) => Ok(Reply::Pending(self.is_pending(caller, card)?)),
            Call::Members(region) => Ok(Reply::Cards(self.members(caller, region)?)),
            Call::Status => Ok(Reply::Status(self.status(caller)?)),
            Call::Drain(region) => Ok(Reply::from(self.drain(caller, region)?)),
            Call::Clear(region) => Ok(Reply::Clear(self.clear(caller, region)?)),
            Call::Redirect { from, to } => Ok(Reply::from(&self.redirect(caller, from, to)?)),
            Call::Store { .. } | Call::Refine => unreachable!(),
        }
    }
}
