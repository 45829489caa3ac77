//! Questions to a core: they refine nothing and change nothing but the count of reads.
ghost use Rattle.std.specs.Prelude.{◌≡◌, ◌<◌, ◌^◌};
ghost use Rattle.g1_core.specs.{ℕ, IfOk, slot_count, card_count};

use crate::config::Config;
use crate::list::CardList;
use crate::machinery::Core;
use crate::reply::Status;
use g1_heap::Mark;
use g1_layout::{Card, Layout, NoMemory, Region, Slot};

impl Core {
    ghost use Rattle.g1_core.specs.{IsShape, IsCovered, IsSound, IsLater, IsStep, target_entry};
    ghost use Rattle.g1_core.specs.{DoesTarget, DoesPending, DoesMembers, DoesStatus};

    /// The layout of the heap. Constant time. The clauses also say what every core keeps, cover
    /// above all.
    pub fn layout(&self) -> Layout
        ensures value { result ≡ self.now.state.table.layout }
        ensures shape { IsShape self.now.state.table.layout }
        ensures cover { IsCovered self.now.state.table }
        ensures sound { IsSound self.now.state }
    {
        self.memory.heap.layout()
    }

    /// The settings that the core was made with. Constant time.
    pub fn config(&self) -> Config
        ensures { result ≡ self.now.settings }
    {
        self.config
    }

    /// How many slots were read since the core was made, at most the greatest `u64`. Constant time.
    ///
    /// Refinement, drains, clears, redirects, copies, the two checks (`first_differing`,
    /// `first_missing`) and `target` read slots. The count is never reset.
    pub fn reads(&self) -> u64
        ensures value { result ≡ self.now.reads }
        ensures bound { self.now.reads < 2 ^ 64 }
    {
        self.memory.heap.reads()
    }

    /// Returns the place that a slot refers to, or `None` if the slot is null. One slot is read.
    /// Constant time.
    pub fn target(&mut self, slot: Slot) -> Option<Slot>
        requires { slot < slot_count self.old.state.table.layout }
        ensures did { DoesTarget slot result self.old self.new }
        ensures step { (caller : ℕ)
            → IsStep self.old.state.table (target_entry caller slot result) self.new.state.table }
        ensures later { IsLater self.old self.new }
    {
        let _reads = self.reads();
        self.memory.heap.get(slot)
    }

    /// Whether a card is pending: dirty, or held in the hot ring. Constant time.
    #[tactic(auto, using(crate::proofs::of_a_mark))]
    pub fn is_pending(&self, card: Card) -> bool
        requires { card < card_count self.now.state.table.layout }
        ensures did { DoesPending card result self.now self.now }
    {
        self.memory.heap.mark(card) != Mark::Clean
    }

    /// Returns the cards of a region's remembered set as it is recorded, ascending, each once.
    /// Cards that are pending may be missing from it. (`drain` returns the set once nothing is
    /// pending.)
    ///
    /// Returns `NoMemory` if the room for the list was refused, or, for a large set in a heap of
    /// more than 65,536 cards, the room for a bit for each card.
    pub fn members(&self, region: Region) -> Result<CardList, NoMemory>
        requires { region < self.now.state.table.layout.regions }
        ensures did { IfOk result (λ cards. DoesMembers region cards self.now self.now) }
    {
        let cards = self.memory.sets.cards(region)?;
        Ok(CardList::of(cards))
    }

    /// How many cards are pending and how many pairs are recorded. Takes time in the number of
    /// regions.
    pub fn status(&self) -> Status
        ensures did { DoesStatus result self.now self.now }
    {
        Status {
            pending: self.memory.pending,
            recorded: self.memory.sets.total(),
        }
    }
}
