//! A race that is over becomes a core.
ghost use Rattle.std.specs.Prelude.{◌≡◌, ◌+◌};
ghost use Rattle.g1_race.specs.{IfOk, IfErr, length, slot_count, card_count, refs_of, marks_of};
ghost use Rattle.g1_race.specs.{core_of};

use crate::ended::Closed;
use crate::ended::pairs::list_pairs;
use g1_core::{Config, Core};
use g1_layout::{Card, NoMemory, Region, Slot};
use std::alloc::Global;

impl Closed {
    /// Makes a core of this table. Each slot refers to what it referred to when the race ended. The
    /// cards that were dirty then are pending. The pairs that were recorded, by the sweepers or
    /// before the race, are recorded. Nothing is counted, nothing was read and the hot ring is
    /// empty (docs/rules.md, Racing stores).
    ///
    /// Takes the memory of a core ([`Core::adopt`]) and, during the call, 8 bytes for each slot,
    /// one for each card and 8 for each recorded pair. Returns `NoMemory` if memory was refused,
    /// with the race as it was; the call can be made again.
    pub fn into_core(self, alloc: Global, config: Config) -> Result<Core, (Closed, NoMemory)>
        ensures core { IfOk result (λ core. core ≡ core_of self config) }
        ensures refused { IfErr result (λ e. e.0 ≡ self) }
    {
        match self.to_core(alloc, config) {
            Ok(core) => Ok(core),
            Err(error) => Err((self, error)),
        }
    }

    /// Makes a core as [`Closed::into_core`] does, and the race stays. Use it to keep the race
    /// until every later allocation has succeeded.
    #[tactic(auto, using(crate::proofs::Ends::parts_fit))]
    pub fn to_core(&self, alloc: Global, config: Config) -> Result<Core, NoMemory>
        ensures { IfOk result (λ core. core ≡ core_of self.now config) }
    {
        let refs = self.refs(alloc)?;
        let marked = self.marks(alloc)?;
        let pairs = self.pairs(alloc)?;
        Core::adopt(alloc, self.layout, config, &refs, &marked, &pairs)
    }

    // How many slots and cards there are.
    fn counts(&self) -> (usize, usize)
        ensures slots { result.0 ≡ slot_count self.now.layout }
        ensures cards { result.1 ≡ card_count self.now.layout }
        ensures sized { length self.now.words
            ≡ slot_count self.now.layout + card_count self.now.layout }
    {
        (self.shape.slots, self.shape.cards)
    }

    // What each slot refers to.
    #[tactic(auto, using(crate::specs::take_next))]
    fn refs(&self, alloc: Global) -> Result<Vec<Option<Slot>>, NoMemory>
        ensures { IfOk result (λ refs. refs.items ≡ refs_of self.now) }
    {
        let (slots, _) = self.counts();
        let mut refs = Vec::with_capacity(alloc, slots)?;
        for slot in 0..slots {
            refs.push(self.target_at(slot))?;
        }
        Ok(refs)
    }

    // Whether each card is dirty.
    #[tactic(auto, using(crate::specs::take_next))]
    fn marks(&self, alloc: Global) -> Result<Vec<bool>, NoMemory>
        ensures { IfOk result (λ marks. marks.items ≡ marks_of self.now) }
    {
        let (_, cards) = self.counts();
        let mut marks = Vec::with_capacity(alloc, cards)?;
        for card in 0..cards {
            marks.push(self.marked_at(card))?;
        }
        Ok(marks)
    }

    // The recorded pairs.
    fn pairs(&self, alloc: Global) -> Result<Vec<(Card, Region)>, NoMemory>
        ensures { IfOk result (λ pairs. pairs.items ≡ self.now.pairs) }
    {
        list_pairs(alloc, &self.words, self.layout, self.shape)
    }
}
