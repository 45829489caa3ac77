//! Refinement: the cards of a completed buffer take their turns, and the regions that each refers
//! into are recorded.
ghost use Rattle.std.specs.Prelude.{◌≡◌, ◌<◌, ◌≤◌, ◌+◌, ◌*◌, ◌++◌, ◌↔◌, if◌then◌else◌};
ghost use Rattle.g1_core.specs.Prelude.{[], ℕ};
ghost use Rattle.g1_core.specs.Prelude.{false, IfOk, OnErr, IsTrue, length, slice_index_or};
ghost use Rattle.g1_core.specs.Prelude.{vec_len, vec_capacity, option_map, card_count, Clean};
ghost use Rattle.g1_core.specs.Prelude.{Dirty};
ghost use Rattle.g1_core.specs.Turns.{refined_by, hot_by, skipped_by};

use crate::list::CardList;
use crate::machinery::Core;
use crate::reply::RefineReply;
use g1_heap::{Heap, Mark};
use g1_hot::Offer;
use g1_layout::{Card, NoMemory};
use g1_log::Buffer;
use std::alloc::Global;

impl Core {
    ghost use Rattle.g1_core.specs.{reads_after, IsLater, offer_to, state_after, IsTurned, IsStep};
    ghost use Rattle.g1_core.specs.{AreCardsRead, refine_entry, DoesRefine};

    /// Refines a completed buffer: its cards take their turns, oldest first. `None` changes nothing
    /// and takes no memory (ISMM 2004, section 2.2, "Remembered Set Maintenance"; docs/rules.md,
    /// Refinement).
    ///
    /// A card that is not dirty is skipped, as is one that the heap does not have. A dirty card is
    /// counted once more. If it is cold, it is refined: the regions that it refers into are
    /// recorded, and it becomes clean. If it is hot, it goes last into the hot ring. It may push
    /// out the oldest card of the ring, which is refined in its place.
    ///
    /// Returns `NoMemory` if room for the reply's list was refused: no card had its turn, and
    /// nothing has changed. The reply is `short` if memory to record a card was refused: the cards
    /// before some card of the buffer had their turns, and that card and the later ones had none.
    /// Every card that was pending and is not in `refined` is pending still.
    ///
    /// Reads the slots of each refined card once, and if it is short those of at most one card
    /// more. Takes memory for the list, with room for each card of the buffer, and for what the
    /// remembered sets gain.
    #[tactic(auto, using(crate::proofs::LengthLemmas::turned_does))]
    pub fn refine(&mut self, buffer: Option<&Buffer>) -> Result<RefineReply, NoMemory>
        ensures did { IfOk result (λ reply.
            DoesRefine (option_map (λ b. b.now) buffer.entry) reply self.old self.new) }
        ensures step { IfOk result (λ reply. (caller : ℕ)
            → IsStep self.old.state.table (refine_entry caller reply) self.new.state.table) }
        ensures err { OnErr result (self.new ≡ self.old) }
        ensures later { IsLater self.old self.new }
    {
        let _reads = self.reads();
        let Some(buffer) = buffer else {
            return Ok(idle(self.alloc));
        };
        let reply = self.turn_all(buffer.cards())?;
        let _after = self.layout();
        Ok(reply)
    }

    /// Gives each of the cards its turn, in order. If a growth is refused, the later cards have
    /// none.
    fn turn_all(&mut self, cards: &[Card]) -> Result<RefineReply, NoMemory>
        requires few { length cards.now ≤ 256 }
        ensures turned { IfOk result (λ reply.
            IsTurned self.old.state cards.now reply self.new.state) }
        ensures reads { IfOk result (λ reply. AreCardsRead self.old reply self.new) }
        ensures err { OnErr result (self.new ≡ self.old) }
        ensures settings { self.new.settings ≡ self.old.settings }
    {
        let _reads = self.reads();
        let mut turns = Turns::new(self.alloc, cards.len())?;
        for card in cards {
            let Ok(offer) = self.turn(*card) else {
                return Ok(turns.reply(true));
            };
            turns.note(*card, offer);
        }
        Ok(turns.reply(false))
    }

    /// The turn of a card: what the ring does with it, or `None` if the card is not dirty. Memory
    /// comes first.
    #[tactic(auto, using(crate::proofs::refined_none, crate::proofs::DrainCardLemmas::read_core))]
    fn turn(&mut self, card: Card) -> Result<Option<Offer>, NoMemory>
        ensures offer { IfOk result (λ offer. offer ≡ offer_to self.old.state card) }
        ensures state { IfOk result (λ offer.
            self.new.state ≡ state_after self.old.state card offer) }
        ensures reads { IfOk result (λ offer.
            self.new.reads ≡ reads_after self.old.reads
            (length (refined_by card offer) * self.old.state.table.layout.slots)) }
        ensures err { OnErr result (self.new.state ≡ self.old.state) }
        ensures tried { OnErr result
            (self.new.reads ≡ reads_after self.old.reads self.old.state.table.layout.slots) }
        ensures settings { self.new.settings ≡ self.old.settings }
    {
        let _reads = self.reads();
        let dirty = is_dirty(&self.memory.heap, card);
        if !dirty {
            return Ok(None);
        }
        let offer = self.hot.would(card);
        match offer {
            Offer::Cold => {
                self.memory.refine(card)?;
                self.hot.offer(card);
                return Ok(Some(offer));
            }
            Offer::Kept => {
                self.memory.heap.set_mark(card, Mark::Held);
                self.hot.offer(card);
                return Ok(Some(offer));
            }
            Offer::Out(oldest) => {
                self.memory.refine(oldest)?;
                self.memory.heap.set_mark(card, Mark::Held);
                self.hot.offer(card);
                return Ok(Some(offer));
            }
        }
    }
}

/// Whether the heap has the card and the card is dirty.
fn is_dirty(heap: &Heap, card: Card) -> bool
    ensures dirty { IsTrue result ↔ (slice_index_or heap.now.marks card Clean ≡ Dirty) }
    ensures within { IsTrue result → card < card_count heap.now.layout }
{
    let layout = heap.layout();
    let Some(card) = layout.card(card.number()) else {
        return false;
    };
    heap.mark(card) == Mark::Dirty
}

/// The reply if there was no buffer.
fn idle(alloc: Global) -> RefineReply
    ensures none { (result.taken ≡ 0) × (result.left ≡ 0) }
    ensures refined { result.refined ≡ [] }
    ensures counts { (result.hot ≡ 0) × (result.skipped ≡ 0) }
    ensures short { result.short ≡ false }
{
    RefineReply {
        taken: 0,
        refined: CardList::new(alloc),
        hot: 0,
        skipped: 0,
        left: 0,
        short: false,
    }
}

/// What the turns so far did.
#[derive(Drop)]
struct Turns {
    refined: Vec<Card>,
    hot: u32,
    skipped: u32,
}

impl Turns {
    /// No turn yet, with room for a refined card of each of `most` turns.
    fn new(alloc: Global, most: usize) -> Result<Turns, NoMemory>
        ensures refined { IfOk result (λ turns. turns.refined.items ≡ []) }
        ensures room { IfOk result (λ turns. most ≤ vec_capacity turns.refined) }
        ensures hot { IfOk result (λ turns. turns.hot ≡ 0) }
        ensures skipped { IfOk result (λ turns. turns.skipped ≡ 0) }
    {
        let refined = Vec::with_capacity(alloc, most)?;
        Ok(Turns {
            refined,
            hot: 0,
            skipped: 0,
        })
    }

    /// Adds what a turn did.
    fn note(&mut self, card: Card, offer: Option<Offer>)
        requires room { vec_len self.old.refined < vec_capacity self.old.refined }
        requires hot { self.old.hot < 1000 }
        requires skipped { self.old.skipped < 1000 }
        ensures refined { self.new.refined.items ≡ self.old.refined.items ++ refined_by card offer }
        ensures hot { self.new.hot ≡ self.old.hot + hot_by offer }
        ensures skipped { self.new.skipped ≡ self.old.skipped + skipped_by offer }
        ensures counts { (self.new.hot ≤ self.old.hot + 1)
            × (self.new.skipped ≤ self.old.skipped + 1)
            × (vec_len self.new.refined ≤ vec_len self.old.refined + 1) }
        ensures capacity { vec_capacity self.new.refined ≡ vec_capacity self.old.refined }
    {
        let Some(offer) = offer else {
            self.skipped += 1;
            return;
        };
        match offer {
            Offer::Cold => self.refined.push_reserved(card),
            Offer::Kept => self.hot += 1,
            Offer::Out(oldest) => {
                self.hot += 1;
                self.refined.push_reserved(oldest);
            }
        }
    }

    /// The reply, which is short if a growth was refused.
    fn reply(self, short: bool) -> RefineReply
        ensures taken { result.taken ≡ (if short then 0 else 1) }
        ensures refined { result.refined ≡ self.refined.items }
        ensures hot { result.hot ≡ self.hot }
        ensures skipped { result.skipped ≡ self.skipped }
        ensures left { result.left ≡ 0 }
        ensures short { result.short ≡ short }
    {
        RefineReply {
            taken: if short { 0 } else { 1 },
            refined: CardList::of(self.refined),
            hot: self.hot,
            skipped: self.skipped,
            left: 0,
            short,
        }
    }
}
