//! A desk at a race: a racer with the end of a queue into which it puts its logs, or a sweeper with
//! one from which it takes them.
ghost use Rattle.std.specs.Prelude.{◌≡◌, ◌<◌, ◌≤◌};
ghost use Rattle.g1_replay.specs.Prelude.{ℕ, All, Contains, OnOk, props, array_vec_len, slot_count};
ghost use Rattle.g1_replay.specs.Prelude.{card_count, line_home, put_of, IsSenderOf, IsSameSender};
ghost use Rattle.g1_replay.specs.Prelude.{race_id, race_layout, racer_race, racer_start};
ghost use Rattle.g1_replay.specs.Prelude.{racer_view, sweeper_race, sweeper_start, sweeper_view};
ghost use Rattle.g1_replay.specs.Prelude.{PutsBy};
ghost use Rattle.g1_replay.specs.Parties.{is_racer, party_home, party_logged, party_race, PartyDid};
ghost use Rattle.g1_replay.specs.Parties.{party_did_none, party_did_then};

use g1_core::{CardList, Fill, RefineReply, StoreReply};
use g1_history::Refusal;
use g1_layout::{Card, Kind, NoMemory, Slot};
use g1_log::{Buffer, Line, Sender, Taker};
use g1_race::{Race, Racer, Sweeper};
use g1_steps::{Desk, FlushReply};
use std::alloc::Global;
use std::sync::Wait;

/// Who works at the desk.
#[derive(Drop)]
pub(crate) enum Party {
    /// A mutator, with the end of the queue into which its logs go.
    Racing(Racer, Sender),
    /// A refinement thread, with the end of the queue from which it takes them.
    Sweeping(Sweeper, Taker),
}

/// A race and a queue of completed buffers, and one of their parties.
///
/// A racer's log is put into the queue once as many cards as fill it were logged since it was last
/// taken, and at a flush. If the queue does not take it, the log is given up. Each of its cards
/// stays dirty until it is refined, by a drain after the race at the latest. A call that is not one
/// of its party's changes nothing and returns an empty reply.
#[derive(Drop)]
pub(crate) struct RaceDesk<'a, R> {
    rt: &'a R,
    alloc: Global,
    race: &'a Race,
    line: &'a Line,
    // How many cards fill a log, and how many the log has.
    fill: usize,
    logged: usize,
    party: Party,
    ghost of: { party_race party ≡ race_id race.now },
    ghost line_of: { party_home party ≡ line_home line.now } by { Prim.hlevel props },
    ghost few: { (logged < fill) × (fill ≤ 256) },
    ghost counted: { party_logged party ≡ logged },
}

impl<'a, R> RaceDesk<'a, R> {
    /// A desk of this party, whose log has no card yet; `fill` cards fill it.
    pub(crate) fn new(
        rt: &'a R,
        alloc: Global,
        race: &'a Race,
        line: &'a Line,
        fill: usize,
        party: Party,
    ) -> RaceDesk<'a, R>
        requires race { party_race party ≡ race_id race.now }
        requires line { party_home party ≡ line_home line.now }
        requires fill { (1 ≤ fill) × (fill ≤ 256) }
        requires empty { party_logged party ≡ 0 }
        ensures party { result.party ≡ party }
        ensures race { result.race.now ≡ race.now }
        ensures fill { result.fill ≡ fill }
    {
        RaceDesk {
            rt,
            alloc,
            race,
            line,
            fill,
            logged: 0,
            party,
        }
    }

    /// The party, once the work is done.
    pub(crate) fn into_party(self) -> Party
        ensures { result ≡ self.entry.party }
    {
        let RaceDesk { party, .. } = self;
        party
    }
}

// The cards of the log go into the queue as a buffer, or are given up if it does not take them:
// `Full` says that it did. Returns how many they were.
fn hand_over<R: Wait>(rt: &R, line: &Line, racer: &mut Racer, sender: &mut Sender) -> (u32, Fill)
    requires { IsSenderOf line.now sender.old }
    ensures cards { result.0 ≡ array_vec_len racer.old.log }
    ensures put { PutsBy result.1 racer.old.log.items (put_of sender.old) (put_of sender.new) }
    ensures race { racer_race racer.new ≡ racer_race racer.old }
    ensures start { racer_start racer.new ≡ racer_start racer.old }
    ensures view { racer_view racer.new ≡ racer_view racer.old }
    ensures empty { array_vec_len racer.new.log ≡ 0 }
    ensures sender { IsSameSender sender.new sender.old }
{
    let cards = racer.take_log();
    let count = cards.len() as u32;
    if cards.is_empty() {
        return (0, Fill::No);
    }
    match line.put(rt, sender, Buffer::of(cards)) {
        Ok(()) => (count, Fill::Full),
        Err(_) => (count, Fill::No),
    }
}

// Refines the card, if the heap has it.
#[tactic(auto, using(crate::proofs::SweptLemmas::kept_ok, crate::proofs::SweptLemmas::swept_ok))]
fn refine_one(race: &Race, sweeper: &mut Sweeper, card: Card) -> Result<(), NoMemory>
    requires { sweeper_race sweeper.old ≡ race_id race.now }
    ensures race { sweeper_race sweeper.new ≡ sweeper_race sweeper.old }
    ensures start { sweeper_start sweeper.new ≡ sweeper_start sweeper.old }
    ensures swept { OnOk result (card < card_count (race_layout race.now)
        → Contains (sweeper_view sweeper.new).swept card) }
    ensures kept { OnOk result ((other : ℕ) → Contains (sweeper_view sweeper.old).swept other
        → Contains (sweeper_view sweeper.new).swept other) }
{
    let Some(card) = race.layout().card(card.number()) else {
        return Ok(());
    };
    sweeper.refine(race, card)
}

// Refines each of the cards that the heap has.
fn refine_all(race: &Race, sweeper: &mut Sweeper, cards: &[Card]) -> Result<(), NoMemory>
    requires { sweeper_race sweeper.old ≡ race_id race.now }
    ensures race { sweeper_race sweeper.new ≡ sweeper_race sweeper.old }
    ensures start { sweeper_start sweeper.new ≡ sweeper_start sweeper.old }
    ensures swept { OnOk result (All (λ card. card < card_count (race_layout race.now)
        → Contains (sweeper_view sweeper.new).swept card) cards.now) }
{
    for card in cards {
        refine_one(race, sweeper, *card)?;
    }
    Ok(())
}

// The reply of a store of this kind.
fn stored(alloc: Global, kind: Kind, fill: Fill) -> StoreReply
    ensures { (result.kind ≡ kind) × (result.fill ≡ fill) }
{
    StoreReply {
        kind,
        fill,
        refined: CardList::new(alloc),
        short: false,
    }
}

// The reply of a flush of `cards` cards.
fn flushed(alloc: Global, cards: u32, fill: Fill) -> FlushReply
    ensures { (result.cards ≡ cards) × (result.fill ≡ fill) }
{
    FlushReply {
        cards,
        fill,
        refined: CardList::new(alloc),
        short: false,
    }
}

// The reply of a round that took `taken` buffers. Which cards it refined is not counted.
fn worked(alloc: Global, taken: u32) -> RefineReply
    ensures { result.taken ≡ taken }
{
    RefineReply {
        taken,
        refined: CardList::new(alloc),
        hot: 0,
        skipped: 0,
        left: 0,
        short: false,
    }
}

impl<'a, R: Wait> Desk for RaceDesk<'a, R> {
    ghost did = { λ s asks t. PartyDid s.party asks t.party };

    ghost slots = { λ s. slot_count (race_layout s.race.now) };

    ghost may_store = { λ s. is_racer s.party };

    fn store(&mut self, slot: Slot, target: Option<Slot>) -> Result<StoreReply, Refusal> {
        let Party::Racing(racer, sender) = &mut self.party else {
            return Ok(stored(self.alloc, Kind::Null, Fill::No));
        };
        let kind = racer.store(self.race, slot, target);
        let fill = if kind != Kind::Logged {
            Fill::No
        } else if self.logged + 1 < self.fill {
            self.logged += 1;
            Fill::No
        } else {
            self.logged = 0;
            hand_over(self.rt, self.line, racer, sender).1
        };
        Ok(stored(self.alloc, kind, fill))
    }

    fn flush(&mut self) -> Result<FlushReply, Refusal> {
        let Party::Racing(racer, sender) = &mut self.party else {
            return Ok(flushed(self.alloc, 0, Fill::No));
        };
        let (cards, fill) = hand_over(self.rt, self.line, racer, sender);
        self.logged = 0;
        Ok(flushed(self.alloc, cards, fill))
    }

    fn work(&mut self) -> Result<RefineReply, Refusal> {
        let Party::Sweeping(sweeper, taker) = &mut self.party else {
            return Ok(worked(self.alloc, 0));
        };
        let Some(parcel) = self.line.take(self.rt, taker) else {
            return Ok(worked(self.alloc, 0));
        };
        refine_all(self.race, sweeper, parcel.buffer.cards())?;
        Ok(worked(self.alloc, 1))
    }

    ghost none = { λ s. party_did_none s.party };

    ghost then = { λ s t u. party_did_then s.party t.party u.party };
}
