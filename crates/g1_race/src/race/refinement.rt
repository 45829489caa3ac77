//! Concurrent refinement, which races with stores.
ghost use Rattle.std.specs.Prelude.{◌≡◌, ◌+◌, ◌-◌, ◌*◌, ◌<◌, ◌∷◌, if◌then◌else◌};
ghost use Rattle.g1_race.specs.Prelude.{Bool, [], length, IsPair, IsWord, slot_card};
ghost use Rattle.g1_race.specs.Prelude.{start_of, pair_at, recorded, slot_count, card_count};
ghost use Rattle.std.specs.Result.{IsOk};
ghost use Rattle.g1_race.specs.Parties.{race_id, race_layout, sweeper_race, sweeper_start};
ghost use Rattle.g1_race.specs.Parties.{sweeper_view, IsSweeperSeat, Recording, Holding};
ghost use Rattle.g1_race.specs.Parties.{HasCleaned};

use crate::bits::bit_of;
use crate::race::{Race, Sweeper};
use crate::word::pair_at;
use g1_layout::{Card, NoMemory};
use g1_race_words::RaceSeat;

/// What a sweeper found as it refined a card.
#[derive(Clone, Copy, Debug, PartialEq, Eq)]
pub struct Swept {
    /// Whether the card was dirty.
    pub was_dirty: bool,
    /// How many of its slots refer into another region. The pair of each is recorded.
    pub references: u64,
}

impl Sweeper {
    /// Refines a card, whether it is dirty or not. Swaps its mark to clean, then reads each of its
    /// slots in order, and records the pair (card, region) of each reference into another region.
    ///
    /// A store of a reference into another region that comes too late to be read dirties the card
    /// again, so nothing is lost. A pair is recorded by its bit among the words of the race. The
    /// bit is read first, and set in one step if it is clear.
    ///
    /// Takes no memory, so it always returns `Ok`, and never waits. Any other party may make its
    /// calls concurrently. The sweeper and the card must be of this race.
    pub fn refine(&mut self, race: &Race, card: Card) -> Result<(), NoMemory>
        requires race { sweeper_race self.old ≡ race_id race.now }
        requires card { card < card_count (race_layout race.now) }
        ensures done { IsOk result }
        ensures race { sweeper_race self.new ≡ sweeper_race self.old }
        ensures start { sweeper_start self.new ≡ sweeper_start self.old }
        ensures swept { (sweeper_view self.new).swept ≡ card ∷ (sweeper_view self.old).swept }
        ensures clean { (was_dirty : Bool) × HasCleaned (sweeper_view self.old) card was_dirty
            × ((sweeper_view self.new).cleanings
            ≡ (if was_dirty then card ∷ (sweeper_view self.old).cleanings
            else (sweeper_view self.old).cleanings)) }
    {
        let _swept = self.sweep(race, card);
        Ok(())
    }

    /// Refines a card as [`Sweeper::refine`] does, and returns what it found.
    #[inline(always)]
    pub fn sweep(&mut self, race: &Race, card: Card) -> Swept
        requires race { sweeper_race self.old ≡ race_id race.now }
        requires card { card < card_count (race_layout race.now) }
        ensures race { sweeper_race self.new ≡ sweeper_race self.old }
        ensures start { sweeper_start self.new ≡ sweeper_start self.old }
        ensures swept { (sweeper_view self.new).swept ≡ card ∷ (sweeper_view self.old).swept }
        ensures clean { HasCleaned (sweeper_view self.old) card result.was_dirty }
        ensures cleaned { (sweeper_view self.new).cleanings
            ≡ (if result.was_dirty then card ∷ (sweeper_view self.old).cleanings
            else (sweeper_view self.old).cleanings) }
        ensures references { length (sweeper_view self.new).pairs
            ≡ length (sweeper_view self.old).pairs + result.references }
    {
        sweep(race, &mut self.seat, card.number() as usize)
    }
}

// Cleans a card, and then reads its slots.
#[tactic(auto, using(crate::proofs::has_cleaned))]
#[inline(always)]
fn sweep(race: &Race, seat: &mut RaceSeat, card: usize) -> Swept
    requires seat { IsSweeperSeat race.now.table.table_id race.now.shape seat.old }
    requires card { card < race.now.shape.cards }
    ensures seat { IsSweeperSeat race.now.table.table_id race.now.shape seat.new }
    ensures start { start_of seat.new.me.0 ≡ start_of seat.old.me.0 }
    ensures swept { seat.new.me.0.swept ≡ card ∷ seat.old.me.0.swept }
    ensures clean { HasCleaned seat.old.me.0 card result.was_dirty }
    ensures cleaned { seat.new.me.0.cleanings
        ≡ (if result.was_dirty then card ∷ seat.old.me.0.cleanings
        else seat.old.me.0.cleanings) }
    ensures references { length seat.new.me.0.pairs
        ≡ length seat.old.me.0.pairs + result.references }
{
    let shape = race.shape;
    let words = &race.table;
    let was_dirty = words.clean(seat, shape.slots + card) == 1;
    let mut references = 0;
    for i in 0..shape.size {
        let slot = card * shape.size + i;
        let word = words.read(seat, slot);
        if note_slot(race, seat, card, slot, word) {
            references += 1;
        }
    }
    Swept {
        was_dirty,
        references,
    }
}

// Records the pair of the word of one of the card's slots, if it refers into another region.
// Returns whether it does.
#[inline(always)]
fn note_slot(race: &Race, seat: &mut RaceSeat, card: usize, slot: usize, word: u64) -> bool
    requires slot { slot < slot_count race.now.layout }
    requires card { card ≡ slot_card race.now.shape slot }
    requires word { IsWord race.now.shape word }
    requires seat { Recording race.now.table.table_id race.now.shape slot word seat.old }
    ensures table { seat.new.table_id ≡ seat.old.table_id }
    ensures seat { seat.new.me ≡ (recorded seat.old.me.0, seat.old.me.1) }
    ensures pairs { length (pair_at race.now.shape slot word) ≡ (if result then 1 else 0) }
{
    let Some((card, region)) = pair_at(race, card, slot, word) else {
        return false;
    };
    record_pair(race, seat, card, region);
    true
}

// Makes sure that the bit of the pair is set.
fn record_pair(race: &Race, seat: &mut RaceSeat, card: usize, region: usize)
    requires pair { IsPair race.now.shape (card, region) }
    requires seat { Holding race.now.table.table_id race.now.shape (card, region) seat.old }
    ensures table { seat.new.table_id ≡ seat.old.table_id }
    ensures seat { seat.new.me ≡ (recorded seat.old.me.0, seat.old.me.1) }
{
    let words = &race.table;
    let (at, index) = bit_of(race.shape, card, region);
    let found = words.seek(seat, at);
    if (found >> index) & 1 == 1 {
        return;
    }
    words.record(seat, at, index);
}
