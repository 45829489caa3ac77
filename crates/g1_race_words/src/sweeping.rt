//! The steps of a sweeper.
ghost use Rattle.std.specs.Prelude.{◌≡◌, ◌-◌, ◌<◌, ◌≤◌};
ghost use Rattle.g1_race_words.specs.Prelude.{ℕ, []};
ghost use Rattle.g1_race_words.specs.Rule.{IsWord, bit_index};
ghost use Rattle.g1_race_words.specs.Steps.{cleaned, read, sought, recorded};
ghost use Rattle.g1_race_words.specs.StepKinds.{HasMade, Clean, Read, Seek, Record};
ghost use Rattle.g1_race_words.specs.Seats.{Sits, IsFound, IsMark, HoldsBit};

use crate::table::{RaceSeat, RaceTable};
use crate::view::View;
use atomic_table::Play;

pub(crate) struct Cleans;

impl Play<(), View> for Cleans {
    ghost use Rattle.std.specs.Prelude.{◌≡◌, ◌-◌, ◌≤◌};
    ghost use Rattle.g1_race_words.specs.Steps.{cleaned};
    ghost use Rattle.g1_race_words.specs.StepKinds.{HasMade, Clean};

    ghost then = { λ step before found after.
        (after ≡ (cleaned before.0 (step.word - before.0.shape.slots) found, before.1))
        × (found ≤ 1)
        × HasMade before.0 (Clean (step.word - before.0.shape.slots) found) };
}

pub(crate) struct Reads;

impl Play<(), View> for Reads {
    ghost use Rattle.std.specs.Prelude.{◌≡◌};
    ghost use Rattle.g1_race_words.specs.Rule.{IsWord};
    ghost use Rattle.g1_race_words.specs.Steps.{read};
    ghost use Rattle.g1_race_words.specs.StepKinds.{HasMade, Read};
    ghost use Rattle.g1_race_words.specs.Seats.{IsFound};

    ghost then = { λ step before found after.
        (after ≡ (read before.0 step.word found, before.1)) × IsWord before.0.shape found
        × IsFound before.0 step.word found × HasMade before.0 (Read step.word found) };
}

pub(crate) struct Seeks;

impl Play<(), View> for Seeks {
    ghost use Rattle.std.specs.Prelude.{◌≡◌};
    ghost use Rattle.g1_race_words.specs.Prelude.{ℕ};
    ghost use Rattle.g1_race_words.specs.Steps.{sought};
    ghost use Rattle.g1_race_words.specs.StepKinds.{HasMade, Seek};

    ghost then = { λ step before found after.
        (after ≡ (sought before.0 found, before.1))
        × ((x : ℕ × ℕ) × HasMade before.0 (Seek x found)) };
}

pub(crate) struct Records;

impl Play<(), View> for Records {
    ghost use Rattle.std.specs.Prelude.{◌≡◌};
    ghost use Rattle.g1_race_words.specs.Prelude.{ℕ};
    ghost use Rattle.g1_race_words.specs.Steps.{recorded};
    ghost use Rattle.g1_race_words.specs.StepKinds.{HasMade, Record};

    ghost then = { λ step before found after.
        (after ≡ (recorded before.0, before.1))
        × ((x : ℕ × ℕ) × HasMade before.0 (Record x found)) };
}

impl RaceTable {
    /// Swaps a mark to clean, for a sweeper that has nothing left to read, and returns the mark as
    /// it was. The sweeper then has each slot of the card to read.
    pub fn clean(&self, seat: &mut RaceSeat, mark: usize) -> u64
        requires table { seat.old.table_id ≡ self.now.table_id }
        requires sweeper { Sits self.now.shape seat.old.me.0 }
        requires done { seat.old.me.0.next ≡ seat.old.me.0.end }
        requires mark { IsMark self.now.shape mark }
        ensures table { seat.new.table_id ≡ seat.old.table_id }
        ensures view { seat.new.me
            ≡ (cleaned seat.old.me.0 (mark - seat.old.me.0.shape.slots) result, seat.old.me.1) }
        ensures mark { result ≤ 1 }
        ensures step { HasMade seat.old.me.0 (Clean (mark - seat.old.me.0.shape.slots) result) }
    {
        self.table.shared.swap::<Cleans>(&mut seat.seat, mark, 0)
    }

    /// Reads the next slot, for a sweeper that holds no pair, and returns the slot's word. If the
    /// reference crosses regions, the sweeper holds the slot's pair from then on.
    pub fn read(&self, seat: &mut RaceSeat, slot: usize) -> u64
        requires table { seat.old.table_id ≡ self.now.table_id }
        requires sweeper { Sits self.now.shape seat.old.me.0 }
        requires free { seat.old.me.0.held ≡ [] }
        requires next { seat.old.me.0.next ≡ slot }
        requires unread { slot < seat.old.me.0.end }
        requires slot { slot < self.now.shape.slots }
        ensures table { seat.new.table_id ≡ seat.old.table_id }
        ensures view { seat.new.me ≡ (read seat.old.me.0 slot result, seat.old.me.1) }
        ensures word { IsWord self.now.shape result }
        ensures found { IsFound seat.old.me.0 slot result }
        ensures step { HasMade seat.old.me.0 (Read slot result) }
    {
        self.table.shared.load::<Reads>(&mut seat.seat, slot)
    }

    /// Reads the word with the bit of the pair that a sweeper holds, and returns the word. If the
    /// bit is set in it, the sweeper holds the pair no more. The call touches no slot and no mark.
    pub fn seek(&self, seat: &mut RaceSeat, word: usize) -> u64
        requires table { seat.old.table_id ≡ self.now.table_id }
        requires sweeper { Sits self.now.shape seat.old.me.0 }
        requires pair { (x : ℕ × ℕ) × HoldsBit self.now.shape seat.old.me.0 x word }
        ensures table { seat.new.table_id ≡ seat.old.table_id }
        ensures view { seat.new.me ≡ (sought seat.old.me.0 result, seat.old.me.1) }
        ensures step { (x : ℕ × ℕ) × HasMade seat.old.me.0 (Seek x result) }
    {
        self.table.shared.load::<Seeks>(&mut seat.seat, word)
    }

    /// Sets the bit of the pair that a sweeper holds: the bit `index` of the word. The sweeper
    /// holds the pair no more. The call touches no slot and no mark.
    pub fn record(&self, seat: &mut RaceSeat, word: usize, index: u32)
        requires table { seat.old.table_id ≡ self.now.table_id }
        requires sweeper { Sits self.now.shape seat.old.me.0 }
        requires pair { (x : ℕ × ℕ) × HoldsBit self.now.shape seat.old.me.0 x word
            × (index ≡ bit_index self.now.shape x) }
        ensures table { seat.new.table_id ≡ seat.old.table_id }
        ensures view { seat.new.me ≡ (recorded seat.old.me.0, seat.old.me.1) }
        ensures step { (x : ℕ × ℕ) × (found : ℕ) × HasMade seat.old.me.0 (Record x found) }
    {
        self.table
            .shared
            .fetch_or::<Records>(&mut seat.seat, word, 1 << index);
    }
}
