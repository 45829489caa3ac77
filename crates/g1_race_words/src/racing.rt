//! The steps of a racer.
ghost use Rattle.std.specs.Prelude.{◌≡◌, ◌-◌, ◌<◌, ◌≤◌, ◌∷◌};
ghost use Rattle.g1_race_words.specs.Prelude.{ℕ, [], None};
ghost use Rattle.g1_race_words.specs.Rule.{StoreHistory, IsWord, bit_index, flag};
ghost use Rattle.g1_race_words.specs.Steps.{wrote, exchanged, looked, spotted, raised, owed_card};
ghost use Rattle.g1_race_words.specs.Steps.{dirtied};
ghost use Rattle.g1_race_words.specs.StepKinds.{HasMade, Write, Exchange, Look, Dirty, Spot};
ghost use Rattle.g1_race_words.specs.StepKinds.{Raise};
ghost use Rattle.g1_race_words.specs.Seats.{Sits, IsFound, OwesMark, OwesFlag};

use crate::table::{RaceSeat, RaceTable};
use crate::view::View;
use atomic_table::Play;

pub(crate) struct Writes;

impl Play<(), View> for Writes {
    ghost use Rattle.std.specs.Prelude.{◌≡◌};
    ghost use Rattle.g1_race_words.specs.Steps.{wrote};
    ghost use Rattle.g1_race_words.specs.StepKinds.{HasMade, Write};
    ghost use Rattle.g1_race_words.specs.Seats.{IsFound};

    ghost then = { λ step before found after.
        (after ≡ (wrote before.0 step.word step.first found, before.1))
        × IsFound before.0 step.word found
        × HasMade before.0 (Write step.word step.first found) };
}

pub(crate) struct Exchanges;

impl Play<(), View> for Exchanges {
    ghost use Rattle.std.specs.Prelude.{◌≡◌};
    ghost use Rattle.g1_race_words.specs.Steps.{exchanged};
    ghost use Rattle.g1_race_words.specs.StepKinds.{HasMade, Exchange};
    ghost use Rattle.g1_race_words.specs.Seats.{IsFound};

    ghost then = { λ step before found after.
        (after ≡ (exchanged before.0 step.word step.first step.second found, before.1))
        × IsFound before.0 step.word found
        × HasMade before.0 (Exchange step.word step.first step.second found) };
}

pub(crate) struct Looks;

impl Play<(), View> for Looks {
    ghost use Rattle.std.specs.Prelude.{◌≡◌, ◌-◌, ◌≤◌};
    ghost use Rattle.g1_race_words.specs.Steps.{looked};
    ghost use Rattle.g1_race_words.specs.StepKinds.{HasMade, Look};

    ghost then = { λ step before found after.
        (after ≡ (looked before.0 found, before.1)) × (found ≤ 1)
        × HasMade before.0 (Look (step.word - before.0.shape.slots) found) };
}

pub(crate) struct Spots;

impl Play<(), View> for Spots {
    ghost use Rattle.std.specs.Prelude.{◌≡◌};
    ghost use Rattle.g1_race_words.specs.Prelude.{ℕ};
    ghost use Rattle.g1_race_words.specs.Steps.{spotted};
    ghost use Rattle.g1_race_words.specs.StepKinds.{HasMade, Spot};

    ghost then = { λ step before found after.
        (after ≡ (spotted before.0 found, before.1))
        × ((card : ℕ) × HasMade before.0 (Spot card found)) };
}

pub(crate) struct Raises;

impl Play<(), View> for Raises {
    ghost use Rattle.std.specs.Prelude.{◌≡◌};
    ghost use Rattle.g1_race_words.specs.Prelude.{ℕ};
    ghost use Rattle.g1_race_words.specs.Steps.{raised};
    ghost use Rattle.g1_race_words.specs.StepKinds.{HasMade, Raise};

    ghost then = { λ step before found after.
        (after ≡ (raised before.0, before.1))
        × ((card : ℕ) × HasMade before.0 (Raise card found)) };
}

pub(crate) struct Dirties;

impl Play<(), View> for Dirties {
    ghost use Rattle.std.specs.Prelude.{◌≡◌, ◌-◌, ◌≤◌};
    ghost use Rattle.g1_race_words.specs.Steps.{dirtied};
    ghost use Rattle.g1_race_words.specs.StepKinds.{HasMade, Dirty};

    ghost then = { λ step before found after.
        (after ≡ (dirtied before.0 (step.word - before.0.shape.slots) found, before.1))
        × (found ≤ 1)
        × HasMade before.0 (Dirty (step.word - before.0.shape.slots) found) };
}

impl RaceTable {
    /// Writes a slot, for a racer that owes no card. `word` is 0 for null, or the number of the
    /// target slot plus 1, or data from 2^32 on. If the reference crosses regions, the racer owes
    /// the slot's card from then on. Returns the slot's word as it was.
    pub fn write(&self, seat: &mut RaceSeat, slot: usize, word: u64) -> u64
        requires table { seat.old.table_id ≡ self.now.table_id }
        requires racer { Sits self.now.shape seat.old.me.0
            × ((h : StoreHistory) × (seat.old.me.0.histories ≡ h ∷ [])) }
        requires free { seat.old.me.0.owed ≡ None }
        requires slot { slot < self.now.shape.slots }
        requires word { IsWord self.now.shape word }
        ensures table { seat.new.table_id ≡ seat.old.table_id }
        ensures view { seat.new.me ≡ (wrote seat.old.me.0 slot word result, seat.old.me.1) }
        ensures found { IsFound seat.old.me.0 slot result }
        ensures step { HasMade seat.old.me.0 (Write slot word result) }
    {
        self.table.shared.swap::<Writes>(&mut seat.seat, slot, word)
    }

    /// As [`RaceTable::write`] where the slot has the word that is expected; else nothing changes.
    /// Returns the slot's word as it was.
    pub fn exchange(&self, seat: &mut RaceSeat, slot: usize, expected: u64, word: u64) -> u64
        requires table { seat.old.table_id ≡ self.now.table_id }
        requires racer { Sits self.now.shape seat.old.me.0
            × ((h : StoreHistory) × (seat.old.me.0.histories ≡ h ∷ [])) }
        requires free { seat.old.me.0.owed ≡ None }
        requires slot { slot < self.now.shape.slots }
        requires word { IsWord self.now.shape word }
        ensures table { seat.new.table_id ≡ seat.old.table_id }
        ensures view { seat.new.me
            ≡ (exchanged seat.old.me.0 slot expected word result, seat.old.me.1) }
        ensures found { IsFound seat.old.me.0 slot result }
        ensures step { HasMade seat.old.me.0 (Exchange slot expected word result) }
    {
        self.table
            .shared
            .compare_exchange::<Exchanges>(&mut seat.seat, slot, expected, word)
    }

    /// Reads the mark of the card that a racer owes, and returns it. If the mark is dirty, the
    /// racer owes the card no more.
    pub fn look(&self, seat: &mut RaceSeat, mark: usize) -> u64
        requires table { seat.old.table_id ≡ self.now.table_id }
        requires racer { Sits self.now.shape seat.old.me.0 }
        requires mark { OwesMark self.now.shape seat.old.me.0 mark }
        ensures table { seat.new.table_id ≡ seat.old.table_id }
        ensures view { seat.new.me ≡ (looked seat.old.me.0 result, seat.old.me.1) }
        ensures mark { result ≤ 1 }
        ensures step { HasMade seat.old.me.0 (Look (mark - seat.old.me.0.shape.slots) result) }
    {
        self.table.shared.load::<Looks>(&mut seat.seat, mark)
    }

    /// Reads the word with the flag of the card that a racer owes, and returns the word. If the
    /// flag is set in it, the racer knows that it is set. The call touches no slot and no mark.
    pub fn spot(&self, seat: &mut RaceSeat, word: usize) -> u64
        requires table { seat.old.table_id ≡ self.now.table_id }
        requires racer { Sits self.now.shape seat.old.me.0 }
        requires flag { (card : ℕ) × OwesFlag self.now.shape seat.old.me.0 card word }
        ensures table { seat.new.table_id ≡ seat.old.table_id }
        ensures view { seat.new.me ≡ (spotted seat.old.me.0 result, seat.old.me.1) }
        ensures step { (card : ℕ) × HasMade seat.old.me.0 (Spot card result) }
    {
        self.table.shared.load::<Spots>(&mut seat.seat, word)
    }

    /// Sets the flag of the card that a racer owes: the bit `index` of the word. The racer then
    /// knows that the flag is set. The call touches no slot and no mark.
    pub fn raise(&self, seat: &mut RaceSeat, word: usize, index: u32)
        requires table { seat.old.table_id ≡ self.now.table_id }
        requires racer { Sits self.now.shape seat.old.me.0 }
        requires flag { (card : ℕ) × OwesFlag self.now.shape seat.old.me.0 card word
            × (index ≡ bit_index self.now.shape (flag self.now.shape card)) }
        ensures table { seat.new.table_id ≡ seat.old.table_id }
        ensures view { seat.new.me ≡ (raised seat.old.me.0, seat.old.me.1) }
        ensures step { (card : ℕ) × (found : ℕ) × HasMade seat.old.me.0 (Raise card found) }
    {
        self.table
            .shared
            .fetch_or::<Raises>(&mut seat.seat, word, 1 << index);
    }

    /// Swaps the mark of the card that a racer owes to dirty, and returns the mark as it was. The
    /// racer must know that the card's flag is set. It owes the card no more. If the mark was
    /// clean, the racer has claimed the card.
    pub fn dirty(&self, seat: &mut RaceSeat, mark: usize) -> u64
        requires table { seat.old.table_id ≡ self.now.table_id }
        requires racer { Sits self.now.shape seat.old.me.0 }
        requires mark { OwesMark self.now.shape seat.old.me.0 mark }
        requires flag { seat.old.me.0.flagged ≡ owed_card seat.old.me.0.owed }
        ensures table { seat.new.table_id ≡ seat.old.table_id }
        ensures view { seat.new.me
            ≡ (dirtied seat.old.me.0 (mark - seat.old.me.0.shape.slots) result, seat.old.me.1) }
        ensures mark { result ≤ 1 }
        ensures step { HasMade seat.old.me.0 (Dirty (mark - seat.old.me.0.shape.slots) result) }
    {
        self.table.shared.swap::<Dirties>(&mut seat.seat, mark, 1)
    }
}
