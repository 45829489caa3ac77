//! Stores that return what the slot had before, or depend on it.
ghost use Rattle.std.specs.Prelude.{◌≡◌, ◌<◌, ◌++◌, ◌↔◌, ◌∷◌, if◌then◌else◌};
ghost use Rattle.g1_race.specs.{[], IsTrue, IfSome, IfOk, IfErr, slot_card, crosses};
ghost use Rattle.g1_race.specs.{IsWord, IsFound, slot_count, word_of, race_id, race_layout};
ghost use Rattle.g1_race.specs.{race_shape, racer_race, racer_start, racer_view, HasNotStored};
ghost use Rattle.g1_race.specs.{HasStored, IsKind, is_logged, HasOverwritten, HasDiffered};
ghost use Rattle.g1_race.specs.{HasStoredWord, HasOtherWord, HasRoomToStore};

use crate::paused::access::crosses;
use crate::race::barrier::claim;
use crate::race::{Race, Racer};
use crate::word::{is_reference, refers_to, word_of};
use g1_layout::{Kind, Slot};

impl Race {
    /// Returns whether a slot of the heap may have this word: it is 0 for null, the number of a
    /// slot plus 1, or data from 2^32 on.
    pub fn is_word(&self, word: u64) -> bool
        ensures { IsTrue result ↔ IsWord (race_shape self.now) word }
    {
        word <= self.shape.slots as u64 || word > u32::MAX as u64
    }
}

impl Racer {
    /// Stores as [`Racer::store`] does, and also returns what the store overwrote, for a collector
    /// that marks from a snapshot. That is what some racer stored to the slot before, or what the
    /// slot began with; `None` also where it had data.
    ///
    /// One atomic step reads the old word and writes the new one. So what one store wrote is
    /// overwritten by one other at most. It costs what the store does.
    pub fn swap(&mut self, race: &Race, slot: Slot, target: Option<Slot>) -> (Kind, Option<Slot>)
        requires race { racer_race self.old ≡ race_id race.now }
        requires slot { slot < slot_count (race_layout race.now) }
        requires target { IfSome target (λ place. place < slot_count (race_layout race.now)) }
        requires room { HasRoomToStore (race_shape race.now) slot (word_of target) self.old }
        ensures race { racer_race self.new ≡ racer_race self.old }
        ensures start { racer_start self.new ≡ racer_start self.old }
        ensures kind { IsKind (race_shape race.now) slot target result.0 }
        ensures view { HasOverwritten (race_shape race.now) slot (word_of target) result.1
            (is_logged result.0) (racer_view self.old) (racer_view self.new) }
        ensures log { self.new.log.items ≡ (if is_logged result.0
            then self.old.log.items ++ slot_card (race_shape race.now) slot ∷ []
            else self.old.log.items) }
        ensures within { IfSome result.1 (λ place. place < slot_count (race_layout race.now)) }
    {
        let (kind, old) = self.write(race, slot, target);
        (kind, refers_to(race.layout, old))
    }

    /// Stores as [`Racer::store`] does if the slot has what is expected; one atomic step compares
    /// and writes. Otherwise nothing changes, and the error is what the slot refers to. That is
    /// `None` also where it has data, even if null was expected.
    ///
    /// Takes no memory and never waits. The racer, the slot and both places must be of this race,
    /// and the log must have room for the store of the target ([`Racer::has_room_for`]).
    pub fn compare_exchange(
        &mut self,
        race: &Race,
        slot: Slot,
        expected: Option<Slot>,
        target: Option<Slot>,
    ) -> Result<Kind, Option<Slot>>
        requires race { racer_race self.old ≡ race_id race.now }
        requires slot { slot < slot_count (race_layout race.now) }
        requires expected { IfSome expected (λ place. place < slot_count (race_layout race.now)) }
        requires target { IfSome target (λ place. place < slot_count (race_layout race.now)) }
        requires room { HasRoomToStore (race_shape race.now) slot (word_of target) self.old }
        ensures race { racer_race self.new ≡ racer_race self.old }
        ensures start { racer_start self.new ≡ racer_start self.old }
        ensures stored_view { IfOk result (λ kind.
            HasStored (race_shape race.now) slot target (word_of expected) kind self.old
            self.new) }
        ensures expected { IfOk result (λ kind.
            IsFound (racer_view self.old) slot (word_of expected)) }
        ensures failed { IfErr result (λ found.
            HasDiffered (racer_view self.old) slot expected found) }
        ensures same { IfErr result (λ found. HasNotStored self.old self.new) }
        ensures within { IfErr result (λ found.
            IfSome found (λ place. place < slot_count (race_layout race.now))) }
    {
        let word = word_of(target);
        let across = crosses(race.layout, &slot, &target);
        match self.exchange(race, slot, word_of(expected), word, across) {
            Ok(kind) => Ok(kind),
            Err(found) => Err(refers_to(race.layout, found)),
        }
    }

    /// Stores a word into a slot, for slots that may hold data: 0 for null, the number of a slot
    /// plus 1 for a reference to it, or data from 2^32 on. Returns the kind of the store, and the
    /// word that it overwrote, which is what some racer stored to the slot before, or what the slot
    /// began with.
    ///
    /// A word that refers to a slot is stored as [`Racer::store`] does, and any other as null: it
    /// marks and logs nothing, and its kind is `Null`. One atomic step reads the old word and
    /// writes the new one. Takes no memory and never waits. The racer, the slot and the word must
    /// be of this race ([`Race::is_word`]), and the log must have room for the store
    /// ([`Racer::has_room_for_word`]).
    pub fn swap_word(&mut self, race: &Race, slot: Slot, word: u64) -> (Kind, u64)
        requires race { racer_race self.old ≡ race_id race.now }
        requires slot { slot < slot_count (race_layout race.now) }
        requires word { IsWord (race_shape race.now) word }
        requires room { HasRoomToStore (race_shape race.now) slot word self.old }
        ensures race { racer_race self.new ≡ racer_race self.old }
        ensures start { racer_start self.new ≡ racer_start self.old }
        ensures stored { HasStoredWord (race_shape race.now) slot word result.1 result.0 self.old
            self.new }
        ensures fits { IsWord (race_shape race.now) result.1 }
    {
        match word {
            0 => self.write(race, slot, None),
            1..=0xFFFF_FFFF => self.write(race, slot, refers_to(race.layout, word)),
            _ => (Kind::Null, self.store_data(race, slot, word)),
        }
    }

    /// Stores a word as [`Racer::swap_word`] does if the slot has the word that is expected: null,
    /// a reference or data. One atomic step compares and writes. Otherwise nothing changes, and the
    /// error is the word that the slot has. A word that no slot can have is never found.
    ///
    /// Takes no memory and never waits. The racer, the slot and the new word must be of this race,
    /// and the log must have room for the store of that word.
    pub fn compare_exchange_word(
        &mut self,
        race: &Race,
        slot: Slot,
        expected: u64,
        word: u64,
    ) -> Result<Kind, u64>
        requires race { racer_race self.old ≡ race_id race.now }
        requires slot { slot < slot_count (race_layout race.now) }
        requires word { IsWord (race_shape race.now) word }
        requires room { HasRoomToStore (race_shape race.now) slot word self.old }
        ensures race { racer_race self.new ≡ racer_race self.old }
        ensures start { racer_start self.new ≡ racer_start self.old }
        ensures stored { IfOk result (λ kind.
            HasStoredWord (race_shape race.now) slot word expected kind self.old self.new) }
        ensures failed { IfErr result (λ found.
            HasOtherWord (race_shape race.now) (racer_view self.old) slot expected found) }
        ensures same { IfErr result (λ found. HasNotStored self.old self.new) }
    {
        let across = crosses(race.layout, &slot, &refers_to(race.layout, word));
        self.exchange(race, slot, expected, word, across)
    }

    // The same, where it is known whether the word refers into another region.
    #[inline(always)]
    fn exchange(
        &mut self,
        race: &Race,
        slot: Slot,
        expected: u64,
        word: u64,
        across: bool,
    ) -> Result<Kind, u64>
        requires race { racer_race self.old ≡ race_id race.now }
        requires slot { slot < slot_count (race_layout race.now) }
        requires word { IsWord (race_shape race.now) word }
        requires across { across ≡ crosses (race_shape race.now) slot word }
        requires room { HasRoomToStore (race_shape race.now) slot word self.old }
        ensures race { racer_race self.new ≡ racer_race self.old }
        ensures start { racer_start self.new ≡ racer_start self.old }
        ensures stored { IfOk result (λ kind.
            HasStoredWord (race_shape race.now) slot word expected kind self.old self.new) }
        ensures failed { IfErr result (λ found.
            HasOtherWord (race_shape race.now) (racer_view self.old) slot expected found) }
        ensures same { IfErr result (λ found. HasNotStored self.old self.new) }
    {
        let card = race.layout.card_of(slot);
        let mark = race.shape.slots + card.number() as usize;
        let found = race
            .table
            .exchange(&mut self.seat, slot.number() as usize, expected, word);
        if found != expected {
            return Err(found);
        }
        if !across {
            return Ok(if is_reference(word) {
                Kind::SameRegion
            } else {
                Kind::Null
            });
        }
        if !claim(race, &mut self.seat, card, mark) {
            return Ok(Kind::AlreadyDirty);
        }
        self.log.push(card);
        Ok(Kind::Logged)
    }
}
