//! Words that are no references: a slot may hold data, which refers to nothing.
ghost use Rattle.std.specs.Prelude.{◌≡◌, ◌<◌, ◌≤◌, ◌^◌};
ghost use Rattle.g1_race.specs.{false, some, get_elem?, slot_count, IsWord, IsFound, race_id};
ghost use Rattle.g1_race.specs.{StoresWordAt};
ghost use Rattle.g1_race.specs.{race_layout, race_shape, racer_log, racer_race, racer_start};
ghost use Rattle.g1_race.specs.{racer_view, reader_race, StoresDataAt};
ghost use Rattle.g1_race.specs.Race as racing;

use crate::paused::holds::HoldsRace;
use crate::paused::reading::Reader;
use crate::paused::{Paused, Writer};
use crate::race::{Race, Racer};
use crate::word::refers_to;
use g1_layout::{Kind, Slot};

impl Racer {
    /// Stores data into a slot: a word from 2^32 on, as a tagged integer, which refers to nothing.
    /// Returns the slot's word as it was: 0 for null, the number of a slot plus 1, or data.
    ///
    /// It is a store as [`Racer::store`] makes it of null: one atomic step, no mark, no log. For
    /// the machinery the slot is null then. Takes no memory and never waits. Any other party may
    /// make its calls concurrently. The racer and the slot must be of this race.
    pub fn store_data(&mut self, race: &Race, slot: Slot, word: u64) -> u64
        requires race { racer_race self.old ≡ race_id race.now }
        requires slot { slot < slot_count (race_layout race.now) }
        requires high { 2 ^ 32 ≤ word }
        ensures race { racer_race self.new ≡ racer_race self.old }
        ensures start { racer_start self.new ≡ racer_start self.old }
        ensures view { racer_view self.new
            ≡ racing.stored_view (race_shape race.now) (racer_view self.old) slot word result
            false }
        ensures log { racer_log self.new ≡ racer_log self.old }
        ensures old { IsFound (racer_view self.old) slot result }
        ensures word { IsWord (race_shape race.now) result }
    {
        race.table
            .write(&mut self.seat, slot.number() as usize, word)
    }
}

impl<R: HoldsRace> Paused<R> {
    /// Stores data into a slot: a word from 2^32 on, which refers to nothing. To the table it is a
    /// store of null. Takes no memory.
    pub fn store_data(&mut self, slot: Slot, word: u64)
        requires slot { slot < slot_count self.old.layout }
        requires high { 2 ^ 32 ≤ word }
        ensures { StoresDataAt self.old slot word self.new }
    {
        let (race, reader) = (self.race.race(), &mut self.reader);
        Writer { race, reader }.put(slot.number() as usize, word);
    }

    /// Stores a word into a slot: null or a reference as [`Paused::store`] does, and data as
    /// [`Paused::store_data`] does. Returns the kind of the store, which is `Null` for data. Takes
    /// no memory. The word must be one that a slot of the heap may have ([`Race::is_word`]).
    pub fn store_word(&mut self, slot: Slot, word: u64) -> Kind
        requires slot { slot < slot_count self.old.layout }
        requires word { IsWord self.old.shape word }
        ensures { StoresWordAt self.old slot word result self.new }
    {
        if word > u32::MAX as u64 {
            self.store_data(slot, word);
            return Kind::Null;
        }
        let layout = self.race.race().layout;
        self.store(slot, refers_to(layout, word))
    }

    /// Returns a slot's word: 0 for null, the number of the slot that it refers to plus 1, or data
    /// from 2^32 on. Reads that word.
    pub fn word(&mut self, slot: Slot) -> u64
        requires slot { slot < slot_count self.old.layout }
        ensures word { get_elem? self.old.words slot ≡ some result }
        ensures fits { IsWord self.old.shape result }
        ensures same { self.new ≡ self.old }
    {
        self.reader.word(self.race.race(), slot)
    }
}

impl Reader {
    /// Returns a slot's word, as [`Paused::word`] does. The reader and the slot must be of this
    /// race.
    pub fn word(&mut self, race: &Race, slot: Slot) -> u64
        requires reader { reader_race self.old ≡ race_id race.now }
        requires slot { slot < slot_count (race_layout race.now) }
        ensures word { get_elem? self.old.start.words slot ≡ some result }
        ensures fits { IsWord self.old.start.shape result }
        ensures same { self.new ≡ self.old }
    {
        self.see(race, slot.number() as usize)
    }
}
