//! Where the words of a race lie, for a runtime that reads its fields there.
ghost use Rattle.std.specs.Prelude.{◌≡◌};
ghost use Rattle.g1_race.specs.{race_words};

use crate::paused::Paused;
use crate::paused::holds::HoldsRace;
use crate::race::Race;

impl Race {
    /// Returns the address of the race's words: 8 bytes for each slot in order, and behind them
    /// what the machinery keeps. A slot's word is 0 for null, the number of the slot that it refers
    /// to plus 1, or data from 2^32 on.
    ///
    /// The words are the references: there is no other copy, so what a load finds there is what the
    /// last store to the slot wrote. They stay where they are from the birth of the heap to its
    /// end, over each pause. Whoever loads a slot there does so by an atomic load of its whole
    /// word, and never writes there (docs/rattle.md, Fields that are the race's words).
    pub fn words(&self) -> *const u64
        ensures { result ≡ race_words self.now }
    {
        self.table.words()
    }
}

impl<R: HoldsRace> Paused<R> {
    /// As [`Race::words`]: the address is the same before, at and after each pause.
    pub fn words(&self) -> *const u64
        ensures { result ≡ self.now.address }
    {
        self.race.race().words()
    }
}
