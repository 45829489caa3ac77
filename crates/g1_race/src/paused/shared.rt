//! A pause whose race may be shared.
ghost use Rattle.std.specs.Prelude.{◌≡◌};
ghost use Rattle.g1_race.specs.{IfOk, arc_value, race_id, race_layout, race_words};

use crate::paused::Paused;
use crate::race::Race;
use g1_layout::NoMemory;
use std::alloc::Global;
use std::sync::Arc;

impl Paused {
    /// Returns the same pause, which holds its race by a share, and one more share of that race.
    ///
    /// Takes constant time and one allocation, for the race itself and the counts of its shares.
    /// The words of the race stay where they are.
    ///
    /// Returns `NoMemory` if memory was refused: nothing is left of the heap.
    pub fn shared(
        self,
        alloc: Global,
    ) -> Result<(Paused<Arc<Race, Global>>, Arc<Race, Global>), NoMemory>
        ensures same { IfOk result (λ r. r.0 ≡ self) }
        ensures race { IfOk result (λ r.
            race_id (arc_value r.1) ≡ (self.table_id, self.shape)) }
        ensures layout { IfOk result (λ r. race_layout (arc_value r.1) ≡ self.layout) }
        ensures words { IfOk result (λ r. race_words (arc_value r.1) ≡ self.address) }
    {
        let Paused {
            race,
            reader,
            racers,
            sweepers,
        } = self;
        let race = Arc::new(alloc, race)?;
        let share = Arc::try_clone(&race)?;
        let paused = Paused {
            race,
            reader,
            racers,
            sweepers,
        };
        Ok((paused, share))
    }
}
