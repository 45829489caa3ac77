//! How a race ends, and what holds then.
ghost use Rattle.std.specs.Prelude.{◌≡◌, ◌+◌};
ghost use Rattle.g1_race.specs.{All, map, vec_len, ended_of, race_id, race_shape, racer_race};
ghost use Rattle.g1_race.specs.{sweeper_race, racer_view, sweeper_view, HasEnded};

use crate::ended::Closed;
use crate::paused::Paused;
use crate::paused::reading::Reader;
use crate::race::{Race, Racer, Sweeper};

impl Race {
    /// Ends the race. All its racers and sweepers must be handed in. The words and the recorded
    /// pairs stay, and what [`Race::pause`] says holds of them. It is such a pause and then
    /// [`Paused::close`]. Takes no memory. Logs that were not taken are dropped; the marks stay.
    pub fn close(self, racers: Vec<Racer>, sweepers: Vec<Sweeper>) -> Closed
        requires racers { (vec_len racers + vec_len sweepers ≡ (race_shape self).parties)
            × All (λ r. racer_race r ≡ race_id self) racers.items }
        requires sweepers { All (λ w. sweeper_race w ≡ race_id self) sweepers.items }
        ensures { HasEnded self (map racer_view racers.items) (map sweeper_view sweepers.items)
            result }
    {
        self.pause(racers, sweepers).close()
    }
}

impl Paused {
    /// Ends the races over this heap. Its words and recorded pairs stay, for a core that is made of
    /// them ([`Closed::into_core`]). The logs are dropped; the marks stay.
    ///
    /// Takes no memory and copies no word.
    pub fn close(self) -> Closed
        ensures { result ≡ ended_of self }
    {
        let Paused {
            race,
            reader,
            racers: _,
            sweepers: _,
        } = self;
        let Reader { seat } = reader;
        let Race {
            table,
            layout,
            shape,
        } = race;
        Closed {
            words: table.close(seat),
            layout,
            shape,
        }
    }
}
