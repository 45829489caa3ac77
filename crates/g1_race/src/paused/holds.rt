//! How a pause owns its race.

use crate::race::Race;
use std::alloc::Global;
use std::sync::Arc;

/// How a pause owns its race: by value or by `Arc`, which is a share of it.
///
/// With a share, the threads that share the race keep their own shares over the pause
/// ([`Paused::of`](crate::Paused::of)).
pub trait HoldsRace {
    ghost use Rattle.std.specs.Prelude.{◌≡◌};
    ghost use Rattle.g1_race.specs.declared.race.Race.{Race};

    ghost held: { Self → Race };

    /// Lends the race.
    fn race(&self) -> &Race
        ensures { result.now ≡ held self.now };
}

impl HoldsRace for Race {
    ghost held = { λ race. race };

    fn race(&self) -> &Race {
        self
    }
}

impl HoldsRace for Arc<Race, Global> {
    ghost use Rattle.g1_race.specs.Prelude.{arc_value};

    ghost held = { arc_value };

    fn race(&self) -> &Race {
        self
    }
}
