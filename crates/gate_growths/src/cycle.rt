//! The cycle: making a core of a closed race and a race of a core take memory.
ghost use Rattle.std.specs.Prelude.{◌≡◌, IfOk};
ghost use Rattle.g1_race.specs.Parties.{race_shape, AreFreshRacers, AreFreshSweepers};

use crate::machinery::{REFERENCES, new_core};
use crate::race::{are_refined, closed_after, raced};
use g1_core::{Config, Core};
use g1_layout::NoMemory;
use g1_race::{Closed, Race, Racer, Sweeper};
use test_support::Failure;
use test_support::checks::equal;
use test_support::failure::refused;
use test_support::numbers::small;
use test_support::players::{OnCore, state_of};
use test_support::step::Step::{Drain, Logged, Refine, See};
use test_support::steps::play;

/// A core of a race in which cards 0 and 1 are refined, and card 2 is dirty.
pub(crate) fn race_to_core<R: Eprint + AllocGlobal>(rt: &R) -> Result<(), Failure> {
    are_drained(rt, closed_after(rt, small()?, &REFERENCES, 2)?)
}

/// The same is left of a race that begins with a core.
pub(crate) fn core_to_race<R: Eprint + AllocGlobal>(rt: &R) -> Result<(), Failure> {
    let mut core = new_core(rt, 4, 4)?;
    let steps = [Logged(&REFERENCES), Refine(&[0, 1], &[0, 1], 0, 0)];
    play(rt, &mut core, &steps)?;
    let (race, racers, sweepers) = resumed(rt, core)?;
    let closed = raced(rt, race, racers, sweepers, &[], 0)?;
    are_refined(rt, &closed, 2)?;
    are_drained(rt, closed)
}

// Whether the core of the race has the references, cards 0 and 1 recorded and card 2 pending, and
// drains what the race stored.
fn are_drained<R: Eprint + AllocGlobal>(rt: &R, closed: Closed) -> Result<(), Failure> {
    let steps = [
        See(&REFERENCES, &[2], 2),
        Drain(3, &[0, 2], &[2]),
        See(&REFERENCES, &[], 3),
        Drain(0, &[], &[]),
        Drain(1, &[], &[]),
        Drain(2, &[1], &[]),
    ];
    let mut core = OnCore::over(core_of(rt, closed)?);
    play(rt, &mut core, &steps)
}

// Makes a core of the race. A refused one gives the race back as it was, and is tried again.
fn core_of<R: Eprint + AllocGlobal>(rt: &R, closed: Closed) -> Result<Core, Failure> {
    let config = Config::default();
    match closed.into_core(rt.alloc(), config) {
        Ok(core) => Ok(core),
        Err((closed, NoMemory)) => {
            refused(rt, "Closed::into_core");
            are_refined(rt, &closed, 2)?;
            let again = closed.into_core(rt.alloc(), config);
            again.map_err(|_| Failure::NoMemory)
        }
    }
}

// Makes a race of one racer and one sweeper of the core. A refused one gives the core back as it
// was, and is tried again.
fn resumed<R: Eprint + AllocGlobal>(
    rt: &R,
    mut on: OnCore,
) -> Result<(Race, Vec<Racer>, Vec<Sweeper>), Failure>
    ensures parties { IfOk result (λ r. (race_shape r.0).parties ≡ 2) }
    ensures racers { IfOk result (λ r. AreFreshRacers r.0 1 r.1) }
    ensures sweepers { IfOk result (λ r. AreFreshSweepers r.0 1 r.2) }
{
    let before = state_of(&mut on)?;
    let OnCore { core, .. } = on;
    match Race::from_core(rt.alloc(), core, 1, 1) {
        Ok(made) => Ok(made),
        Err((core, NoMemory)) => {
            refused(rt, "Race::from_core");
            let mut on = OnCore::over(core);
            equal(rt, "what a refused race left", state_of(&mut on)?, before)?;
            let OnCore { core, .. } = on;
            match Race::from_core(rt.alloc(), core, 1, 1) {
                Ok(made) => Ok(made),
                Err((_, NoMemory)) => Err(Failure::NoMemory),
            }
        }
    }
}
