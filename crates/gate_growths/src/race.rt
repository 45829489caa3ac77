//! The race: opening it takes memory, and refinement takes none.
ghost use Rattle.std.specs.Prelude.{◌≡◌, IfOk};
ghost use Rattle.g1_race.specs.Parties.{race_id, race_shape, racer_race, sweeper_race};
ghost use Rattle.g1_race.specs.Parties.{AreFreshRacers, AreFreshSweepers};

use crate::machinery::REFERENCES;
use g1_layout::{Kind, Layout};
use g1_race::{Closed, Race, Racer, Sweeper};
use test_support::Failure;
use test_support::checks::equal;
use test_support::failure::retried;
use test_support::numbers::{card, number_of, region, slot, small};
use test_support::steps::place_of;

// A race of one racer and one sweeper.
fn new_race<R: Eprint + AllocGlobal>(
    rt: &R,
    layout: Layout,
) -> Result<(Race, Vec<Racer>, Vec<Sweeper>), Failure>
    ensures parties { IfOk result (λ r. (race_shape r.0).parties ≡ 2) }
    ensures racers { IfOk result (λ r. AreFreshRacers r.0 1 r.1) }
    ensures sweepers { IfOk result (λ r. AreFreshSweepers r.0 1 r.2) }
{
    let alloc = rt.alloc();
    retried(rt, "Race::open", || Race::open(alloc, layout, 1, 1))
}

/// A race with no store has nulls and clean cards, and nothing recorded.
pub(crate) fn untouched<R: Eprint + AllocGlobal>(rt: &R) -> Result<(), Failure> {
    are_seen(rt, &closed_after(rt, small()?, &[], 0)?, &[], 0)
}

/// A race that was closed after these stores and a refinement of the first cards.
pub(crate) fn closed_after<R: Eprint + AllocGlobal>(
    rt: &R,
    layout: Layout,
    references: &[(u32, u32)],
    cards: u32,
) -> Result<Closed, Failure> {
    let (race, racers, sweepers) = new_race(rt, layout)?;
    raced(rt, race, racers, sweepers, references, cards)
}

/// The same of a race that has begun.
pub(crate) fn raced(
    rt: &impl Eprint,
    race: Race,
    mut racers: Vec<Racer>,
    mut sweepers: Vec<Sweeper>,
    references: &[(u32, u32)],
    cards: u32,
) -> Result<Closed, Failure>
    requires parties { (race_shape race).parties ≡ 2 }
    requires racers { AreFreshRacers race 1 racers }
    requires sweepers { AreFreshSweepers race 1 sweepers }
{
    stored(rt, &race, &mut racers[0], references)?;
    refined(&race, &mut sweepers[0], cards)?;
    Ok(race.close(racers, sweepers))
}

// Stores references into other regions, whose cards are logged.
fn stored(
    rt: &impl Eprint,
    race: &Race,
    racer: &mut Racer,
    references: &[(u32, u32)],
) -> Result<(), Failure>
    requires race { racer_race racer.old ≡ race_id race.now }
    ensures race { racer_race racer.new ≡ racer_race racer.old }
{
    for reference in references {
        let from = slot(race.layout(), reference.0)?;
        let to = slot(race.layout(), reference.1)?;
        if !racer.has_room() {
            return Err(Failure::Wrong);
        }
        let kind = racer.store(race, from, Some(to));
        equal(rt, "a store of a race", kind, Kind::Logged)?;
    }
    Ok(())
}

// Refines the first cards in order.
fn refined(race: &Race, sweeper: &mut Sweeper, cards: u32) -> Result<(), Failure>
    requires race { sweeper_race sweeper.old ≡ race_id race.now }
    ensures race { sweeper_race sweeper.new ≡ sweeper_race sweeper.old }
{
    for number in 0..cards {
        let card = card(race.layout(), number)?;
        let Ok(()) = sweeper.refine(race, card) else {
            unreachable!()
        };
    }
    Ok(())
}

/// Whether the slots refer where they were stored to, the first cards are clean and recorded, and
/// the others dirty and not recorded.
pub(crate) fn are_refined(rt: &impl Eprint, closed: &Closed, done: u32) -> Result<(), Failure> {
    are_seen(rt, closed, &REFERENCES, done)
}

// The same of these references, each in the first slot of the next card.
fn are_seen(
    rt: &impl Eprint,
    closed: &Closed,
    references: &[(u32, u32)],
    done: u32,
) -> Result<(), Failure> {
    for number in 0..32 {
        let place = place_after(closed, number)?;
        equal(
            rt,
            "a slot after a race",
            place,
            place_of(references, number),
        )?;
    }
    for number in 0..8 {
        let into = match place_of(references, 4 * number) {
            Some(place) => Some(place / 8),
            None => None,
        };
        let dirty = into.is_some() && number >= done;
        let card = card(closed.layout(), number)?;
        equal(
            rt,
            "a mark after a race",
            (number, closed.marked(card)),
            (number, dirty),
        )?;
        for of in 0..4 {
            let has = closed.has(card, region(closed.layout(), of)?);
            let wanted = number < done && into == Some(of);
            equal(
                rt,
                "a pair after a race",
                (number, of, has),
                (number, of, wanted),
            )?;
        }
    }
    Ok(())
}

/// The number of the place that the slot of this number refers to after a race.
pub(crate) fn place_after(closed: &Closed, number: u32) -> Result<Option<u32>, Failure> {
    let from = slot(closed.layout(), number)?;
    Ok(number_of(closed.target(from)))
}
