//! Races of two racers and one sweeper, played by steps.
ghost use Rattle.std.specs.Prelude.{◌≡◌, All, vec_len};
ghost use Rattle.g1_race.specs.Parties.{race_id, racer_race, sweeper_race};

use g1_layout::{Kind, Layout};
use g1_race::{Closed, Paused, Race, Racer, Sweeper};
use std::alloc::Global;
use test_support::numbers::{card, number_of, place, region, slot};
use test_support::{Failure, equal, numbered};

/// A call of a race, and its answer.
#[derive(Clone, Copy, Debug)]
pub(crate) enum Step<'a> {
    /// A store of a place or null into a slot by the racer of this number: its kind.
    Store(usize, u32, Option<u32>, Kind),
    /// The cards that the racer of this number has logged, which it gives up.
    Log(usize, &'a [u32]),
    /// A refinement of a card.
    Refine(u32),
}

/// What is seen of a race that is closed.
#[derive(Clone, Copy, Debug, PartialEq)]
pub(crate) enum Seen {
    /// The place that a slot refers to.
    Target(u32, Option<u32>),
    /// Whether a card is dirty.
    Marked(u32, bool),
    /// Whether a card is recorded for a region.
    Has(u32, u32, bool),
}

/// A heap of nulls at a pause.
pub(crate) fn open(alloc: Global, layout: Layout) -> Result<Paused, Failure> {
    Ok(Paused::open(alloc, layout, 2, 1)?)
}

/// Takes the steps in order, up to the next pause.
pub(crate) fn race_on(rt: &impl Eprint, paused: Paused, steps: &[Step]) -> Result<Paused, Failure> {
    let (race, mut racers, mut sweepers) = paused.resume();
    for step in steps {
        take(rt, &race, &mut racers, &mut sweepers, *step)?;
    }
    Ok(race.pause(racers, sweepers))
}

fn take(
    rt: &impl Eprint,
    race: &Race,
    racers: &mut Vec<Racer>,
    sweepers: &mut Vec<Sweeper>,
    step: Step,
) -> Result<(), Failure>
    requires racers { All (λ r. racer_race r ≡ race_id race.now) racers.old.items }
    requires sweepers { All (λ s. sweeper_race s ≡ race_id race.now) sweepers.old.items }
    ensures racers { All (λ r. racer_race r ≡ race_id race.now) racers.new.items }
    ensures racer_count { vec_len racers.new ≡ vec_len racers.old }
    ensures sweepers { All (λ s. sweeper_race s ≡ race_id race.now) sweepers.new.items }
    ensures sweeper_count { vec_len sweepers.new ≡ vec_len sweepers.old }
{
    let number = match step {
        Step::Store(number, ..) | Step::Log(number, _) => number,
        Step::Refine(_) => 0,
    };
    if number >= racers.len() || sweepers.is_empty() {
        return Err(Failure::Wrong);
    }
    match step {
        Step::Store(_, from, to, kind) => { store(rt, race, &mut racers[number], from, to, kind) }
        Step::Log(_, cards) => {
            let log = racers[number].take_log();
            numbered(rt, "the cards of a log", log.as_slice(), cards)
        }
        Step::Refine(number) => refine(race, &mut sweepers[0], number),
    }
}

fn store(
    rt: &impl Eprint,
    race: &Race,
    racer: &mut Racer,
    from: u32,
    to: Option<u32>,
    kind: Kind,
) -> Result<(), Failure>
    requires { racer_race racer.old ≡ race_id race.now }
    ensures { racer_race racer.new ≡ racer_race racer.old }
{
    let from = slot(race.layout(), from)?;
    let to = place(race.layout(), to)?;
    if !racer.has_room_for(race, &from, &to) {
        return Err(Failure::Wrong);
    }
    equal(rt, "the kind of a store", racer.store(race, from, to), kind)
}

fn refine(race: &Race, sweeper: &mut Sweeper, number: u32) -> Result<(), Failure>
    requires { sweeper_race sweeper.old ≡ race_id race.now }
    ensures { sweeper_race sweeper.new ≡ sweeper_race sweeper.old }
{
    let card = card(race.layout(), number)?;
    Ok(sweeper.refine(race, card)?)
}

/// Looks at a race that is closed.
pub(crate) fn see(rt: &impl Eprint, closed: &Closed, seen: &[Seen]) -> Result<(), Failure> {
    for fact in seen {
        let is = is_seen(closed, fact)?;
        equal(rt, "what a race left", (fact, is), (fact, true))?;
    }
    Ok(())
}

fn is_seen(closed: &Closed, fact: &Seen) -> Result<bool, Failure> {
    let layout = closed.layout();
    Ok(match *fact {
        Seen::Target(of, to) => number_of(closed.target(slot(layout, of)?)) == to,
        Seen::Marked(of, is) => closed.marked(card(layout, of)?) == is,
        Seen::Has(of, into, is) => closed.has(card(layout, of)?, region(layout, into)?) == is,
    })
}
