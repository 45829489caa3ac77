//! A race whose racers and sweepers run in threads of their own.
ghost use Rattle.std.specs.Prelude.{◌≡◌, ◌<◌, All, vec_len};
ghost use Rattle.g1_race.specs.Parties.{race_id, racer_race, sweeper_race};

use g1_race::{Closed, Race, Racer, Sweeper};
use std::test::Fail;
use std::thread::{self, Threads};
use test_support::numbers::{card, number_of, region, slot, small};
use test_support::{Failure, equal};

// Racer k makes 101 stores to slot 8k, of the first place of the next region and of null in turn.
fn store_all(race: &Race, racer: &mut Racer, k: u32)
    requires k { k < 4 }
    requires race { racer_race racer.old ≡ race_id race.now }
    ensures race { racer_race racer.new ≡ racer_race racer.old }
{
    let layout = race.layout();
    for turn in 0..101 {
        let (Some(slot), Some(place)) = (layout.slot(8 * k), layout.slot(8 * ((k + 1) % 4))) else {
            return;
        };
        if !racer.has_room() {
            racer.take_log();
        }
        racer.store(race, slot, if turn % 2 == 0 { Some(place) } else { None });
    }
}

// Each of the eight cards is refined 20 times.
fn refine_all(race: &Race, sweeper: &mut Sweeper)
    requires race { sweeper_race sweeper.old ≡ race_id race.now }
    ensures race { sweeper_race sweeper.new ≡ sweeper_race sweeper.old }
{
    for step in 0..160u32 {
        if let Some(card) = race.layout().card(step % 8) {
            let _refined = sweeper.refine(race, card).is_ok();
        }
    }
}

// Each racer stores in a thread of its own.
fn all_store<R: Threads + Sync>(rt: &R, race: &Race, mut racers: Vec<Racer>) -> Vec<Racer>
    requires { All (λ r. racer_race r ≡ race_id race.now) racers.items }
    ensures all { All (λ r. racer_race r ≡ race_id race.now) result.items }
    ensures len { vec_len result ≡ vec_len racers }
{
    let store = |k: usize, racer: &mut Racer| store_all(race, racer, (k % 4) as u32);
    thread::for_each_mut(rt, racers.as_mut_slice(), 4, &store);
    racers
}

// Each sweeper refines in a thread of its own.
fn all_refine<R: Threads + Sync>(rt: &R, race: &Race, mut sweepers: Vec<Sweeper>) -> Vec<Sweeper>
    requires { All (λ w. sweeper_race w ≡ race_id race.now) sweepers.items }
    ensures all { All (λ w. sweeper_race w ≡ race_id race.now) result.items }
    ensures len { vec_len result ≡ vec_len sweepers }
{
    let refine = |_: usize, sweeper: &mut Sweeper| refine_all(race, sweeper);
    thread::for_each_mut(rt, sweepers.as_mut_slice(), 2, &refine);
    sweepers
}

// Four racers store, and two sweepers refine beside them.
fn raced<R: Threads + Sync + AllocGlobal>(rt: &R) -> Result<Closed, Failure> {
    let (race, racers, sweepers) = Race::open(rt.alloc(), small()?, 4, 2)?;
    let shared = &race;
    let (racers, sweepers) = thread::join(
        rt,
        move || -> Vec<Racer>
            requires { All (λ r. racer_race r ≡ race_id shared.now) racers.items }
            ensures all { All (λ r. racer_race r ≡ race_id shared.entry.now) result.items }
            ensures len { vec_len result ≡ vec_len racers }
        { all_store(rt, shared, racers) },
        move || -> Vec<Sweeper>
            requires { All (λ w. sweeper_race w ≡ race_id shared.now) sweepers.items }
            ensures all { All (λ w. sweeper_race w ≡ race_id shared.entry.now) result.items }
            ensures len { vec_len result ≡ vec_len sweepers }
        { all_refine(rt, shared, sweepers) },
    );
    Ok(race.close(racers, sweepers))
}

// What the slot of this number refers to once all stores are made.
fn wanted(number: u32) -> Option<u32> {
    if number % 8 == 0 {
        Some(number.wrapping_add(8) % 32)
    } else {
        None
    }
}

// Each slot refers to what it must, and the card of each that refers into another region is dirty
// or recorded for it.
fn is_covered(rt: &impl Eprint, closed: &Closed) -> Result<(), Failure> {
    for number in 0..32 {
        let from = slot(closed.layout(), number)?;
        equal(rt, "a slot", number_of(closed.target(from)), wanted(number))?;
        let is_missed = number % 8 == 0 && !is_found(closed, number)?;
        equal(
            rt,
            "a card that is neither dirty nor recorded",
            (number, is_missed),
            (number, false),
        )?;
    }
    Ok(())
}

// Whether the card of a slot is dirty, or recorded for the next region.
fn is_found(closed: &Closed, number: u32) -> Result<bool, Failure> {
    let layout = closed.layout();
    let card = layout.card_of(slot(layout, number)?);
    let into = region(layout, (number / 8 + 1) % 4)?;
    Ok(closed.marked(card) || closed.has(card, into))
}

// Each recorded pair is one that a store made: of the first card of a region, and the next region.
fn has_no_other_pair(rt: &impl Eprint, closed: &Closed) -> Result<(), Failure> {
    let layout = closed.layout();
    for pair in 0..32 {
        let (of, into) = (pair / 4, pair % 4);
        if closed.has(card(layout, of)?, region(layout, into)?) {
            equal(rt, "a recorded pair", (of % 2, into), (0, (of / 2 + 1) % 4))?;
        }
    }
    Ok(())
}

#[test]
fn race_in_threads(rt: HostRuntime) -> Result<(), Fail> {
    let closed = raced(&rt)?;
    is_covered(&rt, &closed)?;
    Ok(has_no_other_pair(&rt, &closed)?)
}
