//! The calls of a race by one racer and one sweeper, and those at the pause of a race.
ghost use Rattle.std.specs.Prelude.{◌≡◌};
ghost use Rattle.arrayvec.specs.ArrayVec.{array_vec_len};
ghost use Rattle.g1_race.specs.Parties.{race_id, race_layout, racer_race, sweeper_race};

use crate::core_calls::CoreCalls;
use crate::stores::Barrier;
use g1_layout::{Kind, Layout, NoMemory, Slot};
use g1_race::{Paused, Race, Racer, Sweeper};
use std::alloc::Global;

/// A race and a racer of it, and a checksum of what its stores answered.
#[derive(Drop)]
pub struct RaceCalls<'a> {
    race: &'a Race,
    racer: &'a mut Racer,
    checksum: u64,
    ghost own: { racer_race racer.now ≡ race_id race.now },
}

impl<'a> RaceCalls<'a> {
    /// No store so far.
    pub fn new(race: &'a Race, racer: &'a mut Racer) -> RaceCalls<'a>
        requires { racer_race racer.old ≡ race_id race.now }
    {
        RaceCalls {
            race,
            racer,
            checksum: 0,
        }
    }

    /// A sum of what the stores answered.
    pub fn checksum(&self) -> u64 {
        self.checksum
    }
}

impl Barrier for RaceCalls<'_> {
    ghost layout_of = { λ it. race_layout it.race.now };

    fn layout(&self) -> Layout {
        self.race.layout()
    }

    // A full log is taken and looked at.
    fn store(&mut self, slot: Slot, target: Option<Slot>) {
        if !self.racer.has_room() {
            self.checksum = self.checksum.wrapping_add(last_of_log(self.racer));
        }
        if self.racer.store(self.race, slot, target) == Kind::Logged {
            self.checksum = self.checksum.wrapping_add(1);
        }
    }
}

// Takes a racer's log, and returns the number of its last card. It is a call of its own, so that no
// other store has room for a log on its stack.
#[inline(never)]
fn last_of_log(racer: &mut Racer) -> u64
    ensures race { racer_race racer.new ≡ racer_race racer.old }
    ensures room { array_vec_len racer.new.log ≡ 0 }
{
    match racer.take_log().as_slice().last() {
        Some(card) => u64::from(card.number()),
        None => 0,
    }
}

/// Refines the cards of this number and below, and returns the sum of their numbers.
pub fn refine(race: &Race, sweeper: &mut Sweeper, times: u32) -> u64
    requires { sweeper_race sweeper.old ≡ race_id race.now }
    ensures { sweeper_race sweeper.new ≡ sweeper_race sweeper.old }
{
    let layout = race.layout();
    let mut checksum: u64 = 0;
    for number in 0..times {
        let Some(card) = layout.card(number) else {
            return checksum;
        };
        let Ok(()) = sweeper.refine(race, card) else {
            return checksum;
        };
        checksum = checksum.wrapping_add(u64::from(card.number()));
    }
    checksum
}

/// At the pause of a race that begins with the heap of these calls, makes the stores of a list, and
/// drains the first region `drains` times.
pub fn pause(
    alloc: Global,
    calls: &mut CoreCalls,
    list: &[(u32, u32)],
    drains: u32,
) -> Result<(), NoMemory> {
    let mut paused = Paused::begin_from(alloc, &mut calls.core, 1, 1)?;
    let logged = store_paused(&mut paused, list);
    calls.add(logged);
    let Some(region) = paused.layout().region(0) else {
        return Ok(());
    };
    for _drain in 0..drains {
        let answer = paused.drain(alloc, region)?;
        calls.add_drained(&answer)?;
    }
    Ok(())
}

// Makes the stores, and returns how many are logged.
fn store_paused(paused: &mut Paused, list: &[(u32, u32)]) -> u64 {
    let mut logged: u64 = 0;
    for (slot, place) in list {
        let layout = paused.layout();
        let Some(slot) = layout.slot(*slot) else {
            return logged;
        };
        if paused.store(slot, layout.slot(*place)) == Kind::Logged {
            logged = logged.wrapping_add(1);
        }
    }
    logged
}
