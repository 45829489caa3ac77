//! How a race goes on after a pause, or begins from a core.
ghost use Rattle.std.specs.Prelude.{◌≡◌, ◌+◌, ◌-◌, ◌<◌, ◌≤◌};
ghost use Rattle.g1_race.specs.{[], All, IfOk, IfErr, OnOk, OnErr, length, map, vec_len, beginning};
ghost use Rattle.g1_race.specs.{start_of, whole_seat, shape_of, table_at, start_at, began};
ghost use Rattle.g1_race.specs.{all_read, race_id, race_layout, race_shape, race_words, racer_log};
ghost use Rattle.g1_race.specs.{AreFreshRacers, AreFreshSweepers, HaveBegunWith, IsNewRacer};
ghost use Rattle.g1_race.specs.{IsNewSweeper, racer_race, sweeper_race};

use crate::paused::Paused;
use crate::paused::holds::HoldsRace;
use crate::paused::reading::Reader;
use crate::race::{Race, Racer, Sweeper};
use g1_core::Core;
use g1_layout::NoMemory;
use g1_race_words::{RaceSeat, RaceTable};
use std::alloc::Global;

impl<R: HoldsRace> Paused<R> {
    /// Lets the race go on, and returns it with its racers and its sweepers. The racers get their
    /// logs back, which are empty if all was refined. They have stored nothing, and the sweepers
    /// have swept nothing: the race begins with the table as the pause left it. A racer has a
    /// number of its own from here to the next pause.
    ///
    /// Takes no memory and cannot fail. The only steps that it makes are those that split the
    /// seats, and one more.
    pub fn resume(self) -> (R, Vec<Racer>, Vec<Sweeper>)
        ensures layout { race_layout (R.held result.0) ≡ self.layout }
        ensures shape { race_shape (R.held result.0) ≡ self.shape }
        ensures words { race_words (R.held result.0) ≡ self.address }
        ensures table { (race_id (R.held result.0)).0 ≡ self.table_id }
        ensures parties { vec_len result.1 + vec_len result.2
            ≡ (race_shape (R.held result.0)).parties }
        ensures began { began self.layout (beginning (start_at self)) ≡ table_at self }
        ensures racers { (vec_len result.1 ≡ length self.logs)
            × All (IsNewRacer (race_id (R.held result.0)).0 (start_at self)) result.1.items }
        ensures logs { map racer_log result.1.items ≡ self.logs }
        ensures sweepers { (vec_len result.2 ≡ self.sweepers)
            × All (IsNewSweeper (race_id (R.held result.0)).0 (start_at self)) result.2.items }
        ensures all_racers { All (λ r. racer_race r ≡ race_id (R.held result.0)) result.1.items }
        ensures all_sweepers { All (λ w. sweeper_race w ≡ race_id (R.held result.0))
            result.2.items }
    {
        let Paused {
            race,
            reader,
            mut racers,
            mut sweepers,
        } = self;
        let Reader { mut seat } = reader;
        let table = &race.race().table;
        table.thaw(&mut seat);
        seat_racers(table, &mut seat, &mut racers);
        seat_sweepers(table, &mut seat, &mut sweepers);
        (race, racers, sweepers)
    }
}

impl Race {
    /// Opens a race that begins with a core's whole table, with 1 to 8 racers and 1 to 4 sweepers.
    /// Each slot refers to what it refers to in the core and holds no data, the pending cards are
    /// dirty, and the recorded pairs are recorded (docs/rules.md, Racing stores).
    ///
    /// No racer has stored and no sweeper has refined. A card that is dirty from the beginning is
    /// in no racer's log: a sweep of that card, or a drain after the race, refines it. The settings
    /// and the refinement counts are dropped with the core.
    ///
    /// Reads each slot once. Takes the memory of [`Paused::open`] and, during the call, that of the
    /// list of pairs. Returns `NoMemory` if memory was refused, with the core as it was.
    pub fn from_core(
        alloc: Global,
        mut core: Core,
        racers: u32,
        sweepers: u32,
    ) -> Result<(Race, Vec<Racer>, Vec<Sweeper>), (Core, NoMemory)>
        requires racers { (1 ≤ racers) × (racers ≤ 8) }
        requires sweepers { (1 ≤ sweepers) × (sweepers ≤ 4) }
        ensures layout { IfOk result (λ r. race_layout r.0 ≡ core.state.table.layout) }
        ensures shape { IfOk result (λ r.
            race_shape r.0 ≡ shape_of core.state.table.layout (racers + sweepers)) }
        ensures began { IfOk result (λ r. HaveBegunWith core.state.table r.0 r.1 r.2) }
        ensures racers { IfOk result (λ r. AreFreshRacers r.0 racers r.1) }
        ensures sweepers { IfOk result (λ r. AreFreshSweepers r.0 sweepers r.2) }
        ensures all_racers { IfOk result (λ r.
            All (λ x. racer_race x ≡ race_id r.0) r.1.items) }
        ensures all_sweepers { IfOk result (λ r.
            All (λ x. sweeper_race x ≡ race_id r.0) r.2.items) }
        ensures refused { IfErr result (λ e. e.0 ≡ core) }
    {
        match Race::begin_from(alloc, &mut core, racers, sweepers) {
            Ok(parties) => Ok(parties),
            Err(e) => Err((core, e)),
        }
    }

    /// Opens a race as [`Race::from_core`] does, and the core stays as it is, except for its count
    /// of reads, which does not change where memory is refused. Use it to keep the core until every
    /// later allocation has succeeded.
    pub fn begin_from(
        alloc: Global,
        core: &mut Core,
        racers: u32,
        sweepers: u32,
    ) -> Result<(Race, Vec<Racer>, Vec<Sweeper>), NoMemory>
        requires racers { (1 ≤ racers) × (racers ≤ 8) }
        requires sweepers { (1 ≤ sweepers) × (sweepers ≤ 4) }
        ensures layout { IfOk result (λ r. race_layout r.0 ≡ core.old.state.table.layout) }
        ensures shape { IfOk result
            (λ r. race_shape r.0 ≡ shape_of core.old.state.table.layout (racers + sweepers)) }
        ensures began { IfOk result (λ r. HaveBegunWith core.old.state.table r.0 r.1 r.2) }
        ensures racers { IfOk result (λ r. AreFreshRacers r.0 racers r.1) }
        ensures sweepers { IfOk result (λ r. AreFreshSweepers r.0 sweepers r.2) }
        ensures all_racers { IfOk result (λ r.
            All (λ x. racer_race x ≡ race_id r.0) r.1.items) }
        ensures all_sweepers { IfOk result (λ r.
            All (λ x. sweeper_race x ≡ race_id r.0) r.2.items) }
        ensures read { OnOk result (core.new ≡ all_read core.old) }
        ensures err { OnErr result (core.new ≡ core.old) }
    {
        let paused = Paused::begin_from(alloc, core, racers, sweepers)?;
        Ok(paused.resume())
    }
}

// Splits off a seat for each racer. They keep their logs.
fn seat_racers(table: &RaceTable, pause_seat: &mut RaceSeat, racers: &mut Vec<Racer>)
    requires seat { pause_seat.old.table_id ≡ table.now.table_id }
    requires view { pause_seat.old.me ≡ (
      whole_seat (start_of pause_seat.old.me.0)
          pause_seat.old.me.0.weight,
      [],
    ) }
    requires shape { pause_seat.old.me.0.shape ≡ table.now.shape }
    requires weight { vec_len racers.old ≤ pause_seat.old.me.0.weight }
    ensures seat { pause_seat.new.table_id ≡ pause_seat.old.table_id }
    ensures view { pause_seat.new.me ≡ (
      whole_seat (start_of pause_seat.old.me.0)
          (pause_seat.old.me.0.weight - vec_len racers.old),
      [],
    ) }
    ensures racers { (vec_len racers.new ≡ vec_len racers.old)
        × All (IsNewRacer table.now.table_id (start_of pause_seat.old.me.0)) racers.new.items }
    ensures logs { map racer_log racers.new.items ≡ map racer_log racers.old.items }
{
    for i in 0..racers.len() {
        let seat = table.split_racer(pause_seat);
        let racer = &mut racers[i];
        racer.seat = seat;
    }
}

// Splits off a seat for each sweeper.
fn seat_sweepers(table: &RaceTable, pause_seat: &mut RaceSeat, sweepers: &mut Vec<Sweeper>)
    requires seat { pause_seat.old.table_id ≡ table.now.table_id }
    requires view { pause_seat.old.me ≡ (
      whole_seat (start_of pause_seat.old.me.0)
          pause_seat.old.me.0.weight,
      [],
    ) }
    requires shape { pause_seat.old.me.0.shape ≡ table.now.shape }
    requires weight { vec_len sweepers.old ≤ pause_seat.old.me.0.weight }
    ensures seat { pause_seat.new.table_id ≡ pause_seat.old.table_id }
    ensures sweepers { (vec_len sweepers.new ≡ vec_len sweepers.old)
        × All (IsNewSweeper table.now.table_id (start_of pause_seat.old.me.0)) sweepers.new.items }
{
    for i in 0..sweepers.len() {
        let seat = table.split_sweeper(pause_seat);
        let sweeper = &mut sweepers[i];
        sweeper.seat = seat;
    }
}
