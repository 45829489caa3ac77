//! How a heap begins: at a pause.
ghost use Rattle.std.specs.Prelude.{◌≡◌, ◌+◌, ◌≤◌};
ghost use Rattle.g1_race.specs.{[], IfOk, replicate, map, vec_len, opening, IsWholeShape, null_of};
ghost use Rattle.g1_race.specs.{shape_of, table_at, start_at, race_layout, race_shape, racer_log};
ghost use Rattle.g1_race.specs.{AreFreshRacers, AreFreshSweepers, HaveBegun, HaveBegunWith, All};
ghost use Rattle.g1_race.specs.{race_id, racer_race, sweeper_race};

use crate::paused::Paused;
use crate::paused::reading::Reader;
use crate::race::{Race, Racer, Sweeper};
use arrayvec::ArrayVec;
use g1_layout::{Layout, NoMemory};
use g1_race_words::{RaceShape, RaceTable};
use std::alloc::Global;

impl Paused {
    /// Opens a heap at a pause, for 1 to 64 racers and 1 to 64 sweepers. Its slots are all null and
    /// its cards are all clean. A runtime opens as many as it may ever have threads.
    ///
    /// Takes 8 bytes a slot, 8 bytes a card, a bit for each pair of a card and a region, and a bit
    /// for each card, and all of this twice while it begins. It also takes about a kilobyte for the
    /// log of each racer. Returns `NoMemory` if memory was refused: nothing is left of the heap.
    pub fn open(
        alloc: Global,
        layout: Layout,
        racers: u32,
        sweepers: u32,
    ) -> Result<Paused, NoMemory>
        requires racers { (1 ≤ racers) × (racers ≤ 64) }
        requires sweepers { (1 ≤ sweepers) × (sweepers ≤ 64) }
        ensures layout { IfOk result (λ p. p.layout ≡ layout) }
        ensures shape { IfOk result (λ p. p.shape ≡ shape_of layout (racers + sweepers)) }
        ensures words { IfOk result (λ p. start_at p ≡ null_of p.shape) }
        ensures table { IfOk result (λ p. table_at p ≡ opening layout) }
        ensures logs { IfOk result (λ p. p.logs ≡ replicate racers []) }
        ensures sweepers { IfOk result (λ p. p.sweepers ≡ sweepers) }
    {
        let shape = shape_of(layout, racers as usize + sweepers as usize);
        let (table, seat) = RaceTable::open(alloc, shape)?;
        let racers = vacant_racers(alloc, &table, racers as usize)?;
        let sweepers = vacant_sweepers(alloc, &table, sweepers as usize)?;
        let race = Race {
            table,
            layout,
            shape,
        };
        Ok(Paused {
            race,
            reader: Reader { seat },
            racers,
            sweepers,
        })
    }
}

impl Race {
    /// Opens a race over a heap whose slots are all null and whose cards are all clean, with 1 to 8
    /// racers and 1 to 4 sweepers. It is [`Paused::open`] and then [`Paused::resume`].
    ///
    /// No racer has stored and no sweeper has refined. Each racer has a number of its own. Takes
    /// the memory of [`Paused::open`]. Returns `NoMemory` if memory was refused: nothing is left of
    /// the race.
    pub fn open(
        alloc: Global,
        layout: Layout,
        racers: u32,
        sweepers: u32,
    ) -> Result<(Race, Vec<Racer>, Vec<Sweeper>), NoMemory>
        requires racers { (1 ≤ racers) × (racers ≤ 8) }
        requires sweepers { (1 ≤ sweepers) × (sweepers ≤ 4) }
        ensures layout { IfOk result (λ r. race_layout r.0 ≡ layout) }
        ensures shape { IfOk result (λ r. race_shape r.0 ≡ shape_of layout (racers + sweepers)) }
        ensures begun { IfOk result (λ r.
            HaveBegun (null_of (shape_of layout (racers + sweepers))) r.1 r.2) }
        ensures began { IfOk result (λ r. HaveBegunWith (opening layout) r.0 r.1 r.2) }
        ensures racers { IfOk result (λ r. AreFreshRacers r.0 racers r.1) }
        ensures sweepers { IfOk result (λ r. AreFreshSweepers r.0 sweepers r.2) }
        ensures all_racers { IfOk result (λ r.
            All (λ x. racer_race x ≡ race_id r.0) r.1.items) }
        ensures all_sweepers { IfOk result (λ r.
            All (λ x. sweeper_race x ≡ race_id r.0) r.2.items) }
    {
        let paused = Paused::open(alloc, layout, racers, sweepers)?;
        Ok(paused.resume())
    }
}

// As many racers at a pause, whose logs are empty.
fn vacant_racers(alloc: Global, table: &RaceTable, count: usize) -> Result<Vec<Racer>, NoMemory>
    ensures len { IfOk result (λ racers. vec_len racers ≡ count) }
    ensures logs { IfOk result (λ racers. map racer_log racers.items ≡ replicate count []) }
{
    let mut racers = Vec::with_capacity(alloc, count)?;
    for _i in 0..count {
        let seat = table.vacant();
        let log = ArrayVec::new();
        racers.push(Racer { seat, log })?;
    }
    Ok(racers)
}

// As many sweepers at a pause.
fn vacant_sweepers(alloc: Global, table: &RaceTable, count: usize) -> Result<Vec<Sweeper>, NoMemory>
    ensures { IfOk result (λ sweepers. vec_len sweepers ≡ count) }
{
    let mut sweepers = Vec::with_capacity(alloc, count)?;
    for _i in 0..count {
        let seat = table.vacant();
        sweepers.push(Sweeper { seat })?;
    }
    Ok(sweepers)
}

// The layout in plain numbers.
pub(crate) fn shape_of(layout: Layout, parties: usize) -> RaceShape
    requires { parties ≤ 128 }
    ensures shape { result ≡ shape_of layout parties }
    ensures shaped { IsWholeShape result }
{
    let (regions, cards, slots) = layout.counts();
    let row = ((regions * cards) as usize + 63) / 64;
    RaceShape {
        slots: (regions * cards * slots) as usize,
        cards: (regions * cards) as usize,
        size: slots as usize,
        span: (cards * slots) as usize,
        regions: regions as usize,
        row,
        bits: regions as usize * row,
        parties,
    }
}
