//! A runtime whose mutators race with refinement: two races, and after each a pause in place that
//! evacuates a region, over a heap of 8 regions of 256 cards of 2 slots.
ghost use Rattle.std.specs.Prelude.{◌≡◌, ◌≢◌, ◌+◌, All, vec_len};
ghost use Rattle.g1_race.specs.Parties.{race_id, race_shape, racer_race, sweeper_race};

use anyhow::{Context, Result, bail};
use arrayvec::ArrayVec;
use crossbeam_channel::{Receiver, Sender, unbounded};
use g1_core::Drained;
use g1_layout::{Card, Layout};
use g1_race::{Paused, Race, Racer, Sweeper};
use std::alloc::Global;
use std::sync::Wait;
use std::thread::{self, Threads};

/// The cards of a full log.
type Buffer = ArrayVec<Card, 256>;

/// What one mutator stores: the number of the first slot, that of the first place, or `None` for
/// null, and how many stores. The stores go to every second slot, with each place in turn.
type Stores = (u32, Option<u32>, u32);

// Up to the first pause both mutators store references into region 4, whose places are those from
// 2048 on: the first on 300 cards of regions 0 and 1, the second on 320 of regions 2 and 3. So its
// drain lists 620 cards, and as many slots are redirected.
static FIRST: [Stores; 2] = [(0, Some(2048), 300), (1024, Some(2048), 320)];

// Up to the second one the first mutator refers into region 6, where the objects are now, by the
// second slots of 280 of its cards, and the second one drops its references: 580 slots refer into
// the region. Its drain lists all 620 cards, since a remembered set keeps a card until it is
// cleared.
static SECOND: [Stores; 2] = [(1, Some(3072), 280), (1024, None, 320)];

/// Plays this program.
pub fn play<R: Threads + Wait + Sync + Print + AllocGlobal>(rt: &R) -> Result<()> {
    let layout = Layout::new(8, 256, 2).context("outside the limits of a heap")?;
    let paused = Paused::open(rt.alloc(), layout, 2, 2)?;
    let mut paused = race_on(rt, rt.alloc(), paused, &FIRST)?;
    evacuate(rt, rt.alloc(), &mut paused, 4, 6)?;
    let mut paused = race_on(rt, rt.alloc(), paused, &SECOND)?;
    evacuate(rt, rt.alloc(), &mut paused, 6, 4)
}

// Lets the race go on up to its next pause.
fn race_on<R: Threads + Wait + Sync>(
    rt: &R,
    alloc: Global,
    paused: Paused,
    stores: &[Stores; 2],
) -> Result<Paused> {
    let (race, racers, sweepers) = paused.resume();
    run(rt, alloc, race, racers, sweepers, stores)
}

// Each racer stores and each sweeper refines in a thread of its own. Full logs go to the sweepers
// by a queue; these end once the racers have, and the queue is empty.
fn run<R: Threads + Wait + Sync>(
    rt: &R,
    alloc: Global,
    race: Race,
    racers: Vec<Racer>,
    sweepers: Vec<Sweeper>,
    stores: &[Stores; 2],
) -> Result<Paused>
    requires count { vec_len racers + vec_len sweepers ≡ (race_shape race).parties }
    requires racers { All (λ r. racer_race r ≡ race_id race) racers.items }
    requires sweepers { All (λ s. sweeper_race s ≡ race_id race) sweepers.items }
{
    let (to, from) = unbounded(alloc)?;
    let shared = &race;
    let (racers, sweepers) = thread::join(
        rt,
        move || -> Vec<Racer>
            requires { All (λ r. racer_race r ≡ race_id shared.now) racers.items }
            ensures all { All (λ r. racer_race r ≡ race_id shared.entry.now) result.items }
            ensures len { vec_len result ≡ vec_len racers }
        { store_all(rt, shared, racers, stores, to) },
        move || -> Vec<Sweeper>
            requires { All (λ s. sweeper_race s ≡ race_id shared.now) sweepers.items }
            ensures all { All (λ s. sweeper_race s ≡ race_id shared.entry.now) result.items }
            ensures len { vec_len result ≡ vec_len sweepers }
        { refine_all(rt, shared, sweepers, from) },
    );
    Ok(race.pause(racers, sweepers))
}

// Racer k makes the k-th mutator's stores. The queue's end goes with the last of them.
fn store_all<R: Threads + Wait + Sync>(
    rt: &R,
    race: &Race,
    mut racers: Vec<Racer>,
    stores: &[Stores; 2],
    to: Sender<Buffer>,
) -> Vec<Racer>
    requires { All (λ r. racer_race r ≡ race_id race.now) racers.items }
    ensures all { All (λ r. racer_race r ≡ race_id race.now) result.items }
    ensures len { vec_len result ≡ vec_len racers }
{
    let store = |k: usize, racer: &mut Racer| store_each(rt, race, racer, &stores[k % 2], &to);
    thread::for_each_mut(rt, racers.as_mut_slice(), 2, &store);
    racers
}

// A racer's stores. A full log is handed on. One that the queue has no memory for is dropped: each
// of its cards stays dirty until it is refined, by the next pause at the latest.
fn store_each(rt: &impl Wait, race: &Race, racer: &mut Racer, stores: &Stores, to: &Sender<Buffer>)
    requires { racer_race racer.old ≡ race_id race.now }
    ensures { racer_race racer.new ≡ racer_race racer.old }
{
    let layout = race.layout();
    let (first, place, count) = *stores;
    for turn in 0..count {
        let Some(slot) = layout.slot(first.wrapping_add(turn.wrapping_mul(2))) else {
            continue;
        };
        let target = place.and_then(|place| layout.slot(place.wrapping_add(turn)));
        if !racer.has_room() {
            let _unsent = to.send(rt, racer.take_log()).is_err();
        }
        racer.store(race, slot, target);
    }
}

// The sweepers refine, each in a thread of its own.
fn refine_all<R: Threads + Wait + Sync>(
    rt: &R,
    race: &Race,
    mut sweepers: Vec<Sweeper>,
    from: Receiver<Buffer>,
) -> Vec<Sweeper>
    requires { All (λ s. sweeper_race s ≡ race_id race.now) sweepers.items }
    ensures all { All (λ s. sweeper_race s ≡ race_id race.now) result.items }
    ensures len { vec_len result ≡ vec_len sweepers }
{
    let refine = |_: usize, sweeper: &mut Sweeper| refine_each(rt, race, sweeper, &from);
    thread::for_each_mut(rt, sweepers.as_mut_slice(), 2, &refine);
    sweepers
}

// A sweeper refines the logs that it receives, until no racer has any more.
fn refine_each<R: Wait>(rt: &R, race: &Race, sweeper: &mut Sweeper, from: &Receiver<Buffer>)
    requires { sweeper_race sweeper.old ≡ race_id race.now }
    ensures { sweeper_race sweeper.new ≡ sweeper_race sweeper.old }
{
    for buffer in from.iter(rt) {
        refine_cards(race, sweeper, buffer.as_slice());
    }
}

fn refine_cards(race: &Race, sweeper: &mut Sweeper, cards: &[Card])
    requires { sweeper_race sweeper.old ≡ race_id race.now }
    ensures { sweeper_race sweeper.new ≡ sweeper_race sweeper.old }
{
    let layout = race.layout();
    for card in cards {
        if let Some(card) = layout.card(card.number()) {
            let _refined = sweeper.refine(race, card).is_ok();
        }
    }
}

// Evacuates region `from` into the empty region `to`: the cards to scan are listed, and each
// reference into it moves to the same offset of `to`. Its own slots are null here.
fn evacuate(rt: &impl Print, alloc: Global, paused: &mut Paused, from: u32, to: u32) -> Result<()>
    requires { from ≢ to }
{
    let layout = paused.layout();
    let from = layout.region(from).context("no such region")?;
    let to = layout.region(to).context("no such region")?;
    let Drained::Cards { cards, .. } = paused.drain(alloc, from)? else {
        bail!("a drain at a pause is never short");
    };
    let moved = paused.redirect_in_place(from, to);
    println!(rt;
        "region {}: scan {} cards, {moved} slots refer into region {} now",
        from.number(),
        cards.len(),
        to.number()
    )?;
    Ok(())
}
