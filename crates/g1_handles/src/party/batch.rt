//! Several stores, or a row of words, in a race by one call.
ghost use Rattle.std.specs.Prelude.{◌≡◌, ◌≢◌};
ghost use Rattle.g1_handles.specs.Prelude.{race_id, race_layout, racer_race};
ghost use Rattle.g1_handles.specs.Racing.{racing};
ghost use Rattle.g1_handles.specs.RaceStores.{StoresFirst, StoresRow};
ghost use Rattle.g1_handles.specs.Refusals.{IsMadeByRacer, IsRow, LacksRow};

use crate::code::Reason;
use crate::heap::stores::check_row;
use crate::one_core::batch::Store;
use crate::party::Party;
use crate::party::counts::PartyCounts;
use crate::party::store::store_next;
use g1_race::{Race, Racer};

/// Why no more of several stores were made.
#[derive(Clone, Copy)]
pub enum BatchEnd {
    /// All were made.
    Whole,
    /// The next one names a slot or a target that the heap does not have.
    Stopped,
    /// The racer's log is full before the next one.
    Full,
}

/// How many of several stores were made, and why no more.
#[derive(Clone, Copy)]
pub struct RaceBatch {
    /// How many stores were made: the first ones.
    pub count: usize,
    /// Why no more were.
    pub end: BatchEnd,
}

/// Makes stores in order by a racer, up to the first that it cannot make. Returns `NotOpen` if the
/// call was refused: nothing has changed.
pub fn store_all_by(party: &mut Party<Racer>, stores: &[Store]) -> Result<RaceBatch, Reason>
    ensures { IsMadeByRacer party.old result party.new (λ a answer b.
        StoresFirst a stores.now answer b) (λ a r. ⊥) }
{
    let Some(racer) = &mut party.role else {
        return Err(Reason::NotOpen);
    };
    Ok(store_each(&party.race, racer, &mut party.counts, stores))
}

fn store_each(
    race: &Race,
    racer: &mut Racer,
    counts: &mut PartyCounts,
    stores: &[Store],
) -> RaceBatch
    requires same { racer_race racer.old ≡ race_id race.now }
    ensures same { racer_race racer.new ≡ racer_race racer.old }
    ensures stored { StoresFirst (racing race.now racer.old counts.old) stores.now result
        (racing race.now racer.new counts.new) }
{
    for i in 0..stores.len() {
        match store_next(race, racer, counts, stores[i].slot, stores[i].target) {
            Ok(_) => {}
            Err(refusal) => {
                return RaceBatch {
                    count: i,
                    end: end_of(refusal),
                };
            }
        }
    }
    RaceBatch {
        count: stores.len(),
        end: BatchEnd::Whole,
    }
}

/// Why no more stores are made once one is refused.
fn end_of(refusal: Reason) -> BatchEnd
    ensures full { refusal ≡ Reason.LogFull → result ≡ BatchEnd.Full }
    ensures stopped { refusal ≢ Reason.LogFull → result ≡ BatchEnd.Stopped }
{
    match refusal {
        Reason::LogFull => BatchEnd::Full,
        _ => BatchEnd::Stopped,
    }
}

/// Stores words by a racer into as many slots from this one on: null, references and data. Stores
/// them in order, up to the first that refers into another region while the log is full, and
/// returns how many it stored.
///
/// Returns `NotOpen`, `NoSlot` if the row leaves the heap, or `BadWord` if no slot may have one of
/// the words: nothing has changed.
pub fn store_words_by(party: &mut Party<Racer>, slot: u32, words: &[u64]) -> Result<usize, Reason>
    ensures { IsMadeByRacer party.old result party.new (λ a count b.
        StoresRow a slot words.now count b) (λ a. LacksRow (race_layout a.race) slot words.now) }
{
    let Some(racer) = &mut party.role else {
        return Err(Reason::NotOpen);
    };
    check_row(party.race.layout(), slot, words)?;
    Ok(store_row(&party.race, racer, &mut party.counts, slot, words))
}

// Stores the words that its racer can store, and counts them.
fn store_row(
    race: &Race,
    racer: &mut Racer,
    counts: &mut PartyCounts,
    first: u32,
    words: &[u64],
) -> usize
    requires same { racer_race racer.old ≡ race_id race.now }
    requires row { IsRow (race_layout race.now) first words.now }
    ensures same { racer_race racer.new ≡ racer_race racer.old }
    ensures stored { StoresRow (racing race.now racer.old counts.old) first words.now result
        (racing race.now racer.new counts.new) }
{
    let layout = race.layout();
    for i in 0..words.len() {
        let word = words[i];
        let Some(slot) = layout.slot(first + i as u32) else {
            unreachable!()
        };
        if !racer.has_room_for_word(race, slot, word) {
            return i;
        }
        let (kind, _old) = racer.swap_word(race, slot, word);
        counts.add_store(kind);
    }
    words.len()
}
