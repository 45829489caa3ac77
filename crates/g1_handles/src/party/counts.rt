//! What the racers and the sweepers of a heap have done, in numbers.
ghost use Rattle.std.specs.Prelude.{◌≡◌};
ghost use Rattle.g1_handles.specs.Prelude.{IfOk, IfErr};
ghost use Rattle.g1_handles.specs.Racing.{no_counts, with_store};
ghost use Rattle.g1_handles.specs.Racing.{with_refined_card, OfRacer, OfSweeper};
ghost use Rattle.g1_handles.specs.Refusals.{SaysNoParty};

use crate::code::{Reason, kind_word};
use crate::party::Party;
use g1_layout::Kind;
use g1_race::{Racer, Sweeper, Swept};

/// What a racer has stored since its heap was opened, by kind of store, whatever pauses came
/// between. A count that would be 2^64 begins at 0 again.
#[derive(Clone, Copy, Debug)]
pub struct StoreCounts {
    /// How many stores were of each kind, in the order of [`kind_word`]: of null or of data, of a
    /// place in the slot's own region, on a dirty card, and logged.
    pub by_kind: [u64; 4],
}

/// What a sweeper has done since its heap was opened, whatever pauses came between. A count that
/// would be 2^64 begins at 0 again.
#[derive(Clone, Copy, Debug)]
pub struct SweepCounts {
    /// How many cards it refined.
    pub refined: u64,
    /// How many of them were dirty.
    pub cleaned: u64,
    /// How many references into another region it read on them.
    pub references: u64,
}

/// Which party of its heap it is, and what it has done. A racer refines nothing, a sweeper stores
/// nothing, and a reader does neither.
#[derive(Clone, Copy)]
pub struct PartyCounts {
    /// Its number among the racers, the sweepers or the readers of its heap, by which a pause sees
    /// one that is given twice. It never changes.
    pub number: usize,
    /// What it has stored.
    pub stores: StoreCounts,
    /// What it has refined.
    pub sweeps: SweepCounts,
}

impl PartyCounts {
    /// The counts of a party that has done nothing.
    pub(crate) fn none(number: usize) -> PartyCounts
        ensures { result ≡ no_counts number }
    {
        PartyCounts {
            number,
            stores: StoreCounts { by_kind: [0; 4] },
            sweeps: SweepCounts {
                refined: 0,
                cleaned: 0,
                references: 0,
            },
        }
    }

    /// Counts one more store.
    #[inline(always)]
    pub(crate) fn add_store(&mut self, kind: Kind)
        ensures { self.new ≡ with_store self.old kind }
    {
        // (By a match, a store would take a jump more.)
        let index = kind_word(kind) as usize;
        self.stores.by_kind[index] = self.stores.by_kind[index].wrapping_add(1);
    }

    /// Counts one more card.
    #[inline(always)]
    pub(crate) fn add_card(&mut self, swept: Swept)
        ensures { self.new ≡ with_refined_card self.old swept.was_dirty swept.references }
    {
        self.sweeps = SweepCounts {
            refined: self.sweeps.refined.wrapping_add(1),
            cleaned: self.sweeps.cleaned.wrapping_add(u64::from(swept.was_dirty)),
            references: self.sweeps.references.wrapping_add(swept.references),
        };
    }
}

/// Returns what a racer has stored, or `NotOpen`. Nothing changes.
pub fn store_counts_by(party: &Party<Racer>) -> Result<StoreCounts, Reason>
    ensures counts { IfOk result (λ counts.
        OfRacer (Some party.now) (λ a. counts ≡ a.counts.stores)) }
    ensures why { IfErr result (SaysNoParty (Some party.now)) }
{
    match party.role {
        Some(_) => Ok(party.counts.stores),
        None => Err(Reason::NotOpen),
    }
}

/// Returns what a sweeper has refined, or `NotOpen`. Nothing changes.
pub fn sweep_counts_by(party: &Party<Sweeper>) -> Result<SweepCounts, Reason>
    ensures counts { IfOk result (λ counts.
        OfSweeper (Some party.now) (λ a. counts ≡ a.counts.sweeps)) }
    ensures why { IfErr result (SaysNoParty (Some party.now)) }
{
    match party.role {
        Some(_) => Ok(party.counts.sweeps),
        None => Err(Reason::NotOpen),
    }
}
