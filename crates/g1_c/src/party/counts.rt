//! What a racer and a sweeper have done.
ghost use Rattle.std.specs.Prelude.{◌≡◌};
ghost use Rattle.g1_c.specs.{IsMadeOrRefused, called, OfRacer, stored_as, SaysNoParty, OfSweeper};

use crate::calling::{on_racer, on_sweeper};
use g1_handles::code::DONE;
use g1_handles::handles::{RacerHandle, SweeperHandle};
use g1_handles::party::counts::{store_counts_by, sweep_counts_by};
use g1_layout::Kind;

/// As in `g1.h`.
#[unsafe(no_mangle)]
pub extern "C" fn g1_racer_counts(
    racer: &mut RacerHandle,
    null: &mut u64,
    same_region: &mut u64,
    already_dirty: &mut u64,
    logged: &mut u64,
) -> u32
    ensures counts { IsMadeOrRefused 0 (called result racer.old.value racer.new.value)
        ((null.new ≡ 0) × (same_region.new ≡ 0) × (already_dirty.new ≡ 0) × (logged.new ≡ 0))
        (OfRacer racer.old.value (λ a. (null.new ≡ stored_as a.counts.stores Kind.Null)
        × (same_region.new ≡ stored_as a.counts.stores Kind.SameRegion)
        × (already_dirty.new ≡ stored_as a.counts.stores Kind.AlreadyDirty)
        × (logged.new ≡ stored_as a.counts.stores Kind.Logged))) (SaysNoParty racer.old.value) }
    ensures same { racer.new.value ≡ racer.old.value }
{
    match on_racer!(racer, store_counts_by()) {
        Err(refusal) => {
            *null = 0;
            *same_region = 0;
            *already_dirty = 0;
            *logged = 0;
            refusal.word()
        }
        Ok(counts) => {
            [*null, *same_region, *already_dirty, *logged] = counts.by_kind;
            DONE
        }
    }
}

/// As in `g1.h`.
#[unsafe(no_mangle)]
pub extern "C" fn g1_sweeper_counts(
    sweeper: &mut SweeperHandle,
    refined: &mut u64,
    cleaned: &mut u64,
    references: &mut u64,
) -> u32
    ensures counts { IsMadeOrRefused 0 (called result sweeper.old.value sweeper.new.value)
        ((refined.new ≡ 0) × (cleaned.new ≡ 0) × (references.new ≡ 0)) (OfSweeper sweeper.old.value
        (λ a. (refined.new ≡ a.counts.sweeps.refined) × (cleaned.new ≡ a.counts.sweeps.cleaned) ×
        (references.new ≡ a.counts.sweeps.references))) (SaysNoParty sweeper.old.value) }
    ensures same { sweeper.new.value ≡ sweeper.old.value }
{
    match on_sweeper!(sweeper, sweep_counts_by()) {
        Err(refusal) => {
            *refined = 0;
            *cleaned = 0;
            *references = 0;
            refusal.word()
        }
        Ok(counts) => {
            *refined = counts.refined;
            *cleaned = counts.cleaned;
            *references = counts.references;
            DONE
        }
    }
}
