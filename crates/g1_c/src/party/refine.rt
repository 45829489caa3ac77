//! Concurrent refinement in a race.
ghost use Rattle.g1_c.specs.{IsMadeOrRefused, called, OfSweeper, Sweeps, IsSweepRefused};

use crate::calling::on_sweeper;
use g1_handles::code::DONE;
use g1_handles::handles::SweeperHandle;
use g1_handles::party::refine::refine_by;

/// As in `g1.h`.
#[unsafe(no_mangle)]
pub extern "C" fn g1_race_refine(sweeper: &mut SweeperHandle, card: u32) -> u32
    ensures { IsMadeOrRefused 0 (called result sweeper.old.value sweeper.new.value) (Unit {0})
        (OfSweeper sweeper.old.value (λ a. OfSweeper sweeper.new.value (λ b. Sweeps a card b)))
        (IsSweepRefused sweeper.old.value card) }
{
    match on_sweeper!(sweeper, refine_by(card)) {
        Err(refusal) => refusal.word(),
        Ok(()) => DONE,
    }
}
