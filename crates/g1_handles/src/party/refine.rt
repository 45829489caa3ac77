//! Concurrent refinement in a race.
ghost use Rattle.g1_handles.specs.{Some, OfSweeper, Sweeps, IsSweepRefused, IsMade};

use crate::code::Reason;
use crate::party::Party;
use g1_race::Sweeper;

/// Refines a card by a sweeper, which counts what it did. Returns `NotOpen` or `NoCard` if the call
/// was refused: nothing has changed.
#[inline(always)]
pub fn refine_by(party: &mut Party<Sweeper>, card: u32) -> Result<(), Reason>
    ensures { IsMade party.old result party.new (λ done. OfSweeper (Some party.old) (λ a.
        OfSweeper (Some party.new) (λ b. Sweeps a card b))) (IsSweepRefused (Some party.old) card) }
{
    let Some(sweeper) = &mut party.role else {
        return Err(Reason::NotOpen);
    };
    let Some(card) = party.race.layout().card(card) else {
        return Err(Reason::NoCard);
    };
    let swept = sweeper.sweep(&party.race, card);
    party.counts.add_card(swept);
    Ok(())
}
