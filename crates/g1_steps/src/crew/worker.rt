//! Workers at a desk.
ghost use Rattle.std.specs.Prelude.{◌≡◌, ◌<◌, ◌∷◌};
ghost use Rattle.g1_steps.specs.{[], replicate, OnErr, OnOk, IfErr, All, AskWork, ask_of};
ghost use Rattle.g1_steps.specs.{asks_of, StepFits, HasAsked, IsAnswered, HasEnded};

use crate::crew::desk::{Desk, Outcome, Step};
use g1_history::Refusal;

/// Makes the calls of a mutator's script, in order, and returns how many were made: all of them. If
/// a call is refused the script ends without a further one, and `Err` has how many were made before
/// it, and the refusal.
pub fn mutate<D: Desk>(desk: &mut D, steps: &[Step]) -> Outcome
    requires { All (StepFits (D.slots desk.old) (D.may_store desk.old)) steps.now }
    ensures asked { HasAsked D.did (asks_of steps.now) desk.old result desk.new }
    ensures ends { HasEnded (IsAnswered D.stored D.flushed D.worked) D.refused
        (asks_of steps.now) desk.old result desk.new }
{
    let mut made: u64 = 0;
    for step in steps {
        if let Err(refusal) = make(desk, *step) {
            return Err((made, refusal));
        }
        made += 1;
    }
    Ok(made)
}

/// Makes one call.
fn make<D: Desk>(desk: &mut D, step: Step) -> Result<(), Refusal>
    requires { StepFits (D.slots desk.old) (D.may_store desk.old) step }
    ensures ok { OnOk result (D.did desk.old (ask_of step ∷ []) desk.new) }
    ensures err { OnErr result (D.did desk.old [] desk.new) }
    ensures answered { OnOk result (IsAnswered D.stored D.flushed D.worked
        desk.old (ask_of step) desk.new) }
    ensures refused { IfErr result (λ why. D.refused desk.old (ask_of step) why desk.new) }
    ensures same { (D.slots desk.new ≡ D.slots desk.old)
        × (D.may_store desk.new ≡ D.may_store desk.old) }
{
    match step {
        Step::Store(slot, target) => {
            desk.store(slot, target)?;
        }
        Step::Flush => {
            desk.flush()?;
        }
    }
    Ok(())
}

/// Makes `rounds` rounds of refinement, and returns how many were made: all of them. If a round is
/// refused the script ends without a further one, and `Err` has how many were made before it, and
/// the refusal.
pub fn refiner<D: Desk>(desk: &mut D, rounds: u32) -> Outcome
    ensures asked { HasAsked D.did (replicate rounds AskWork) desk.old result desk.new }
    ensures ends { HasEnded (IsAnswered D.stored D.flushed D.worked) D.refused
        (replicate rounds AskWork) desk.old result desk.new }
{
    for made in 0..rounds {
        if let Err(refusal) = desk.work() {
            return Err((made as u64, refusal));
        }
    }
    Ok(rounds as u64)
}
