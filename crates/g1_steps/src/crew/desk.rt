//! What workers do, and where they make their calls.
ghost use Rattle.std.specs.Prelude.{◌≡◌, ◌<◌, ◌∷◌, ◌++◌};
ghost use Rattle.g1_steps.specs.Prelude.{ℕ, [], List, Bool, true, IfSome, IfOk, IfErr, OnErr, OnOk};
ghost use Rattle.g1_steps.specs.Prelude.{Option};
ghost use Rattle.g1_core.specs.declared.reply.StoreReply.{StoreReply as Stored};
ghost use Rattle.g1_core.specs.declared.reply.RefineReply.{RefineReply as Worked};
ghost use Rattle.g1_history.specs.declared.refusal.Refusal.{Refusal as Why};
ghost use Rattle.g1_steps.specs.declared.steps.mutator.FlushReply.{FlushReply as Flushed};
ghost use Rattle.g1_steps.specs.Ask.{Ask, AskStore, AskFlush, AskWork};

use crate::steps::FlushReply;
use g1_core::{RefineReply, StoreReply};
use g1_history::Refusal;
use g1_layout::Slot;

/// A call in a mutator's script.
#[derive(Debug, Clone, Copy, PartialEq, Eq)]
pub enum Step {
    /// A store of a reference, or of null, into the slot.
    Store(Slot, Option<Slot>),
    /// A flush of the log.
    Flush,
}

/// What a worker does.
#[derive(Debug, Drop)]
pub enum Script {
    /// Makes these calls of a mutator, in order.
    Mutate(Vec<Step>),
    /// Makes this many rounds of refinement.
    Refine(u32),
}

/// How many calls a worker made. `Err` if one was refused, with how many were made before it.
pub type Outcome = Result<u64, (u64, Refusal)>;

/// Where a worker makes its calls. A desk has all that they take, and belongs to one worker at a
/// time.
///
/// A worker ([`mutate`](crate::mutate), [`refiner`](crate::refiner)) and a crew
/// ([`run_crew`](crate::run_crew)) know nothing else of what they work on. So one crew runs a
/// borrowed book ([`LocalDesk`](crate::LocalDesk)), a book that threads share (`SharedDesk` of the
/// crate `g1_shared`), or a program's own desks.
pub trait Desk {
    /// Between two states exactly these calls were made, in order. Refused calls are not among
    /// them.
    ghost did: { Self → List Ask → Self → Type 0 };

    /// How many slots the heap has.
    ghost slots: { Self → ℕ };

    /// Whether its caller is a mutator.
    ghost may_store: { Self → Bool };

    /// What the reply of a store, a flush or a round says of the desk before and after the call.
    ghost stored: { Self → ℕ → Option ℕ → Stored → Self → Type 0 } = { λ _ _ _ _ _. Unit {0} };

    ghost flushed: { Self → Flushed → Self → Type 0 } = { λ _ _ _. Unit {0} };

    ghost worked: { Self → Worked → Self → Type 0 } = { λ _ _ _. Unit {0} };

    /// What a refusal of what was asked tells of the desk before and after the call.
    ghost refused: { Self → Ask → Why → Self → Type 0 } = { λ _ _ _ _. Unit {0} };

    /// Stores a reference, or null. A refused store counts as no call.
    fn store(&mut self, slot: Slot, target: Option<Slot>) -> Result<StoreReply, Refusal>
        requires mutator { may_store self.old ≡ true }
        requires slot { slot < slots self.old }
        requires target { IfSome target (λ place. place < slots self.old) }
        ensures ok { OnOk result (did self.old (AskStore slot target ∷ []) self.new) }
        ensures reply { IfOk result (λ reply. stored self.old slot target reply self.new) }
        ensures refusal { IfErr result (λ why.
            refused self.old (AskStore slot target) why self.new) }
        ensures err { OnErr result (did self.old [] self.new) }
        ensures same { (slots self.new ≡ slots self.old)
            × (may_store self.new ≡ may_store self.old) };

    /// Empties the caller's log. A refused flush counts as no call.
    fn flush(&mut self) -> Result<FlushReply, Refusal>
        requires { may_store self.old ≡ true }
        ensures ok { OnOk result (did self.old (AskFlush ∷ []) self.new) }
        ensures reply { IfOk result (λ reply. flushed self.old reply self.new) }
        ensures refusal { IfErr result (λ why. refused self.old AskFlush why self.new) }
        ensures err { OnErr result (did self.old [] self.new) }
        ensures same { (slots self.new ≡ slots self.old)
            × (may_store self.new ≡ may_store self.old) };

    /// Makes a round of refinement. A refused round counts as no call.
    fn work(&mut self) -> Result<RefineReply, Refusal>
        ensures ok { OnOk result (did self.old (AskWork ∷ []) self.new) }
        ensures reply { IfOk result (λ reply. worked self.old reply self.new) }
        ensures refusal { IfErr result (λ why. refused self.old AskWork why self.new) }
        ensures err { OnErr result (did self.old [] self.new) }
        ensures same { (slots self.new ≡ slots self.old)
            × (may_store self.new ≡ may_store self.old) };

    ghost none: { (s : Self) → did s [] s };

    ghost then: { (s t u : Self) (xs ys : List Ask) → did s xs t → did t ys u
        → did s (xs ++ ys) u };
}
