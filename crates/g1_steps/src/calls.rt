//! The calls that the steps of a caller make.
ghost use Rattle.std.specs.Prelude.{◌≡◌, ◌<◌, ◌≤◌, ◌+◌, ◌∷◌, ◌++◌};
ghost use Rattle.g1_steps.specs.Prelude.{Bool, [], List, true, false, length, IfOk, OnErr};
ghost use Rattle.g1_steps.specs.Prelude.{IfSome, IsNone, option_map, Shape, slot_count, card_of};
ghost use Rattle.g1_steps.specs.Prelude.{IsLent};
ghost use Rattle.g1_steps.specs.Made.{CallMade, stores, refines};

use g1_core::{RefineReply, StoreReply};
use g1_history::Refusal;
use g1_layout::Slot;
use g1_log::{Buffer, Log};
use std::alloc::Global;

/// Makes the calls of one caller: a store with a given log, and a refinement of a given buffer.
///
/// The steps of a caller ([`Mutator`](crate::Mutator), [`refine`](crate::refine),
/// [`work`](crate::work)) are written over these calls. A borrowed book
/// ([`LentBook`](crate::LentBook)) makes them. A step says through `did` which calls it made, so
/// each implementation says as much of them as it knows (docs/rules.md, The steps of a caller).
pub trait Calls {
    /// The layout of the heap.
    ghost layout: { Self → Shape };

    /// Whether the caller may store: it is a mutator then.
    ghost may_store: { Self → Bool };

    /// Between two states the caller made exactly these calls, one after the other. Refused calls
    /// are among them.
    ghost did: { Self → List CallMade → Self → Type 0 };

    /// Stores a reference, or null, with the given log.
    ///
    /// A logged store pushes its card into the log. If that fills the log, all its cards go as a
    /// buffer into the place that is lent for it, which is empty before, and the log is then empty.
    /// A refusal leaves log and place as they were.
    fn store(
        &mut self,
        log: &mut Log,
        completed: &mut Option<Buffer>,
        slot: Slot,
        target: Option<Slot>,
    ) -> Result<StoreReply, Refusal>
        requires caller { may_store self.old ≡ true }
        requires empty { IsNone completed.old }
        requires slot { slot < slot_count (layout self.old) }
        requires target { IfSome target (λ place. place < slot_count (layout self.old)) }
        ensures made { did self.old (stores slot target result ∷ []) self.new }
        ensures plain { IfOk result (λ reply. (reply.refined ≡ []) × (reply.short ≡ false)) }
        ensures lent { IfOk result (λ reply.
            IsLent (card_of (layout self.old) slot) reply log.old log.new completed.new) }
        ensures err { OnErr result ((log.new ≡ log.old) × (completed.new ≡ completed.old)) };

    /// Refines a buffer: its cards take their turns, oldest first. `None` refines nothing, and is a
    /// call too.
    ///
    /// `taken` is 1 if the buffer was wholly done, and `left` is always 0. At most 256 cards are
    /// refined or skipped, and at most 256 are hot.
    fn refine(&mut self, buffer: Option<&Buffer>) -> Result<RefineReply, Refusal>
        ensures made { did self.old (refines (option_map (λ b. b.now) buffer.entry) result
            ∷ []) self.new }
        ensures counts { IfOk result (λ reply.
            (reply.taken ≤ 1) × (length reply.refined + reply.skipped ≤ 256) × (reply.hot ≤ 256)) }
        ensures left { IfOk result (λ reply. reply.left ≡ 0) }
        ensures idle { IfOk result (λ reply. IsNone buffer.entry → reply.taken ≡ 0) };

    /// The allocator of the lists in the replies.
    fn allocator(&self) -> Global;

    ghost none: { (s : Self) → did s [] s };

    ghost then: { (s t u : Self) (xs ys : List CallMade) → did s xs t → did t ys u
        → did s (xs ++ ys) u };

    ghost stays: { (s t : Self) (ms : List CallMade) → did s ms t
        → (layout t ≡ layout s) × (may_store t ≡ may_store s) };
}
