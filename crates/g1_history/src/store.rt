//! Stores of references that are entered in the history.
ghost use Rattle.std.specs.Prelude.{◌≡◌, ◌<◌};
ghost use Rattle.g1_history.specs.{IfOk, OnErr, IfSome, IsNone, slot_count, card_of};

use crate::book::{Book, again};
use crate::keeps::Keeps;
use crate::refusal::Refusal;
use g1_core::{Call, CardList, Reply, StoreReply};
use g1_layout::Slot;
use g1_log::{Buffer, Log};

impl<H: Keeps> Book<H> {
    ghost use Rattle.g1_history.specs.{store_entry, DoesStore, IsLent, MakesCall, layout_in};

    /// Stores a reference, or null, with the given log, as the core does, and enters the call
    /// (docs/rules.md, The barrier).
    ///
    /// The caller is a mutator: its number is below the count that the book was opened with. A
    /// buffer that the log hands out is returned beside the reply. Each of its cards stays pending
    /// until it is refined.
    ///
    /// Returns `BookFull` exactly if the history is full, `NoMemory` if room for the entry was
    /// refused. Either leaves book and log as they were. Constant time except for the growth of the
    /// history. The entry holds no list.
    #[inline(always)]
    pub fn store(
        &mut self,
        caller: u32,
        log: &mut Log,
        slot: Slot,
        target: Option<Slot>,
    ) -> Result<(StoreReply, Option<Buffer>), Refusal>
        requires caller { caller < self.old.mutators }
        requires slot { slot < slot_count (layout_in self.old) }
        requires target { IfSome target (λ place. place < slot_count (layout_in self.old)) }
        ensures call { MakesCall H.KEEPS self.old
            (λ answer. store_entry caller slot target answer.0)
            (λ answer. DoesStore slot target answer.0) result self.new }
        ensures lent { IfOk result (λ answer.
            IsLent (card_of (layout_in self.old) slot) answer.0 log.old log.new answer.1) }
        ensures err_log { OnErr result (log.new ≡ log.old) }
    {
        let mut completed = None;
        let reply = self.store_into(caller, log, &mut completed, slot, target)?;
        match completed {
            // No kilobyte is moved then.
            None => Ok((reply, None)),
            filled => Ok((reply, filled)),
        }
    }

    /// Stores and enters as `store` does, and puts a completed buffer into the place that the
    /// caller lends for it, instead of returning it (docs/rules.md, The barrier).
    ///
    /// The place is empty before the call, so no buffer is lost. After it, `completed` has the
    /// buffer if `fill` is `Full`, and is empty otherwise. `BookFull` and `NoMemory` are returned
    /// as by `store`, and leave book, log and place as they were. Constant time except for the
    /// growth of the history.
    #[inline(always)]
    pub fn store_into(
        &mut self,
        caller: u32,
        log: &mut Log,
        completed: &mut Option<Buffer>,
        slot: Slot,
        target: Option<Slot>,
    ) -> Result<StoreReply, Refusal>
        requires caller { caller < self.old.mutators }
        requires empty { IsNone completed.old }
        requires slot { slot < slot_count (layout_in self.old) }
        requires target { IfSome target (λ place. place < slot_count (layout_in self.old)) }
        ensures call { MakesCall H.KEEPS self.old (store_entry caller slot target)
            (DoesStore slot target) result self.new }
        ensures lent { IfOk result (λ reply.
            IsLent (card_of (layout_in self.old) slot) reply log.old log.new completed.new) }
        ensures err_lent { OnErr result ((log.new ≡ log.old) × (completed.new ≡ completed.old)) }
    {
        self.history.make_room()?;
        let call = Call::Store {
            slot,
            target: again(&target),
        };
        let reply = self.core.store_into(log, completed, slot, target);
        let answer = Reply::Stored {
            kind: reply.kind,
            fill: reply.fill,
            short: reply.short,
        };
        let none = CardList::new(self.alloc);
        self.history.enter(caller, call, answer, none);
        Ok(reply)
    }
}
