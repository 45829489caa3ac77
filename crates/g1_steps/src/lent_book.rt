//! The calls of one caller at a borrowed book.
ghost use Rattle.std.specs.Prelude.{◌≡◌};
ghost use Rattle.g1_steps.specs.Prelude.{refl, nat_lt, ◌∙◌, ap, subst, BookTerms, layout_in};
ghost use Rattle.g1_steps.specs.Made.{AreCalls, calls_then};
ghost use Rattle.g1_steps.specs.Lent.{IsBookCallBy, book_calls_stay};

use crate::calls::Calls;
use g1_core::{RefineReply, StoreReply};
use g1_history::{Book, Keeps, Kept, Refusal};
use g1_layout::Slot;
use g1_log::{Buffer, Log};
use std::alloc::Global;

/// A borrowed book, and the number of the caller.
///
/// Each call that is not refused is one entry of that caller, or one more in the book's totals, and
/// does what the book's own method does.
#[derive(Drop)]
pub struct LentBook<'a, H: Keeps = Kept> {
    book: &'a mut Book<H>,
    caller: u32,
}

impl<'a, H: Keeps> LentBook<'a, H> {
    /// Makes the calls of this caller at the book. The caller may store if its number is below the
    /// book's count of mutators.
    pub fn new(book: &'a mut Book<H>, caller: u32) -> LentBook<'a, H>
        ensures lends { result.book.ghost_name ≡ book.entry.ghost_name }
        ensures book { result.book.now ≡ book.old }
        ensures caller { result.caller ≡ caller }
    {
        LentBook { book, caller }
    }
}

impl<H: Keeps> Calls for LentBook<'_, H> {
    ghost layout = { λ s. layout_in s.book.now };

    ghost may_store = { λ s. nat_lt s.caller s.book.now.mutators };

    ghost did = { λ s ms t. (t.book.ghost_name ≡ s.book.ghost_name) × (t.caller ≡ s.caller)
        × AreCalls (IsBookCallBy H.KEEPS s.caller) s.book.now ms t.book.now };

    #[inline(always)]
    fn store(
        &mut self,
        log: &mut Log,
        completed: &mut Option<Buffer>,
        slot: Slot,
        target: Option<Slot>,
    ) -> Result<StoreReply, Refusal> {
        self.book
            .store_into(self.caller, log, completed, slot, target)
    }

    fn refine(&mut self, buffer: Option<&Buffer>) -> Result<RefineReply, Refusal> {
        self.book.refine(self.caller, buffer)
    }

    fn allocator(&self) -> Global {
        self.book.allocator()
    }

    ghost none = { λ s. (refl, refl, refl) };

    ghost then = { λ s t u xs ys h k. (
      k.0 ∙ h.0,
      k.1 ∙ h.1,
      calls_then
          (IsBookCallBy H.KEEPS s.caller) s.book.now t.book.now u.book.now xs ys h.2
          (subst (λ n. AreCalls (IsBookCallBy H.KEEPS n) t.book.now ys u.book.now) h.1 k.2),
    ) };

    ghost stays = { λ s t ms h.
        let same = book_calls_stay H.KEEPS s.caller s.book.now t.book.now ms h.2 in
        (ap (λ (k : BookTerms). k.layout) same, λ i. nat_lt (h.1 i) (same i).mutators) };
}
