//! Refinements that are entered in the history.
ghost use Rattle.std.specs.Prelude.{◌≡◌, ◌≤◌};
ghost use Rattle.g1_history.specs.{option_map, cards_in};

use crate::book::Book;
use crate::keeps::Keeps;
use crate::refusal::Refusal;
use crate::room::{copied, list_room};
use g1_core::{Call, RefineReply, Reply};
use g1_log::Buffer;

impl<H: Keeps> Book<H> {
    ghost use Rattle.g1_history.specs.{refine_entry, DoesRefine, MakesCall};

    /// Refines a buffer, as the core does, and enters the call: the buffer's cards take their
    /// turns, oldest first. `None` refines nothing, and is entered too (docs/rules.md,
    /// Refinement).
    ///
    /// A short reply is entered. Returns `BookFull` exactly if the history is full, `NoMemory` if
    /// room for the entry, for its list or for the reply's list was refused. Either changes
    /// nothing. The entry's list takes 4 bytes for each refined card.
    pub fn refine(&mut self, caller: u32, buffer: Option<&Buffer>) -> Result<RefineReply, Refusal>
        ensures { MakesCall H.KEEPS self.old (refine_entry caller)
            (DoesRefine (option_map (λ b. b.now) buffer.entry)) result self.new }
    {
        self.history.make_room()?;
        let room = list_room::<H>(self.alloc, cards_in(buffer))?;
        let reply = self.core.refine(buffer)?;
        let answer = Reply::Refined {
            taken: reply.taken,
            hot: reply.hot,
            skipped: reply.skipped,
            left: reply.left,
            short: reply.short,
        };
        let refined = copied::<H>(room, &reply.refined);
        self.history.enter(caller, Call::Refine, answer, refined);
        Ok(reply)
    }
}

/// Returns how many cards a refinement of the buffer refines at most: the cards of the buffer, or 0
/// if there is none. Constant time.
fn cards_in(buffer: Option<&Buffer>) -> usize
    ensures cards { result ≡ cards_in (option_map (λ b. b.now) buffer.entry) }
    ensures few { result ≤ 256 }
{
    match buffer {
        Some(lent) => lent.cards().len(),
        None => 0,
    }
}
