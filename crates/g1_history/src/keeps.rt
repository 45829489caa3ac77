//! What a book remembers of its calls: their entries, or only how many there were.
ghost use Rattle.std.specs.Prelude.{◌≤◌};

use crate::refusal::Refusal;
use g1_core::{Call, CardList, Entry, Reply};

/// What a book remembers of its calls, and how many it may remember.
pub trait Keeps: Drop {
    ghost use Rattle.std.specs.Prelude.{◌≡◌, ◌≤◌, ◌<◌, ◌↔◌};
    ghost use Rattle.g1_history.specs.Prelude.{Bool, OnOk};
    ghost use Rattle.g1_history.specs.History.{Past, made_of, past_with};

    ghost KEEPS: { Bool };

    /// What is remembered.
    ghost past: { Self → Past };

    /// Whether there is room for an entry.
    ghost is_ready: { Self → Type 0 };

    /// Whether entries are kept, with copies of the lists of their replies.
    const KEEPS: bool;

    /// Makes room for one more entry, and leaves what is remembered as it was.
    ///
    /// Returns `BookFull` exactly if as many calls were made as may be, and `NoMemory` if a growth
    /// was refused.
    fn make_room(&mut self) -> Result<(), Refusal>
        requires within { let p = past self.old in made_of KEEPS p.entries p.totals ≤ p.limit }
        ensures same { past self.new ≡ past self.old }
        ensures ready { OnOk result (is_ready self.new) }
        ensures room { OnOk result
            (let p = past self.old in made_of KEEPS p.entries p.totals < p.limit) }
        ensures full { (result ≡ Err Refusal.BookFull)
            ↔ (let p = past self.old in made_of KEEPS p.entries p.totals ≡ p.limit) };

    /// Enters a call that was made, in room that was made for it. Its list is a copy where entries
    /// are kept, and else empty.
    fn enter(&mut self, caller: u32, call: Call, reply: Reply, refined: CardList)
        requires ready { is_ready self.old }
        ensures { past self.new ≡ past_with KEEPS (past self.old)
            (record { caller = caller; call = call; reply = reply; refined = refined }) };
}

/// Keeps the entries, up to a limit.
#[derive(Drop)]
pub struct Kept {
    pub(crate) entries: Vec<Entry>,
    pub(crate) limit: usize,
}

impl Keeps for Kept {
    ghost use Rattle.std.specs.Prelude.{◌<◌};
    ghost use Rattle.g1_history.specs.Prelude.{true, vec_len, vec_capacity};

    ghost KEEPS = { true };

    ghost past = { λ k. record {
      entries = k.entries.items;
      totals = record { made = 0; stored = 0 };
      limit = k.limit;
    } };

    ghost is_ready = { λ k. vec_len k.entries < vec_capacity k.entries };

    const KEEPS: bool = true;

    fn make_room(&mut self) -> Result<(), Refusal> {
        if self.entries.len() >= self.limit {
            return Err(Refusal::BookFull);
        }
        self.entries.reserve(1)?;
        Ok(())
    }

    fn enter(&mut self, caller: u32, call: Call, reply: Reply, refined: CardList) {
        self.entries.push_reserved(Entry {
            caller,
            call,
            reply,
            refined,
        });
    }
}

/// Keeps only how many calls were made, and how many of these were stores.
#[derive(Drop)]
pub struct Tallied {
    pub(crate) made: u64,
    pub(crate) stored: u64,
    pub(crate) limit: u64,
    pub ghost few: { stored ≤ made },
}

impl Keeps for Tallied {
    ghost use Rattle.std.specs.Prelude.{◌<◌};
    ghost use Rattle.g1_history.specs.Prelude.{false, []};

    ghost KEEPS = { false };

    ghost past = { λ t. record {
      entries = [];
      totals = record { made = t.made; stored = t.stored };
      limit = t.limit;
    } };

    ghost is_ready = { λ t. t.made < t.limit };

    const KEEPS: bool = false;

    #[inline(always)]
    fn make_room(&mut self) -> Result<(), Refusal> {
        if self.made == self.limit {
            return Err(Refusal::BookFull);
        }
        Ok(())
    }

    #[inline(always)]
    fn enter(&mut self, _caller: u32, call: Call, _reply: Reply, _refined: CardList) {
        self.made += 1;
        if let Call::Store { .. } = call {
            self.stored += 1;
        }
    }
}
