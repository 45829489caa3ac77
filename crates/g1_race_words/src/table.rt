//! The table of words and a seat at it: how they begin, and how they end.
ghost use Rattle.std.specs.Prelude.{◌≡◌, ◌<◌};
ghost use Rattle.g1_race_words.specs.Prelude.{[], IfOk};
ghost use Rattle.std.specs.Slots.{slots_items, slots_len, IsFull};
ghost use Rattle.g1_race_words.specs.Rule.{IsWholeShape, null_of, word_count};
ghost use Rattle.g1_race_words.specs.Steps.{frozen_seat};
ghost use Rattle.g1_race_words.specs.Seats.{IsPaused};

use crate::address::words_of;
use crate::rule::RaceRule;
use crate::view::{RaceShape, View};
use atomic_table::{Closed, Seat, Table};
use std::alloc::{AllocError, Global};
use std::marker::Model;

/// The words of a race: one for each slot, one for each card's mark, a row of bits for each region,
/// and a row of flags, one for each eight cards. Threads share it by `&`.
///
/// Its model has the identity of the table, the shape of its heap, and the address of the words.
#[derive(Drop)]
pub struct RaceTable {
    pub(crate) table: Table<(), View, RaceShape, RaceRule, Global>,
}

impl Model for RaceTable {
    ghost use Rattle.std.specs.Prelude.{◌≡◌, ◌<◌};
    ghost use Rattle.g1_race_words.specs.Rule.{IsWholeShape, word_count};
    ghost use Rattle.g1_race_words.specs.Seats.{Words};

    ghost Value = { Words };

    ghost view = { λ a. record {
      table_id = a.table.shared.table_id;
      shape = a.table.shared.key;
      address = a.table.shared.words;
    } };

    ghost invariant = { λ a. (a.table.shared.table_id.words ≡ word_count a.table.shared.key)
        × (a.table.shared.table_id.slots ≡ 0)
        × IsWholeShape a.table.shared.key × (0 < a.table.shared.key.parties) };
}

/// A seat at the words of a race. It has no bytes.
///
/// Its model has the identity of its table, and what its thread knows.
#[derive(Drop)]
pub struct RaceSeat {
    pub(crate) seat: Seat<(), View>,
}

impl Model for RaceSeat {
    ghost use Rattle.std.specs.Prelude.{◌≡◌};
    ghost use Rattle.g1_race_words.specs.Prelude.{Seat, []};
    ghost use Rattle.g1_race_words.specs.declared.view.View.{View};

    ghost Value = { Seat (Unit {0}) View };

    ghost view = { λ a. a.seat };

    ghost invariant = { λ a. a.seat.me.1 ≡ [] };
}

impl RaceTable {
    /// Makes the words of a heap at a pause, all 0, and the one seat at them.
    ///
    /// Takes 8 bytes a word, twice while it begins. Returns `AllocError` if memory was refused:
    /// nothing is left of the table.
    #[tactic(auto, using(crate::proofs::going_first, crate::proofs::null_begun))]
    pub fn open(alloc: Global, shape: RaceShape) -> Result<(RaceTable, RaceSeat), AllocError>
        requires shape { IsWholeShape shape }
        requires parties { 0 < shape.parties }
        ensures shape { IfOk result (λ r. r.0.shape ≡ shape) }
        ensures seat { IfOk result (λ r. IsPaused r.0.table_id shape r.1) }
        ensures words { IfOk result (λ r.
            r.1.me ≡ (frozen_seat (null_of shape) shape.parties, [])) }
    {
        let zeros = vec![in alloc; 0u64; shape.slots + shape.cards + shape.bits + shape.row]?;
        let (table, seat) = Table::of_words(alloc, &zeros, &shape)?;
        Ok((RaceTable { table }, RaceSeat { seat }))
    }

    /// Returns the address of the first word, which the others follow, 8 bytes each. It stays the
    /// same for as long as the table lasts. Constant time.
    ///
    /// Whoever reads there does so by atomic loads of whole words, and writes nothing.
    pub fn words(&self) -> *const u64
        ensures { result ≡ self.now.address }
    {
        words_of(&self.table.shared)
    }

    /// Ends the race at a pause, and returns the words as the seat knew them.
    pub fn close(self, seat: RaceSeat) -> Closed<(), Global>
        requires seat { IsPaused self.table_id self.shape seat }
        ensures words { slots_items result.words ≡ seat.me.0.began_words }
        ensures full { IsFull result.words }
        ensures len { slots_len result.words ≡ word_count self.shape }
        ensures none { slots_len result.slots ≡ 0 }
    {
        let RaceTable { table } = self;
        let RaceSeat { seat } = seat;
        table.close_with(seat)
    }
}
