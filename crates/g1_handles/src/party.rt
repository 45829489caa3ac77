//! A party of a race: a racer, a sweeper or a reader, with its share of the race.
//!
//! - [`store`], [`log`] and [`refine`] are the path of a card while parties are out, and [`counts`]
//!   tells what a party has done.
//! - [`exchange`] has the stores that return what a slot referred to or depend on it, [`batch`]
//!   several stores or a row of words by one call, and [`words`] a store of data and the stores of
//!   any word that return or compare the one before.
//! - [`reader_queries`] has what a reader answers.
#![tactic(auto, using(crate::proofs::PartyLemmas::same_parties))]

pub mod batch;
pub mod counts;
pub mod exchange;
pub mod log;
pub mod reader_queries;
pub mod refine;
pub mod store;
pub mod words;

ghost use Rattle.std.specs.Prelude.{◌≡◌};
ghost use Rattle.g1_handles.specs.Prelude.{Some, ForSome, arc_value, race_id};

use crate::party::counts::PartyCounts;
use g1_race::{Race, Racer, Reader, Sweeper};
use std::alloc::Global;
use std::sync::Arc;

/// A racer, which stores, a sweeper, which refines, or a reader, which reads a pause.
pub trait Role: Drop {
    ghost use Rattle.g1_handles.specs.Prelude.{TableId};
    ghost use Rattle.g1_race_words.specs.declared.view.RaceShape.{RaceShape};

    /// Its race.
    ghost of: { Self → TableId × RaceShape };
}

impl Role for Racer {
    ghost use Rattle.g1_handles.specs.Prelude.{racer_race};

    ghost of = { racer_race };
}

impl Role for Sweeper {
    ghost use Rattle.g1_handles.specs.Prelude.{sweeper_race};

    ghost of = { sweeper_race };
}

impl Role for Reader {
    ghost use Rattle.g1_handles.specs.Prelude.{reader_race};

    ghost of = { reader_race };
}

/// A party of a race.
#[derive(Drop)]
pub struct Party<P: Role> {
    pub(crate) race: Arc<Race, Global>,
    // None while it waits, in no handle: a racer or a sweeper at a pause, a reader outside a
    // reading.
    pub(crate) role: Option<P>,
    pub(crate) counts: PartyCounts,
    // Padding of a cache line: boxes of racers lie side by side, and a store writes the end of its
    // racer.
    pub(crate) apart: [u64; 8],
    ghost same: { ForSome role (λ p. P.of p ≡ race_id (arc_value race)) },
}

impl<P: Role> Party<P> {
    /// Takes its role, and leaves it waiting.
    pub(crate) fn park(&mut self) -> Option<P>
        ensures role { result ≡ self.old.role }
        ensures counts { self.new.counts ≡ self.old.counts }
        ensures race { arc_value self.new.race ≡ arc_value self.old.race }
    {
        self.role.take()
    }

    /// Gives it a role.
    pub(crate) fn seat(&mut self, role: P)
        requires { P.of role ≡ race_id (arc_value self.old.race) }
        ensures role { self.new.role ≡ Some role }
        ensures counts { self.new.counts ≡ self.old.counts }
        ensures race { arc_value self.new.race ≡ arc_value self.old.race }
    {
        self.role = Some(role);
    }
}
