//! The callers of a shared book or core.
ghost use Rattle.std.specs.Prelude.{◌≡◌, []};
ghost use Rattle.g1_shared.specs.{length, count_by, is_store, own_record, made_by, stored_by};

use crate::ledgers::Terms;
use g1_log::Taker;
use g1_records::CallerRecord;
use g1_steps::Mutator;
use std::marker::Model;
use std::sync::ledger::{Ledger, Share};

/// A caller's number, how many of its calls were entered and how many of these are stores, with its
/// shares of both totals and its record.
#[derive(Drop)]
pub struct CallerCounts<M: Terms, S: Ledger> {
    number: u32,
    pub(crate) made: u64,
    pub(crate) stored: u64,
    pub(crate) made_share: Share<M>,
    pub(crate) stored_share: Share<S>,
    pub(crate) own: CallerRecord,
}

impl<M: Terms, S: Ledger> Model for CallerCounts<M, S> {
    ghost use Rattle.std.specs.Prelude.{◌≡◌};
    ghost use Rattle.g1_shared.specs.Counts.{CallerCounts as C, counts_code};
    ghost use Rattle.g1_shared.specs.Prelude.{length, count_by, is_store};
    ghost use Rattle.g1_core.specs.contracts.entry.Entry as entry;

    ghost Value = { C };

    ghost coded = { counts_code entry.the_row.coded };

    ghost view = { λ c. record { number = c.number; did = c.own.entries } };

    ghost invariant = { λ c. (c.made_share.parts ≡ 1) × (c.made_share.amount ≡ c.made)
        × (c.stored_share.parts ≡ 1) × (c.stored_share.amount ≡ c.stored)
        × (c.made ≡ length c.own.entries) × (c.stored ≡ count_by is_store c.own.entries)
        × (c.own.table ≡ M.terms.records) × (c.own.number ≡ c.number) };
}

impl<M: Terms, S: Ledger> CallerCounts<M, S> {
    ghost use Rattle.g1_shared.specs.Counts.{CallerCounts as C};

    /// No call yet, with a part of each ledger.
    pub(crate) fn new(
        number: u32,
        made_share: Share<M>,
        stored_share: Share<S>,
        own: CallerRecord,
    ) -> CallerCounts<M, S>
        requires made { (made_share.parts ≡ 1) × (made_share.amount ≡ 0) }
        requires stored { (stored_share.parts ≡ 1) × (stored_share.amount ≡ 0) }
        requires own { own ≡ own_record M.terms.records number [] }
        ensures { let t : C = record { number = number; did = [] } in result ≡ t }
    {
        CallerCounts {
            number,
            made: 0,
            stored: 0,
            made_share,
            stored_share,
            own,
        }
    }

    /// The number of the caller.
    pub(crate) fn number(&self) -> u32
        ensures { result ≡ self.now.number }
    {
        self.number
    }

    /// How many of its calls were entered, and how many of these are stores.
    fn counts(&self) -> (u64, u64)
        ensures { (result.0 ≡ made_by self.now) × (result.1 ≡ stored_by self.now) }
    {
        (self.made, self.stored)
    }

    /// The shares, and the record.
    fn into_shares(self) -> (Share<M>, Share<S>, CallerRecord)
        ensures made { (result.0.parts ≡ 1) × (result.0.amount ≡ made_by self) }
        ensures stored { (result.1.parts ≡ 1) × (result.1.amount ≡ stored_by self) }
        ensures own { result.2 ≡ own_record M.terms.records self.number self.did }
    {
        let CallerCounts {
            made_share,
            stored_share,
            own,
            ..
        } = self;
        (made_share, stored_share, own)
    }
}

/// One of the callers of a shared book or core: its counts, its taker, and if it is a mutator its
/// log and sender. Contracts also see the entries that it made, in order (`counts.did`).
///
/// It belongs to one thread at a time, and each call borrows it. A caller is used with the
/// `Shared` that made it.
#[derive(Drop)]
pub struct Caller<M: Terms, S: Ledger> {
    pub(crate) counts: CallerCounts<M, S>,
    pub(crate) mutator: Option<Mutator>,
    pub(crate) taker: Taker,
}

impl<M: Terms, S: Ledger> Model for Caller<M, S> {
    ghost use Rattle.std.specs.Prelude.{◌<◌};
    ghost use Rattle.g1_shared.specs.Prelude.{IsSome};
    ghost use Rattle.g1_shared.specs.Callers.{CallerState};

    ghost Value = { CallerState };

    ghost view = { λ c. record { counts = c.counts; mutator = c.mutator; taker = c.taker } };

    ghost invariant = { λ c. c.counts.number < M.terms.mutators → IsSome c.mutator };
}

impl<M: Terms, S: Ledger> Caller<M, S> {
    /// The caller's number. If it is below the count of mutators, the caller is a mutator, which
    /// may store and flush. Constant time.
    pub fn number(&self) -> u32
        ensures { result ≡ self.now.counts.number }
    {
        self.counts.number()
    }

    /// How many of its calls were made, and not refused, since the sharing began. Constant time.
    pub fn made(&self) -> u64
        ensures { result ≡ made_by self.now.counts }
    {
        self.counts.counts().0
    }

    /// How many of these are stores. Constant time.
    pub fn stored(&self) -> u64
        ensures { result ≡ stored_by self.now.counts }
    {
        self.counts.counts().1
    }

    /// The caller's shares of both totals, and its record. Its log and its ends of the queue are
    /// given up.
    pub(crate) fn into_shares(self) -> (Share<M>, Share<S>, CallerRecord)
        ensures made { (result.0.parts ≡ 1) × (result.0.amount ≡ made_by self.counts) }
        ensures stored { (result.1.parts ≡ 1) × (result.1.amount ≡ stored_by self.counts) }
        ensures own { result.2
            ≡ own_record M.terms.records self.counts.number self.counts.did }
    {
        let Caller { counts, .. } = self;
        counts.into_shares()
    }
}
