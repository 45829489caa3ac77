//! How a book is shared, and how it is given back.
ghost use Rattle.std.specs.Prelude.{◌≡◌, ◌<◌, ◌≤◌};
ghost use Rattle.g1_shared.specs.{ℕ, sum_by, slice_index_or, IfOk, IfErr, vec_len, vec_capacity};
ghost use Rattle.g1_shared.specs.{All, capacity_of, IsNewTaker, made_of, stored_of, terms_of};
ghost use Rattle.g1_shared.specs.{AreNewMutators, CallerState, IsNewCaller, AreNone};
ghost use Rattle.g1_shared.specs.{IsTold, kept_terms, shared_terms, map, AreAll, AreAllCallers};
ghost use Rattle.g1_shared.specs.{made_by, stored_by, recorded, []};

use crate::caller::{Caller, CallerCounts};
use crate::counted::Counted;
use crate::ledgers::{Ledgers, Terms};
use crate::lock::Lock;
use crate::shared::Shared;
use g1_core::Config;
use g1_history::{Book, Keeps};
use g1_layout::NoMemory;
use g1_log::{Line, Taker};
use g1_records::Records;
use g1_steps::{Mutator, open_line};
use std::sync::ledger::{Ledger, Share};

impl<M: Terms, S: Ledger, H: Keeps> Shared<M, S, H> {
    /// Puts a book without entries under a lock, with a queue of completed buffers beside it, and
    /// makes its callers (docs/rules.md, The history under a lock).
    ///
    /// There are at least as many callers as the book has mutators, and at most 12, numbered from
    /// 0. Caller `k` below the mutators is mutator `k`, with an empty log and sender `k`; only
    /// these store and flush. Each caller has a taker, and all ends of the queue are theirs. The
    /// queue holds as many buffers as the settings' limit. The ledgers have one part for each
    /// caller, and each caller's record is empty.
    ///
    /// If a growth was refused, the book is returned as it was, and the ledgers are given up.
    #[tactic(auto, using(crate::proofs::none_counted, crate::proofs::kept_mutators))]
    pub fn open(
        ledgers: Ledgers,
        book: Book<H>,
        callers: u32,
    ) -> Result<(Shared<M, S, H>, Vec<Caller<M, S>>), (Book<H>, NoMemory)>
        requires ledgers { (ledgers.made ≡ M.name) × (ledgers.stored ≡ S.name) }
        requires parts { (ledgers.parts ≡ callers) × (M.parts ≡ callers) × (S.parts ≡ callers) }
        requires terms { shared_terms book ledgers.records ≡ M.terms }
        requires empty { AreNone H.KEEPS book }
        requires callers { (M.terms.mutators ≤ callers) × (callers ≤ 12) }
        ensures callers { IfOk result (λ opened. vec_len opened.1 ≡ callers) }
        ensures each { IfOk result (λ opened.
            (k : ℕ) (d : CallerState) → k < callers
            → IsNewCaller opened.0 M.terms.settings.log M.terms.mutators k
            (slice_index_or opened.1.items k d)) }
        ensures all { IfOk result (λ opened. AreAllCallers opened.1.items) }
        ensures capacity { IfOk result (λ opened. capacity_of opened.0 ≡ M.terms.settings.limit) }
        ensures err { IfErr result (λ refused. refused.0 ≡ book) }
    {
        let alloc = book.allocator();
        let config = book.config();
        let mutators = book.mutators();
        let _layout = book.layout();
        let Ok(room) = Vec::with_capacity(alloc, callers as usize) else {
            return Err((book, NoMemory));
        };
        let Ok((line, mutators, takers)) = open_line(alloc, config, mutators, callers) else {
            return Err((book, NoMemory));
        };
        let Ledgers {
            made,
            stored,
            mut records,
        } = ledgers;
        let (made, made_share) = made.open::<M>();
        let (stored, stored_share) = stored.open::<S>();
        let shares = (made_share, stored_share);
        let ends = (mutators, takers);
        let all = callers_of(&line, &config, callers, shares, &mut records, ends, room);
        let counted = Counted {
            book,
            made,
            stored,
            records,
        };
        let shared = Shared {
            counted: Lock::new(counted, !H::KEEPS),
            line,
            alloc,
            start: config.start(),
        };
        Ok((shared, all))
    }

    /// Ends the sharing and returns the book, once all callers are handed in (docs/rules.md, The
    /// history under a lock).
    ///
    /// What the callers made was a permitted run, which led from the table that was shared to that
    /// of the book that comes back (`IsTold`): each caller's record is just the entries of this run
    /// with its number, in their order, each with the reply that it was given, and there are as
    /// many as the callers made. Where the book keeps its entries, they are this run. What is left
    /// in logs and queue is given up: each card there is pending by its mark, unless it was refined
    /// meanwhile. No memory is taken.
    pub fn finish(self, callers: Vec<Caller<M, S>>) -> Book<H>
        requires some { 0 < vec_len callers }
        requires made { vec_len callers ≡ M.parts }
        requires stored { vec_len callers ≡ S.parts }
        ensures made { made_of H.KEEPS result.entries result.totals
            ≡ sum_by (λ caller. made_by caller.counts) callers.items }
        ensures stored { stored_of H.KEEPS result.entries result.totals
            ≡ sum_by (λ caller. stored_by caller.counts) callers.items }
        ensures terms { terms_of result ≡ kept_terms M.terms }
        ensures told { IsTold H.KEEPS M.terms callers.items result }
    {
        let Shared { counted, .. } = self;
        counted.into_inner().end(callers)
    }
}

/// The callers, each with a part of both shares and a taker, and those below the mutators with the
/// mutator of their number.
#[tactic(auto, using(crate::proofs::EachLemmas::rights_begin))]
fn callers_of<M: Terms, S: Ledger>(
    line: &Line,
    config: &Config,
    count: u32,
    shares: (Share<M>, Share<S>),
    records: &mut Records,
    ends: (Vec<Mutator>, Vec<Taker>),
    room: Vec<Caller<M, S>>,
) -> Vec<Caller<M, S>>
    requires made { (shares.0.parts ≡ count) × (shares.0.amount ≡ 0) }
    requires stored { (shares.1.parts ≡ count) × (shares.1.amount ≡ 0) }
    requires mutators { (vec_len ends.0 ≡ M.terms.mutators)
        × AreNewMutators line.now config.now.log 0 ends.0.items }
    requires takers { (vec_len ends.1 ≡ count) × All (IsNewTaker line.now) ends.1.items }
    requires few { M.terms.mutators ≤ count }
    requires all { AreAll (map (λ m. m.sender) ends.0.items) ends.1.items }
    requires records { records.old ≡ recorded M.terms.records [] 0 }
    requires room { (vec_len room ≡ 0) × (count ≤ vec_capacity room) }
    ensures records { (records.new.table ≡ M.terms.records) × (records.new.entries ≡ []) }
    ensures len { vec_len result ≡ count }
    ensures all { AreAllCallers result.items }
    ensures each { (k : ℕ) (d : CallerState) → k < count
        → IsNewCaller line.now config.now.log M.terms.mutators k (slice_index_or result.items k d) }
{
    let mut all = room;
    let (mut made, mut stored) = shares;
    let (mutators, mut takers) = ends;
    let mut mutators = mutators.into_iter();
    for number in 0..count {
        let shares = (made.split_off(1, 0), stored.split_off(1, 0));
        let counts = CallerCounts::new(number, shares.0, shares.1, records.caller());
        let mutator = mutators.next();
        let taker = takers.take_last();
        all.push_reserved(Caller {
            counts,
            mutator,
            taker,
        });
    }
    all
}
