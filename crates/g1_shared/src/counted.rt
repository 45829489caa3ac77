//! A book with the ledgers of its calls and of its stores, and the records of its callers: what a
//! shared book keeps under its lock. Its calls are in [`calls`](crate::calls).
ghost use Rattle.std.specs.Prelude.{◌≡◌};

use crate::caller::Caller;
use crate::ledgers::Terms;
use g1_history::{Book, Keeps, Kept};
use g1_records::Records;
use std::marker::Model;
use std::sync::ledger;
use std::sync::ledger::Ledger;

/// A book with the totals of its calls and of its stores, and the records of its callers. Contracts
/// see the book.
///
/// Each call is the book's call of that name, by the caller's number, with the same reply and
/// errors. An entered call is counted for its caller, whose record has its entry. A refused one
/// leaves book and caller as they were.
#[derive(Drop)]
pub struct Counted<M: Terms, S: Ledger, H: Keeps = Kept> {
    pub(crate) book: Book<H>,
    pub(crate) made: ledger::Book<M>,
    pub(crate) stored: ledger::Book<S>,
    pub(crate) records: Records,
}

impl<M: Terms, S: Ledger, H: Keeps> Model for Counted<M, S, H> {
    ghost use Rattle.g1_shared.specs.Counts.{AreCounted};
    ghost use Rattle.g1_shared.specs.Prelude.{History, history_code};
    ghost use Rattle.g1_core.specs.contracts.entry.Entry as entry;

    ghost Value = { History };

    ghost coded = { history_code entry.the_row.coded };

    ghost view = { λ c. c.book };

    ghost invariant = { λ c.
        AreCounted H.KEEPS M.terms c.made.total c.stored.total c.records c.book };
}

impl<M: Terms, S: Ledger, H: Keeps> Counted<M, S, H> {
    ghost use Rattle.std.specs.Prelude.{◌<◌, vec_len};
    ghost use Rattle.g1_shared.specs.Prelude.{List, Entry};
    ghost use Rattle.g1_shared.specs.Counts.{IsRunTo};
    ghost use Rattle.g1_shared.specs.Callers.{HasOwn, IsTold};

    /// The book, on the terms that the callers know. A permitted run, which it remembers, led from
    /// the table that was shared to its own. Constant time.
    pub fn book(&self) -> &Book<H>
        ensures book { result.now ≡ self.now }
        ensures run { (entries : List Entry) × IsRunTo H.KEEPS M.terms entries self.now }
    {
        &self.book
    }

    /// The caller made just the entries with its number, in this order, of a permitted run that led
    /// to the book: of the book's own entries, where it keeps them. This is a fact for proofs, and
    /// takes three loads.
    pub fn check(&mut self, caller: &mut Caller<M, S>)
        ensures same { (self.new ≡ self.old) × (caller.new ≡ caller.old) }
        ensures did { (entries : List Entry) × IsRunTo H.KEEPS M.terms entries self.old
            × HasOwn entries caller.old }
    {
        self.records.check(&mut caller.counts.own);
    }

    /// The book, once all callers are handed in. Their shares have all parts, so what it remembers
    /// is just what they made.
    pub(crate) fn end(self, callers: Vec<Caller<M, S>>) -> Book<H>
        requires some { 0 < vec_len callers }
        requires parts { (vec_len callers ≡ M.parts) × (vec_len callers ≡ S.parts) }
        ensures book { result ≡ self }
        ensures told { IsTold H.KEEPS M.terms callers.items result }
    {
        let Counted {
            book,
            made: mut all_made,
            stored: mut all_stored,
            mut records,
        } = self;
        let mut callers = callers;
        let last = callers.take_last();
        let (mut made, mut stored, mut own) = last.into_shares();
        records.check(&mut own);
        while let Some(caller) = callers.pop() {
            let (its_made, its_stored, mut its_own) = caller.into_shares();
            records.check(&mut its_own);
            made.merge(its_made);
            stored.merge(its_stored);
        }
        all_made.audit(&mut made);
        all_stored.audit(&mut stored);
        book
    }
}
