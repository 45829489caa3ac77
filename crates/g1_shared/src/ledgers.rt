//! The ledgers of a shared book: two totals that are kept under the lock, of which each caller
//! holds a share, and the records of what each caller made.
ghost use Rattle.std.specs.Prelude.{◌≡◌, ◌+◌, ◌<◌, ◌^◌, IfOk};

use g1_layout::NoMemory;
use g1_records::Records;
use std::alloc::Global;
use std::marker::{Brand, Model};
use std::sync::ledger;
use std::sync::ledger::{Blank, Ledger, Share};

/// The ledgers that a book is to be shared with: those of all calls and of the stores, each with
/// one part for each caller, and the records of the callers, which have no entry yet.
#[derive(Drop)]
pub struct Ledgers {
    pub(crate) made: Blank,
    pub(crate) stored: Blank,
    pub(crate) records: Records,
}

impl Model for Ledgers {
    ghost use Rattle.std.specs.Prelude.{◌≡◌, []};
    ghost use Rattle.g1_shared.specs.Prelude.{recorded};
    ghost use Rattle.g1_shared.specs.Counts.{LedgerNames};

    ghost Value = { LedgerNames };

    ghost view = { λ a. record {
      made = a.made.name;
      stored = a.stored.name;
      parts = a.made.parts;
      records = a.records.table;
    } };

    ghost invariant = { λ a. (a.stored.parts ≡ a.made.parts)
        × (a.records ≡ recorded a.records.table [] 0) };
}

impl Ledgers {
    /// Makes ledgers for this many callers. They take memory for one word, which may be refused.
    pub fn open(alloc: Global, callers: u32) -> Result<Ledgers, NoMemory>
        ensures { IfOk result (λ ledgers. ledgers.parts ≡ callers) }
    {
        let parts = u64::from(callers);
        let Ok(records) = Records::open(alloc) else {
            return Err(NoMemory);
        };
        Ok(Ledgers {
            made: Blank::new(parts),
            stored: Blank::new(parts),
            records,
        })
    }
}

/// The ledger of all calls, which also knows on what terms the book was shared. The conditions on
/// the calls of a `Shared` speak of these terms, since no clause can speak of what is under the
/// lock.
///
/// A function that shares a book is generic in a `Terms` and a `Ledger`. Its caller
/// passes [`Brand`](std::marker::Brand) for both, and chooses the terms in its proof.
pub trait Terms: Ledger {
    ghost use Rattle.g1_shared.specs.Counts.{SharedTerms};

    /// What the book was shared with, and keeps; and the machine that it had then.
    ghost terms: { SharedTerms };
}

impl Terms for Brand {
    ghost use Rattle.g1_shared.specs.Prelude.{opened};
    ghost use Rattle.g1_shared.specs.Counts.{shared_terms};
    ghost use Rattle.g1_records.specs.Records.{no_table};

    ghost terms = { shared_terms (opened (record { regions = 0; cards = 0; slots = 0 })
        (record { log = 0; limit = 0; hot = 0; ring = 0; start = 0 }) 0 0) no_table };
}

/// One more in a total and in a share of it, whose amount is kept as a number too.
pub(crate) fn raise<L: Ledger>(total: &mut ledger::Book<L>, share: &mut Share<L>, count: &mut u64)
    requires part { share.old.parts ≡ 1 }
    requires same { share.old.amount ≡ count.old }
    requires fits { total.old.total + 1 < 2 ^ 64 }
    ensures total { total.new.total ≡ total.old.total + 1 }
    ensures amount { share.new.amount ≡ count.new }
    ensures parts { share.new.parts ≡ 1 }
    ensures count { count.new ≡ count.old + 1 }
{
    total.audit(share);
    total.add(share, 1);
    *count += 1;
}
