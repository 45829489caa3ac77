//! A book that threads share, with the queue of completed buffers beside its lock.
//!
//! From a thread of its own, each caller makes the steps of a caller over the locked book
//! ([`steps`]) and asks it questions ([`calls`](crate::calls)). [`opening`] says how a book is
//! shared, and how it is given back.
ghost use Rattle.std.specs.Prelude.{◌≡◌};

mod opening;
mod steps;

use crate::counted::Counted;
use crate::ledgers::Terms;
use crate::lock::Lock;
use g1_history::{Keeps, Kept, Tallied};
use g1_log::Line;
use std::alloc::Global;
use std::marker::Model;
use std::sync::ledger::Ledger;
use std::sync::{MutexGuard, Wait};

/// A counted book under a lock, and the queue of completed buffers beside it (docs/rules.md, The
/// history under a lock).
///
/// Every call takes the shared book by `&` and a caller by `&mut`, so the callers run concurrently,
/// each in a thread of its own. The lock is held for one call of the book at a time, and never
/// while a buffer is put into the queue or taken from it. Contracts see the queue.
#[derive(Drop)]
pub struct Shared<M: Terms, S: Ledger, H: Keeps = Kept> {
    pub(crate) counted: Lock<Counted<M, S, H>>,
    line: Line,
    alloc: Global,
    start: usize,
}

/// A core with the totals of its calls under a lock, without a history, and the queue beside it
/// (docs/rattle.md, A lock without a history).
pub type SharedCore<M, S> = Shared<M, S, Tallied>;

impl<M: Terms, S: Ledger, H: Keeps> Model for Shared<M, S, H> {
    ghost use Rattle.std.specs.Prelude.{◌≡◌};
    ghost use Rattle.g1_log.specs.declared.line.Line.{Line as L};

    ghost Value = { L };

    ghost view = { λ s. s.line };

    ghost invariant = { λ s. s.start ≡ M.terms.settings.start };
}

impl<M: Terms, S: Ledger, H: Keeps> Shared<M, S, H> {
    ghost use Rattle.std.specs.Sync.Mutex.{mutex_guard_value};
    ghost use Rattle.g1_shared.specs.Prelude.{IsSound, IsKept, List, Entry};
    ghost use Rattle.g1_shared.specs.Counts.{IsRunTo};

    /// Waits for the lock, and returns the counted book until the guard is dropped.
    ///
    /// Whatever the threads did, a permitted run, which the book remembers, leads from the table
    /// that was shared to the one under the lock. What a caller that is shown to the guard has made
    /// are just the entries with its number, in order ([`Counted::check`]).
    pub fn lock<R: Wait>(&self, rt: &R) -> MutexGuard<'_, Counted<M, S, H>>
        ensures history { IsKept H.KEEPS (mutex_guard_value result) }
        ensures run { (entries : List Entry)
            × IsRunTo H.KEEPS M.terms entries (mutex_guard_value result) }
        ensures sound { let h = mutex_guard_value result in IsSound h.machine.state }
    {
        let guard = self.counted.lock(rt);
        let _layout = guard.book().layout();
        guard
    }
}
