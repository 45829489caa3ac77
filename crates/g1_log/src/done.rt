//! The completed buffers of one thread.
ghost use Rattle.std.specs.Prelude.{◌≡◌, ◌≤◌, ◌↔◌};
ghost use Rattle.g1_log.specs.Prelude.{[], length, drop, slice_get, Err, IsTrue, IsSomeAnd, IfErr};
ghost use Rattle.g1_log.specs.Prelude.{OnOk};
ghost use Rattle.std.specs.Option.{option_copied};
ghost use Rattle.g1_log.specs.Done.{Completed, IsCompleted, added, oldest_cut};

use crate::buffer::Buffer;
use std::alloc::Global;
use std::collections::VecDeque;
use std::marker::Model;
use thiserror::Error;

/// Why a buffer was not added.
#[derive(Clone, Copy, Debug, PartialEq, Eq, Error)]
pub enum Why {
    /// There are as many completed buffers as the limit allows.
    #[error("full")]
    Full,
    /// A growth was refused.
    #[error("no memory")]
    NoMemory,
}

/// The completed buffers of one thread, oldest first, at most as many as its limit.
///
/// Contracts see the limit and the list of the buffers' lists of cards (`Completed`). Only `add`
/// takes memory (ISMM 2004, section 2.2, Remembered Set Maintenance; docs/rules.md, Logs and
/// completed buffers).
#[derive(Debug, Drop)]
pub struct Done {
    limit: usize,
    buffers: VecDeque<Buffer>,
}

impl Model for Done {
    ghost use Rattle.g1_log.specs.Done.{Completed, completed_code, IsCompleted};

    ghost Value = { Completed };

    ghost coded = { completed_code };

    ghost view = { λ d. record { limit = d.limit; buffers = d.buffers.items } };

    ghost invariant = { λ d. IsCompleted (record { limit = d.limit; buffers = d.buffers.items }) };
}

impl Done {
    ghost use Rattle.g1_log.specs.declared.done.Why.TheVariants.{Full};

    /// Makes an empty list of at most `limit` buffers. It takes no memory.
    pub fn new(alloc: Global, limit: usize) -> Done
        requires low { 1 ≤ limit }
        requires high { limit ≤ 1024 }
        ensures { let none : Completed = record { limit = limit; buffers = [] } in result ≡ none }
    {
        Done {
            limit,
            buffers: VecDeque::new(alloc),
        }
    }

    /// How many buffers there are: at most the limit.
    pub fn len(&self) -> usize
        ensures value { result ≡ length self.now.buffers }
        ensures limit { IsCompleted self.now }
    {
        self.buffers.len()
    }

    /// Whether there are no buffers.
    pub fn is_empty(&self) -> bool
        ensures { IsTrue result ↔ (self.now.buffers ≡ []) }
    {
        self.buffers.is_empty()
    }

    /// Adds a buffer as the youngest.
    ///
    /// Returns `Why::Full` exactly if there are as many buffers as the limit, and `Why::NoMemory`
    /// if a growth was refused. Either hands the buffer back, and nothing has changed.
    pub fn add(&mut self, buffer: Buffer) -> Result<(), (Buffer, Why)>
        ensures ok { OnOk result (self.new ≡ added self.old buffer) }
        ensures full { (result ≡ Err (buffer, Full)) ↔ (length self.old.buffers ≡ self.old.limit) }
        ensures err { IfErr result (λ refused. (refused.0 ≡ buffer) × (self.new ≡ self.old)) }
    {
        if self.buffers.len() == self.limit {
            return Err((buffer, Why::Full));
        }
        match self.buffers.push_back(buffer) {
            Ok(()) => Ok(()),
            Err(refused) => Err((refused.value, Why::NoMemory)),
        }
    }

    /// The oldest buffer. `None` exactly if there is none.
    pub fn oldest(&self) -> Option<&Buffer>
        ensures { option_copied result ≡ slice_get self.now.buffers 0 }
    {
        self.buffers.front()
    }

    /// Takes the oldest buffer out, in constant time. `None` exactly if there is none.
    pub fn take_oldest(&mut self) -> Option<Buffer>
        ensures buffer { result ≡ slice_get self.old.buffers 0 }
        ensures others { self.new ≡ record self.old { buffers = drop 1 self.old.buffers } }
    {
        self.buffers.pop_front()
    }

    /// Removes the first `n` cards of the oldest buffer. If none is left, the buffer is removed
    /// too.
    pub fn cut_oldest(&mut self, n: usize)
        requires { IsSomeAnd (slice_get self.old.buffers 0) (λ cards. n ≤ length cards) }
        ensures { self.new ≡ record self.old { buffers = oldest_cut n self.old.buffers } }
    {
        if let Some(oldest) = self.buffers.front_mut() {
            oldest.cut(n);
            if oldest.cards().is_empty() {
                let _ = self.buffers.pop_front();
            }
        }
    }
}
