//! A book that threads share, under one lock, or a core without a history.
//!
//! A [`Shared`] keeps a book under its lock with the totals of its calls and of its stores and the
//! records of its callers ([`Counted`]), and the queue of completed buffers beside it. Each
//! [`Caller`] makes its calls from a thread of its own, and has a record of them. Once all callers
//! are handed in, the book is returned with just the entries that they have made, those of each in
//! its order (docs/rules.md, The history under a lock). A [`SharedCore`] is the same over a book
//! that keeps only the totals.
//!
//! No clause can name what is under the lock. So a ledger has the terms of the book or core
//! ([`Terms`]), and the conditions of its calls speak of these. A [`SharedDesk`] says of the calls
//! of a script what the record of its caller says, and of each reply what the shared book says.
#![tactic(auto)]

mod caller;
mod calls;
mod counted;
mod ledgers;
mod lock;
mod locked_calls;
mod shared;
mod shared_desk;

pub use caller::Caller;
pub use counted::Counted;
pub use ledgers::{Ledgers, Terms};
pub use shared::{Shared, SharedCore};
pub use shared_desk::SharedDesk;
