//! What each caller of a history made, in proofs alone.
//!
//! Beside a history under a lock lie its [`Records`], and each caller has a [`CallerRecord`]. An
//! entry goes into both at once ([`Records::enter`]), so each caller's record is at all times the
//! entries of the history with its number, in order (`entries_by`). No list is kept for that: the
//! records are the views of the seats of a table of one word, which never changes.
#![tactic(auto)]

mod asks;
mod caller_record;
mod records;
mod rule;
mod view;

pub use asks::Asks;
pub use caller_record::CallerRecord;
pub use records::Records;
