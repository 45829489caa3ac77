//! Tests of [`g1_book`] through its public calls: of the callers of a lent book, a desk and its
//! workers, a crew, and the callers of a shared book or core.
//!
//! A crate of its own for the gate: a proof of the tests does not prove the libraries again.
#![tactic(auto)]

#[cfg(test)]
mod tests;
