//! The calls of a racer, a sweeper or a reader.
//!
//! - [`store`], [`log`] and [`refine`] are the path of a card in a race.
//! - [`exchange`] has the stores that tell what a slot referred to or depend on it, [`batch`]
//!   several stores or a row of words by one call, and [`words`] a store of data and the stores of
//!   any word that return or compare the one before.
//! - [`counts`] tells what a racer and a sweeper have done.
//! - [`reader_queries`] has the calls of a reader at a pause.
#![tactic(auto, using(crate::proofs::role_calls))]

pub mod batch;
pub mod counts;
pub mod exchange;
pub mod log;
pub mod reader_queries;
pub mod refine;
pub mod store;
pub mod words;
