//! The history of a core's calls.
//!
//! A [`Book`] owns a [`Core`](g1_core::machinery::Core) and makes its calls. Each call that is made
//! becomes one [`Entry`]: the caller, the call, the reply and the cards that were refined. A call
//! for which there is no room is refused ([`Refusal`]) and changes nothing. So the entries are
//! always a permitted run of the plain table (references, pending cards, recorded pairs) that ends
//! in the core's own table. What a whole drain returns is exact in terms of references and history
//! alone (docs/rules.md, The history).
//!
//! No call of a book waits for another thread.
#![tactic(auto)]

mod book;
mod keeps;
mod pause;
mod queries;
mod refinement;
mod refusal;
mod room;
mod store;

pub use book::Book;
pub use g1_core::{Call, Entry, Reply};
pub use keeps::{Keeps, Kept, Tallied};
pub use refusal::Refusal;
