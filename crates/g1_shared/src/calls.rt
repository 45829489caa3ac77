//! The calls under the lock: those of the guard ([`Counted`](crate::Counted)), each of which is the
//! book's and is entered once, and those of a [`Shared`](crate::Shared) that are one of these.
mod asked;
pub(crate) mod stores;
