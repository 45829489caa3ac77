//! The words of a race, and every kind of step on them.
//!
//! A race of mutators and refinement threads shares one table of words ([`RaceTable`]). Each of its
//! threads has a seat at the table ([`RaceSeat`]), which carries what the thread knows, in the
//! proofs alone ([`View`]). The rule that holds between any two steps is in `specs/Rule.antt`.
//!
//! Neither type shows what is inside, so a thread makes a step only by a call of this crate. Each
//! call is one step, and tells the seat what it did:
//!
//! - A racer writes a slot ([`RaceTable::write`]), or exchanges its word for another one if it has
//!   the word that is expected ([`RaceTable::exchange`]). It reads the mark of the slot's card
//!   ([`RaceTable::look`]) and swaps it to dirty ([`RaceTable::dirty`]). If the swap found the mark
//!   clean, the racer has claimed the card.
//! - A sweeper swaps a mark to clean ([`RaceTable::clean`]) and reads the card's slots
//!   ([`RaceTable::read`]).
//! - A sweeper reads the bit of a pair ([`RaceTable::seek`]) and sets it ([`RaceTable::record`]).
//! - A racer reads the flag of the card that it owes ([`RaceTable::spot`]) and sets it
//!   ([`RaceTable::raise`]). It does so before it swaps the mark, so each dirty card has its flag
//!   set.
//! - Seats are made, split and joined. Each of these is a load of the first word, whose value
//!   nothing uses.
//! - At a pause, the one seat that has the weight of all parties learns the words, reads and writes
//!   them, and lets them change again.
//! - That seat may give shares of what it knows to readers ([`RaceTable::split_reader`]), each of
//!   which reads words ([`RaceTable::see`]). They join it again before a word changes.
//!
//! So while mutators run, six kinds of step alone touch a slot's word or a mark: write, exchange,
//! look, dirty, clean and read. Each of them is one atomic step, takes no memory and never waits
//! for another thread.
#![tactic(auto)]

mod address;
mod pausing;
mod racing;
mod rule;
mod seats;
mod sharing;
mod sweeping;
mod table;
mod view;

pub use table::{RaceSeat, RaceTable};
pub use view::{RaceShape, View};
