//! The slots of a heap and its card table.
//!
//! [`Heap`] holds a reference or null for each slot, and a [`Mark`] for each card. A slot can be
//! reached only by its calls, and each read of one is counted. Slots, cards and regions are the
//! numbers of `g1_layout`.
//!
//! A store is [`Heap::set`] and [`Heap::set_mark`]. Refinement asks for a card's [`Heap::targets`]
//! and then cleans the card. A pause goes from one dirty card to the next by [`Heap::next_dirty`].
//! docs/rules.md, Card marks and Reads, says what a mark and a read are.
#![tactic(auto)]

mod entering;
mod heap;
mod mark;
mod null;
mod targets;

pub use heap::Heap;
pub use mark::Mark;
