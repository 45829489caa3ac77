//! The numbers of a heap: its slots, cards and regions, and which lies where.
//!
//! A heap has regions of cards of slots (docs/rules.md, Geometry). [`Layout`] holds the three
//! counts. It makes every [`Slot`], [`Card`] and [`Region`], and returns the card and the region of
//! a slot. Every crate above names places in the heap by these numbers, and returns [`NoMemory`] if
//! a growth is refused.
//!
//! Nothing here takes memory, and no call waits.
#![tactic(auto)]

mod card;
mod kind;
mod layout;
mod memory;
mod reciprocal;
mod region;
mod region_set;
mod slot;

pub use card::Card;
pub use kind::Kind;
pub use layout::Layout;
pub use memory::NoMemory;
pub use region::Region;
pub use region_set::RegionSet;
pub use slot::Slot;
