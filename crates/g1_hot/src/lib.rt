//! How often each card was refined, and the ring of hot cards. A card that was refined often enough
//! is hot: it is set aside in the ring until it is pushed out or a pause drains it. HotSpot calls
//! this the hot card cache.
//!
//! - `hot`: the counts and the ring.
//! - `offer`: what the ring does with a card.
//!
//! `specs/Ring.antt` has the rule of hotness, and what contracts see of the counts and the ring.
#![tactic(auto)]

mod hot;
mod offer;

pub use hot::Hot;
pub use offer::Offer;
