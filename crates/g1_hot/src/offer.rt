//! What the ring does with a card that is about to be refined.
use g1_layout::Card;

/// What becomes of a card that is about to be refined. This depends on how often it was refined
/// before ("Garbage-First Garbage Collection", ISMM 2004, "Remembered Set Maintenance";
/// docs/rules.md, Hotness).
#[derive(Clone, Copy, Debug, PartialEq, Eq)]
pub enum Offer {
    /// The card is not hot. It is to be refined now.
    Cold,
    /// The card is hot and the ring had room. The card is last in the ring now, and no card is to
    /// be refined.
    Kept,
    /// The card is hot and the ring was full. The card is last in the ring now. The oldest card,
    /// which this names, has left the ring and is to be refined in its place.
    Out(Card),
}
