//! The mark of a card, and the byte that the card table keeps for it.

ghost use Rattle.std.specs.Prelude.{◌≡◌};
ghost use Rattle.g1_heap.specs.Stored.{mark_of};

pub(crate) const CLEAN: u8 = 0;

pub(crate) const DIRTY: u8 = 1;

pub(crate) const HELD: u8 = 2;

/// A card's entry in the card table (docs/rules.md, Card marks).
#[derive(Clone, Copy, Debug, PartialEq, Eq)]
pub enum Mark {
    /// The card is not pending.
    Clean,
    /// The card is pending: it waits for refinement.
    Dirty,
    /// The card is pending: it is hot, and the hot ring holds it back.
    Held,
}

impl Mark {
    pub(crate) fn byte(self) -> u8
        ensures { mark_of result ≡ self }
    {
        match self {
            Mark::Clean => CLEAN,
            Mark::Dirty => DIRTY,
            Mark::Held => HELD,
        }
    }

    pub(crate) fn of_byte(byte: u8) -> Mark
        ensures { result ≡ mark_of byte }
    {
        match byte {
            CLEAN => Mark::Clean,
            DIRTY => Mark::Dirty,
            _ => Mark::Held,
        }
    }
}
