//! The stores of a run: a list of them, and where they go.
ghost use Rattle.std.specs.Prelude.{◌≡◌, ◌<◌, IfSome};
ghost use Rattle.g1_layout.specs.Shape.{slot_count};

use g1_layout::{Layout, NoMemory, Slot};
use std::alloc::Global;

/// What is stored into a slot of each card.
#[derive(Clone, Copy)]
pub enum Target {
    /// Null, into the first slot.
    Null,
    /// The last place of the card, into the first slot.
    SameRegion,
    /// The first place of the region as many regions after the next one, into the slot of this
    /// index.
    OtherRegion(u32),
}

/// The numbers of slots and of places to store there, card after card. A number that no slot of the
/// heap has stands for null.
pub type List = Vec<(u32, u32)>;

/// A store on each card.
pub fn list_of(alloc: Global, layout: Layout, target: Target) -> Result<List, NoMemory> {
    let cards = layout.card_count();
    let mut list = Vec::with_capacity(alloc, cards as usize)?;
    for card in 0..cards {
        if let Some(store) = store_on(layout, card, target) {
            list.push(store)?;
        }
    }
    Ok(list)
}

// The store on this card.
fn store_on(layout: Layout, card: u32, target: Target) -> Option<(u32, u32)> {
    let card = layout.card(card)?;
    let (regions, cards, slots) = layout.counts();
    match target {
        Target::Null => Some((layout.first_slot(card).number(), u32::MAX)),
        Target::SameRegion => {
            let last = layout.slot_at(card, slots - 1);
            Some((layout.first_slot(card).number(), last.number()))
        }
        Target::OtherRegion(index) => {
            if index >= slots {
                return None;
            }
            let slot = layout.slot_at(card, index);
            let to = layout.region((layout.region_of(slot).number() + 1 + index) % regions)?;
            Some((slot.number(), to.number() * (cards * slots)))
        }
    }
}

/// Where stores go.
pub trait Barrier {
    ghost use Rattle.std.specs.Prelude.{◌≡◌, ◌<◌, IfSome};
    ghost use Rattle.g1_layout.specs.Shape.{Shape, slot_count};

    /// The counts of its heap.
    ghost layout_of: { Self → Shape };

    /// The counts of its heap.
    fn layout(&self) -> Layout
        ensures { result ≡ layout_of self.now };

    /// Stores.
    fn store(&mut self, slot: Slot, target: Option<Slot>)
        requires slot { slot < slot_count (layout_of self.old) }
        requires target { IfSome target (λ place. place < slot_count (layout_of self.old)) }
        ensures { layout_of self.new ≡ layout_of self.old };
}

/// Makes the stores of a list.
pub fn store_all<B: Barrier>(barrier: &mut B, list: &[(u32, u32)]) {
    let layout = barrier.layout();
    for (slot, place) in list {
        let Some(slot) = layout.slot(*slot) else {
            return;
        };
        barrier.store(slot, layout.slot(*place));
    }
}

/// Nowhere: what goes over the list alone. Each other barrier does that too.
#[derive(Drop)]
pub struct Nowhere {
    layout: Layout,
    checksum: u64,
}

impl Nowhere {
    /// No store so far.
    pub fn new(layout: Layout) -> Nowhere {
        Nowhere {
            layout,
            checksum: 0,
        }
    }

    /// A sum of the slots and places.
    pub fn checksum(&self) -> u64 {
        self.checksum
    }
}

impl Barrier for Nowhere {
    ghost layout_of = { λ it. it.layout };

    fn layout(&self) -> Layout {
        self.layout
    }

    fn store(&mut self, slot: Slot, target: Option<Slot>) {
        let number = match target {
            Some(place) => slot.number() ^ place.number(),
            None => slot.number(),
        };
        self.checksum = self.checksum.wrapping_add(u64::from(number));
    }
}
