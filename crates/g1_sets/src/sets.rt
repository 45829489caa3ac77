//! The sets of all regions, and what is recorded in them.
ghost use Rattle.std.specs.Prelude.{◌≡◌, ◌↔◌, ◌<◌};
ghost use Rattle.g1_sets.specs.Prelude.{ℕ, length, min, replicate, [], Some, slice_get, slice_set};
ghost use Rattle.g1_sets.specs.Prelude.{All, IsTrue, IfOk, OnOk, OnErr};
ghost use Rattle.std.specs.FinSet as set;
ghost use Rattle.g1_sets.specs.Prelude.{IsWithinProfile, card_count, HasRegion};
ghost use Rattle.g1_sets.specs.Members.{lists_of};
ghost use Rattle.g1_sets.specs.Pairs.{list_at, of_card, of_region, with_cards, without, new_pairs};
ghost use Rattle.g1_sets.specs.Pairs.{HasOnlyOutside, AreCardsOf, AreTied, Joins};

use crate::ascending::ascending;
use crate::members::{Members, insert_many, join, make_room_for, total};
use crate::rows::{add_region, remove_region};
use g1_layout::{Card, Layout, NoMemory, Region, RegionSet};
use indexmap::IndexSet;
use std::alloc::Global;
use std::hash::BuildHasherDefault;
use std::marker::Model;

/// The remembered sets of all regions of a heap.
///
/// Cards and regions are numbers of the layout that the sets were made with. The sets record no
/// card that the caller did not name. Whether a card lies outside the region is up to the caller.
#[derive(Drop)]
pub struct Sets {
    alloc: Global,
    layout: Layout,
    sets: Vec<Members>,
    // By card: the regions whose sets have it. They save a look-up if a pair is recorded already.
    rows: Vec<RegionSet>,
}

impl Model for Sets {
    ghost use Rattle.g1_sets.specs.Members.{lists_of};
    ghost use Rattle.g1_sets.specs.Pairs.{Pairs, pairs_code, pairs_of};
    ghost use Rattle.g1_sets.specs.Rows.{AreSets};

    ghost Value = { Pairs };

    ghost coded = { pairs_code };

    ghost view = { λ a. record {
      layout = a.layout;
      pairs = pairs_of (lists_of a.sets.items);
      lists = lists_of a.sets.items;
    } };

    ghost invariant = { λ a. AreSets a.layout (lists_of a.sets.items) a.rows.items };
}

// A set of no card for each region.
fn empty_sets(alloc: Global, regions: u32) -> Result<Vec<Members>, NoMemory>
    ensures { IfOk result (λ sets. lists_of sets.items ≡ replicate regions []) }
{
    let mut sets = Vec::with_capacity(alloc, regions as usize)?;
    for _region in 0..regions {
        sets.push(IndexSet::with_hasher(alloc, BuildHasherDefault::new()))?;
    }
    Ok(sets)
}

impl Sets {
    /// Makes an empty set for each region of the layout.
    ///
    /// It takes memory for one row of a set a region and for 32 bytes a card; a set takes none
    /// until its first card. Returns `NoMemory` if one of these growths was refused.
    pub fn new(alloc: Global, layout: Layout) -> Result<Sets, NoMemory>
        ensures { IfOk result (λ sets. sets ≡ new_pairs layout) }
    {
        let (regions, cards, _) = layout.counts();
        let sets = empty_sets(alloc, regions)?;
        let rows = Vec::from_elem(alloc, RegionSet::new(), (regions * cards) as usize)?;
        Ok(Sets {
            alloc,
            layout,
            sets,
            rows,
        })
    }

    /// The regions for which the card is recorded. Constant time.
    pub fn regions_of(&self, card: Card) -> &RegionSet
        requires { card < card_count self.now.layout }
        ensures { (region : ℕ) → HasRegion result.now region
            ↔ IsTrue (set.contains self.now.pairs (card, region)) }
    {
        &self.rows[card.number() as usize]
    }

    /// Records the card for each of the regions. A card that is new to a region goes last there. A
    /// region may be named twice.
    ///
    /// Returns `NoMemory` if a growth was refused, and then nothing has changed. The call asks for
    /// room in each set that is full and lacks the card, before the card goes into any. It costs
    /// one look at a bit for a region whose set has the card, and one insert for each other region.
    pub fn record(&mut self, card: Card, regions: &[Region]) -> Result<(), NoMemory>
        requires card { card < card_count self.old.layout }
        requires regions { All (λ region. region < self.old.layout.regions) regions.now }
        ensures layout { OnOk result (self.new.layout ≡ self.old.layout) }
        ensures pairs { OnOk result
            (self.new.pairs ≡ set.union self.old.pairs (of_card card regions.now)) }
        ensures lists { OnOk result (Joins card regions.now self.old.lists self.new.lists) }
        ensures err { OnErr result (self.new ≡ self.old) }
    {
        let _ = self.layout.counts();
        let row = &mut self.rows[card.number() as usize];
        join(self.sets.as_mut_slice(), row, card, regions)?;
        Ok(())
    }

    /// Records the cards for the region, in their order. Those that are new to it go last.
    ///
    /// Returns `NoMemory` if a growth was refused, and then nothing has changed. The call first
    /// asks for room for as many cards as are named, in one growth at most. So a list that names
    /// cards which are there already may ask for more than it needs. It costs one insert a card.
    pub fn record_many(&mut self, cards: &[Card], region: Region) -> Result<(), NoMemory>
        requires cards { All (λ card. card < card_count self.old.layout) cards.now }
        requires region { region < self.old.layout.regions }
        ensures layout { OnOk result (self.new.layout ≡ self.old.layout) }
        ensures pairs { OnOk result
            (self.new.pairs ≡ set.union self.old.pairs (of_region cards.now region)) }
        ensures lists { OnOk result
            (self.new.lists ≡ slice_set self.old.lists region
            (with_cards (list_at self.old.lists region) cards.now)) }
        ensures err { OnErr result (self.new ≡ self.old) }
    {
        let _ = self.layout.counts();
        let sets = self.sets.as_mut_slice();
        make_room_for(sets, region, cards.len())?;
        insert_many(sets, region, cards);
        add_region(self.rows.as_mut_slice(), cards, region);
        Ok(())
    }

    /// Whether the card is recorded for the region. One look-up.
    pub fn has(&self, card: Card, region: Region) -> bool
        requires { region < self.now.layout.regions }
        ensures { result ≡ set.contains self.now.pairs (card, region) }
    {
        self.sets[region.number() as usize].contains(&card)
    }

    /// How many cards are recorded for the region. The indices of `at` lie below this number.
    ///
    /// The clause `tied` says that a walk by `len` and `at` meets exactly the region's members.
    pub fn len(&self, region: Region) -> u32
        requires { region < self.now.layout.regions }
        ensures len { result ≡ length (list_at self.now.lists region) }
        ensures tied { AreTied self.now }
    {
        let _ = self.layout.counts();
        self.sets[region.number() as usize].len() as u32
    }

    /// How many pairs of a card and a region are recorded. It costs one step a region.
    ///
    /// The number is exact if each recorded card lies outside its region, and always in a heap
    /// within the limits of [`Layout::new`]. If cards inside their region count too, a larger heap
    /// has room for 2^32 pairs, one more than a `u32` holds. The call then returns the greatest
    /// `u32`.
    pub fn total(&self) -> u32
        ensures total { result ≡ min (set.len self.now.pairs) 4294967295 }
        ensures outside { HasOnlyOutside self.now.layout self.now.pairs
            → result ≡ set.len self.now.pairs }
        ensures profile { IsWithinProfile self.now.layout → result ≡ set.len self.now.pairs }
    {
        let _ = self.layout.counts();
        let pairs = total(self.sets.as_slice());
        pairs.min(4_294_967_295) as u32
    }

    /// The card at this place of the region's set, from 0 in the order of insertion. Constant time.
    ///
    /// A card keeps its place until the set is cleared.
    pub fn at(&self, region: Region, index: u32) -> Card
        requires region { region < self.now.layout.regions }
        requires index { index < length (list_at self.now.lists region) }
        ensures { slice_get (list_at self.now.lists region) index ≡ Some result }
    {
        self.sets[region.number() as usize].as_slice()[index as usize]
    }

    /// The cards of the region's set, in the order of insertion: those that `at` returns, for a
    /// walk over all of them. Constant time.
    pub fn members(&self, region: Region) -> &[Card]
        requires { region < self.now.layout.regions }
        ensures cards { result.now ≡ list_at self.now.lists region }
        ensures tied { AreTied self.now }
    {
        let members = &self.sets[region.number() as usize];
        members.as_slice()
    }

    /// Empties the region's set, and takes no memory.
    ///
    /// The set keeps its room: a region that is used again mostly needs as much, and then records
    /// without a growth. It costs one step for each card of the set and for each 16 cards of its
    /// room.
    pub fn clear(&mut self, region: Region)
        requires { region < self.old.layout.regions }
        ensures layout { self.new.layout ≡ self.old.layout }
        ensures pairs { self.new.pairs ≡ without self.old.pairs region }
        ensures lists { self.new.lists ≡ slice_set self.old.lists region [] }
    {
        let _ = self.layout.counts();
        let members = &mut self.sets[region.number() as usize];
        remove_region(self.rows.as_mut_slice(), members.as_slice(), region);
        members.clear();
    }

    /// Returns the cards of the region's set, ascending, each once.
    ///
    /// Returns `NoMemory` if the vector was refused, or, in a heap of more than 65,536 cards, the
    /// room for a bit for each card. Nothing has changed then.
    ///
    /// A set that was filled in ascending order costs one pass. Any other costs two passes and one
    /// over the words of a bit for each card of the heap. If the set has fewer cards than 64 or a
    /// 1,024th of the heap's, it costs one sort instead, and asks for no bits.
    pub fn cards(&self, region: Region) -> Result<Vec<Card>, NoMemory>
        requires { region < self.now.layout.regions }
        ensures { IfOk result (λ cards. AreCardsOf self.now.pairs region cards.items) }
    {
        let members = &self.sets[region.number() as usize];
        ascending(self.alloc, self.layout, members.as_slice())
    }
}
