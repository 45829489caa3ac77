//! The slots and the card table.

ghost use Rattle.std.specs.Prelude.{◌≡◌, ◌<◌, ◌≤◌, ◌↔◌};
ghost use Rattle.g1_heap.specs.Prelude.{ℕ, All, None, Contains, IfSome, IfOk, MatchOption};
ghost use Rattle.g1_heap.specs.Prelude.{slice_index_or, slot_count, card_count, HasRegion};
ghost use Rattle.g1_heap.specs.Prelude.{IsFirstByte, is_byte};
ghost use Rattle.g1_heap.specs.Cells.{AreCells, with_ref, with_mark, with_reads, new_cells};
ghost use Rattle.g1_heap.specs.Cells.{HoldsIn, HasNoDirty, IsFirstDirty};
ghost use Rattle.g1_heap.specs.Targets.{AreTargets, AreNewTargets};
ghost use Rattle.g1_heap.specs.Entering.{HasNoneInto, IsNextInto, looked_at};

use crate::entering::first_between;
use crate::mark::{CLEAN, DIRTY, Mark};
use crate::null::NULL;
use crate::targets::add_targets;
use arrayvec::ArrayVec;
use g1_layout::{Card, Layout, NoMemory, Region, RegionSet, Slot};
use memchr::memchr;
use std::alloc::Global;
use std::marker::Model;

/// The slots of a heap and its card table. It takes four bytes a slot and one byte a card, in one
/// block each. The largest heap, of 1,073,741,824 slots and 16,777,216 cards, takes 4,312 MB, and
/// the largest within the profile less than 4.3 MB.
///
/// Every slot and card that is passed to a call lies within the heap's layout. Only [`Heap::new`]
/// takes memory.
#[derive(Drop)]
pub struct Heap {
    layout: Layout,
    words: Vec<u32>,
    bytes: Vec<u8>,
    reads: u64,
}

impl Model for Heap {
    ghost use Rattle.g1_heap.specs.Prelude.{map};
    ghost use Rattle.g1_heap.specs.Cells.{Cells};
    ghost use Rattle.g1_heap.specs.Stored.{ref_of, mark_of, AreStored};

    ghost Value = { Cells };

    ghost view = { λ a. record {
      layout = a.layout;
      refs = map (ref_of a.layout) a.words.items;
      marks = map mark_of a.bytes.items;
      reads = a.reads;
    } };

    ghost invariant = { λ a. AreStored a.layout a.words.items a.bytes.items };
}

impl Heap {
    /// Makes a heap of this layout. Each slot is null, each card is clean, and no slot has been
    /// read.
    ///
    /// Returns `NoMemory` if the block of the slots or that of the card table was refused. Nothing
    /// is kept then.
    pub fn new(alloc: Global, layout: Layout) -> Result<Heap, NoMemory>
        ensures { IfOk result (λ heap. heap ≡ new_cells layout) }
    {
        let (regions, cards, slots) = layout.counts();
        let words = Vec::from_elem(alloc, NULL, (regions * cards * slots) as usize)?;
        let bytes = Vec::from_elem(alloc, CLEAN, (regions * cards) as usize)?;
        Ok(Heap {
            layout,
            words,
            bytes,
            reads: 0,
        })
    }

    /// The heap's layout: its count of regions, of cards a region and of slots a card.
    pub fn layout(&self) -> Layout
        ensures layout { result ≡ self.now.layout }
        ensures cells { AreCells self.now }
    {
        self.layout
    }

    /// Writes a reference, or null, into a slot. It marks no card: the write barrier does that.
    pub fn set(&mut self, slot: Slot, target: Option<Slot>)
        requires slot { slot < slot_count self.old.layout }
        requires target { IfSome target (λ place. place < slot_count self.old.layout) }
        ensures { self.new ≡ with_ref self.old slot target }
    {
        let word = match target {
            Some(place) => place.number(),
            None => NULL,
        };
        self.words[slot.number() as usize] = word;
    }

    /// Returns the place that a slot refers to, or `None` if the slot is null. It counts one read,
    /// and changes nothing else (docs/rules.md, Reads).
    pub fn get(&mut self, slot: Slot) -> Option<Slot>
        requires { slot < slot_count self.old.layout }
        ensures target { result ≡ slice_index_or self.old.refs slot None }
        ensures reads { self.new ≡ with_reads self.old 1 }
    {
        self.reads = self.reads.saturating_add(1);
        self.layout.slot(self.words[slot.number() as usize])
    }

    /// Returns the regions, other than the card's own, into which the card's slots refer. Each is
    /// listed once, in the order of the first slot that refers into it.
    ///
    /// These are the regions whose remembered sets the card belongs in (ISMM 2004 paper, section
    /// 2.2). The call counts as many reads as a card has slots, and changes nothing else. It passes
    /// over the slots once, and tests one bit to see whether a region is listed already.
    pub fn targets(&mut self, card: Card) -> ArrayVec<Region, 64>
        requires { card < card_count self.old.layout }
        ensures regions { AreTargets self.old.layout self.old.refs card result.items }
        ensures holds { (region : ℕ) → Contains result.items region
            ↔ HoldsIn self.old.layout self.old.refs card region }
        ensures within { All (λ region. region < self.old.layout.regions) result.items }
        ensures reads { self.new ≡ with_reads self.old self.old.layout.slots }
    {
        let mut targets = ArrayVec::new();
        self.list_targets(card, &RegionSet::new(), &mut targets);
        targets
    }

    /// Lists the same regions as [`Heap::targets`], except those in `known`, in the caller's list,
    /// which is emptied first. It counts the same reads.
    ///
    /// Refinement passes the regions whose remembered sets have the card already. A card that
    /// refers into no other region then has nothing to record. A caller that refines many cards
    /// uses one list for all of them: to fill a new list with zeros costs more than to list a
    /// target or two.
    #[inline(always)]
    pub fn list_targets(
        &mut self,
        card: Card,
        known: &RegionSet,
        targets: &mut ArrayVec<Region, 64>,
    )
        requires { card < card_count self.old.layout }
        ensures regions { AreNewTargets self.old.layout self.old.refs card known.now
            targets.new.items }
        ensures holds { (region : ℕ) → Contains targets.new.items region
            ↔ (HoldsIn self.old.layout self.old.refs card region × ¬ HasRegion known.now region) }
        ensures within { All (λ region. region < self.old.layout.regions) targets.new.items }
        ensures reads { self.new ≡ with_reads self.old self.old.layout.slots }
    {
        let layout = self.layout;
        let (_, _, slots) = layout.counts();
        self.reads = self.reads.saturating_add(slots as u64);
        targets.clear();
        add_targets(&layout, self.words.as_slice(), card, known, targets);
    }

    /// Finds the first slot of the card, at offset `from` or later, that refers into the region.
    /// Returns its offset and the place that it refers to, or `None` if there is no such slot.
    ///
    /// `from` may be the number of slots a card, one past the last offset, so that a walk can go on
    /// after the last slot. The call counts one read for each slot that it looks at, also for nulls
    /// that it skips many at a time, and changes nothing else.
    #[inline(always)]
    pub fn next_into(&mut self, card: Card, from: u32, region: Region) -> Option<(u32, Slot)>
        requires card { card < card_count self.old.layout }
        requires from { from ≤ self.old.layout.slots }
        requires region { region < self.old.layout.regions }
        ensures next { MatchOption result
            (HasNoneInto self.old.layout self.old.refs card region from self.old.layout.slots)
            (λ found. IsNextInto self.old.layout self.old.refs card region from found.0 found.1) }
        ensures reads { self.new ≡ with_reads self.old (looked_at self.old.layout from result) }
    {
        let layout = self.layout;
        let (_, cards, slots) = layout.counts();
        let first = layout.first_slot(card).number() as usize;
        let row = &self.words[first..first + slots as usize];
        let size = cards * slots;
        let low = region.number() * size;
        let at = first_between(row, from as usize, low, size);
        if at == row.len() {
            self.reads = self.reads.saturating_add((slots - from) as u64);
            return None;
        }
        let place = layout.slot(row[at]).unwrap();
        self.reads = self.reads.saturating_add((at as u32 + 1 - from) as u64);
        Some((at as u32, place))
    }

    /// Returns the card's entry in the card table. This is no read of a slot.
    pub fn mark(&self, card: Card) -> Mark
        requires { card < card_count self.now.layout }
        ensures { result ≡ slice_index_or self.now.marks card Mark.Clean }
    {
        Mark::of_byte(self.bytes[card.number() as usize])
    }

    /// Writes the card's entry in the card table, and no other.
    pub fn set_mark(&mut self, card: Card, mark: Mark)
        requires { card < card_count self.old.layout }
        ensures { self.new ≡ with_mark self.old card mark }
    {
        self.bytes[card.number() as usize] = mark.byte();
    }

    /// Returns the first dirty card whose number is `from` or more, or `None` if there is none. A
    /// held card is not dirty.
    ///
    /// `from` may be the number of cards, one past the last, so that a walk can go on after the
    /// last card. The call reads no slot. It skips cards that are not dirty many at a time.
    pub fn next_dirty(&self, from: u32) -> Option<Card>
        requires { from ≤ card_count self.now.layout }
        ensures { MatchOption result (HasNoDirty self.now.marks from) (λ card.
            IsFirstDirty self.now.marks from card) }
    {
        let skipped = clean_before(&self.bytes[from as usize..])?;
        self.layout.card(from + skipped as u32)
    }

    /// How many slots [`Heap::get`], [`Heap::targets`], [`Heap::list_targets`] and
    /// [`Heap::next_into`] have read since the heap was made. The count is never reset, and stops
    /// at the greatest `u64`.
    pub fn reads(&self) -> u64
        ensures { result ≡ self.now.reads }
    {
        self.reads
    }
}

// How many bytes come before the first one of a dirty card. Dirty cards are often neighbours, so
// the first byte is looked at before the search of many at a time begins.
fn clean_before(bytes: &[u8]) -> Option<usize>
    ensures { IsFirstByte (is_byte 1) bytes.now result }
{
    if !bytes.is_empty() && bytes[0] == DIRTY {
        return Some(0);
    }
    memchr(DIRTY, bytes)
}
