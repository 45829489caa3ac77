//! Adoption: makes a core of a table that exists already, and lists the pairs of a core's table.
ghost use Rattle.std.specs.Prelude.{◌≡◌, ◌<◌, ◌++◌};
ghost use Rattle.g1_core.specs.{All, IfSome, IfOk, OnOk, length, map};
ghost use Rattle.g1_core.specs.{replicate, slot_count, card_count, list_at, AreTied, Clean};
ghost use Rattle.g1_core.specs.{IsCovered, pending_of, IsPairOf, marks_for, table_with};
ghost use Rattle.g1_core.specs.{adopted_machine};
ghost use Rattle.std.specs.FinSet as set;

use crate::config::Config;
use crate::heap_and_sets::HeapAndSets;
use crate::machinery::Core;
use arrayvec::ArrayVec;
use g1_heap::{Heap, Mark};
use g1_hot::Hot;
use g1_layout::{Card, Layout, NoMemory, Region, Slot};
use g1_sets::Sets;
use std::alloc::Global;

impl Core {
    /// Makes a core of a table that exists already. `refs` says what each slot refers to, in the
    /// order of the slots, `marked` says of each card whether it is pending, and `pairs` lists the
    /// recorded pairs of a card and a region, in any order.
    ///
    /// Each marked card is dirty, and every other card is clean. Each count is 0, the ring is
    /// empty, and no slot has been read. Every place, card and region must be of the heap, and each
    /// pair's card must lie outside its region. Cover must hold: if a slot refers into another
    /// region, its card is marked or its pair is listed.
    ///
    /// Takes the memory that [`Core::new`] takes, and what the remembered sets need for the pairs.
    /// Returns `NoMemory` if a growth was refused. What was taken is then given back.
    pub fn adopt(
        alloc: Global,
        layout: Layout,
        config: Config,
        refs: &[Option<Slot>],
        marked: &[bool],
        pairs: &[(Card, Region)],
    ) -> Result<Core, NoMemory>
        requires slots { length refs.now ≡ slot_count layout }
        requires places { All (λ target. IfSome target (λ place. place < slot_count layout))
            refs.now }
        requires cards { length marked.now ≡ card_count layout }
        requires pairs { All (IsPairOf layout) pairs.now }
        requires cover { IsCovered (table_with layout refs.now marked.now pairs.now) }
        ensures { IfOk result (λ core.
            core ≡ adopted_machine layout config refs.now marked.now pairs.now) }
    {
        let mut heap = Heap::new(alloc, layout)?;
        let mut sets = Sets::new(alloc, layout)?;
        let hot = Hot::new(alloc, layout, config.hot(), config.ring())?;
        record_pairs(&mut sets, pairs)?;
        set_references(&mut heap, refs);
        let pending = mark_cards(&mut heap, marked);
        let _ = heap.layout();
        Ok(Core {
            alloc,
            config,
            memory: HeapAndSets {
                heap,
                sets,
                pending,
                targets: ArrayVec::new(),
            },
            hot,
        })
    }

    /// Returns the recorded pairs of a card and a region, each once, as [`Core::adopt`] takes them.
    ///
    /// Returns `NoMemory` if the room for the list was refused.
    pub fn pairs(&self) -> Result<Vec<(Card, Region)>, NoMemory>
        ensures recorded { IfOk result (λ pairs.
            set.from_list pairs.items ≡ self.now.state.table.recorded) }
        ensures once { IfOk result (λ pairs.
            length pairs.items ≡ set.len self.now.state.table.recorded) }
        ensures within { IfOk result (λ pairs.
            All (IsPairOf self.now.state.table.layout) pairs.items) }
    {
        let pairs = all_pairs(self.alloc, self.memory.heap.layout(), &self.memory.sets)?;
        Ok(pairs)
    }
}

// The recorded pairs, by region.
#[tactic(auto, using(crate::proofs::of_listed))]
fn all_pairs(alloc: Global, layout: Layout, sets: &Sets) -> Result<Vec<(Card, Region)>, NoMemory>
    requires { sets.now.layout ≡ layout }
    ensures pairs { IfOk result (λ pairs. set.from_list pairs.items ≡ sets.now.pairs) }
    ensures once { IfOk result (λ pairs. length pairs.items ≡ set.len sets.now.pairs) }
    ensures tied { AreTied sets.now }
{
    let (regions, _, _) = layout.counts();
    let Some(first) = layout.region(0) else {
        unreachable!()
    };
    let _len = sets.len(first);
    let mut pairs = Vec::new(alloc);
    for number in 0..regions {
        let Some(region) = layout.region(number) else {
            unreachable!()
        };
        add_pairs(&mut pairs, sets, region)?;
    }
    Ok(pairs)
}

// Adds the pairs at a region.
fn add_pairs(pairs: &mut Vec<(Card, Region)>, sets: &Sets, region: Region) -> Result<(), NoMemory>
    requires { region < sets.now.layout.regions }
    ensures { OnOk result (pairs.new.items
        ≡ pairs.old.items ++ map (λ card. (card, region)) (list_at sets.now.lists region)) }
{
    for index in 0..sets.len(region) {
        pairs.push((sets.at(region, index), region))?;
    }
    Ok(())
}

// Records the pairs.
#[tactic(auto, using(crate::proofs::record_next))]
fn record_pairs(sets: &mut Sets, pairs: &[(Card, Region)]) -> Result<(), NoMemory>
    requires empty { sets.old.pairs ≡ set.empty }
    requires pairs { All (IsPairOf sets.old.layout) pairs.now }
    ensures layout { OnOk result (sets.new.layout ≡ sets.old.layout) }
    ensures pairs { OnOk result (sets.new.pairs ≡ set.from_list pairs.now) }
{
    for number in 0..pairs.len() {
        let pair = pairs[number];
        sets.record(pair.0, &[pair.1])?;
    }
    Ok(())
}

// Writes every slot.
#[tactic(auto, using(crate::proofs::put_next))]
fn set_references(heap: &mut Heap, refs: &[Option<Slot>])
    requires slots { length refs.now ≡ slot_count heap.old.layout }
    requires places { All (λ target. IfSome target (λ place. place < slot_count heap.old.layout))
        refs.now }
    ensures { heap.new ≡ record {
      layout = heap.old.layout;
      refs = refs.now;
      marks = heap.old.marks;
      reads = heap.old.reads;
    } }
{
    let layout = heap.layout();
    let (_, _, _) = layout.counts();
    for number in 0..refs.len() {
        let Some(slot) = layout.slot(number as u32) else {
            unreachable!()
        };
        heap.set(slot, refs[number]);
    }
}

// Marks cards dirty in a heap of clean cards, and returns how many.
#[tactic(auto, using(crate::proofs::of_marked))]
fn mark_cards(heap: &mut Heap, marked: &[bool]) -> u32
    requires clean { heap.old.marks ≡ replicate (card_count heap.old.layout) Clean }
    requires cards { length marked.now ≡ card_count heap.old.layout }
    ensures heap { heap.new ≡ record {
      layout = heap.old.layout;
      refs = heap.old.refs;
      marks = marks_for marked.now;
      reads = heap.old.reads;
    } }
    ensures pending { result ≡ set.len (pending_of heap.new.marks) }
{
    let layout = heap.layout();
    let (_, _, _) = layout.counts();
    let mut pending = 0;
    for number in 0..marked.len() {
        let Some(card) = layout.card(number as u32) else {
            unreachable!()
        };
        if marked[number] {
            heap.set_mark(card, Mark::Dirty);
            pending += 1;
        }
    }
    pending
}
