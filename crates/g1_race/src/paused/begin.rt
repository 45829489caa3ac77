//! A core becomes a race at a pause: its table is placed into the words of a heap of nulls.
ghost use Rattle.std.specs.Prelude.{◌≡◌, ◌+◌, ◌<◌, ◌≤◌};
ghost use Rattle.g1_race.specs.{ℕ, [], IfOk, OnOk, OnErr, All, replicate, some, get_elem?};
ghost use Rattle.g1_race.specs.{IsPairOf, In, IsPair, all_read};
ghost use Rattle.g1_race.specs.{IsOfCrossing, mark_word, null_of, shape_of, table_at, start_at};
ghost use Rattle.g1_race.specs.{Notes, AreCovered, AreMarked, ArePlaced, HasWordsOf};
ghost use Rattle.g1_race.specs.{Writes, words_of, heap_of, AreFlagsOf, RaisesOnly, IsPending};
ghost use Rattle.std.specs.FinSet as set;

use crate::paused::{Paused, Writer};
use crate::word::word_of;
use g1_core::Core;
use g1_layout::{Card, NoMemory, Region};
use std::alloc::Global;

impl Paused {
    /// Opens a heap at a pause with a core's whole table, for 1 to 64 racers and 1 to 64 sweepers.
    /// Each slot refers to what it refers to in the core and holds no data, the pending cards are
    /// dirty, and the recorded pairs are recorded. The settings and the refinement counts are not
    /// taken over.
    ///
    /// Reads each slot of the core once. The core stays as it is, except for its count of reads.
    /// Takes the memory of [`Paused::open`] and, during the call, that of the list of pairs.
    /// Returns `NoMemory` if memory was refused: nothing is left of the heap, and no slot was read.
    pub fn begin_from(
        alloc: Global,
        core: &mut Core,
        racers: u32,
        sweepers: u32,
    ) -> Result<Paused, NoMemory>
        requires racers { (1 ≤ racers) × (racers ≤ 64) }
        requires sweepers { (1 ≤ sweepers) × (sweepers ≤ 64) }
        ensures layout { IfOk result (λ p. p.layout ≡ core.old.state.table.layout) }
        ensures shape { IfOk result (λ p.
            p.shape ≡ shape_of core.old.state.table.layout (racers + sweepers)) }
        ensures table { IfOk result (λ p. table_at p ≡ core.old.state.table) }
        ensures words { IfOk result (λ p. HasWordsOf core.old.state.table p.words) }
        ensures flags { IfOk result (λ p.
            AreFlagsOf p.shape core.old.state.table p.words) }
        ensures logs { IfOk result (λ p. p.logs ≡ replicate racers []) }
        ensures sweepers { IfOk result (λ p. p.sweepers ≡ sweepers) }
        ensures read { OnOk result (core.new ≡ all_read core.old) }
        ensures err { OnErr result (core.new ≡ core.old) }
    {
        let pairs = core.pairs()?;
        let mut paused = Paused::open(alloc, core.layout(), racers, sweepers)?;
        paused.place(core, &pairs);
        Ok(paused)
    }

    // Places the core's table into a heap of nulls.
    #[tactic(auto, using(crate::proofs::of_a_copy))]
    fn place(&mut self, core: &mut Core, pairs: &[(Card, Region)])
        requires layout { self.old.layout ≡ core.old.state.table.layout }
        requires null { start_at self.old ≡ null_of self.old.shape }
        requires pairs { set.from_list pairs.now ≡ core.old.state.table.recorded }
        requires within { All (IsPairOf core.old.state.table.layout) pairs.now }
        ensures table { table_at self.new ≡ core.old.state.table }
        ensures words { HasWordsOf core.old.state.table self.new.words }
        ensures flags { AreFlagsOf self.new.shape core.old.state.table self.new.words }
        ensures rest { self.new ≡ record self.old { words = self.new.words } }
        ensures read { core.new ≡ all_read core.old }
    {
        let _layout = core.layout();
        let (race, reader) = (&self.race, &mut self.reader);
        let mut writer = Writer { race, reader };
        writer.place_pairs(pairs);
        writer.place_marks(core);
        writer.place_slots(core);
    }
}

impl Writer<'_> {
    // Sets the bits of these pairs.
    fn place_pairs(&mut self, pairs: &[(Card, Region)])
        requires { let heap = heap_of self.old in
            (x : ℕ × ℕ) → In pairs.now x → IsPair heap x × IsOfCrossing heap x }
        ensures { Writes self.old self.new (λ heap old new. Notes heap old new pairs.now) }
    {
        self.reader.begun(self.race);
        for pair in pairs {
            self.set_bit(pair.0.number() as usize, pair.1.number() as usize);
        }
    }

    // Dirties the cards that are pending in the core.
    fn place_marks(&mut self, core: &Core)
        requires layout { self.old.race.now.layout ≡ core.now.state.table.layout }
        requires clean { let heap = heap_of self.old in (c : ℕ) → c < heap.cards →
            get_elem? (words_of self.old) (mark_word heap c) ≡ some 0 }
        ensures marks { Writes self.old self.new (λ heap old new.
            AreMarked heap core.now.state.table old new heap.cards) }
        ensures flags { RaisesOnly (IsPending core.now.state.table) (heap_of self.old)
            (words_of self.old) (words_of self.new) }
    {
        let race = self.race;
        self.reader.begun(race);
        for number in 0..race.shape.cards {
            let Some(card) = race.layout.card(number as u32) else {
                unreachable!()
            };
            if core.is_pending(card) {
                self.dirty(number);
            }
        }
    }

    // Writes the core's references.
    fn place_slots(&mut self, core: &mut Core)
        requires layout { self.old.race.now.layout ≡ core.old.state.table.layout }
        requires null { (p : ℕ) → p < (heap_of self.old).slots →
            get_elem? (words_of self.old) p ≡ some 0 }
        requires covered { AreCovered (heap_of self.old) core.old.state.table (words_of self.old) }
        ensures slots { Writes self.old self.new (λ heap old new.
            ArePlaced heap core.old.state.table old new heap.slots) }
        ensures flags { RaisesOnly (λ card. ⊥) (heap_of self.old) (words_of self.old)
            (words_of self.new) }
        ensures read { core.new ≡ all_read core.old }
    {
        let race = self.race;
        self.reader.begun(race);
        let _reads = core.reads();
        for number in 0..race.shape.slots {
            let Some(slot) = race.layout.slot(number as u32) else {
                unreachable!()
            };
            let word = word_of(core.target(slot));
            if word != 0 {
                self.put(number, word);
            }
        }
    }
}
