//! What a pause reads and stores.
ghost use Rattle.std.specs.Prelude.{◌≡◌, ◌<◌};
ghost use Rattle.g1_race.specs.{IfSome, slice_set, some, get_elem?, slot_count, card_count};
ghost use Rattle.g1_race.specs.{kind_of, stored, TellsTarget, TellsPending, IsBegun, started};
ghost use Rattle.g1_race.specs.{crosses, word_count, shape_of, word_of, table_at, WordsBecome};
ghost use Rattle.g1_race.specs.{one_word, IsDirtied, reader_race, race_id, table_read, StoresAt};
ghost use Rattle.g1_race.specs.{Logged, RaisesOnly, slot_card, Writes, words_of, heap_of};

use crate::paused::holds::HoldsRace;
use crate::paused::reading::Reader;
use crate::paused::{Paused, Writer};
use crate::race::Race;
use crate::word::word_of;
use g1_layout::{Card, Kind, Layout, Slot};

impl<R: HoldsRace> Paused<R> {
    /// Returns what a slot refers to, or `None` for null. Reads one word.
    pub fn target(&mut self, slot: Slot) -> Option<Slot>
        requires { slot < slot_count self.old.layout }
        ensures told { TellsTarget (table_at self.old) slot result }
        ensures same { self.new ≡ self.old }
    {
        self.reader.target(self.race.race(), slot)
    }

    /// Returns whether a card is pending: dirty, by a store or from the beginning. Reads one word.
    pub fn is_pending(&mut self, card: Card) -> bool
        requires { card < card_count self.old.layout }
        ensures told { TellsPending (table_at self.old) card result }
        ensures same { self.new ≡ self.old }
    {
        self.reader.is_pending(self.race.race(), card)
    }

    /// Stores a reference (or null) into a slot, for the collector, and dirties the slot's card if
    /// the reference crosses regions. No log gets the card. Returns the kind of the store: `Logged`
    /// if the reference crosses regions and the card was clean. Takes no memory.
    pub fn store(&mut self, slot: Slot, target: Option<Slot>) -> Kind
        requires slot { slot < slot_count self.old.layout }
        requires target { IfSome target (λ place. place < slot_count self.old.layout) }
        ensures { StoresAt self.old slot target result self.new }
    {
        let race = self.race.race();
        let kind = self.reader.kind_of(race, &slot, &target);
        let reader = &mut self.reader;
        Writer { race, reader }.store_as(slot, target, kind);
        kind
    }
}

impl Reader {
    // The kind of a store of `target` into `slot`.
    fn kind_of(&mut self, race: &Race, slot: &Slot, target: &Option<Slot>) -> Kind
        requires reader { reader_race self.old ≡ race_id race.now }
        requires slot { slot.now < slot_count race.now.layout }
        requires target { IfSome target.now (λ place. place < slot_count race.now.layout) }
        ensures kind { result ≡ kind_of (table_read race.now self.old) slot.now target.now }
        ensures same { self.new ≡ self.old }
    {
        let Some(target) = target else {
            return Kind::Null;
        };
        if race.layout.region_of(*slot).number() == race.layout.region_of(*target).number() {
            return Kind::SameRegion;
        }
        if self.is_pending(race, race.layout.card_of(*slot)) {
            return Kind::AlreadyDirty;
        }
        Kind::Logged
    }

    // Says that a race can begin with the words.
    #[inline(always)]
    #[tactic(auto, using(crate::proofs::reader_begun))]
    pub(crate) fn begun(&self, race: &Race)
        requires { reader_race self.now ≡ race_id race.now }
        ensures { IsBegun (started race.now.shape self.now.start.words) }
    {
        let _seat = &self.seat;
    }

    // Reads a word, which is what the reader knows it to be.
    pub(crate) fn see(&mut self, race: &Race, word: usize) -> u64
        requires reader { reader_race self.old ≡ race_id race.now }
        requires word { word < word_count race.now.shape }
        ensures word { get_elem? self.old.start.words word ≡ some result }
        ensures begun { IsBegun (started race.now.shape self.old.start.words) }
        ensures same { self.new ≡ self.old }
    {
        race.table.see(&mut self.seat, word)
    }
}

impl Writer<'_> {
    // Makes a store of this kind.
    fn store_as(&mut self, slot: Slot, target: Option<Slot>, kind: Kind)
        requires slot { slot < slot_count self.old.race.now.layout }
        requires target { IfSome target (λ place. place < slot_count self.old.race.now.layout) }
        requires kind { kind
            ≡ kind_of (table_read self.old.race.now self.old.reader.now) slot target }
        ensures words { Writes self.old self.new (WordsBecome (one_word slot (word_of target))) }
        ensures table { let race = self.old.race.now in table_read race self.new.reader.now
            ≡ stored (table_read race self.old.reader.now) slot target }
        ensures flags { let heap = heap_of self.old in
            RaisesOnly (λ card. (kind ≡ Logged) × (card ≡ slot_card heap slot)) heap
            (words_of self.old) (words_of self.new) }
    {
        self.reader.begun(self.race);
        let (number, word) = (slot.number() as usize, word_of(target));
        let Kind::Logged = kind else {
            self.put(number, word);
            return;
        };
        self.dirty(self.race.layout.card_of(slot).number() as usize);
        self.put(number, word);
    }

    // Writes a word, where the words keep what each beginning has.
    pub(crate) fn put(&mut self, word: usize, new: u64)
        requires word { word < word_count (heap_of self.old) }
        requires begun { IsBegun
            (started (heap_of self.old) (slice_set (words_of self.old) word new)) }
        ensures { Writes self.old self.new
            (λ heap before after. after ≡ slice_set before word new) }
    {
        let reader = &mut *self.reader;
        self.race.table.put(&mut reader.seat, word, new);
    }

    // Dirties a card, whose flag is set before.
    pub(crate) fn dirty(&mut self, card: usize)
        requires { card < (heap_of self.old).cards }
        ensures { Writes self.old self.new (λ heap old new. IsDirtied heap old new card) }
    {
        let race = self.race;
        self.set_bit(card / 8 * 8, race.shape.regions);
        self.put(race.shape.slots + card, 1);
    }
}

// Whether a reference of the slot to the target crosses regions.
pub(crate) fn crosses(layout: Layout, slot: &Slot, target: &Option<Slot>) -> bool
    requires slot { slot.now < slot_count layout }
    requires target { IfSome target.now (λ place. place < slot_count layout) }
    ensures { result ≡ crosses (shape_of layout 0) slot.now (word_of target.now) }
{
    let Some(target) = target else {
        return false;
    };
    layout.region_of(*slot).number() != layout.region_of(*target).number()
}
