//! A core and what is remembered of its calls.
ghost use Rattle.std.specs.Prelude.{◌≡◌, ◌≤◌, ◌<◌};
ghost use Rattle.g1_history.specs.Prelude.{[], IfOk};

use crate::keeps::{Keeps, Kept, Tallied};
use g1_core::{Config, Core, Entry};
use g1_layout::{Layout, NoMemory};
use std::alloc::Global;
use std::marker::Model;

/// A core and the history of its calls (docs/rules.md, The history).
///
/// Its entries are a permitted run of the plain table that ends in the core's table. Each call
/// either appends one entry, with its caller and exactly the reply that it returns, or is refused
/// and changes nothing. A call returns `BookFull` exactly if as many calls were made as may be.
/// That comes before `NoMemory`: no memory is asked for then. Otherwise room for the entry, and for
/// its copies of the reply's lists, is made before the core changes. Growing the history is
/// amortised over its entries.
///
/// A `Book<Tallied>` keeps no entries, and only counts its calls and the stores among them.
#[derive(Drop)]
pub struct Book<H: Keeps = Kept> {
    pub(crate) alloc: Global,
    pub(crate) core: Core,
    pub(crate) mutators: u32,
    pub(crate) history: H,
}

impl<H: Keeps> Model for Book<H> {
    ghost use Rattle.g1_history.specs.History.{History, IsKept, history_code, history_of};
    ghost use Rattle.g1_core.specs.contracts.entry.Entry as entry;

    ghost Value = { History };

    ghost coded = { history_code entry.the_row.coded };

    ghost view = { λ a. history_of a.core a.mutators (H.past a.history) };

    ghost invariant = { λ a. IsKept H.KEEPS (history_of a.core a.mutators (H.past a.history)) };
}

impl Book<Kept> {
    ghost use Rattle.g1_history.specs.Prelude.{IsSound, IsCovered};
    ghost use Rattle.g1_history.specs.History.{IsHistory, opened, table_in};

    /// Returns an empty history over a new core: every slot is null, every card is clean, and
    /// nothing is recorded (docs/rules.md, The history).
    ///
    /// `mutators`, from 1 to 8, says how many of the callers may store. `history`, from 1 to
    /// 1,000,000, says how many entries there may be. Returns `NoMemory` if a growth for the core
    /// was refused. Room for entries is made as they come.
    pub fn open(
        alloc: Global,
        layout: Layout,
        config: Config,
        mutators: u32,
        history: usize,
    ) -> Result<Book, NoMemory>
        requires mutators_low { 1 ≤ mutators }
        requires mutators_high { mutators ≤ 8 }
        requires history_low { 1 ≤ history }
        requires history_high { history ≤ 1000000 }
        ensures { IfOk result (λ book. book ≡ opened layout config mutators history) }
    {
        let _ = layout.counts();
        let core = Core::new(alloc, layout, config)?;
        let entries = Vec::new(alloc);
        let kept = Kept {
            entries,
            limit: history,
        };
        Ok(Book {
            alloc,
            core,
            mutators,
            history: kept,
        })
    }

    /// Returns the calls so far, oldest first: a permitted run of the plain table, from the opening
    /// table to the core's. If a slot refers into another region, its card is pending or recorded
    /// for that region. The slots, cards and regions that references, pending cards and recorded
    /// pairs name lie in the heap. The hot ring holds distinct cards, each of them pending.
    /// Constant time.
    pub fn entries(&self) -> &[Entry]
        ensures entries { result.now ≡ self.now.entries }
        ensures history { IsHistory self.now }
        ensures cover { IsCovered (table_in self.now) }
        ensures sound { IsSound self.now.machine.state }
    {
        let _layout = self.core.layout();
        self.history.entries.as_slice()
    }
}

impl Book<Tallied> {
    ghost use Rattle.g1_history.specs.History.{History};

    /// Returns a book over this core that keeps no entries. At most `limit` calls are made.
    ///
    /// `mutators`, from 1 to 8, says how many of the callers may store. The core may have made
    /// calls before: they are not counted.
    pub fn over(alloc: Global, core: Core, mutators: u32, limit: u64) -> Book<Tallied>
        requires mutators { (1 ≤ mutators) × (mutators ≤ 8) }
        ensures machine { result.machine ≡ core }
        ensures mutators { result.mutators ≡ mutators }
        ensures totals { result.totals ≡ record { made = 0; stored = 0 } }
        ensures limit { result.limit ≡ limit }
    {
        let _layout = core.layout();
        let tallied = Tallied {
            made: 0,
            stored: 0,
            limit,
        };
        Book {
            alloc,
            core,
            mutators,
            history: tallied,
        }
    }

    /// Returns the core.
    pub fn into_core(self) -> Core
        ensures { result ≡ self.machine }
    {
        let Book { core, .. } = self;
        core
    }

    /// How many calls were made. Constant time.
    pub fn made(&self) -> u64
        ensures { result ≡ self.now.totals.made }
    {
        self.history.made
    }

    /// How many of these are stores. Constant time.
    pub fn stored(&self) -> u64
        ensures { result ≡ self.now.totals.stored }
    {
        self.history.stored
    }
}

impl<H: Keeps> Book<H> {
    ghost use Rattle.g1_history.specs.Prelude.{IsSound};
    ghost use Rattle.std.specs.Global.{Global};
    ghost use Rattle.g1_history.specs.History.{IsKept, layout_in};

    /// The layout of the heap, which makes the numbers that calls take. Constant time. The clauses
    /// also say what every book keeps.
    pub fn layout(&self) -> Layout
        ensures layout { result ≡ layout_in self.now }
        ensures kept { IsKept H.KEEPS self.now }
        ensures sound { IsSound self.now.machine.state }
    {
        self.core.layout()
    }

    /// How many of the callers may store: those whose number is below it. Constant time.
    pub fn mutators(&self) -> u32
        ensures { result ≡ self.now.mutators }
    {
        self.mutators
    }

    /// The settings of the core. Constant time.
    pub fn config(&self) -> Config
        ensures { result ≡ self.now.machine.settings }
    {
        self.core.config()
    }

    /// The core. Constant time.
    pub fn core(&self) -> &Core
        ensures { result.now ≡ self.now.machine }
    {
        &self.core
    }

    /// The allocator that the book was opened with: there is one alone. Constant time.
    pub fn allocator(&self) -> Global
        ensures one { (other : Global) → result ≡ other }
    {
        self.alloc
    }
}

/// The same value again. (A function that makes a call or a reply of an enum that it goes on to use
/// would get no generated proof.)
#[inline(always)]
pub(crate) fn again<T: Copy>(value: &T) -> T
    ensures { result ≡ value.now }
{
    *value
}
