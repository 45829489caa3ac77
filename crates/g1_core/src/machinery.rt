//! The machinery of a heap, for one thread.
ghost use Rattle.std.specs.Prelude.{◌≡◌};
ghost use Rattle.g1_core.specs.Prelude.{IfOk};
ghost use Rattle.g1_core.specs.Machine.{new_machine};

use crate::config::Config;
use crate::heap_and_sets::HeapAndSets;
use arrayvec::ArrayVec;
use g1_heap::Heap;
use g1_hot::Hot;
use g1_layout::{Layout, NoMemory};
use g1_sets::Sets;
use std::alloc::Global;
use std::marker::Model;

/// A heap in regions with its card table, remembered sets, refinement counts and hot ring, for one
/// thread.
///
/// Contracts see a `Machine` (`specs/Machine.antt`): the plain table and the ring with its counts,
/// the settings, and how many slots were read. Logs and completed buffers belong to the callers,
/// and the core trusts nothing in them.
#[derive(Drop)]
pub struct Core {
    pub(crate) alloc: Global,
    pub(crate) config: Config,
    pub(crate) memory: HeapAndSets,
    pub(crate) hot: Hot,
}

impl Model for Core {
    ghost use Rattle.g1_core.specs.Machine.{Machine, machine_code, machine_from, IsCore};

    ghost Value = { Machine };

    ghost coded = { machine_code };

    ghost view = { λ a. machine_from a.memory.heap a.memory.sets.pairs a.hot a.config };

    ghost invariant = { λ a. IsCore a.memory.heap a.memory.sets a.hot a.memory.pending };
}

impl Core {
    /// Makes a core of a heap of nulls: every card is clean, nothing is recorded, every count is 0
    /// and the ring is empty.
    ///
    /// Takes memory for the slots (4 bytes each), the marks and counts (a byte a card each), the
    /// rows of the recorded regions (32 bytes a card) and the ring. Returns `NoMemory` if a growth
    /// was refused. What was taken is then given back.
    ///
    /// Later only the remembered sets and the returned lists grow. While it runs, a redirect also
    /// takes memory for lists of what it changes, and a call that lists a large set in a heap of
    /// more than 65,536 cards takes a bit for each card.
    pub fn new(alloc: Global, layout: Layout, config: Config) -> Result<Core, NoMemory>
        ensures { IfOk result (λ core. core ≡ new_machine layout config) }
    {
        // The contract of `counts` says that they are within the limits.
        let _ = layout.counts();
        let heap = Heap::new(alloc, layout)?;
        let sets = Sets::new(alloc, layout)?;
        let hot = Hot::new(alloc, layout, config.hot(), config.ring())?;
        Ok(Core {
            alloc,
            config,
            memory: HeapAndSets {
                heap,
                sets,
                pending: 0,
                targets: ArrayVec::new(),
            },
            hot,
        })
    }
}
