//! The calls of a core, whose references are all recorded.
ghost use Rattle.std.specs.Prelude.{◌≡◌, ◌<◌, IfSome};
ghost use Rattle.g1_layout.specs.Shape.{slot_count};

use crate::stores::{Barrier, Target, list_of, store_all};
use g1_core::{ClearReply, Config, Core, Drained, Redirected, Settings};
use g1_layout::{Kind, Layout, NoMemory, Slot};
use g1_log::{Buffer, Log};
use std::alloc::Global;

/// A core, one log, and a checksum of what the calls answered.
#[derive(Drop)]
pub struct CoreCalls {
    pub(crate) core: Core,
    log: Log,
    checksum: u64,
}

impl Barrier for CoreCalls {
    ghost layout_of = { λ it. it.core.state.table.layout };

    fn layout(&self) -> Layout {
        self.core.layout()
    }

    fn store(&mut self, slot: Slot, target: Option<Slot>) {
        let _ = self.store_with(slot, target, false);
    }
}

impl CoreCalls {
    /// A heap in which each card refers into as many regions after its own, by its first slots; all
    /// of it is recorded, and nothing is pending.
    pub fn new(alloc: Global, layout: Layout, references: u32) -> Result<CoreCalls, NoMemory> {
        let config = seldom_hot();
        let core = Core::new(alloc, layout, config)?;
        let mut calls = CoreCalls {
            core,
            log: config.new_log(),
            checksum: 0,
        };
        for index in 0..references {
            let list = list_of(alloc, layout, Target::OtherRegion(index))?;
            store_all(&mut calls, list.as_slice());
        }
        calls.drain()?;
        calls.checksum = 0;
        Ok(calls)
    }

    /// A sum of what the calls answered.
    pub fn checksum(&self) -> u64 {
        self.checksum
    }

    /// Makes the stores of a list, and refines each full log.
    pub fn refine(&mut self, list: &[(u32, u32)]) -> Result<(), NoMemory> {
        let layout = self.core.layout();
        for (slot, place) in list {
            let Some(slot) = layout.slot(*slot) else {
                return Ok(());
            };
            self.store_with(slot, layout.slot(*place), true)?;
        }
        Ok(())
    }

    /// Drains the first region `times` times.
    pub fn drain_again(&mut self, times: u32) -> Result<(), NoMemory> {
        for _ in 0..times {
            self.drain()?;
        }
        Ok(())
    }

    /// Asks `times` times for a clear of the first region.
    pub fn clear(&mut self, times: u32) {
        for _ in 0..times {
            self.clear_first();
        }
    }

    // Asks for a clear of the first region.
    fn clear_first(&mut self) {
        let Some(region) = self.core.layout().region(0) else {
            return;
        };
        match self.core.clear(region) {
            ClearReply::Cleared => {}
            ClearReply::Pending(cards) => self.add(u64::from(cards)),
            ClearReply::StillReferenced(slot) => self.add(u64::from(slot.number())),
        }
    }

    /// Redirects the references into one region to another, then those into that one back, `times`
    /// times in all.
    pub fn redirect(&mut self, times: u32) -> Result<(), NoMemory> {
        for turn in 0..times {
            if turn % 2 == 0 {
                self.redirect_once(0, 1)?;
            } else {
                self.redirect_once(1, 0)?;
            }
        }
        Ok(())
    }

    fn redirect_once(&mut self, from: u32, to: u32) -> Result<(), NoMemory> {
        let layout = self.core.layout();
        let (Some(from), Some(to)) = (layout.region(from), layout.region(to)) else {
            return Ok(());
        };
        if from == to {
            return Ok(());
        }
        match self.core.redirect(from, to)? {
            Redirected::Moved { slots, .. } => self.add(u64::from(slots)),
            Redirected::Short { .. } => return Err(NoMemory),
        }
        Ok(())
    }

    /// Drains the first region.
    pub fn drain(&mut self) -> Result<(), NoMemory> {
        let Some(region) = self.core.layout().region(0) else {
            return Ok(());
        };
        let answer = self.core.drain(region)?;
        self.add_drained(&answer)
    }

    /// Adds how many cards a drain returned, and how many it refined.
    pub fn add_drained(&mut self, answer: &Drained) -> Result<(), NoMemory> {
        let Drained::Cards { cards, refined } = answer else {
            return Err(NoMemory);
        };
        self.add(cards.len() as u64);
        self.add(refined.len() as u64);
        Ok(())
    }

    // Stores, and refines a full log where it is told to; else that is looked at, as whoever is
    // handed one does.
    #[inline(always)]
    fn store_with(
        &mut self,
        slot: Slot,
        target: Option<Slot>,
        refines: bool,
    ) -> Result<(), NoMemory>
        requires slot { slot < slot_count self.old.core.state.table.layout }
        requires target { IfSome target (λ place.
            place < slot_count self.old.core.state.table.layout) }
        ensures { self.new.core.state.table.layout ≡ self.old.core.state.table.layout }
    {
        let (reply, buffer) = self.core.store(&mut self.log, slot, target);
        if reply.kind == Kind::Logged {
            self.add(1);
        }
        if let Some(buffer) = buffer {
            self.add(last_of(&buffer));
            if refines {
                let reply = self.core.refine(Some(&buffer))?;
                self.add(reply.refined.len() as u64);
            }
        }
        Ok(())
    }

    /// Adds to the checksum.
    pub fn add(&mut self, number: u64)
        ensures { self.new.core ≡ self.old.core }
    {
        self.checksum = self.checksum.wrapping_add(number);
    }
}

// Settings by which a card is refined 255 times before it is hot.
fn seldom_hot() -> Config {
    Config::of(Settings {
        hot: 255,
        ..Settings::default()
    })
    .unwrap_or_default()
}

// The number of the card that a buffer has got last. It is a call of its own, so that the buffer
// has to stand in memory.
#[inline(never)]
fn last_of(buffer: &Buffer) -> u64 {
    match buffer.cards().last() {
        Some(card) => u64::from(card.number()),
        None => 0,
    }
}
