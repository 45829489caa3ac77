//! Opening and closing a handle.
ghost use Rattle.std.specs.Prelude.{◌≡◌, ◌↔◌, ◌<◌};
ghost use Rattle.g1_handles.specs.Prelude.{Some, None, IfErr, OnOk, OnErr, SomeIff};
ghost use Rattle.g1_handles.specs.Prelude.{IsSome, new_machine, AreSettings};
ghost use Rattle.g1_handles.specs.Codes.{layout_of, settings_of, IsRefusal};
ghost use Rattle.g1_handles.specs.Refusals.{IsOpenRefused, SaysNotOpen};

use crate::any_handle::{closed, into_box, is_closed, opened};
use crate::code::{DONE, Reason};
use crate::handles::Handle;
use g1_core::{Config, Core};
use g1_layout::Layout;
use std::alloc::Global;

/// The counts of a heap: how many regions it has, cards a region, and slots a card.
#[repr(C)]
#[derive(Clone, Copy, Debug)]
pub struct Counts {
    /// How many regions.
    pub regions: u32,
    /// How many cards a region has.
    pub cards: u32,
    /// How many slots a card has.
    pub slots: u32,
}

/// The settings of a core: these, and the defaults of the others.
fn config(hot: u32, ring: u32) -> Option<Config>
    ensures { SomeIff result (AreSettings (settings_of hot ring)) (settings_of hot ring) }
{
    let log = Config::LOG.default as usize;
    let limit = Config::LIMIT.default as usize;
    let start = Config::START.default as usize;
    Config::new(log, limit, hot, ring as usize, start)
}

/// Opens a closed handle on a new core in memory of the allocator. From `hot` refinements on, a
/// card is hot, and the hot ring holds `ring` cards. The other settings have their defaults.
///
/// Returns `AlreadyOpen`, before anything is made, `BadLayout` or `BadSettings` if the counts or
/// the settings are outside their limits, or `NoMemory`: the handle has not changed.
pub fn open_core(
    alloc: Global,
    handle: &mut Handle,
    counts: &Counts,
    hot: u32,
    ring: u32,
) -> Result<(), Reason>
    ensures new { OnOk result
        (handle.new.value ≡ Some (new_machine (layout_of counts.now) (settings_of hot ring))) }
    ensures closed { OnOk result (handle.old.value ≡ None) }
    ensures why { IfErr result (λ refusal.
        IsOpenRefused handle.old.value (layout_of counts.now) (settings_of hot ring) refusal) }
    ensures refused { OnErr result (handle.new.value ≡ handle.old.value) }
{
    if !is_closed(handle) {
        return Err(Reason::AlreadyOpen);
    }
    let layout = Layout::large(counts.regions, counts.cards, counts.slots);
    let layout = layout.ok_or(Reason::BadLayout)?;
    let config = config(hot, ring).ok_or(Reason::BadSettings)?;
    let core = Core::new(alloc, layout, config).or(Err(Reason::NoMemory))?;
    *handle = opened(Box::new(alloc, core).or(Err(Reason::NoMemory))?);
    Ok(())
}

/// Closes a handle, and drops its core. Returns 0, or the word of `NotOpen` if the handle was
/// closed.
pub fn close_core(handle: Handle, alloc: Global) -> (Handle, u32)
    ensures closed { result.0.value ≡ None }
    ensures done { IsSome handle.value → result.1 ≡ 0 }
    ensures refused { (0 < result.1) ↔ (handle.value ≡ None) }
    ensures why { 0 < result.1 → IsRefusal result.1 (SaysNotOpen handle.value) }
{
    let Some(_core) = into_box(handle) else {
        return (closed(alloc), Reason::NotOpen.word());
    };
    (closed(alloc), DONE)
}
