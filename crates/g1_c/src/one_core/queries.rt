//! Queries: what a slot refers to, whether a card is pending, and how much is pending and recorded.
ghost use Rattle.std.specs.Prelude.{◌≡◌, ◌≤◌, ◌==◌};
ghost use Rattle.g1_c.specs.{OnCore, RefersTo, reference_of, LacksSlot, ToldByCore};
ghost use Rattle.g1_c.specs.{TellsPending, LacksCard, TellsStatus};

use crate::calling::on_core;
use crate::tell::{tell, tell_whether};
use g1_handles::code::{DONE, NULL};
use g1_handles::handles::Handle;
use g1_handles::one_core::queries::{is_pending_in, status_in, target_in};

/// How much is pending and recorded.
#[repr(C)]
#[derive(Clone, Copy, Debug)]
pub struct Totals {
    /// How many cards are pending.
    pub pending: u32,
    /// How many pairs of a card and a region are recorded.
    pub recorded: u32,
}

/// As in `g1.h`.
#[unsafe(no_mangle)]
pub extern "C" fn g1_target(handle: &mut Handle, slot: u32, target: &mut u32) -> u32
    ensures { OnCore 0 result handle.old handle.new (target.new ≡ 4294967295) (λ old new. RefersTo
        old slot (reference_of target.new) new) (λ old. LacksSlot old.state.table.layout slot) }
{
    let answer = on_core!(handle, target_in(slot));
    tell(answer, NULL, target)
}

/// As in `g1.h`.
#[unsafe(no_mangle)]
pub extern "C" fn g1_is_pending(handle: &mut Handle, card: u32, pending: &mut u32) -> u32
    ensures told { ToldByCore result handle.old handle.new (pending.new == 1) (pending.new ≡ 0) (λ
        answer core. TellsPending core.state.table card answer) (λ old. LacksCard
        old.state.table.layout card) }
    ensures word { pending.new ≤ 1 }
{
    let answer = on_core!(handle, is_pending_in(card));
    tell_whether(answer, pending)
}

/// As in `g1.h`.
#[unsafe(no_mangle)]
pub extern "C" fn g1_status(handle: &mut Handle, totals: &mut Totals) -> u32
    ensures { ToldByCore result handle.old handle.new (record {
      pending = totals.new.pending;
      recorded = totals.new.recorded;
    }) (totals.new ≡ record { pending = 0; recorded = 0 }) (λ
        totals core. TellsStatus core.state.table totals) (λ old r. ⊥) }
{
    *totals = Totals {
        pending: 0,
        recorded: 0,
    };
    match on_core!(handle, Ok(status_in())) {
        Err(refusal) => refusal.word(),
        Ok(status) => {
            *totals = Totals {
                pending: status.pending,
                recorded: status.recorded,
            };
            DONE
        }
    }
}
