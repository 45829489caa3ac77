//! Why a replay goes no further.
ghost use Rattle.std.specs.Prelude.{◌≡◌};
ghost use Rattle.g1_replay.specs.Playing.{stop_of};
ghost use Rattle.g1_replay.specs.declared.stop.Stop.TheVariants as stops;

use g1_history::Refusal;
use g1_layout::NoMemory;
use g1_steps::NotStarted;
use g1_trace::{TraceFault, WriteFailed};
use std::alloc::AllocError;

/// Why a replay goes no further (docs/traces.md, Faults, Ends).
#[derive(Clone, Copy)]
pub enum Stop {
    /// A line has a fault.
    Fault(TraceFault),
    /// A growth was refused.
    NoMemory,
    /// The history has no room for another call.
    BookFull,
    /// A thread could not be started.
    NoThread,
    /// A read failed, or as many reads were made as may be.
    ReadFailed,
    /// A write failed.
    WriteFailed,
}

impl From<TraceFault> for Stop {
    ghost from_gives = { λ fault stop. stop ≡ stops.Fault fault };

    fn from(fault: TraceFault) -> Stop {
        Stop::Fault(fault)
    }
}

impl From<NoMemory> for Stop {
    ghost from_gives = { λ _ stop. stop ≡ stops.NoMemory };

    fn from(_refused: NoMemory) -> Stop {
        Stop::NoMemory
    }
}

impl From<AllocError> for Stop {
    ghost from_gives = { λ _ stop. stop ≡ stops.NoMemory };

    fn from(_refused: AllocError) -> Stop {
        Stop::NoMemory
    }
}

impl From<Refusal> for Stop {
    ghost from_gives = { λ refusal stop. stop ≡ stop_of refusal };

    fn from(refusal: Refusal) -> Stop {
        match refusal {
            Refusal::NoMemory => Stop::NoMemory,
            Refusal::BookFull => Stop::BookFull,
        }
    }
}

impl From<NotStarted> for Stop {
    ghost from_gives = { λ _ stop. stop ≡ stops.NoThread };

    fn from(_refused: NotStarted) -> Stop {
        Stop::NoThread
    }
}

impl From<WriteFailed> for Stop {
    ghost from_gives = { λ _ stop. stop ≡ stops.WriteFailed };

    fn from(_failed: WriteFailed) -> Stop {
        Stop::WriteFailed
    }
}
