//! How a test or a scenario ends, and how it says which call was refused.
ghost use Rattle.std.specs.Prelude.{IfOk};

use arrayvec::CapacityError;
use g1_history::Refusal;
use g1_layout::NoMemory;
use std::alloc::{AllocError, AllocFailed};

/// Why a test or a scenario goes no further.
#[derive(Clone, Copy, Debug, PartialEq, Eq)]
pub enum Failure {
    /// A growth was refused: the call that met it can be made again.
    NoMemory,
    /// Something is not as it was worked out by hand.
    Wrong,
}

impl From<NoMemory> for Failure {
    fn from(_: NoMemory) -> Failure {
        Failure::NoMemory
    }
}

impl From<AllocError> for Failure {
    fn from(_: AllocError) -> Failure {
        Failure::NoMemory
    }
}

/// The value for which there was no room is dropped.
impl<T: Drop> From<AllocFailed<T>> for Failure {
    fn from(_: AllocFailed<T>) -> Failure {
        Failure::NoMemory
    }
}

/// No history becomes full, but where a test looks for that itself.
impl From<Refusal> for Failure {
    fn from(refusal: Refusal) -> Failure {
        match refusal {
            Refusal::NoMemory => Failure::NoMemory,
            Refusal::BookFull => Failure::Wrong,
        }
    }
}

/// No list has more than it has room for.
impl<T: Drop> From<CapacityError<T>> for Failure {
    fn from(_: CapacityError<T>) -> Failure {
        Failure::Wrong
    }
}

/// Says that a call was refused.
pub fn refused(rt: &impl Eprint, call: &str) {
    let _ = eprintln!(rt; "refused: {call}");
}

/// Makes a call, and makes it again where it is refused.
pub fn retried<T, F: Fn() -> Result<T, NoMemory>>(
    rt: &impl Eprint,
    name: &str,
    call: F,
) -> Result<T, Failure>
    requires { F.pre call }
    ensures { IfOk result (λ answer. F.post call (Ok answer)) }
{
    match call() {
        Ok(answer) => Ok(answer),
        Err(NoMemory) => {
            refused(rt, name);
            Ok(call()?)
        }
    }
}
