//! How a call tells its answer.
ghost use Rattle.std.specs.Prelude.{◌≡◌, ◌≤◌, ◌==◌};
ghost use Rattle.g1_c.specs.{Tells};

use g1_handles::code::{DONE, Reason};

// The word of a call that tells nothing else.
#[inline(always)]
pub(crate) fn answer_word(answer: Result<(), Reason>) -> u32
    ensures { Tells answer result tt (Unit {0}) }
{
    match answer {
        Err(refusal) => refusal.word(),
        Ok(()) => DONE,
    }
}

// Writes an answer to `out`, or `none` if the question is refused.
pub(crate) fn tell<T: Copy>(answer: Result<T, Reason>, none: T, out: &mut T) -> u32
    ensures { Tells answer result out.new (out.new ≡ none) }
{
    match answer {
        Err(refusal) => {
            *out = none;
            refusal.word()
        }
        Ok(value) => {
            *out = value;
            DONE
        }
    }
}

// The same of a yes, which is 1, or a no, which is 0.
pub(crate) fn tell_whether(answer: Result<bool, Reason>, out: &mut u32) -> u32
    ensures told { Tells answer result (out.new == 1) (out.new ≡ 0) }
    ensures word { out.new ≤ 1 }
{
    match answer {
        Err(refusal) => {
            *out = 0;
            refusal.word()
        }
        Ok(answer) => {
            *out = answer as u32;
            DONE
        }
    }
}

// The word of a reply to a clear or a free. Its number is written to `detail`, or 0 if the call is
// refused.
macro_rules! tell_reply {
    ($answer:expr, $detail:expr) => {
        match $answer {
            Err(refusal) => {
                *$detail = 0;
                refusal.word()
            }
            Ok((word, number)) => {
                *$detail = number;
                word
            }
        }
    };
}

// The word of a store's answer. Its kind is written to `kind`, or 0 if the call is refused.
macro_rules! tell_kind {
    ($answer:expr, $kind:expr) => {
        match $answer {
            Err(refusal) => {
                *$kind = 0;
                refusal.word()
            }
            Ok(stored) => {
                *$kind = g1_handles::code::kind_word(stored);
                g1_handles::code::DONE
            }
        }
    };
}

// The word of an answer about the set of a region at a pause. How many cards it has is written to
// `count`, or 0 if the call is refused.
macro_rules! tell_set {
    ($answer:expr, $count:expr) => {
        match $answer {
            Err(refusal) => refusal.word(),
            Ok(g1_handles::heap::sets::SetTold::First(size)) => {
                *$count = size;
                g1_handles::code::Reason::NoRoom.word()
            }
            Ok(g1_handles::heap::sets::SetTold::All(size)) => {
                *$count = size;
                g1_handles::code::DONE
            }
        }
    };
}

pub(crate) use tell_kind;
pub(crate) use tell_reply;
pub(crate) use tell_set;
