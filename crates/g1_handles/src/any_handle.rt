//! What the handles have in common.
ghost use Rattle.std.specs.Prelude.{◌≡◌};
ghost use Rattle.g1_handles.specs.Prelude.{Some, None, MatchOption, IsTrue, map};
ghost use Rattle.g1_handles.specs.Prelude.{FnOnceReturnsAtMut};
ghost use Rattle.g1_handles.specs.Racing.{AreClosed};
ghost use Rattle.g1_handles.specs.Codes.{IsVisit};

use crate::code::Reason;
use crate::nullable_box::NullableBox;
use std::alloc::Global;

/// A handle that C keeps: a value behind a pointer, or nothing if the pointer is null.
///
/// C makes a closed handle of zeros. Dropping a handle frees nothing. An exported function takes no
/// type with parameters, so each kind of handle is a struct of its own.
pub trait AnyHandle: Drop + Sized {
    ghost use Rattle.std.specs.Prelude.{◌≡◌};
    ghost use Rattle.std.specs.Borrow.{sem, LendsIf};
    ghost use Rattle.g1_handles.specs.Prelude.{Option, Some, None, MatchOption};

    /// What an open handle holds.
    type Value: Drop;

    /// What it holds, or `None` if it is closed.
    ghost value: { Self → Option Self.Value };

    /// The same handle, which holds this value.
    ghost holding: { Self → Self.Value → Self };

    /// The handle of these words.
    fn from_nullable(boxed: NullableBox<Self::Value>) -> Self
        ensures { value result ≡ boxed.value };

    /// The words of a handle.
    fn into_nullable(self) -> NullableBox<Self::Value>
        ensures { result.value ≡ value self };

    /// Lends what it holds in place, or returns `None` if it is closed.
    fn value_mut(&mut self) -> Option<&mut Self::Value>
        ensures* lends { sem 𝓛 (LendsIf Self.row Self.Value.row self.entry result
            (holding self.entry.now) self.entry.now) }
        ensures lent { MatchOption result (value self.old ≡ None)
            (λ inside. value self.old ≡ Some inside.now) };

    ghost holds: { (h : Self) (x : Self.Value) → value (holding h x) ≡ Some x };
}

/// Makes a call on what a handle holds. Returns `NotOpen` if the handle is closed: nothing has
/// changed.
#[inline(always)]
pub fn visit<H: AnyHandle, A, F: FnOnce(&mut H::Value) -> Result<A, Reason>>(
    handle: &mut H,
    call: F,
) -> Result<A, Reason>
    requires { F.IsAlwaysCallable call }
    ensures { IsVisit (FnOnceReturnsAtMut F.FnOnce call)
        (H.value handle.old) result (H.value handle.new) }
{
    let Some(value) = handle.value_mut() else {
        return Err(Reason::NotOpen);
    };
    call(value)
}

/// Returns an open handle, which takes over a value.
pub(crate) fn opened<H: AnyHandle>(boxed: Box<H::Value>) -> H
    ensures { H.value result ≡ Some boxed.value }
{
    H::from_nullable(NullableBox::of(boxed))
}

/// Returns a handle that holds nothing.
pub(crate) fn closed<H: AnyHandle>(alloc: Global) -> H
    ensures { H.value result ≡ None }
{
    H::from_nullable(NullableBox::null(alloc))
}

/// Gives the value of a handle back, if there is one.
pub(crate) fn into_box<H: AnyHandle>(handle: H) -> Option<Box<H::Value>>
    ensures { MatchOption result (H.value handle ≡ None)
        (λ boxed. H.value handle ≡ Some boxed.value) }
{
    handle.into_nullable().into_box()
}

/// Whether all handles are closed.
pub(crate) fn are_closed<H: AnyHandle>(handles: &mut [H]) -> bool
    ensures same { map H.value handles.new ≡ map H.value handles.old }
    ensures closed { IsTrue result → AreClosed (map H.value handles.old) }
    ensures open { AreClosed (map H.value handles.old) → IsTrue result }
{
    for i in 0..handles.len() {
        if !is_closed(&mut handles[i]) {
            return false;
        }
    }
    true
}

/// Whether a handle is closed.
pub(crate) fn is_closed<H: AnyHandle>(handle: &mut H) -> bool
    ensures same { H.value handle.new ≡ H.value handle.old }
    ensures closed { IsTrue result → H.value handle.old ≡ None }
    ensures open { H.value handle.old ≡ None → IsTrue result }
{
    let Some(_) = handle.value_mut() else {
        return true;
    };
    false
}
