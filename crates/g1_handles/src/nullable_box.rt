//! A box behind a pointer that may be null: what each handle has in its words.
ghost use Rattle.std.specs.Prelude.{◌≡◌};
ghost use Rattle.g1_handles.specs.Prelude.{Option, Some, None, MatchOption};

use std::alloc::Global;
use std::marker::Model;
use std::ptr::null_mut;

/// A value behind a pointer, or nothing if the pointer is null.
///
/// It owns what a box owns: the value, and the right to free its block. Contracts see the value, or
/// `None` at null. Dropping it frees nothing. A handle is a struct of the same words, since an
/// exported function takes no type with parameters.
pub struct NullableBox<T> {
    pub(crate) at: *mut T,
    pub(crate) alloc: Global,
    pub ghost value: { Option T },
}

impl<T> Model for NullableBox<T> {
    ghost use Rattle.g1_handles.specs.Own.{holds};

    ghost also_owns = { λ b. holds T.row b.alloc b.at b.value };
}

impl<T: Drop> NullableBox<T> {
    /// Takes over the value of a box.
    pub(crate) fn of(boxed: Box<T>) -> NullableBox<T>
        ensures { result.value ≡ Some boxed.value }
    {
        let (at, alloc) = Box::into_raw_with_allocator(boxed);
        NullableBox { at, alloc }
    }

    /// Nothing.
    pub(crate) fn null(alloc: Global) -> NullableBox<T>
        ensures { result.value ≡ None }
    {
        NullableBox {
            at: null_mut(),
            alloc,
        }
    }

    /// Makes the box again, if there is a value.
    pub(crate) fn into_box(self) -> Option<Box<T>>
        ensures { MatchOption result (self.value ≡ None) (λ boxed. self.value ≡ Some boxed.value) }
    {
        let NullableBox { at, alloc } = self;
        if at.is_null() {
            None
        } else {
            Some(unsafe { Box::from_raw(alloc, at) })
        }
    }
}
