//! The word of a null slot, and how runs of null slots are found.

ghost use Rattle.std.specs.Prelude.{◌≡◌, ◌<◌};
ghost use Rattle.g1_heap.specs.{ℕ, false, length, slice_index};

use std::simd::prelude::*;

// The word of a null slot: no place has this number.
pub(crate) const NULL: u32 = u32::MAX;

// How many words are looked at together.
pub(crate) const GROUP: usize = 8;

// Whether a word of the group is not null, by one comparison of all of them.
#[inline(always)]
pub(crate) fn has_reference(group: &[u32]) -> bool
    requires { length group.now ≡ GROUP }
    ensures { result ≡ false → (k : ℕ) → k < GROUP → slice_index group.now k ≡ NULL }
{
    let nulls = u32x8::splat(NULL);
    u32x8::from_slice(group).simd_ne(nulls).to_bitmask() != 0
}
