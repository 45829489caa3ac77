//! The words of a card that refer into a region.

ghost use Rattle.std.specs.Prelude.{◌+◌, ◌<◌, ◌≤◌};
ghost use Rattle.g1_heap.specs.{ℕ, length, slice_index};

use crate::null::{GROUP, NULL, has_reference};

// The index of the first word from one index on that is one of `size` numbers from `low` on, or how
// many words there are. It skips groups of null words.
#[inline(always)]
pub(crate) fn first_between(row: &[u32], from: usize, low: u32, size: u32) -> usize
    requires range { from ≤ length row.now }
    requires places { low + size ≤ NULL }
    ensures range { (from ≤ result) × (result ≤ length row.now) }
    ensures before { (k : ℕ) → from ≤ k → k < result → low ≤ slice_index row.now k
        → slice_index row.now k < low + size → ⊥ }
    ensures found { result < length row.now
        → (low ≤ slice_index row.now result) × (slice_index row.now result < low + size) }
{
    let mut at = from;
    while at < row.len() {
        if row[at].wrapping_sub(low) < size {
            return at;
        } else if at % GROUP == 0
            && row.len() - at >= GROUP
            && !has_reference(&row[at..at + GROUP])
        {
            at += GROUP;
        } else {
            at += 1;
        }
    }
    at
}
