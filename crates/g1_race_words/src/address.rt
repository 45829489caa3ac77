//! Where the words of an atomic table lie, for a reader that is not Rattle's.
ghost use Rattle.std.specs.Prelude.{◌≡◌};

use atomic_table::{Shared, TableRule};

/// The address of a table's first word. The others follow it, 8 bytes each.
///
/// The table owns them: whoever reads there does so by atomic loads of whole words, and only while
/// the table lasts. Constant time; takes no memory.
pub(crate) fn words_of<S, V, K, P: TableRule<S, V, K>>(shared: &Shared<S, V, K, P>) -> *const u64
    ensures { result ≡ shared.now.words }
{
    let cell = shared as *const Shared<S, V, K, P> as *const *const u64;
    unsafe { *cell }
}
