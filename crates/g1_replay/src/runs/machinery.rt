//! What the commands of a trace are played on.
ghost use Rattle.std.specs.Prelude.{◌≡◌, ◌≤◌};
ghost use Rattle.g1_replay.specs.Prelude.{vec_len, All, props, IsSenderOf, IsTakerOf};

use g1_history::Book;
use g1_log::{Line, Taker};
use g1_steps::Mutator;

/// A book, and its callers with the queue of their completed buffers: each of them is a mutator and
/// has a taker.
#[derive(Drop)]
pub(crate) struct Machinery {
    pub book: Book,
    pub line: Line,
    pub mutators: Vec<Mutator>,
    pub takers: Vec<Taker>,
    ghost of: { All (λ m. IsSenderOf line m.sender) mutators.items
        × All (IsTakerOf line) takers.items } by { Prim.hlevel props },
    ghost callers: { (1 ≤ vec_len takers) × (vec_len takers ≡ vec_len mutators) },
}
