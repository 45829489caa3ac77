//! How far a replay has come in its input, and what reads the commands there.
ghost use Rattle.std.specs.Prelude.{◌≡◌, ◌≤◌, ◌+◌, ◌*◌, ◌^◌};

use g1_layout::Layout;
use g1_trace::Dialect;

/// How many reads of the input are made at most (docs/traces.md, Ends).
pub const READ_LIMIT: u64 = 1 << 40;

/// How many of the bytes that one read shows are taken at most, so that lines have numbers enough.
pub const SHOWN_LIMIT: usize = 1 << 20;

/// How many reads were made, and the number of the next line, from 1.
#[derive(Drop)]
pub struct Source {
    /// How many reads were made. A line of bytes that were shown before takes none.
    pub reads: u64,
    /// The number of the next line.
    pub number: u64,
    pub ghost limited: { reads ≤ 2 ^ 40 },
    /// A line has a byte, and a read takes at most 2^20 bytes.
    pub ghost counted: { number ≤ 2 ^ 20 * reads + 1 },
}

impl Source {
    /// Nothing was read.
    pub fn start() -> Source
        ensures { result.number ≡ 1 }
    {
        Source {
            reads: 0,
            number: 1,
        }
    }
}

/// Reads the commands of a trace behind its header, and plays them.
#[derive(Drop)]
pub(crate) struct Commands<'a> {
    /// How far it has come.
    pub source: &'a mut Source,
    /// The heap of the header.
    pub layout: Layout,
    /// What its lines may ask for.
    pub dialect: Dialect,
}
