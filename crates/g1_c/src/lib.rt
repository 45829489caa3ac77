//! The machinery of a heap as a static library: calls on a handle that C keeps, with words and the
//! caller's own arrays. `include/g1.h` describes each call; here its clauses say it exactly.
//!
//! Here is what C sees and nothing else: the exported functions, each with what it promises, and
//! the structs that they fill. The handles and the work of each call are in the crate `g1_handles`,
//! in the file of the same room and name.
//!
//! A crate of its own for the gate: each check of a static library links all crates below it.
//!
//! The rooms:
//!
//! - [`one_core`] has the calls on a core, for one thread at a time.
//! - [`heap`] has the collector's calls on a heap whose stores race.
//! - [`party`] has the calls of a racer, a sweeper or a reader.
//!
//! A call returns a word below 8 if it was made, and else the word of a
//! [`Reason`](g1_handles::code::Reason). Only `g1_heap_drain` has done something where it returns
//! 16, and only `g1_clear` may have counted reads where it returns 19 or 20.
//!
//! Each function cites a record of `specs` for that: `IsMadeOrRefused` and `IsTold` (`Calls.antt`),
//! of what a kind of handle holds as `OnCore` or `ToldByHeap` (`Rooms.antt`), or `IsListed` or
//! `IsCleared` (`Sets.antt`). `Storing.antt` and `Cores.antt` say by the word what a call did.
//!
//! What only the caller can know is left to the caller: that a handle is zeros or was opened here,
//! that one call at a time uses it, and that arrays have the lengths that are passed and overlap
//! nothing else.
#![tactic(auto)]

mod calling;
pub mod heap;
pub mod one_core;
pub mod party;
mod tell;
