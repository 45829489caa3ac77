//! The remembered-set machinery of a heap in regions, for one thread: all that lies between a
//! reference store and the remembered sets that an evacuation pause scans
//! (docs/internals/architecture.md).
//!
//! A card passes through these modules, one for each step. [`barrier`] marks a card dirty and logs
//! it, [`refinement`] gives the cards of a completed buffer their turns, and [`pause`] refines what
//! is left before a remembered set is relied on. [`clearing`] empties a set, and [`redirection`]
//! moves the references into a region as well. [`queries`] has the questions. [`adoption`] makes a
//! core of a table that exists already. [`config`] has the settings, [`reply`] and [`list`] what
//! calls return. The items of the crates below that a caller of a core names are exported here too.
//!
//! Every call is a step of the plain table (`specs/Table.antt`, `specs/Run.antt`). [`laws`] says
//! what follows: no card that refers into another region is forgotten, and what a drain returns is
//! exact.
#![tactic(auto)]

pub mod adoption;
pub mod barrier;
pub mod clearing;
pub mod config;
pub mod copy;
pub mod entry;
mod heap_and_sets;
pub mod laws;
pub mod list;
pub mod machinery;
pub mod pause;
pub mod queries;
pub mod redirection;
pub mod refinement;
pub mod reply;
pub mod verify;

pub use config::{Config, Limits, Settings};
pub use entry::{Call, Entry, Reply};
pub use g1_layout::{Card, Kind, Layout, NoMemory, Region, Slot};
pub use g1_log::{Buffer, Log};
pub use list::CardList;
pub use machinery::Core;
pub use reply::{ClearReply, Drained, Fill, Redirected, RefineReply, Status, StoreReply};
