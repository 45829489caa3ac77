//! The work of each call of the C library, and the handles that C keeps.
//!
//! The library keeps a table of a runtime's references, and the runtime reports each store; in a
//! heap whose stores race, that table may be the references themselves. Its rooms:
//!
//! - [`one_core`] is a core, for one thread at a time.
//! - [`heap`] is a heap whose stores race: how it begins, pauses, is read and ends, and the
//!   collector's calls at a pause.
//! - [`party`] is a racer, a sweeper or a reader of such a heap, with its calls.
//!
//! What serves them all: [`handles`] has the handles, [`any_handle`] says what they have in
//! common, and [`sent`] that each may go to another thread. A handle has the words of a box behind
//! a pointer that may be null (`nullable_box`). [`code`] has the codes that calls return, and
//! [`list`] writes lists of cards.
//!
//! A function `.._in` is a call on a core, `.._at` one on a heap at a pause, and `.._by` one of a
//! racer, a sweeper or a reader; [`any_handle::visit`] makes it on what a handle lends. A call over
//! several handles is one function. The crate `g1_c` exports each, in the file of the same room and
//! name, and writes the results where C asks for them.
//!
//! Before anything changes, a call checks each word and the length of each array that must have
//! room, and is refused if one of them is wrong or if a handle is closed. (The stores of a batch
//! are checked one by one, each before it is made. A set at a pause may be asked for with an array
//! of any length.) There is no text, no callback, no thread and no lock inside.
#![tactic(auto)]

pub mod any_handle;
pub mod code;
pub mod handles;
pub mod heap;
pub mod list;
mod nullable_box;
pub mod one_core;
pub mod party;
pub mod sent;
