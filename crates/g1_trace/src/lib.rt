//! The text of a trace: its grammar, from the bytes of a line to a command or a fault, and the
//! output line of every reply.
//!
//! Nothing here knows how a command is carried out.
#![tactic(auto)]

mod command;
mod dialect;
mod fault;
mod grammar;
mod header;
mod list;
mod mode;
mod output;
mod places;
mod plain;
mod print;
mod words;

pub use command::Command;
pub use dialect::Dialect;
pub use fault::TraceFault;
pub use grammar::{TRACES, read_command};
pub use header::read_header;
pub use list::put_cards;
pub use mode::Mode;
pub use output::{WriteFailed, put, put_either};
pub use plain::read_store;
pub use print::{
    put_book_full, put_clear_reply, put_fault, put_flushed, put_no_memory, put_no_thread,
    put_read_failed, put_redirected, put_refine_reply, put_status, put_store_reply, put_stores,
    put_target, put_work_reply,
};
