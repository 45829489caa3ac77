//! The output lines (docs/traces.md, Commands): a printing function for each reply.
//!
//! Each writes its line straight to the output, and takes no memory. It returns `WriteFailed` if a
//! write fails or takes no byte. A beginning of the line stays written.

pub mod ends;
pub mod pauses;
pub mod questions;
pub mod refinements;
pub mod stores;

pub use ends::{put_book_full, put_fault, put_no_memory, put_no_thread, put_read_failed};
pub use pauses::{put_clear_reply, put_redirected};
pub use questions::{put_status, put_target};
pub use refinements::{put_refine_reply, put_work_reply};
pub use stores::{put_flushed, put_store_reply, put_stores};
