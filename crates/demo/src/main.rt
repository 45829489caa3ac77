//! Three programs to learn from, which this one plays in turn.
//!
//! - [`one_thread`]: a core, by one thread.
//! - [`under_a_lock`]: a book that threads share under one lock.
//! - [`racing`]: mutators that race with refinement threads, lock-free.
//!
//! What they print is the same whatever the threads do.
#![tactic(auto)]

mod one_thread;
mod racing;
mod under_a_lock;

use anyhow::Result;

fn main(rt: HostRuntime) -> Result<()> {
    one_thread::play(&rt)?;
    under_a_lock::play(&rt)?;
    racing::play(&rt)
}
