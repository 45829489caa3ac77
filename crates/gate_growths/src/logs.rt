//! The completed buffers of one thread: adding one takes memory.
use g1_log::{Done, Why};
use test_support::Failure;
use test_support::checks::{equal, numbered};
use test_support::failure::refused;
use test_support::numbers::buffer;

// How many buffers: more than the first growth makes room for.
const LIMIT: u32 = 40;

/// Buffers up to the limit, and one past it; then all leave in their order. A refused one comes
/// back and is added again.
pub(crate) fn completed<R: Eprint + AllocGlobal>(rt: &R) -> Result<(), Failure> {
    let mut done = Done::new(rt.alloc(), LIMIT as usize);
    for turn in 0..LIMIT {
        add(rt, &mut done, turn)?;
    }
    let Err((back, why)) = done.add(buffer(&[7, 0, 7])?) else {
        return Err(Failure::Wrong);
    };
    equal(rt, "why a buffer past the limit came back", why, Why::Full)?;
    numbered(rt, "the buffer that came back", back.cards(), &[7, 0, 7])?;
    for turn in 0..LIMIT {
        let oldest = done.take_oldest().ok_or(Failure::Wrong)?;
        numbered(rt, "the oldest buffer", oldest.cards(), &[turn, 7])?;
    }
    equal(rt, "how many buffers are left", done.len(), 0)
}

// Adds a turn's buffer. A refusal hands it back and leaves the others.
fn add(rt: &impl Eprint, done: &mut Done, turn: u32) -> Result<(), Failure> {
    let Err((back, why)) = done.add(buffer(&[turn, 7])?) else {
        return Ok(());
    };
    refused(rt, "Done::add");
    equal(rt, "why a buffer came back", why, Why::NoMemory)?;
    numbered(rt, "the buffer that came back", back.cards(), &[turn, 7])?;
    equal(rt, "how many buffers there are", done.len(), turn as usize)?;
    if let Some(oldest) = done.oldest() {
        numbered(rt, "the oldest buffer", oldest.cards(), &[0, 7])?;
    }
    done.add(back).map_err(|_| Failure::NoMemory)
}
