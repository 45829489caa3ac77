//! The line of completed buffers: making one takes memory, alone or with its mutators.
use g1_book::open_line;
use g1_core::Config;
use g1_log::Line;
use std::sync::Wait;
use test_support::Failure;
use test_support::checks::{check, equal};
use test_support::failure::retried;

/// A refused line is made again: empty, with its senders and its takers.
pub(crate) fn new_line<R: Wait + Eprint + AllocGlobal>(rt: &R) -> Result<(), Failure> {
    let alloc = rt.alloc();
    let (line, senders, takers) = retried(rt, "Line::new", || Line::new(alloc, 4, 8, 12))?;
    let counts = (line.len(rt), senders.len(), takers.len());
    equal(
        rt,
        "a new line's buffers, senders and takers",
        counts,
        (0, 8, 12),
    )?;
    let settled = line.settle(rt, senders, takers);
    equal(rt, "what was put into a new line", settled.sent(), 0)
}

/// The same of a line with two mutators, whose logs are empty.
pub(crate) fn new_callers<R: Wait + Eprint + AllocGlobal>(rt: &R) -> Result<(), Failure> {
    let (alloc, config) = (rt.alloc(), Config::default());
    let (line, mutators, takers) = retried(rt, "open_line", || open_line(alloc, config, 2, 3))?;
    let counts = (line.len(rt), mutators.len(), takers.len());
    equal(
        rt,
        "a new line's buffers, mutators and takers",
        counts,
        (0, 2, 3),
    )?;
    let are_empty = mutators.iter().all(|mutator| mutator.log.is_empty());
    check(rt, are_empty, "a new mutator's log has a card")
}
