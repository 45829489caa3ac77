//! A pause of two callers of a lent book.
ghost use Rattle.std.specs.Prelude.{All, IfOk};
ghost use Rattle.g1_log.specs.Ends.{IsSenderOf, IsTakerOf};

use super::{book, logs_of};
use g1_book::{Book, LentBook, Mutator, empty_line};
use g1_core::Fill;
use g1_log::{Line, Log, Sender, Taker};
use std::alloc::Global;
use std::sync::Wait;
use std::test::Fail;
use test_support::Step::Drain;
use test_support::numbers::slot;
use test_support::{Failure, OnBook, equal, play};

/// Stores a reference to slot 24 as the caller of this number, and checks what becomes of its log.
fn store_by<R: Wait + Eprint>(
    rt: &R,
    book: &mut Book,
    line: &Line,
    mutator: &mut Mutator,
    number: u32,
    from: u32,
    fill: Fill,
) -> Result<(), Failure>
    requires { IsSenderOf line.now mutator.old.sender }
    ensures { IsSenderOf line.now mutator.new.sender }
{
    if number >= book.mutators() {
        return Err(Failure::Wrong);
    }
    let from = slot(book.layout(), from)?;
    let to = slot(book.layout(), 24)?;
    let mut calls = LentBook::new(book, number);
    let reply = mutator.store(rt, line, &mut calls, from, Some(to))?;
    equal(rt, "a store", reply.fill, fill)
}

/// Three stores into the slots from the first on: the caller puts a buffer into the line, and keeps
/// a card.
fn store_three<R: Wait + Eprint>(
    rt: &R,
    book: &mut Book,
    line: &Line,
    mutator: &mut Mutator,
    number: u32,
) -> Result<(), Failure>
    requires { IsSenderOf line.now mutator.old.sender }
    ensures { IsSenderOf line.now mutator.new.sender }
{
    let first = number % 2 * 12;
    store_by(rt, book, line, mutator, number, first, Fill::No)?;
    store_by(rt, book, line, mutator, number, first + 4, Fill::Full)?;
    store_by(rt, book, line, mutator, number, first + 8, Fill::No)
}

/// A mutator with an empty log that two cards fill, and with one of the senders.
fn mutator_of(line: &Line, senders: &mut Vec<Sender>) -> Result<Mutator, Failure>
    requires { All (IsSenderOf line.now) senders.old.items }
    ensures senders { All (IsSenderOf line.now) senders.new.items }
    ensures sender { IfOk result (λ mutator. IsSenderOf line.now mutator.sender) }
{
    let _line = line;
    let sender = senders.pop().ok_or(Failure::Wrong)?;
    Ok(Mutator::new(Log::new(2), sender))
}

/// Three stores by each of two callers.
fn store_six<R: Wait + Eprint>(
    rt: &R,
    book: &mut Book,
    line: &Line,
    first: &mut Mutator,
    second: &mut Mutator,
) -> Result<(), Failure>
    requires first { IsSenderOf line.now first.old.sender }
    requires second { IsSenderOf line.now second.old.sender }
{
    store_three(rt, book, line, first, 0)?;
    store_three(rt, book, line, second, 1)?;
    equal(rt, "buffers in the line", line.len(rt), 2)
}

/// A pause by a caller: its log, and the line by its taker.
fn pause_by<R: Wait>(rt: &R, line: &Line, mutator: &mut Mutator, taker: &mut Taker)
    requires { IsTakerOf line.now taker.old }
{
    mutator.stop();
    empty_line(rt, line, taker);
}

/// Stores by both callers, and a pause by each. That of the first empties the line.
fn two_pauses<R: Wait + Eprint>(rt: &R, alloc: Global, book: &mut Book) -> Result<(), Failure> {
    let (line, mut senders, mut takers) = Line::new(alloc, 4, 2, 2)?;
    let mut first = mutator_of(&line, &mut senders)?;
    let mut second = mutator_of(&line, &mut senders)?;
    store_six(rt, book, &line, &mut first, &mut second)?;
    pause_by(rt, &line, &mut first, &mut takers[0]);
    let left = line.len(rt);
    pause_by(rt, &line, &mut second, &mut takers[1]);
    let empty = first.log.is_empty() && second.log.is_empty();
    equal(
        rt,
        "what pauses left",
        (left, line.len(rt), empty),
        (0, 0, true),
    )
}

/// A pause makes no entry, and a drain then finds each card by its mark.
#[test]
fn a_pause_of_each_caller_empties_logs_and_line(rt: HostRuntime) -> Result<(), Fail> {
    let mut book = book(rt.alloc(), logs_of(2), 2, 20)?;
    two_pauses(&rt, rt.alloc(), &mut book)?;
    equal(&rt, "entries", book.entries().len(), 6)?;
    let cards = [0, 1, 2, 3, 4, 5];
    Ok(play(&rt, &mut OnBook::over(book), &[Drain(3, &cards, &cards)])?)
}
