//! A desk that shares nothing, and its workers.
//!
//! What has to be dropped where a `?` returns makes a function costly to prove: so what is opened,
//! what is made at a desk and what is compared are functions of their own.
ghost use Rattle.std.specs.Prelude.{◌≡◌, ◌<◌, true, All, IfOk, nat_lt};
ghost use Rattle.g1_layout.specs.Shape.{slot_count};
ghost use Rattle.g1_log.specs.Ends.{IsSenderOf, IsTakerOf};
ghost use Rattle.g1_history.specs.History.{layout_in};
ghost use Rattle.g1_steps.specs.Ask.{StepFits};

use super::{book, logs_of};
use g1_book::{
    Book, Desk, LentBook, LocalDesk, Mutator, Outcome, Refusal, Step, mutate, open_line, refiner,
};
use g1_core::{Config, Fill, Kind, Settings};
use g1_layout::{Layout, Slot};
use g1_log::{Line, Taker};
use std::alloc::Global;
use std::sync::Wait;
use std::test::Fail;
use test_support::numbers::slot;
use test_support::{Failure, equal};

/// A line, and the mutator and the taker of its one caller.
fn ends(alloc: Global, config: Config) -> Result<(Line, Mutator, Taker), Failure>
    ensures sender { IfOk result (λ made. IsSenderOf made.0 made.1.sender) }
    ensures taker { IfOk result (λ made. IsTakerOf made.0 made.2) }
{
    let (line, mutators, takers) = open_line(alloc, config, 1, 1)?;
    let mutator = mutators.into_iter().next().ok_or(Failure::Wrong)?;
    let taker = takers.into_iter().next().ok_or(Failure::Wrong)?;
    Ok((line, mutator, taker))
}

/// The desk of caller 0 at the book, whose rounds begin at `start` completed buffers.
fn desk_at<'a, R>(
    rt: &'a R,
    line: &'a Line,
    mutator: Mutator,
    taker: Taker,
    book: &'a mut Book,
    start: usize,
) -> LocalDesk<'a, R, LentBook<'a>>
    requires sender { IsSenderOf line.now mutator.sender }
    requires taker { IsTakerOf line.now taker }
    requires mutators { book.old.mutators ≡ 1 }
    ensures may { nat_lt result.calls.caller result.calls.book.now.mutators ≡ true }
    ensures layout { layout_in result.calls.book.now ≡ layout_in book.old }
{
    LocalDesk::new(rt, line, mutator, taker, LentBook::new(book, 0), start)
}

/// A store, a flush and a round.
fn one_of_each<D: Desk>(rt: &impl Eprint, desk: &mut D, from: Slot, to: Slot) -> Result<(), Failure>
    requires mutator { D.may_store desk.old ≡ true }
    requires slots { (from < D.slots desk.old) × (to < D.slots desk.old) }
{
    let kind = desk.store(from, Some(to))?.kind;
    let flushed = desk.flush()?.fill;
    let round = desk.work()?;
    let is = (kind, flushed, round.taken, round.left);
    equal(
        rt,
        "what a desk answers",
        is,
        (Kind::Logged, Fill::Full, 0, 1),
    )
}

fn at_a_desk<R: Wait + Eprint>(rt: &R, alloc: Global, book: &mut Book) -> Result<(), Failure>
    requires { book.old.mutators ≡ 1 }
{
    let (layout, config) = (book.layout(), book.config());
    let from = slot(layout, 0)?;
    let to = slot(layout, 8)?;
    let (line, mutator, taker) = ends(alloc, config)?;
    let mut desk = desk_at(rt, &line, mutator, taker, book, config.start());
    one_of_each(rt, &mut desk, from, to)
}

/// A store, a flush and a round at the desk of caller 0, with the settings where nobody chooses
/// otherwise: the flushed card is one buffer, which begins no round and is left.
#[test]
fn a_local_desk_stores_flushes_and_works(rt: HostRuntime) -> Result<(), Fail> {
    let mut book = book(rt.alloc(), Settings::default(), 1, 10)?;
    Ok(at_a_desk(&rt, rt.alloc(), &mut book)?)
}

/// Stores of references to slot 24 into the first slots of five cards.
fn five_stores(alloc: Global, layout: Layout) -> Result<Vec<Step>, Failure>
    ensures { IfOk result (λ steps. All (StepFits (slot_count layout) true) steps.items) }
{
    let to = Some(slot(layout, 24)?);
    let (first, second) = (slot(layout, 0)?, slot(layout, 4)?);
    let (third, fourth) = (slot(layout, 8)?, slot(layout, 12)?);
    let fifth = slot(layout, 16)?;
    Ok(vec![in alloc;
        Step::Store(first, to),
        Step::Store(second, to),
        Step::Store(third, to),
        Step::Store(fourth, to),
        Step::Store(fifth, to),
    ]?)
}

/// Makes the stores at a desk of caller 0, and then three rounds.
fn worked<R: Wait>(
    rt: &R,
    alloc: Global,
    book: &mut Book,
    steps: &[Step],
) -> Result<(Outcome, Outcome), Failure>
    requires mutators { book.old.mutators ≡ 1 }
    requires steps { All (StepFits (slot_count (layout_in book.old)) true) steps.now }
{
    let config = book.config();
    let (line, mutator, taker) = ends(alloc, config)?;
    let mut desk = desk_at(rt, &line, mutator, taker, book, config.start());
    let made = mutate(&mut desk, steps);
    Ok((made, refiner(&mut desk, 3)))
}

/// How the five stores, each of which completes a buffer, and the rounds after them end at a new
/// book, and how many entries there are then.
fn ended<R: Wait>(
    rt: &R,
    alloc: Global,
    history: usize,
) -> Result<(Outcome, Outcome, usize), Failure> {
    let mut book = book(alloc, logs_of(1), 1, history)?;
    let steps = five_stores(alloc, book.layout())?;
    let (made, rounds) = worked(rt, alloc, &mut book, steps.as_slice())?;
    Ok((made, rounds, book.entries().len()))
}

/// A book with room for one entry refuses its second call. Five buffers of one card begin a round
/// of four calls, and leave one. A book that is full at the first of them ends the rounds, and at a
/// later one only that round.
#[test]
fn a_full_book_ends_a_round(rt: HostRuntime) -> Result<(), Fail> {
    let full = Refusal::BookFull;
    for (history, made, rounds, entries) in [
        (1, Err((1, full)), Ok(3), 1),
        (3, Err((3, full)), Ok(3), 3),
        (5, Ok(5), Err((0, full)), 5),
        (7, Ok(5), Ok(3), 7),
        (20, Ok(5), Ok(3), 9),
    ] {
        let is = ended(&rt, rt.alloc(), history)?;
        equal(&rt, "the ends", is, (made, rounds, entries))?;
    }
    Ok(())
}
