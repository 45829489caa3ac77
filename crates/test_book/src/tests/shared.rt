//! What callers of a shared book or core are answered, with memory enough.

use super::player::Do::{self, Call, Flush, Full, FullRound, Guard, Pause, Refine, Work};
use super::player::{Steps, played};
use super::{book, logs_of};
use g1_book::Book;
use g1_core::{Config, Core, Fill, Kind, Settings};
use std::test::Fail;
use test_support::Step::{
    self, Cleared, Drain, Members, Pending, Redirect, RefineNone, Status, Store, Target,
};
use test_support::numbers::small;
use test_support::{Failure, OnCore, are_entries, equal, play};

/// A caller reads what it has written.
#[test]
fn write_read_back(rt: HostRuntime) -> Result<(), Fail> {
    let book = book(rt.alloc(), Settings::default(), 1, 10)?;
    played(&rt, book, 1, WRITTEN)?;
    Ok(())
}

static WRITTEN: Steps<'static> = &[
    (0, Call(Store(0, 8, Kind::Logged, Fill::No))),
    (0, Call(Target(0, Some(8)))),
];

/// Steps that a shared book answers otherwise are wrong: or else the other tables would pass.
#[test]
fn steps_that_a_book_answers_otherwise_are_wrong(rt: HostRuntime) -> Result<(), Fail> {
    for steps in &OTHERWISE {
        let book = book(rt.alloc(), logs_of(1), 1, 10)?;
        let found = played(&rt, book, 1, steps).err();
        equal(&rt, "the steps", found, Some(Failure::Wrong))?;
    }
    Ok(())
}

// A card fills the log, and a round begins with five buffers.
const STORED: (usize, Do<'static>) = (0, Call(Store(0, 8, Kind::Logged, Fill::Full)));

static OTHERWISE: [Steps<'static>; 9] = [
    &[(0, Call(Store(0, 8, Kind::Logged, Fill::No)))],
    &[(0, Call(Target(0, Some(8))))],
    &[STORED, (0, Call(Drain(1, &[0], &[])))],
    &[(0, Flush(1, Fill::Full))],
    &[STORED, (0, Refine((1, &[0], 0, 0, 1)))],
    &[STORED, (0, Refine((1, &[], 0, 1, 0)))],
    &[STORED, (0, Work((1, &[0], 0, 0, 0)))],
    &[(0, Full(Target(0, None)))],
    &[(0, FullRound)],
];

/// A redirect moves the one reference into region 1 to the same offset of region 3.
#[test]
fn a_shared_redirect_moves_references(rt: HostRuntime) -> Result<(), Fail> {
    let book = book(rt.alloc(), Settings::default(), 1, 10)?;
    played(&rt, book, 1, MOVED)?;
    Ok(())
}

static MOVED: Steps<'static> = &[
    (0, Call(Store(0, 8, Kind::Logged, Fill::No))),
    (0, Call(Redirect(1, 3, 1, &[0]))),
    (0, Call(Target(0, Some(24)))),
];

/// A drain refines a card whose buffer stays in the line. The buffer of the next store of the card
/// comes after it: so the first refines the card, and the second skips it.
#[test]
fn stale_is_skipped(rt: HostRuntime) -> Result<(), Fail> {
    let book = book(rt.alloc(), logs_of(1), 1, 10)?;
    played(&rt, book, 1, STALE)?;
    Ok(())
}

static STALE: Steps<'static> = &[
    (0, Call(Store(0, 8, Kind::Logged, Fill::Full))),
    (0, Call(Drain(1, &[0], &[0]))),
    (0, Call(Store(0, 8, Kind::Logged, Fill::Full))),
    (0, Refine((1, &[0], 0, 0, 1))),
    (0, Refine((1, &[], 0, 1, 0))),
    (0, Refine((0, &[], 0, 0, 0))),
];

/// With five buffers in the line a round begins, and ends where one is left. Each buffer that it
/// takes is a call.
#[test]
fn shared_work(rt: HostRuntime) -> Result<(), Fail> {
    let book = played(&rt, book(rt.alloc(), logs_of(1), 1, 10)?, 1, WORKED)?;
    Ok(equal(&rt, "entries", book.entries().len(), 10)?)
}

static WORKED: Steps<'static> = &[
    (0, Call(Store(0, 24, Kind::Logged, Fill::Full))),
    (0, Call(Store(4, 24, Kind::Logged, Fill::Full))),
    (0, Call(Store(8, 24, Kind::Logged, Fill::Full))),
    (0, Call(Store(12, 24, Kind::Logged, Fill::Full))),
    (0, Call(Store(16, 24, Kind::Logged, Fill::Full))),
    (0, Work((4, &[0, 1, 2, 3], 0, 0, 1))),
    (0, Call(Status(1, 4))),
];

/// A shared book that is full refuses every call of every caller, and comes back with its entries.
#[test]
fn three_callers_fill_a_shared_book(rt: HostRuntime) -> Result<(), Fail> {
    let book = played(&rt, book(rt.alloc(), Settings::default(), 2, 3)?, 3, FILLED)?;
    Ok(are_entries(&rt, book.entries(), small()?, &FIRST)?)
}

static FIRST: [(u32, Step<'static>); 3] = [
    (0, Store(0, 8, Kind::Logged, Fill::No)),
    (1, Store(4, 8, Kind::Logged, Fill::No)),
    (2, RefineNone),
];

static FILLED: Steps<'static> = &[
    (0, Call(Store(0, 8, Kind::Logged, Fill::No))),
    (1, Call(Store(4, 8, Kind::Logged, Fill::No))),
    (2, Call(RefineNone)),
    (0, Full(Store(12, 0, Kind::Logged, Fill::No))),
    (1, Full(Store(12, 0, Kind::Logged, Fill::No))),
    (2, Full(RefineNone)),
    (0, Full(Target(0, None))),
    (1, Full(Pending(0, false))),
    (2, Full(Members(1, &[]))),
    (0, Full(Status(0, 0))),
    (1, Full(Drain(1, &[], &[]))),
    (2, Full(Cleared(1))),
    (0, Full(Redirect(1, 3, 0, &[]))),
    (0, Full(RefineNone)),
    (1, Full(RefineNone)),
];

/// Where the first call of a round is refused, that is the answer. Each refused call gives up the
/// buffer that it took, as the rounds between them see, which are too small to make a call. The
/// cards of the buffers stay pending.
#[test]
fn refused_calls_give_up_their_buffers(rt: HostRuntime) -> Result<(), Fail> {
    let book = played(&rt, book(rt.alloc(), logs_of(1), 1, 5)?, 1, GIVEN_UP)?;
    Ok(equal(&rt, "pending cards", book.core().status().pending, 5)?)
}

/// Without a history it is the same, and the next drain gives the cards.
#[test]
fn a_shared_core_stops_at_its_limit(rt: HostRuntime) -> Result<(), Fail> {
    let config = Config::of(logs_of(1)).ok_or(Failure::Wrong)?;
    let core = Core::new(rt.alloc(), small()?, config)?;
    let book = played(&rt, Book::over(rt.alloc(), core, 1, 5), 1, GIVEN_UP)?;
    let cards = [0, 1, 2, 3, 4];
    let mut core = OnCore::over(book.into_core());
    Ok(play(&rt, &mut core, &[Drain(3, &cards, &cards)])?)
}

static GIVEN_UP: Steps<'static> = &[
    (0, Call(Store(0, 24, Kind::Logged, Fill::Full))),
    (0, Call(Store(4, 24, Kind::Logged, Fill::Full))),
    (0, Call(Store(8, 24, Kind::Logged, Fill::Full))),
    (0, Call(Store(12, 24, Kind::Logged, Fill::Full))),
    (0, Call(Store(16, 24, Kind::Logged, Fill::Full))),
    (0, FullRound),
    (0, Work((0, &[], 0, 0, 4))),
    (0, Full(RefineNone)),
    (0, Work((0, &[], 0, 0, 3))),
];

/// Stores leave a card in each log and two buffers in the line. After a pause no card is there, and
/// all six are pending.
#[test]
fn a_pause_empties_the_logs_of_two_callers_and_the_line(rt: HostRuntime) -> Result<(), Fail> {
    let book = book(rt.alloc(), logs_of(2), 2, 20)?;
    played(&rt, book, 2, PAUSED)?;
    Ok(())
}

static PAUSED: Steps<'static> = &[
    (0, Call(Store(0, 24, Kind::Logged, Fill::No))),
    (0, Call(Store(4, 24, Kind::Logged, Fill::Full))),
    (0, Call(Store(8, 24, Kind::Logged, Fill::No))),
    (1, Call(Store(12, 24, Kind::Logged, Fill::No))),
    (1, Call(Store(16, 24, Kind::Logged, Fill::Full))),
    (1, Call(Store(20, 24, Kind::Logged, Fill::No))),
    (0, Pause),
    (0, Work((0, &[], 0, 0, 0))),
    (0, Flush(0, Fill::No)),
    (1, Flush(0, Fill::No)),
    (1, Call(Status(6, 0))),
];

/// Who holds the lock makes the calls of the book.
#[test]
fn the_guard_makes_the_calls_of_the_book(rt: HostRuntime) -> Result<(), Fail> {
    let book = played(&rt, book(rt.alloc(), logs_of(1), 1, 10)?, 1, HELD)?;
    Ok(equal(&rt, "entries", book.entries().len(), 4)?)
}

static HELD: Steps<'static> = &[(0, Guard)];
