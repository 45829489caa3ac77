//! The core and the book: making them, each call that takes memory, and the entry of each call.
ghost use Rattle.std.specs.Prelude.{◌≡◌, [], IfOk};

use crate::outcome::told;
use g1_book::Book;
use g1_core::{Config, Fill, Kind, Settings};
use test_support::Failure;
use test_support::failure::retried;
use test_support::numbers::small;
use test_support::players::{OnBook, OnCore};
use test_support::step::Step::{
    self, Cleared, Drain, Logged, Members, Pending, Redirect, Refine, See, Status, Store, Target,
};
use test_support::steps::play;

/// Steps on a new core, whose cards are hot after `hot` refinements, with a ring of `ring` cards.
struct OnCores {
    name: &'static str,
    hot: u32,
    ring: usize,
    steps: &'static [Step<'static>],
}

// Cards 0, 1 and 2 hold into regions 3, 2 and 3.
pub(crate) const REFERENCES: [(u32, u32); 3] = [(0, 24), (4, 16), (8, 24)];

static CORES: [OnCores; 7] = [
    // A new core refers nowhere, and nothing is pending or recorded.
    OnCores {
        name: "a core",
        hot: 4,
        ring: 4,
        steps: &[See(&[], &[], 0), Drain(0, &[], &[])],
    },
    // A card whose record is refused is not counted and stays dirty, and so do those behind it.
    OnCores {
        name: "a refinement",
        hot: 1,
        ring: 4,
        steps: &[
            Logged(&REFERENCES),
            Refine(&[0, 1, 2], &[0, 1, 2], 0, 0),
            See(&REFERENCES, &[], 3),
            Drain(0, &[], &[]),
            Drain(1, &[], &[]),
            Drain(2, &[1], &[]),
            Drain(3, &[0, 2], &[]),
        ],
    },
    // Every card is hot, and the ring holds one: each card pushes out the one before. Where that
    // one's record is refused, the card does not enter the ring.
    OnCores {
        name: "a refinement of hot cards",
        hot: 0,
        ring: 1,
        steps: &[
            Logged(&REFERENCES),
            Refine(&[0, 1, 2], &[0, 1], 3, 0),
            See(&REFERENCES, &[2], 2),
            Drain(3, &[0, 2], &[2]),
            Drain(2, &[1], &[]),
        ],
    },
    // The dirty cards have their turns in ascending order. A refused list changes nothing.
    OnCores {
        name: "a drain",
        hot: 4,
        ring: 4,
        steps: &[
            Logged(&REFERENCES),
            Drain(3, &[0, 2], &[0, 1, 2]),
            Members(3, &[0, 2]),
            See(&REFERENCES, &[], 3),
            Drain(0, &[], &[]),
            Drain(1, &[], &[]),
            Drain(2, &[1], &[]),
        ],
    },
    // The ring's cards come first, the oldest before the others.
    OnCores {
        name: "a drain of the ring",
        hot: 0,
        ring: 4,
        steps: &[
            Logged(&REFERENCES),
            Refine(&[2, 0], &[], 2, 0),
            Drain(3, &[0, 2], &[2, 0, 1]),
            Drain(2, &[1], &[]),
        ],
    },
    // Cards that were refined once are hot the next time, until a whole drain sets the counts to 0.
    OnCores {
        name: "the counts of a drain",
        hot: 1,
        ring: 4,
        steps: &[
            Logged(&REFERENCES),
            Refine(&[0, 1, 2], &[0, 1, 2], 0, 0),
            Logged(&[(1, 8), (5, 24), (9, 0)]),
            Refine(&[0], &[], 1, 0),
            Drain(1, &[0], &[0, 1, 2]),
            Logged(&[(2, 16)]),
            Refine(&[0], &[0], 0, 0),
            Drain(0, &[2], &[]),
            Drain(2, &[0, 1], &[]),
            Drain(3, &[0, 1, 2], &[]),
        ],
    },
    // A short redirect has refined the cards that it lists, and moved nothing. Card 7 lies in the
    // region that the references are moved to, and slot 12 in the one that they leave.
    OnCores {
        name: "a redirect",
        hot: 4,
        ring: 4,
        steps: &[
            Logged(&[(0, 9), (4, 8), (21, 15), (28, 10)]),
            Store(12, 9, Kind::SameRegion, Fill::No),
            Redirect(1, 3, 4, &[0, 1, 5, 7]),
            See(&[(0, 25), (4, 24), (12, 9), (21, 31), (28, 26)], &[], 3),
            Drain(1, &[], &[]),
            Drain(3, &[0, 1, 5], &[]),
        ],
    },
];

// Cards 0, 1, 2 and 7 hold into regions 3, 2, 3 and 0. Their stores are as many entries as a
// history has room for at first, so that the call behind them makes it grow.
const FOUR: [(u32, u32); 4] = [(0, 24), (4, 16), (8, 24), (31, 0)];

const CARDS: &[u32] = &[0, 1, 2, 7];

// Steps on a new book.
static BOOKS: [(&str, &[Step<'static>]); 9] = [
    (
        "a book",
        &[Status(0, 0), Drain(0, &[], &[]), See(&[], &[], 0)],
    ),
    (
        "the entries of stores",
        &[Logged(&FOUR), Logged(&[(16, 8)])],
    ),
    (
        "a refinement of a book",
        &[
            Logged(&FOUR),
            Refine(CARDS, CARDS, 0, 0),
            Drain(0, &[7], &[]),
            Drain(1, &[], &[]),
            Drain(2, &[1], &[]),
            Drain(3, &[0, 2], &[]),
            See(&FOUR, &[], 4),
        ],
    ),
    ("a slot of a book", &[Logged(&FOUR), Target(4, Some(16))]),
    ("a card of a book", &[Logged(&FOUR), Pending(2, true)]),
    ("the status of a book", &[Logged(&FOUR), Status(4, 0)]),
    (
        "a drain of a book",
        &[
            Logged(&FOUR),
            Drain(3, &[0, 2], CARDS),
            Members(3, &[0, 2]),
            Drain(0, &[7], &[]),
            Drain(1, &[], &[]),
            Drain(2, &[1], &[]),
            See(&FOUR, &[], 4),
        ],
    ),
    // The set of a region that nothing refers into. The clear is the ninth entry.
    (
        "a clear of a book",
        &[
            Logged(&FOUR),
            Refine(CARDS, CARDS, 0, 0),
            Status(0, 4),
            Status(0, 4),
            Status(0, 4),
            Cleared(1),
            See(&FOUR, &[], 4),
        ],
    ),
    // The set of region 2 has the cards of the references that move to it.
    (
        "a redirect of a book",
        &[
            Logged(&FOUR),
            Redirect(3, 2, 2, CARDS),
            See(&[(0, 16), (4, 16), (8, 16), (31, 0)], &[], 4),
            Drain(3, &[], &[]),
            Drain(2, &[0, 1, 2], &[]),
        ],
    ),
];

pub(crate) fn play_all<R: Print + Eprint + AllocGlobal>(rt: &R) -> Result<(), Failure> {
    for on in &CORES {
        told(rt, on.name, on_core(rt, on))?;
    }
    for (name, steps) in BOOKS {
        told(rt, name, on_book(rt, steps))?;
    }
    Ok(())
}

fn on_core<R: Eprint + AllocGlobal>(rt: &R, on: &OnCores) -> Result<(), Failure> {
    let mut core = new_core(rt, on.hot, on.ring)?;
    play(rt, &mut core, on.steps)
}

/// A core whose cards are hot after `hot` refinements, with a ring of `ring` cards.
pub(crate) fn new_core<R: Eprint + AllocGlobal>(
    rt: &R,
    hot: u32,
    ring: usize,
) -> Result<OnCore, Failure> {
    let settings = Settings {
        hot,
        ring,
        ..Settings::default()
    };
    OnCore::new(rt, Config::of(settings).ok_or(Failure::Wrong)?)
}

fn on_book<R: Eprint + AllocGlobal>(rt: &R, steps: &[Step<'_>]) -> Result<(), Failure> {
    let mut book = OnBook::over(new_book(rt)?);
    play(rt, &mut book, steps)
}

/// An empty book of one mutator.
pub(crate) fn new_book<R: Eprint + AllocGlobal>(rt: &R) -> Result<Book, Failure>
    ensures { IfOk result (λ book. (book.entries ≡ []) × (book.mutators ≡ 1)) }
{
    let (alloc, layout, config) = (rt.alloc(), small()?, Config::default());
    retried(
        rt,
        "Book::open",
        || Book::open(alloc, layout, config, 1, 1_000),
    )
}
