//! Several threads read one pause.
ghost use Rattle.std.specs.Prelude.{◌≡◌, All, vec_len};
ghost use Rattle.g1_race.specs.Parties.{race_id};
ghost use Rattle.g1_race.specs.Reading.{IsReaderOf, reader_race};

use crate::races::steps::Step::{Refine, Store};
use crate::races::steps::{open, race_on};
use g1_layout::Kind::{AlreadyDirty, Logged};
use g1_race::{Race, Reader, Reading};
use std::process::Abort;
use std::test::Fail;
use std::thread::{self, Threads};
use test_support::numbers::{card, number_of, region, slot, small};
use test_support::{Failure, check, equal};

// Slot 0 refers to slot 8 and slot 1 to slot 16, both from card 0, which is refined; slot 31 refers
// to slot 8 from card 7, which is dirty.
fn look(rt: &impl Eprint, race: &Race, reader: &mut Reader) -> Result<(), Failure>
    requires { reader_race reader.old ≡ race_id race.now }
    ensures { reader.new ≡ reader.old }
{
    let layout = race.layout();
    let (first, last) = (card(layout, 0)?, card(layout, 7)?);
    let (into, other) = (region(layout, 1)?, region(layout, 3)?);
    let from = slot(layout, 31)?;
    equal(
        rt,
        "a target",
        number_of(reader.target(race, from)),
        Some(8),
    )?;
    equal(rt, "a word", reader.word(race, from), 9)?;
    check(
        rt,
        !reader.is_pending(race, first),
        "a card that was refined",
    )?;
    equal(
        rt,
        "the next dirty card",
        reader.next_dirty(race, 0),
        Some(last),
    )?;
    check(rt, reader.has(race, first, into), "a pair")?;
    check(rt, !reader.has(race, first, other), "no pair")?;
    equal(
        rt,
        "the next member",
        reader.next_member(race, into, 0),
        Some(first),
    )
}

// Each reader looks in a thread of its own.
fn all_look<R: Threads + Eprint + Abort + Sync>(
    rt: &R,
    reading: &Reading,
    readers: &mut Vec<Reader>,
)
    requires { All (IsReaderOf reading.now) readers.old.items }
    ensures all { All (IsReaderOf reading.now) readers.new.items }
    ensures len { vec_len readers.new ≡ vec_len readers.old }
{
    let race = reading.race();
    let look = |_: usize, reader: &mut Reader| {
        assert!(rt; look(rt, race, reader).is_ok());
    };
    thread::for_each_mut(rt, readers.as_mut_slice(), 3, &look);
}

#[test]
fn three_readers(rt: HostRuntime) -> Result<(), Fail> {
    let steps = [
        Store(0, 0, Some(8), Logged),
        Store(1, 1, Some(16), AlreadyDirty),
        Refine(0),
        Store(1, 31, Some(8), Logged),
    ];
    let paused = race_on(&rt, open(rt.alloc(), small()?)?, &steps)?;
    let count = paused.reader_limit();
    equal(&rt, "as many as racers and sweepers", count, 3)?;
    let mut readers = Vec::with_capacity(rt.alloc(), count)?;
    let reading = paused.read_by(&mut readers, count);
    all_look(&rt, &reading, &mut readers);
    let mut paused = reading.pause(&mut readers);
    let from = slot(paused.layout(), 31)?;
    Ok(equal(&rt, "a target", number_of(paused.target(from)), Some(8))?)
}
