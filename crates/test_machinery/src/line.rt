//! The line by one thread.
ghost use Rattle.g1_log.specs.Ends.{IsSenderOf, IsTakerOf, IsSameSender, IsSameTaker};

use g1_log::{Buffer, Line, Parcel, Sender, Settled, Taker};
use std::sync::Wait;
use std::test::Fail;
use test_support::Failure;
use test_support::checks::{check, equal};
use test_support::numbers::buffer;

// The first card, or a number that no card has.
fn first_card(buffer: &Buffer) -> u32 {
    match buffer.cards().first() {
        Some(card) => card.number(),
        None => u32::MAX,
    }
}

/// Puts the buffer of this card. Where that does not succeed, returns the card of the buffer that
/// comes back.
pub(crate) fn put<R: Wait>(
    rt: &R,
    line: &Line,
    sender: &mut Sender,
    card: u32,
) -> Result<Option<u32>, Failure>
    requires { IsSenderOf line.now sender.old }
    ensures { IsSameSender sender.new sender.old }
{
    match line.put(rt, sender, buffer(&[card])?) {
        Ok(()) => Ok(None),
        Err(back) => Ok(Some(first_card(&back))),
    }
}

/// The sender, the number and the card of a parcel.
pub(crate) type Label = (u32, u64, u32);

/// What a parcel has.
pub(crate) fn read(parcel: Option<Parcel>) -> Option<Label> {
    let parcel = parcel?;
    Some((parcel.sender, parcel.number, first_card(&parcel.buffer)))
}

/// Takes a parcel.
pub(crate) fn take<R: Wait>(rt: &R, line: &Line, taker: &mut Taker) -> Option<Label>
    requires { IsTakerOf line.now taker.old }
    ensures { IsSameTaker taker.new taker.old }
{
    read(line.take(rt, taker))
}

// How many buffers were put, how many were taken, and how many are left.
fn counts(settled: &Settled) -> (u64, u64, u64) {
    (settled.sent(), settled.taken(), settled.left())
}

#[test]
fn one_sender_and_one_taker(rt: HostRuntime) -> Result<(), Fail> {
    let (line, mut senders, mut takers) = Line::new(rt.alloc(), 2, 1, 1)?;
    put_and_take(&rt, &line, &mut senders[0], &mut takers[0])?;
    let settled = line.settle(&rt, senders, takers);
    Ok(equal(&rt, "sent, taken, left", counts(&settled), (3, 3, 0))?)
}

// Fills an empty line of two buffers, takes one so that one more goes in, and takes the others.
fn put_and_take<R: Eprint + Wait>(
    rt: &R,
    line: &Line,
    sender: &mut Sender,
    taker: &mut Taker,
) -> Result<(), Failure>
    requires { IsSenderOf line.now sender.old × IsTakerOf line.now taker.old }
    ensures sender { IsSameSender sender.new sender.old }
    ensures taker { IsSameTaker taker.new taker.old }
{
    check(rt, line.is_empty_for(taker), "an empty line")?;
    equal(rt, "a put", put(rt, line, sender, 10)?, None)?;
    check(rt, !line.is_empty_for(taker), "a line with a buffer")?;
    equal(rt, "a put", put(rt, line, sender, 11)?, None)?;
    equal(rt, "a put", put(rt, line, sender, 12)?, Some(12))?;
    equal(rt, "a take", take(rt, line, taker), Some((0, 0, 10)))?;
    equal(rt, "a put", put(rt, line, sender, 12)?, None)?;
    equal(rt, "the length", line.len(rt), 2)?;
    equal(rt, "a take", take(rt, line, taker), Some((0, 1, 11)))?;
    equal(rt, "a take", take(rt, line, taker), Some((0, 2, 12)))?;
    equal(rt, "a take", take(rt, line, taker), None)
}

#[test]
fn two_senders_and_one_taker(rt: HostRuntime) -> Result<(), Fail> {
    let (line, mut senders, mut takers) = Line::new(rt.alloc(), 2, 2, 1)?;
    equal(&rt, "a put", put(&rt, &line, &mut senders[0], 20)?, None)?;
    equal(&rt, "a put", put(&rt, &line, &mut senders[1], 21)?, None)?;
    let label = take(&rt, &line, &mut takers[0]);
    equal(&rt, "a take", label, Some((0, 0, 20)))?;
    let mut settled = line.settle(&rt, senders, takers);
    equal(&rt, "sent, taken, left", counts(&settled), (2, 1, 1))?;
    equal(
        &rt,
        "what is left",
        read(settled.next(&rt)),
        Some((1, 0, 21)),
    )?;
    Ok(equal(&rt, "what is left", read(settled.next(&rt)), None)?)
}
