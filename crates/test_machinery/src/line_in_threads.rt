//! A line between threads.
ghost use Rattle.std.specs.Prelude.{◌≡◌};
ghost use Rattle.g1_log.specs.Ends.{IsSenderOf, IsTakerOf, sender_rights, taker_rights};

use crate::line::{Label, put, read, take};
use g1_log::{Line, Sender, Settled, Taker};
use std::alloc::Global;
use std::process::Abort;
use std::sync::Wait;
use std::test::Fail;
use std::thread;
use std::thread::Threads;
use test_support::checks::{check, equal};

// A sender, and the cards of the buffers that it put.
type Put = (Sender, Vec<u32>);

// A taker, and the labels of the parcels that it took.
type Took = (Taker, Vec<Label>);

// Puts up to a thousand buffers.
fn put_cards<R: Abort + Wait>(rt: &R, alloc: Global, line: &Line, mut sender: Sender) -> Put
    requires { IsSenderOf line.now sender }
    ensures { IsSenderOf line.now result.0 × (sender_rights result.0 ≡ sender_rights sender) }
{
    let mut cards = Vec::new(alloc);
    for card in 0..1000 {
        match put(rt, line, &mut sender, card) {
            Ok(None) => cards.push(card).expect(rt, "memory"),
            _ => thread::yield_now(),
        }
    }
    (sender, cards)
}

// Takes up to a thousand parcels.
fn take_labels<R: Abort + Wait>(rt: &R, alloc: Global, line: &Line, mut taker: Taker) -> Took
    requires { IsTakerOf line.now taker }
    ensures { IsTakerOf line.now result.0 × (taker_rights result.0 ≡ taker_rights taker) }
{
    let mut taken = Vec::new(alloc);
    for _ in 0..1000 {
        match take(rt, line, &mut taker) {
            Some(label) => taken.push(label).expect(rt, "memory"),
            None => thread::yield_now(),
        }
    }
    (taker, taken)
}

// Two senders put, each in a thread of its own.
fn put_both<R: Abort + Threads + Wait + Sync>(
    rt: &R,
    alloc: Global,
    line: &Line,
    first: Sender,
    second: Sender,
) -> (Put, Put)
    requires { IsSenderOf line.now first × IsSenderOf line.now second }
    ensures first { IsSenderOf line.now result.0.0
        × (sender_rights result.0.0 ≡ sender_rights first) }
    ensures second { IsSenderOf line.now result.1.0
        × (sender_rights result.1.0 ≡ sender_rights second) }
{
    thread::join(
        rt,
        move || -> Put
            requires { IsSenderOf line.now first }
            ensures { IsSenderOf line.entry.now result.0
                × (sender_rights result.0 ≡ sender_rights first) }
        { put_cards(rt, alloc, line, first) },
        move || -> Put
            requires { IsSenderOf line.now second }
            ensures { IsSenderOf line.entry.now result.0
                × (sender_rights result.0 ≡ sender_rights second) }
        { put_cards(rt, alloc, line, second) },
    )
}

// Two takers take, each in a thread of its own.
fn take_both<R: Abort + Threads + Wait + Sync>(
    rt: &R,
    alloc: Global,
    line: &Line,
    one: Taker,
    other: Taker,
) -> (Took, Took)
    requires { IsTakerOf line.now one × IsTakerOf line.now other }
    ensures first { IsTakerOf line.now result.0.0 × (taker_rights result.0.0 ≡ taker_rights one) }
    ensures second { IsTakerOf line.now result.1.0
        × (taker_rights result.1.0 ≡ taker_rights other) }
{
    thread::join(
        rt,
        move || -> Took
            requires { IsTakerOf line.now one }
            ensures { IsTakerOf line.entry.now result.0
                × (taker_rights result.0 ≡ taker_rights one) }
        { take_labels(rt, alloc, line, one) },
        move || -> Took
            requires { IsTakerOf line.now other }
            ensures { IsTakerOf line.entry.now result.0
                × (taker_rights result.0 ≡ taker_rights other) }
        { take_labels(rt, alloc, line, other) },
    )
}

// Whether the numbers of each of two senders rise.
fn rises(labels: &[Label]) -> bool {
    let mut next = [0, 0];
    for (sender, number, _) in labels {
        let at = if *sender == 0 { 0 } else { 1 };
        if *number < next[at] {
            return false;
        }
        next[at] = number.saturating_add(1);
    }
    true
}

// Whether each card that was put has its label once.
fn each_once(labels: &[Label], sender: u32, put: &[u32]) -> bool {
    for (number, card) in put.iter().enumerate() {
        let wanted = (sender, number as u64, *card);
        if labels.iter().filter(|label| **label == wanted).count() != 1 {
            return false;
        }
    }
    true
}

// What each sender put, what each taker took, and what was left in the line.
#[derive(Drop)]
struct Ran {
    put: Vec<u32>,
    put_too: Vec<u32>,
    taken: Vec<Label>,
    taken_too: Vec<Label>,
    left: Vec<Label>,
}

impl Ran {
    // The labels of all parcels, those that were left last.
    fn came_out(&self, rt: &impl Abort, alloc: Global) -> Vec<Label> {
        let mut labels = Vec::new(alloc);
        for some in [&self.taken, &self.taken_too, &self.left] {
            labels
                .extend_from_slice(some.as_slice())
                .expect(rt, "memory");
        }
        labels
    }
}

// Two senders and two takers at a line of four buffers, each in a thread of its own.
fn run_in_threads<R: Abort + Threads + Wait + Sync>(rt: &R, alloc: Global) -> Ran {
    let (line, mut senders, mut takers) = Line::new(alloc, 4, 2, 2).expect(rt, "memory");
    let shared = &line;
    let second = senders.remove(1);
    let first = senders.remove(0);
    let other = takers.remove(1);
    let one = takers.remove(0);
    let (puts, takes) = thread::join(
        rt,
        move || -> (Put, Put)
            requires { IsSenderOf shared.now first × IsSenderOf shared.now second }
            ensures first { IsSenderOf shared.entry.now result.0.0
                × (sender_rights result.0.0 ≡ sender_rights first) }
            ensures second { IsSenderOf shared.entry.now result.1.0
                × (sender_rights result.1.0 ≡ sender_rights second) }
        { put_both(rt, alloc, shared, first, second) },
        move || -> (Took, Took)
            requires { IsTakerOf shared.now one × IsTakerOf shared.now other }
            ensures first { IsTakerOf shared.entry.now result.0.0
                × (taker_rights result.0.0 ≡ taker_rights one) }
            ensures second { IsTakerOf shared.entry.now result.1.0
                × (taker_rights result.1.0 ≡ taker_rights other) }
        { take_both(rt, alloc, shared, one, other) },
    );
    let ((first, put), (second, put_too)) = puts;
    let ((one, taken), (other, taken_too)) = takes;
    let senders = vec![in alloc; first, second].expect(rt, "memory");
    let takers = vec![in alloc; one, other].expect(rt, "memory");
    let settled = line.settle(rt, senders, takers);
    Ran {
        put,
        put_too,
        taken,
        taken_too,
        left: labels_left(rt, alloc, settled),
    }
}

// The labels of what the line still had, up to four.
fn labels_left<R: Abort + Wait>(rt: &R, alloc: Global, mut settled: Settled) -> Vec<Label> {
    let mut left = Vec::new(alloc);
    for _ in 0..4 {
        if let Some(label) = read(settled.next(rt)) {
            left.push(label).expect(rt, "memory");
        }
    }
    left
}

// Each taker finds the numbers of each sender rising, and each card that was put comes out once,
// under its sender.
#[test]
fn line_in_threads(rt: HostRuntime) -> Result<(), Fail> {
    let ran = run_in_threads(&rt, rt.alloc());
    let rising = [rises(ran.taken.as_slice()), rises(ran.taken_too.as_slice())];
    equal(&rt, "whether numbers rise", rising, [true, true])?;
    let labels = ran.came_out(&rt, rt.alloc());
    let labels = labels.as_slice();
    // (no put comes back before the line has held four)
    check(&rt, labels.len() >= 4, "too few puts")?;
    let puts = ran.put.len().saturating_add(ran.put_too.len());
    equal(&rt, "how many came out", labels.len(), puts)?;
    let once = [
        each_once(labels, 0, ran.put.as_slice()),
        each_once(labels, 1, ran.put_too.as_slice()),
    ];
    Ok(equal(&rt, "whether each came out once", once, [true, true])?)
}
