//! Logs, and the completed buffers of one thread.
use g1_log::{Buffer, Done, Log, Why};
use std::test::Fail;
use test_support::Failure;
use test_support::checks::{check, equal, numbered};
use test_support::numbers::{buffer, card, small};

// A log of four cards is filled twice, by cards 0 to 3.
#[test]
fn a_filled_log_is_handed_out_and_begins_anew(rt: HostRuntime) -> Result<(), Fail> {
    let mut log = Log::new(4);
    for turn in 0..8 {
        let filled = log.push(card(small()?, turn % 4)?);
        equal(
            &rt,
            "whether it fills the log",
            filled.is_some(),
            turn % 4 == 3,
        )?;
        if let Some(filled) = filled {
            numbered(&rt, "a filled log", filled.cards(), &[0, 1, 2, 3])?;
        }
        equal(
            &rt,
            "how many cards are left",
            log.len(),
            (turn as usize + 1) % 4,
        )?;
    }
    Ok(check(&rt, log.is_empty() && log.take().is_none(), "an empty log")?)
}

#[test]
fn a_log_is_cut_from_the_front_and_taken(rt: HostRuntime) -> Result<(), Fail> {
    let mut log = Log::new(4);
    for number in 4..7 {
        check(&rt, log.has_room(), "a log of four has room for three")?;
        if log.has_room() {
            log.add(card(small()?, number)?);
        }
    }
    check(&rt, !log.has_room(), "one card more fills the log")?;
    if log.len() >= 1 {
        log.cut(1);
    }
    numbered(&rt, "what is left", log.cards(), &[5, 6])?;
    let taken = log.take().ok_or(Failure::Wrong)?;
    numbered(&rt, "what was taken", taken.cards(), &[5, 6])?;
    Ok(check(&rt, log.is_empty(), "a log that was taken")?)
}

// Cuts `n` cards from the oldest buffer, which has these cards. `left` buffers are left.
fn cut(
    rt: &impl Eprint,
    done: &mut Done,
    numbers: &[u32],
    n: usize,
    left: usize,
) -> Result<(), Failure> {
    let oldest = done.oldest().ok_or(Failure::Wrong)?;
    numbered(rt, "the oldest buffer", oldest.cards(), numbers)?;
    if n > oldest.cards().len() {
        return Err(Failure::Wrong);
    }
    done.cut_oldest(n);
    equal(rt, "how many buffers are left", done.len(), left)
}

#[test]
fn the_oldest_buffer_is_cut_from_the_front(rt: HostRuntime) -> Result<(), Fail> {
    let mut done = Done::new(rt.alloc(), 10);
    for cards in [[1, 2, 3].as_slice(), &[4], &[]] {
        check(&rt, done.add(buffer(cards)?).is_ok(), "room for a buffer")?;
    }
    cut(&rt, &mut done, &[1, 2, 3], 1, 3)?;
    cut(&rt, &mut done, &[2, 3], 2, 2)?;
    cut(&rt, &mut done, &[4], 0, 2)?;
    cut(&rt, &mut done, &[4], 1, 1)?;
    cut(&rt, &mut done, &[], 0, 0)?;
    Ok(check(&rt, done.oldest().is_none(), "a buffer too many")?)
}

// The texts of errors, and what docs say of the cost of a hand-over.
#[test]
fn texts_and_the_size_of_a_buffer(rt: HostRuntime) -> Result<(), Fail> {
    let text = format!(in rt.alloc(); "{}, {}", Why::Full, Why::NoMemory)?;
    equal(&rt, "the texts", text.as_str(), "full, no memory")?;
    Ok(equal(
        &rt,
        "the bytes of a buffer",
        std::mem::size_of::<Buffer>(),
        1032,
    )?)
}
