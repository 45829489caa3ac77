//! The rule of the queue of completed buffers, and what its steps tell. These types are for the
//! proofs alone.
ghost use Rattle.std.specs.Prelude.{◌≡◌, ◌∷◌};
ghost use Rattle.g1_log.specs.Line.{IsLineState, newcomer, keeper, sender_made, new_sender};
ghost use Rattle.g1_log.specs.Line.{taker_made, new_taker, joined, spent, SeenBy, after_put};
ghost use Rattle.g1_log.specs.Line.{after_take, IsLeft, ended_view};

use crate::parcel::Parcel;
use crate::view::PassView;
use crossbeam_queue::RuledArrayQueue;
use crossbeam_queue::protocol::{Join, Lesson, Outcome, Protocol, Split};

/// The rule of the queue, which each pass of the queue keeps.
pub struct Ordered;

impl Protocol<Parcel, PassView> for Ordered {
    ghost holds = { IsLineState };

    ghost first = { newcomer };
}

/// The queue of parcels, under that rule.
pub type Queue = RuledArrayQueue<Parcel, PassView, Ordered>;

/// A put: the sender's view gains the buffer. One that is refused has seen a full queue.
pub struct PutsParcel;

impl Outcome<Parcel, PassView> for PutsParcel {
    ghost then = { λ v x w. w ≡ after_put x.sender v x };
}

impl Lesson<Parcel, PassView> for PutsParcel {
    ghost fact = { SeenBy };
}

/// A take: the taker's view gains the parcel. One that finds nothing has seen an empty queue.
pub struct TakesParcel;

impl Outcome<Parcel, PassView> for TakesParcel {
    ghost then = { λ v x w. w ≡ after_take v x };
}

impl Lesson<Parcel, PassView> for TakesParcel {
    ghost fact = { SeenBy };
}

/// The first split, in which the first pass takes all rights.
pub struct Opens;

impl Split<PassView> for Opens {
    ghost left = { λ v. keeper };

    ghost right = { λ v. newcomer };
}

/// The split of a sender from the pass that makes the ends.
pub struct ForSender;

impl Split<PassView> for ForSender {
    ghost left = { λ v. sender_made v };

    ghost right = { λ v. new_sender v.made };
}

/// The split of a taker from that pass.
pub struct ForTaker;

impl Split<PassView> for ForTaker {
    ghost left = { λ v. taker_made v };

    ghost right = { λ v. new_taker };
}

/// The join of an end that came back.
pub struct JoinsEnd;

impl Join<PassView> for JoinsEnd {
    ghost both = { joined };

    ghost spent = { spent };
}

/// The first take of a pass that has all rights, which then knows what the queue holds.
pub struct EndsLine;

impl Outcome<Parcel, PassView> for EndsLine {
    ghost then = { λ v x w. (w ≡ ended_view v x w.rest) × IsLeft v (x ∷ w.rest) };
}

impl Lesson<Parcel, PassView> for EndsLine {
    ghost fact = { IsLeft };
}

/// Its later takes.
pub struct TakesRest;

impl Outcome<Parcel, PassView> for TakesRest {
    ghost then = { λ v x w. (w ≡ ended_view v x w.rest) × (v.rest ≡ x ∷ w.rest) };
}

impl Lesson<Parcel, PassView> for TakesRest {
    ghost fact = { λ v items. v.rest ≡ items };
}
