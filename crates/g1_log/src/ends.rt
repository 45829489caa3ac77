//! The ends of the queue of completed buffers, and the queue once it is settled.
ghost use Rattle.std.specs.Prelude.{◌≡◌, ◌≤◌, ◌^◌};
ghost use Rattle.g1_log.specs.Prelude.{true, false, [], length, IfSome, view, IsPassOf};
ghost use Rattle.std.proofs.Props.{props};
ghost use Rattle.g1_log.specs.Line.{put_by, IsSenderView, IsTakerView};

use crate::parcel::Parcel;
use crate::rule::Queue;
use crate::view::PassView;
use crossbeam_queue::Pass;

/// The end of the queue by which one mutator puts buffers.
#[derive(Drop)]
pub struct Sender {
    pub(crate) pass: Pass<Parcel, PassView>,
    pub(crate) number: u32,
    pub(crate) next: u64,
    ghost rests: { pass.me.1 ≡ [] } by { Prim.hlevel props },
    ghost role: { IsSenderView number (view pass) } by { Prim.hlevel props },
    ghost count: { length (put_by (view pass)) ≡ next },
    ghost most: { next ≤ 2 ^ 58 },
}

/// The end of the queue by which one thread takes parcels.
#[derive(Drop)]
pub struct Taker {
    pub(crate) pass: Pass<Parcel, PassView>,
    ghost rests: { pass.me.1 ≡ [] } by { Prim.hlevel props },
    ghost role: { IsTakerView (view pass) } by { Prim.hlevel props },
}

/// A queue that is settled, with the parcels that are left in it.
#[derive(Drop)]
pub struct Settled {
    pub(crate) queue: Queue,
    pub(crate) pass: Pass<Parcel, PassView>,
    // The oldest parcel that is left.
    pub(crate) ahead: Option<Parcel>,
    pub(crate) sent: u64,
    pub(crate) left: u64,
    ghost of: { IsPassOf queue pass } by { Prim.hlevel props },
    ghost knows: { IfSome ahead (λ x.
        ((view pass).ended ≡ true) × ((view pass).fresh ≡ false)) } by { Prim.hlevel props },
    ghost counts: { left ≤ sent },
}
