//! The rule of the records, and the steps that keep it. These types are for the proofs alone.
use crate::view::View;
use atomic_table::{Join, Play, Split, TableRule};
use std::marker::{Brand, PhantomData};

/// Each caller's record is what the history has of it.
pub struct Exact;

impl TableRule<(), View, ()> for Exact {
    ghost use Rattle.std.specs.Prelude.{[]};
    ghost use Rattle.g1_records.specs.Views.{keeper, AreExact};

    ghost holds = { λ k s. AreExact s.views };

    ghost first = { λ k. keeper [] 0 };
}

/// The entry that a step enters.
pub trait Entered {
    ghost use Rattle.g1_core.specs.declared.entry.Entry.{Entry};

    ghost entry: { Entry };
}

impl Entered for Brand {
    ghost use Rattle.g1_records.specs.Views.{no_entry};

    ghost entry = { no_entry };
}

/// The seat of the history takes in a caller's, and both gain the entry.
pub struct Gains<B: Entered> {
    of: PhantomData<B>,
}

impl<B: Entered> Join<View> for Gains<B> {
    ghost use Rattle.g1_records.specs.Views.{with_entry, nobody};

    ghost both = { λ v w. with_entry v w B.entry };

    ghost spent = { nobody };
}

/// The seat of the history takes in a caller's.
pub struct Takes;

impl Join<View> for Takes {
    ghost use Rattle.g1_records.specs.Views.{taken, nobody};

    ghost both = { taken };

    ghost spent = { nobody };
}

/// What was taken in is split off again.
pub struct Leaves;

impl Split<View> for Leaves {
    ghost use Rattle.g1_records.specs.Views.{caller_in, keeper_in};

    ghost left = { keeper_in };

    ghost right = { caller_in };
}

/// One more caller.
pub struct Makes;

impl Split<View> for Makes {
    ghost use Rattle.g1_records.specs.Views.{new_caller, one_more};

    ghost left = { one_more };

    ghost right = { new_caller };
}

/// It learns that the record of the caller that was taken in is what the history has of it.
pub struct Learns;

impl Play<(), View> for Learns {
    ghost use Rattle.std.specs.Prelude.{◌≡◌};
    ghost use Rattle.g1_records.specs.Views.{IsExact};

    ghost then = { λ step before found after. (after ≡ before) × IsExact before.0 };
}
