//! The record of one caller.
use crate::view::View;
use atomic_table::Badge;
use std::marker::Model;

/// What one caller made, in proofs alone. It has no bytes.
#[derive(Drop)]
pub struct CallerRecord {
    pub(crate) badge: Badge<View>,
}

impl Model for CallerRecord {
    ghost use Rattle.std.specs.Prelude.{◌≡◌, [], ◌∷◌};
    ghost use Rattle.g1_records.specs.Views.{caller_view, view_in};
    ghost use Rattle.g1_records.specs.Records.{OwnRecord, own_record};

    ghost Value = { OwnRecord };

    ghost view = { λ a. own_record a.badge.table_id (view_in a.badge.views).number
        (view_in a.badge.views).own };

    ghost invariant = { λ a. a.badge.views
        ≡ caller_view (view_in a.badge.views).number (view_in a.badge.views).own ∷ [] };
}
