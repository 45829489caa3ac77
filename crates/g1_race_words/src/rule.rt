//! The rule of the race.
use crate::view::{RaceShape, View};
use atomic_table::TableRule;

/// The rule that the words and the views keep (`Going` in `specs/Rule.antt`).
pub struct RaceRule;

impl TableRule<(), View, RaceShape> for RaceRule {
    ghost use Rattle.g1_race_words.specs.Rule.{Going, null_of};
    ghost use Rattle.g1_race_words.specs.Steps.{frozen_seat};

    ghost holds = { λ k s. Going k s.words s.views };

    ghost first = { λ k. frozen_seat (null_of k) k.parties };
}
