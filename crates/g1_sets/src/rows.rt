//! By card, the regions whose sets have it.
ghost use Rattle.std.specs.Prelude.{◌<◌};
ghost use Rattle.g1_sets.specs.{length, All, RowsGain, RowsLose};

use g1_layout::{Card, Region, RegionSet};

// Adds the region to the rows of the cards.
pub(crate) fn add_region(rows: &mut [RegionSet], cards: &[Card], region: Region)
    requires cards { All (λ card. card < length rows.old) cards.now }
    requires region { region < 256 }
    ensures { RowsGain cards.now region rows.old rows.new }
{
    for card in cards {
        rows[card.number() as usize].insert(region);
    }
}

// Takes the region out of the rows of the cards.
pub(crate) fn remove_region(rows: &mut [RegionSet], cards: &[Card], region: Region)
    requires cards { All (λ card. card < length rows.old) cards.now }
    requires region { region < 256 }
    ensures { RowsLose cards.now region rows.old rows.new }
{
    for card in cards {
        rows[card.number() as usize].remove(region);
    }
}
