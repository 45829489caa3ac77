//! The regions into which the slots of a card refer.

ghost use Rattle.std.specs.Prelude.{◌≡◌, ◌<◌, ◌≤◌, ◌+◌};
ghost use Rattle.g1_heap.specs.{[], length, map, array_vec_len, slot_count, card_count, ref_of};
ghost use Rattle.g1_heap.specs.{IsListedUpTo, AreNewTargets};
ghost use Rattle.g1_layout.specs.declared.region_set.RegionSet.{RegionSet as Regions};

use crate::null::{GROUP, has_reference};
use arrayvec::ArrayVec;
use g1_layout::{Card, Layout, Region, RegionSet};

// Lists the regions into which the words of a row refer from one of them up to another, except
// those in the set, which gains them.
#[inline(always)]
fn add_each(
    layout: &Layout,
    row: &[u32],
    from: usize,
    end: usize,
    seen: &mut RegionSet,
    targets: &mut ArrayVec<Region, 64>,
)
    requires range { from ≤ end }
    requires within { end ≤ length row.now }
    requires few { length row.now ≤ 64 }
    requires room { array_vec_len targets.old ≤ from }
    ensures listed { (known : Regions)
        → IsListedUpTo layout.now row.now known from seen.old targets.old.items
        → IsListedUpTo layout.now row.now known end seen.new targets.new.items }
    ensures room { array_vec_len targets.new ≤ end }
{
    let (_, _, _) = layout.counts();
    for word in &row[from..end] {
        if let Some(place) = layout.slot(*word) {
            let region = layout.region_of(place);
            if !seen.contains(region) {
                seen.insert(region);
                targets.push(region);
            }
        }
    }
}

// One pass over the card's words, which skips groups of null slots. It lists neither the card's own
// region nor those that are known.
#[inline(always)]
pub(crate) fn add_targets(
    layout: &Layout,
    words: &[u32],
    card: Card,
    known: &RegionSet,
    targets: &mut ArrayVec<Region, 64>,
)
    requires empty { targets.old.items ≡ [] }
    requires card { card < card_count layout.now }
    requires slots { length words.now ≡ slot_count layout.now }
    ensures { AreNewTargets layout.now (map (ref_of layout.now) words.now) card known.now
        targets.new.items }
{
    let (_, _, slots) = layout.counts();
    let first = layout.first_slot(card).number() as usize;
    let row = &words[first..first + slots as usize];
    let mut seen = *known;
    seen.insert(layout.region_of_card(card));
    let groups = row.len() / GROUP;
    for group in 0..groups {
        let at = group * GROUP;
        if has_reference(&row[at..at + GROUP]) {
            add_each(layout, row, at, at + GROUP, &mut seen, targets);
        }
    }
    add_each(layout, row, groups * GROUP, row.len(), &mut seen, targets);
}
