//! What a proof does not show: that calls succeed, with the cards in the order that was worked out
//! by hand. Sets that grow, and lists of many cards, are scenarios of `gate_growths`.
ghost use Rattle.std.specs.Prelude.{◌≡◌};

use g1_layout::Layout;
use g1_sets::Sets;
use std::alloc::Global;
use std::test::Fail;
use test_support::Failure;
use test_support::checks::{equal, numbered};
use test_support::numbers::{card, region, small};

// A region, its cards as they came, and as they ascend.
type Wanted<'a> = (u32, &'a [u32], &'a [u32]);

// Sets whose cards and regions are named by number.
#[derive(Drop)]
struct Numbered {
    layout: Layout,
    sets: Sets,
    ghost same: { sets.layout ≡ layout },
}

impl Numbered {
    fn new(alloc: Global) -> Result<Numbered, Failure> {
        let layout = small()?;
        let sets = Sets::new(alloc, layout)?;
        Ok(Numbered { layout, sets })
    }

    fn record(&mut self, number: u32, first: u32, second: u32) -> Result<(), Failure> {
        let regions = [region(self.layout, first)?, region(self.layout, second)?];
        Ok(self.sets.record(card(self.layout, number)?, &regions)?)
    }

    // Two cards, one of them named twice.
    fn record_many(&mut self, [first, second]: [u32; 2], of: u32) -> Result<(), Failure> {
        let first = card(self.layout, first)?;
        let second = card(self.layout, second)?;
        let of = region(self.layout, of)?;
        Ok(self.sets.record_many(&[first, second, first], of)?)
    }

    fn clear(&mut self, of: u32) -> Result<(), Failure> {
        let of = region(self.layout, of)?;
        self.sets.clear(of);
        Ok(())
    }

    // How many cards there are in all, and those of some regions: a walk gives the first, and
    // `cards` the second, sorted.
    fn has_just(&self, rt: &impl Eprint, total: u32, wanted: &[Wanted<'_>]) -> Result<(), Failure> {
        equal(rt, "how many pairs", self.sets.total(), total)?;
        for (of, inserted, sorted) in wanted {
            let of = region(self.layout, *of)?;
            equal(
                rt,
                "how many cards",
                self.sets.len(of) as usize,
                inserted.len(),
            )?;
            numbered(rt, "the members", self.sets.members(of), inserted)?;
            numbered(rt, "the list", self.sets.cards(of)?.as_slice(), sorted)?;
        }
        Ok(())
    }
}

#[test]
fn each_call_once(rt: HostRuntime) -> Result<(), Fail> {
    let mut sets = Numbered::new(rt.alloc())?;
    sets.record(7, 0, 3)?;
    sets.record(2, 0, 0)?;
    sets.record(7, 0, 0)?;
    let wanted: [Wanted; 3] = [(0, &[7, 2], &[2, 7]), (1, &[], &[]), (3, &[7], &[7])];
    sets.has_just(&rt, 3, &wanted)?;
    for (number, of, is) in [(7, 3, true), (2, 3, false), (7, 1, false)] {
        let has = sets
            .sets
            .has(card(sets.layout, number)?, region(sets.layout, of)?);
        equal(&rt, "a pair", (number, of, has), (number, of, is))?;
    }
    sets.record_many([5, 2], 1)?;
    sets.record_many([2, 0], 3)?;
    let wanted: [Wanted; 2] = [(1, &[5, 2], &[2, 5]), (3, &[7, 2, 0], &[0, 2, 7])];
    sets.has_just(&rt, 7, &wanted)?;
    sets.clear(0)?;
    let wanted: [Wanted; 2] = [(0, &[], &[]), (3, &[7, 2, 0], &[0, 2, 7])];
    Ok(sets.has_just(&rt, 5, &wanted)?)
}
