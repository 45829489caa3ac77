//! What a crew or a race prints: how many stores there were, and the drains that end it, one of
//! each region, in order, each with its line.
ghost use Rattle.std.specs.Prelude.{◌≡◌, ◌<◌, ◌∷◌};
ghost use Rattle.g1_replay.specs.{[], IfErr, HasDrained, Does, at, deeds_of, MayStop};
ghost use Rattle.g1_replay.specs.{more_may_come, book_draining, core_draining};

use crate::calls::{play_call, put_call};
use crate::stop::Stop;
use g1_core::{Call, Core, Reply};
use g1_history::Book;
use g1_layout::{Layout, Region};
use g1_trace::{Command, put_stores};
use std::io::Write;

/// What the threads leave, whose regions can be drained.
pub(crate) trait Drains {
    ghost use Rattle.g1_replay.specs.Drains.{Draining};

    /// Its heap, what drains do, and when it has no room for one more.
    ghost draining: { Draining Self };

    /// Drains a region, and writes the line of its reply. A drain that is refused has no
    /// effect that a later drain can see.
    fn put_drain<W: Write>(&mut self, region: Region, output: &mut W) -> Result<(), Stop>
        requires { region < (draining.layout self.old).regions }
        ensures played { Does (deeds_of draining) (Command.Call (Call.Drain region) ∷ [])
            (at self.old (W.contents output.old)) (at self.new (W.contents output.new))
            (more_may_come result) }
        ensures stops { IfErr result MayStop };
}

impl Drains for Book {
    ghost draining = { book_draining };

    /// The first caller's drain of the region.
    #[tactic(auto, using(crate::proofs::asked_plays, crate::proofs::asked_stops))]
    fn put_drain<W: Write>(&mut self, region: Region, output: &mut W) -> Result<(), Stop> {
        play_call(self, Call::Drain(region), output)
    }
}

impl Drains for Core {
    ghost draining = { core_draining };

    fn put_drain<W: Write>(&mut self, region: Region, output: &mut W) -> Result<(), Stop> {
        let answer = self.drain(region)?;
        put_call(output, &Call::Drain(region), &Reply::from(answer))?;
        Ok(())
    }
}

/// Writes how many stores there were, and drains all regions, in order.
pub(crate) fn put_left<D: Drains, W: Write>(
    left: &mut D,
    layout: Layout,
    stores: u64,
    output: &mut W,
) -> Result<(), Stop>
    requires { D.draining.layout left.old ≡ layout }
    ensures drained { HasDrained D.draining layout.regions stores
        (at left.old (W.contents output.old)) (at left.new (W.contents output.new)) result }
    ensures stops { IfErr result MayStop }
{
    put_stores(output, stores)?;
    let (regions, _, _) = layout.counts();
    for number in 0..regions {
        let Some(region) = layout.region(number) else {
            unreachable!()
        };
        left.put_drain(region, output)?;
    }
    Ok(())
}
