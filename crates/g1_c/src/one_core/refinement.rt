//! Refinement.
ghost use Rattle.std.specs.Prelude.{◌≡◌};
ghost use Rattle.g1_c.specs.{OnCore, RefinesTo, reply_of, take, IsRefinementRefused};
ghost use Rattle.g1_c.specs.{length, IsWritten};

use crate::calling::on_core;
use g1_handles::handles::Handle;
use g1_handles::list::write_list;
use g1_handles::one_core::refinement::{refine_in, reply_word};

/// What a refinement counted.
#[repr(C)]
#[derive(Clone, Copy, Debug)]
pub struct Tally {
    /// How many cards were refined.
    pub refined: u32,
    /// How many cards were found hot.
    pub hot: u32,
    /// How many cards were not dirty.
    pub skipped: u32,
}

/// As in `g1.h`.
#[unsafe(no_mangle)]
pub extern "C" fn g1_refine(
    handle: &mut Handle,
    cards: &[u32],
    refined: &mut [u32],
    tally: &mut Tally,
) -> u32
    ensures refined { OnCore 1 result handle.old handle.new (tally.new ≡ record {
      refined = 0;
      hot =
          0;
      skipped = 0;
    }) (λ old new. RefinesTo old cards.now (reply_of result (take
        tally.new.refined refined.new) tally.new.hot tally.new.skipped) new) (λ old.
        IsRefinementRefused old.state.table.layout cards.now (length refined.old)) }
    ensures written { IsWritten refined.old tally.new.refined refined.new }
{
    *tally = Tally {
        refined: 0,
        hot: 0,
        skipped: 0,
    };
    let room = refined.len();
    match on_core!(handle, refine_in(cards, room)) {
        Err(refusal) => refusal.word(),
        Ok(reply) => {
            *tally = Tally {
                refined: write_list(reply.refined.as_slice(), refined),
                hot: reply.hot,
                skipped: reply.skipped,
            };
            reply_word(&reply)
        }
    }
}
