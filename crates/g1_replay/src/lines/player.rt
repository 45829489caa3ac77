//! What is done with the commands of a trace.
ghost use Rattle.std.specs.Prelude.{◌∷◌};
ghost use Rattle.g1_replay.specs.{OnOk, IfErr, [], IsCommandOf, Does, at, more_may_come};

use crate::stop::Stop;
use g1_layout::Layout;
use g1_trace::{Command, Dialect};
use std::io::Write;
use std::sync::Wait;

/// Takes the commands of a trace, one after the other.
///
/// [`Commands`](crate::lines::source::Commands) reads the lines and passes their commands on.
/// It knows no more of a player than this trait says.
pub(crate) trait Player {
    ghost use Rattle.g1_replay.specs.Playing.{Plays};

    /// Which commands it takes, what it does with them, and what may stop one.
    ghost plays: { Plays Self };

    /// Does what a command asks for, and writes its text. A command that is refused leaves nothing
    /// done.
    fn play<T: Wait, W: Write>(
        &mut self,
        rt: &T,
        layout: Layout,
        dialect: Dialect,
        command: Command,
        output: &mut W,
    ) -> Result<(), Stop>
        requires takes { plays.takes self.old layout dialect }
        requires command { IsCommandOf layout dialect.mutators command }
        ensures played { Does plays.deeds (command ∷ []) (at self.old (W.contents output.old))
            (at self.new (W.contents output.new)) (more_may_come result) }
        ensures stops { IfErr result plays.stops }
        ensures takes { OnOk result (plays.takes self.new layout dialect) };
}
