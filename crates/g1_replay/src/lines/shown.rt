//! The lines that a reader shows as a whole, read where they lie and played one after the other.
ghost use Rattle.std.specs.Prelude.{◌≡◌, ◌≤◌, ◌+◌, ◌⊎◌};
ghost use Rattle.g1_replay.specs.{take, length, IfErr, OnOk, FollowsFront, PlaysFirst, IsReadStop};
ghost use Rattle.g1_replay.specs.{more_may_come, HasRoomFor, IsOfTrace, scene};

use crate::lines::line::{LINE_LIMIT, Part, part_of};
use crate::lines::player::Player;
use crate::lines::source::Commands;
use crate::stop::Stop;
use g1_trace::{read_command, read_store};
use std::io::Write;
use std::sync::Wait;

impl Commands<'_> {
    /// Plays the lines at the front of what a reader shows, up to the first that is not there as a
    /// whole, or to what stops the replay. Returns how many bytes they take, with those of a line
    /// that stopped it.
    pub(crate) fn play_shown<T: Wait, P: Player, W: Write>(
        &mut self,
        rt: &T,
        shown: &[u8],
        player: &mut P,
        output: &mut W,
    ) -> (usize, Result<(), Stop>)
        requires takes { P.plays.takes player.old self.old.layout self.old.dialect }
        requires room { HasRoomFor self.old.source.now (length shown.now) }
        ensures followed { FollowsFront P.plays.deeds
            (scene self.old player.old (W.contents output.old))
            (scene self.new player.new (W.contents output.new)) (take result.0 shown.now)
            (more_may_come result.1) }
        ensures within { result.0 ≤ length shown.now }
        ensures counted { self.new.source.now.number ≤ self.old.source.now.number + result.0 }
        ensures reads { self.new.source.now.reads ≡ self.old.source.now.reads }
        ensures same { IsOfTrace self.old self.new }
        ensures stops { IfErr result.1 (λ stop. IsReadStop stop ⊎ P.plays.stops stop) }
        ensures takes { OnOk result.1 (P.plays.takes player.new self.new.layout self.new.dialect) }
    {
        let mut taken = 0;
        'lines: loop {
            let left = shown.split_at(taken).1;
            let Some((count, played)) = self.play_first(rt, left, player, output) else {
                return (taken, Ok(()));
            };
            taken += count;
            if let Err(stop) = played {
                return (taken, Err(stop));
            }
        }
    }

    // Plays the line that these bytes begin with, if it is there as a whole. Returns how many bytes
    // it takes, and what stopped it.
    #[inline(always)]
    fn play_first<T: Wait, P: Player, W: Write>(
        &mut self,
        rt: &T,
        bytes: &[u8],
        player: &mut P,
        output: &mut W,
    ) -> Option<(usize, Result<(), Stop>)>
        requires takes { P.plays.takes player.old self.old.layout self.old.dialect }
        requires room { HasRoomFor self.old.source.now (length bytes.now) }
        ensures { PlaysFirst P.plays (scene self.old player.old (W.contents output.old))
            (scene self.new player.new (W.contents output.new)) bytes.now result }
    {
        if let Some((store, count)) = read_store(self.layout, self.dialect, bytes) {
            self.source.number += 1;
            let played = player.play(rt, self.layout, self.dialect, store, output);
            return Some((count, played));
        }
        self.play_other(rt, bytes, player, output)
    }

    // Any line that `read_store` does not accept.
    #[inline(never)]
    fn play_other<T: Wait, P: Player, W: Write>(
        &mut self,
        rt: &T,
        bytes: &[u8],
        player: &mut P,
        output: &mut W,
    ) -> Option<(usize, Result<(), Stop>)>
        requires takes { P.plays.takes player.old self.old.layout self.old.dialect }
        requires room { HasRoomFor self.old.source.now (length bytes.now) }
        ensures { PlaysFirst P.plays (scene self.old player.old (W.contents output.old))
            (scene self.new player.new (W.contents output.new)) bytes.now result }
    {
        let (Part::Whole, size, count) = part_of(bytes, LINE_LIMIT) else {
            return None;
        };
        let asked = match read_command(self.layout, self.dialect, &bytes[..size]) {
            Ok(asked) => asked,
            Err(fault) => return Some((count, Err(Stop::Fault(fault)))),
        };
        self.source.number += 1;
        let Some(command) = asked else {
            return Some((count, Ok(())));
        };
        let played = player.play(rt, self.layout, self.dialect, command, output);
        Some((count, played))
    }
}
