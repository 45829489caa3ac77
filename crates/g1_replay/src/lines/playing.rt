//! The lines of a trace behind its header, which are read and played.
ghost use Rattle.std.specs.Prelude.{◌≡◌, ◌<◌, ◌≤◌, ◌*◌, ◌^◌, ◌⊎◌};
ghost use Rattle.g1_replay.specs.{ℕ, List, Option, [], Ok, true, IfErr, OnOk, take, length};
ghost use Rattle.g1_replay.specs.{HasPart, end_met, Follows, scene, IsOfTrace, IsReadStop};

use crate::lines::line::Part;
use crate::lines::next::Next;
use crate::lines::player::Player;
use crate::lines::source::{Commands, READ_LIMIT, SHOWN_LIMIT};
use crate::stop::Stop;
use std::io::{BufRead, Write};
use std::sync::Wait;

// What a reader shows of a line that it does not show as a whole, of which no byte is taken.
#[tactic(auto, using(crate::proofs::part_first))]
fn first_part(shown: &[u8]) -> Part
    ensures { (left : Option (List ℕ)) → HasPart left left result [] }
{
    if shown.is_empty() {
        Part::Nothing
    } else {
        Part::More
    }
}

// The front of what a reader shows: as many of its bytes as one read may take.
fn front_of(shown: &[u8]) -> &[u8]
    ensures front { (n : ℕ) → n ≤ length result.now → take n result.now ≡ take n shown.now }
    ensures within { (length result.now ≤ length shown.now) × (length result.now ≤ 2 ^ 20) }
{
    shown.split_at(shown.len().min(SHOWN_LIMIT)).0
}

impl Commands<'_> {
    // The next line, of which the reader shows this part. Returns whether another may come: at the
    // end of the input it does not.
    fn play_line<T: Wait, P: Player, R: BufRead, W: Write>(
        &mut self,
        rt: &T,
        part: Part,
        input: &mut R,
        player: &mut P,
        output: &mut W,
    ) -> Result<bool, Stop>
        requires part { HasPart (R.remaining input.old) (R.remaining input.old) part [] }
        requires counted { self.old.source.now.number ≤ 2 ^ 20 * self.old.source.now.reads }
        requires takes { P.plays.takes player.old self.old.layout self.old.dialect }
        ensures followed { Follows P.plays.deeds
            (scene self.old player.old (W.contents output.old))
            (scene self.new player.new (W.contents output.new))
            (R.remaining input.old, R.remaining input.new) result }
        ensures reads { self.old.source.now.reads ≤ self.new.source.now.reads }
        ensures same { IsOfTrace self.old self.new }
        ensures stops { IfErr result (λ stop. IsReadStop stop ⊎ P.plays.stops stop) }
        ensures takes { OnOk result (P.plays.takes player.new self.new.layout self.new.dialect) }
    {
        match self.read_next(part, input)? {
            Next::End => Ok(false),
            Next::Blank => Ok(true),
            Next::Do(command) => {
                player.play(rt, self.layout, self.dialect, command, output)?;
                Ok(true)
            }
        }
    }

    // The lines that the reader shows as a whole, or the next line if it shows none. Returns
    // whether another may come.
    fn play_some<T: Wait, P: Player, R: BufRead, W: Write>(
        &mut self,
        rt: &T,
        input: &mut R,
        player: &mut P,
        output: &mut W,
    ) -> Result<bool, Stop>
        requires { P.plays.takes player.old self.old.layout self.old.dialect }
        ensures followed { Follows P.plays.deeds
            (scene self.old player.old (W.contents output.old))
            (scene self.new player.new (W.contents output.new))
            (R.remaining input.old, R.remaining input.new) result }
        ensures more { result ≡ Ok true → self.old.source.now.reads < self.new.source.now.reads }
        ensures same { IsOfTrace self.old self.new }
        ensures stops { IfErr result (λ stop. IsReadStop stop ⊎ P.plays.stops stop) }
        ensures takes { OnOk result (P.plays.takes player.new self.new.layout self.new.dialect) }
    {
        if self.source.reads >= READ_LIMIT {
            return Err(Stop::ReadFailed);
        }
        self.source.reads += 1;
        let shown = match input.fill_buf() {
            Ok(shown) => shown,
            Err(_) => return Err(Stop::ReadFailed),
        };
        let part = first_part(shown);
        let (taken, played) = self.play_shown(rt, front_of(shown), player, output);
        input.consume(taken);
        played?;
        if taken > 0 {
            return Ok(true);
        }
        self.play_line(rt, part, input, player, output)
    }

    /// Plays the lines behind the header, up to the end of the input or to what stops the replay.
    #[tactic(auto, using(crate::proofs::follows_none))]
    pub(crate) fn play_all<T: Wait, P: Player, R: BufRead, W: Write>(
        &mut self,
        rt: &T,
        input: &mut R,
        player: &mut P,
        output: &mut W,
    ) -> Result<(), Stop>
        requires { P.plays.takes player.old self.old.layout self.old.dialect }
        ensures followed { Follows P.plays.deeds
            (scene self.old player.old (W.contents output.old))
            (scene self.new player.new (W.contents output.new))
            (R.remaining input.old, R.remaining input.new) (end_met result) }
        ensures same { IsOfTrace self.old self.new }
        ensures stops { IfErr result (λ stop. IsReadStop stop ⊎ P.plays.stops stop) }
        ensures takes { OnOk result (P.plays.takes player.new self.new.layout self.new.dialect) }
    {
        'lines: while self.play_some(rt, input, player, output)? {}
        Ok(())
    }
}
