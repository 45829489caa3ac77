//! A line of a trace that the reader does not show as a whole.
ghost use Rattle.std.specs.Prelude.{◌≤◌, ◌*◌, ◌^◌};
ghost use Rattle.g1_replay.specs.Prelude.{[], ℕ, List, Option, IfOk, IfErr};
ghost use Rattle.g1_replay.specs.Lines.{HasPart};
ghost use Rattle.g1_replay.specs.Reading.{ReadsBehind, commands_of, next_met, IsNextCommandOf};
ghost use Rattle.g1_replay.specs.Reading.{IsOfTrace, IsReadStop};

use crate::lines::line::{Part, rest_of_line};
use crate::lines::source::Commands;
use crate::stop::Stop;
use arrayvec::ArrayVec;
use g1_trace::{Command, read_command};
use std::io::BufRead;

/// What the next line asks for.
#[derive(Clone, Copy)]
pub enum Next {
    /// There is none: the input has ended.
    End,
    /// Nothing: it is empty or a remark.
    Blank,
    /// A command.
    Do(Command),
}

impl Commands<'_> {
    /// Reads on from the first part of a line, of which no byte is kept yet, and returns what the
    /// line asks for (docs/traces.md, Lines and words, Commands).
    ///
    /// On a fault, `source.number` is the faulty line. Nothing behind the line is read, and no read
    /// follows a failed one. It takes no memory.
    pub fn read_next<R: BufRead>(&mut self, part: Part, input: &mut R) -> Result<Next, Stop>
        requires counted { self.old.source.now.number ≤ 2 ^ 20 * self.old.source.now.reads }
        ensures read { (begun : Option (List ℕ)) → HasPart begun (R.remaining input.old) part []
            → ReadsBehind self.old self.new (begun, R.remaining input.new)
            (commands_of result) (next_met result) }
        ensures stops { IfErr result IsReadStop }
        ensures valid { IfOk result (λ next.
            IsNextCommandOf self.old.layout self.old.dialect next) }
        ensures reads { self.old.source.now.reads ≤ self.new.source.now.reads }
        ensures same { IsOfTrace self.old self.new }
    {
        let source = &mut *self.source;
        let mut line = ArrayVec::new();
        if !rest_of_line(part, &mut source.reads, input, &mut line)? {
            return Ok(Next::End);
        }
        let command = read_command(self.layout, self.dialect, line.as_slice())?;
        source.number += 1;
        match command {
            None => Ok(Next::Blank),
            Some(command) => Ok(Next::Do(command)),
        }
    }
}
