//! The lines of a trace up to its header.

ghost use Rattle.std.specs.Prelude.{◌≡◌, ◌<◌};
ghost use Rattle.g1_replay.specs.{[], Ok, None, IfErr, Dialect, Reads, place, more_may_come};
ghost use Rattle.g1_replay.specs.{opened_by, IsReadStop};
ghost use Rattle.std.specs.Result.{result_ok};

use crate::lines::line::next_line;
use crate::lines::source::Source;
use crate::stop::Stop;
use arrayvec::ArrayVec;
use g1_layout::Layout;
use g1_trace::{TraceFault, read_header};
use std::io::BufRead;

// One line before the header, or the header.
fn next_header<R: BufRead>(source: &mut Source, input: &mut R) -> Result<Option<Layout>, Stop>
    ensures read { (d : Dialect) → Reads d
        (place None source.old.number (R.remaining input.old))
        (place (opened_by result) source.new.number (R.remaining input.new)) []
        (more_may_come result) }
    ensures stops { IfErr result IsReadStop }
    ensures more { result ≡ Ok None → source.old.reads < source.new.reads }
{
    let mut line = ArrayVec::new();
    if !next_line(&mut source.reads, input, &mut line)? {
        return Err(Stop::Fault(TraceFault::NoHeader));
    }
    let heap = read_header(line.as_slice())?;
    source.number += 1;
    Ok(heap)
}

/// Reads the lines up to the header and with it, and returns the header's heap (docs/traces.md,
/// Commands).
///
/// On a fault, `source.number` is the faulty line. Nothing behind the header's
/// line is read, and no read follows a failed one. It takes no memory.
pub fn read_layout<R: BufRead>(source: &mut Source, input: &mut R) -> Result<Layout, Stop>
    ensures read { (d : Dialect) → Reads d
        (place None source.old.number (R.remaining input.old))
        (place (result_ok result) source.new.number (R.remaining input.new)) []
        (more_may_come result) }
    ensures stops { IfErr result IsReadStop }
{
    'lines: loop {
        match next_header(source, input)? {
            None => {}
            Some(layout) => return Ok(layout),
        }
    }
}
