//! Readers and writers of the tests' own: that give or take one byte at a time, fail, or end early.
ghost use Rattle.std.specs.Prelude.{Some};

use std::alloc::Global;
use std::io;
use std::io::{ErrorKind, Read, Write};

/// A reader that gives one byte a read, fails once when it has given some bytes, and counts its
/// reads. If it has given all, it may tell its end some times before it fails.
#[derive(Drop)]
pub(crate) struct Fragile<'a> {
    pub bytes: &'a [u8],
    pub room: usize,
    pub ends: usize,
    pub failed: bool,
    pub reads: usize,
}

/// It has given nothing yet, and fails after `room` bytes, or if these are all after `ends` reads
/// more.
pub(crate) fn failing_after(bytes: &[u8], room: usize, ends: usize) -> Fragile<'_> {
    Fragile {
        bytes,
        room,
        ends,
        failed: false,
        reads: 0,
    }
}

impl<'a> Read for Fragile<'a> {
    ghost remaining = { λ s. Some s.bytes.now };

    fn read(&mut self, buf: &mut [u8]) -> io::Result<usize> {
        self.reads = self.reads.saturating_add(1);
        if self.bytes.is_empty() && self.ends > 0 {
            self.ends -= 1;
            return Ok(0);
        }
        if self.room == 0 && !self.failed {
            self.failed = true;
            return Err(io::Error::from(ErrorKind::Other));
        }
        let count = buf.len().min(1);
        let given = self.bytes.read(&mut buf[..count])?;
        self.room = self.room.saturating_sub(given);
        Ok(given)
    }
}

/// A writer that takes one byte a write, and when it has taken some bytes fails, or takes no more;
/// it counts the writes after that.
#[derive(Drop)]
pub(crate) struct Narrow {
    pub bytes: Vec<u8>,
    pub room: usize,
    pub fails: bool,
    pub refused: usize,
}

/// It has taken nothing yet, and takes `room` bytes.
pub(crate) fn taking(alloc: Global, room: usize, fails: bool) -> Narrow {
    Narrow {
        bytes: Vec::new(alloc),
        room,
        fails,
        refused: 0,
    }
}

impl Write for Narrow {
    ghost contents = { λ s. Some s.bytes.items };

    fn write(&mut self, buf: &[u8]) -> io::Result<usize> {
        if buf.is_empty() {
            return Ok(0);
        }
        if self.room == 0 {
            self.refused = self.refused.saturating_add(1);
            if self.fails {
                return Err(io::Error::from(ErrorKind::Other));
            }
            return Ok(0);
        }
        self.bytes.push(buf[0])?;
        self.room -= 1;
        Ok(1)
    }

    fn flush(&mut self) -> io::Result<()> {
        Ok(())
    }
}
