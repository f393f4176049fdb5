//! A reply is flushed before the next line is read, also if the flush is interrupted, and a flush that fails ends the
//! program. The writer of a built program has no flush that could fail, and no clause of `serve` speaks of one.

use crate::support::assert_same;
use negotiate_serve::ending::status;
use negotiate_serve::serve::serve;
use std::alloc::Global;
use std::cell::Cell;
use std::io::{self, ErrorKind, Read, Write};

/// How many reads are kept.
const READS: usize = 8;

/// How often a flush is interrupted before it is carried out.
const INTERRUPTIONS: u64 = 1000;

/// A writer that counts what it takes, and shows how much of it was flushed. Each flush is interrupted before it is
/// carried out. It fails if there were as many flushes as there may be.
#[derive(Drop)]
struct Counted<'a> {
    taken: u64,
    flushed: &'a Cell<u64>,
    flushes: u64,
    interruptions: u64,
}

impl Write for Counted<'_> {
    fn write(&mut self, buf: &[u8]) -> io::Result<usize> {
        self.taken = self.taken.saturating_add(buf.len() as u64);
        Ok(buf.len())
    }

    fn flush(&mut self) -> io::Result<()> {
        if self.interruptions < INTERRUPTIONS {
            self.interruptions += 1;
            return Err(io::Error::from(ErrorKind::Interrupted));
        }
        if self.flushes == 0 {
            return Err(io::Error::from(ErrorKind::StorageFull));
        }
        self.interruptions = 0;
        self.flushes -= 1;
        self.flushed.set(self.taken);
        Ok(())
    }
}

/// A reader that gives a line at each read, and keeps how much was flushed at each.
#[derive(Drop)]
struct Lines<'a> {
    lines: &'a [&'a str],
    flushed: &'a Cell<u64>,
    reads: usize,
    seen: [u64; READS],
}

impl Read for Lines<'_> {
    fn read(&mut self, buf: &mut [u8]) -> io::Result<usize> {
        if self.reads < READS {
            self.seen[self.reads] = self.flushed.get();
            self.reads += 1;
        }
        let [line, lines @ ..] = self.lines else {
            return Ok(0);
        };
        let count = line.len().min(buf.len());
        buf[..count].copy_from_slice(&line.as_bytes()[..count]);
        self.lines = lines;
        Ok(count)
    }
}

/// How many bytes were flushed before each read, how many reads there were, how many bytes were written, and the status.
type Served = ([u64; READS], usize, u64, u8);

/// Serves lines with a writer that may be flushed so often.
fn served(alloc: Global, lines: &[&str], flushes: u64) -> Served {
    let flushed = Cell::new(0);
    let mut input = Lines {
        lines,
        flushed: &flushed,
        reads: 0,
        seen: [0; READS],
    };
    let mut output = Counted {
        taken: 0,
        flushed: &flushed,
        flushes,
        interruptions: 0,
    };
    let ended = serve(alloc, &mut input, &mut output);
    (input.seen, input.reads, output.taken, status(&ended))
}

/// Lines of which each is answered by so many bytes: 14, 9 and 13.
const ANSWERED: &[&str] = &["event create 1 0 a\n", "close 0\n", "close 0\n"];

/// The same lines, with one after the first that is answered by none.
const WITH_BLANK: &[&str] = &["event create 1 0 a\n", "\n", "close 0\n", "close 0\n"];

/// Lines, how often the writer may be flushed, and what comes of it.
const FLUSHES: [(&[&str], u64, Served); 5] = [
    (ANSWERED, 0, ([0; READS], 1, 14, 3)),
    (ANSWERED, 1, ([0, 14, 0, 0, 0, 0, 0, 0], 2, 23, 3)),
    (ANSWERED, 2, ([0, 14, 23, 0, 0, 0, 0, 0], 3, 36, 3)),
    (ANSWERED, 3, ([0, 14, 23, 36, 0, 0, 0, 0], 4, 36, 0)),
    (WITH_BLANK, 10, ([0, 14, 14, 23, 36, 0, 0, 0], 5, 36, 0)),
];

#[test]
fn a_reply_is_flushed_before_the_next_line_is_read(rt: HostRuntime) {
    for (lines, flushes, wanted) in FLUSHES {
        assert_same(&rt, served(rt.alloc(), lines, flushes), wanted);
    }
}
