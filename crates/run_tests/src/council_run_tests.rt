//! Runs and their threads, and what faults say.
mod failures;
mod gates;
mod refusals;
mod texts;

ghost use Rattle.std.specs.Prelude.{◌≤◌};
ghost use Rattle.council_game.specs.declared.limits.TheConstants.{BITS, WORKERS};

use crate::helpers::assert_same;
use council_game::GameFault;
use council_run::{Cause, Options, RunFault, run, tally};
use mwc_gather::GatherFault;
use std::alloc::Global;
use std::io::{self, ErrorKind, Read, Write};
use std::process::Abort;
use std::sync::Wait;
use std::thread::Threads;

/// Returns options of these numbers; the report has a line for each coalition and for each size.
fn options(workers: u8, bits: u8) -> Options
    requires workers { (1 ≤ workers) × (workers ≤ WORKERS) }
    requires bits { bits ≤ BITS }
{
    Options {
        workers,
        bits,
        most: 1_000_000,
        room: 1 << 22,
        list: true,
        sizes: true,
        notation: false,
    }
}

/// A reader of at most 7 bytes at once, and a writer of at most 100. Its call `fails_at` fails.
#[derive(Drop)]
struct Stream {
    left: &'static [u8],
    fails_at: u64,
    calls: u64,
    written: u64,
}

impl Stream {
    /// Makes a stream of these bytes, whose call of this number, from 1, fails.
    fn failing(left: &'static [u8], fails_at: u64) -> Stream {
        Stream {
            left,
            fails_at,
            calls: 0,
            written: 0,
        }
    }
}

impl Read for Stream {
    fn read(&mut self, buf: &mut [u8]) -> io::Result<usize> {
        self.flush()?;
        let most = buf.len().min(7);
        self.left.read(&mut buf[..most])
    }
}

impl Write for Stream {
    fn write(&mut self, bytes: &[u8]) -> io::Result<usize> {
        self.flush()?;
        let count = bytes.len().min(100);
        self.written = self.written.saturating_add(count as u64);
        Ok(count)
    }

    fn flush(&mut self) -> io::Result<()> {
        self.calls = self.calls.saturating_add(1);
        if self.calls == self.fails_at {
            return Err(io::Error::from(ErrorKind::Interrupted));
        }
        Ok(())
    }
}
