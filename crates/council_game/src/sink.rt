//! A writer, seen call by call.
ghost use Rattle.std.specs.Prelude.{◌≡◌, ℕ, List, Option, Result};
ghost use Rattle.std.specs.Io.{WritesAtMost};
ghost use Rattle.std.specs.Io.KnownBytes.{Keeps, WriteAppends};
ghost use Rattle.std.specs.declared.io.Error.{Error};

use std::io;
use std::io::Write;

/// A writer, seen call by call. Every `Write` is one.
///
/// `is_write` relates the writer and the bytes before a write to its result, and to the writer
/// after it; `is_flush` does so for a flush. Code that knows no more of a writer than this trait
/// can establish each only by making that call: once, and not twice.
pub trait Sink {
    /// The bytes that the writer holds, if they are known.
    ghost held: { Self → Option (List ℕ) };

    ghost is_write: { Self → List ℕ → Result ℕ Error → Self → Type 0 };

    ghost is_flush: { Self → Result Unit Error → Self → Type 0 };

    /// Writes once, as `Write::write` does.
    fn write_once(&mut self, bytes: &[u8]) -> io::Result<usize>
        ensures { is_write self.old bytes.now result self.new };

    /// Flushes once, as `Write::flush` does.
    fn flush_once(&mut self) -> io::Result<()>
        ensures { is_flush self.old result self.new };

    /// A write takes at most the bytes that it is given, and those that it takes are held after the
    /// others.
    ghost writes: { (old new : Self) (bytes : List ℕ) (result : Result ℕ Error)
        → is_write old bytes result new
        → WritesAtMost result bytes × WriteAppends (held old) (held new) result bytes };

    ghost flushes: { (old new : Self) (result : Result Unit Error)
        → is_flush old result new → Keeps (held old) (held new) };
}

impl<W: Write> Sink for W {
    ghost held = { W.contents };

    ghost is_write = { λ old bytes result new. WritesAtMost result bytes
        × WriteAppends (W.contents old) (W.contents new) result bytes };

    ghost is_flush = { λ old _ new. Keeps (W.contents old) (W.contents new) };

    // std's contracts also fit calls that are tried again: tests/gate_source.py compares these two
    // functions with their texts.
    fn write_once(&mut self, bytes: &[u8]) -> io::Result<usize> {
        self.write(bytes)
    }

    fn flush_once(&mut self) -> io::Result<()> {
        self.flush()
    }

    ghost writes = { λ old new bytes result is. is };

    ghost flushes = { λ old new result is. is };
}
