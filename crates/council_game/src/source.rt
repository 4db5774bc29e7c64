//! A reader, seen call by call.
ghost use Rattle.std.specs.Prelude.{◌≡◌, ℕ, List, Option, Result};
ghost use Rattle.std.specs.Io.{ReadsAtMost};
ghost use Rattle.std.specs.Io.KnownBytes.{ReadConsumes};
ghost use Rattle.std.specs.declared.io.Error.{Error};

use std::io;
use std::io::Read;

/// A reader, seen call by call. Every `Read` is one.
///
/// `is_read` relates the reader and the buffer before a read to its result, and to both after it.
/// Code that knows no more of a reader than this trait can establish it only by making that read:
/// once, and not twice. So a contract over `is_read` says which reads were made, also of a file or
/// a pipe, whose bytes no contract knows.
pub trait Source {
    /// The bytes that are left to read, if they are known.
    ghost left: { Self → Option (List ℕ) };

    ghost is_read: { Self → List ℕ → Result ℕ Error → Self → List ℕ → Type 0 };

    /// Reads once, as `Read::read` does.
    fn read_once(&mut self, buffer: &mut [u8]) -> io::Result<usize>
        ensures { is_read self.old buffer.old result self.new buffer.new };

    /// A read gives at most as many bytes as the buffer has, and these come from those that are
    /// left.
    ghost reads: { (old new : Self) (buffer filled : List ℕ) (result : Result ℕ Error)
        → is_read old buffer result new filled
        → ReadsAtMost result filled × ReadConsumes (left old) (left new) result filled };
}

impl<I: Read> Source for I {
    ghost left = { I.remaining };

    ghost is_read = { λ old buffer result new filled. ReadsAtMost result filled
        × ReadConsumes (I.remaining old) (I.remaining new) result filled };

    // std's contract of `read` also fits a read that is tried again: tests/gate_source.py compares
    // this function with its text.
    fn read_once(&mut self, buffer: &mut [u8]) -> io::Result<usize> {
        self.read(buffer)
    }

    ghost reads = { λ old new buffer filled result is. is };
}
