//! The beginning of a text.
ghost use Rattle.std.specs.Prelude.{◌≡◌, Some, []};
ghost use Rattle.std.specs.Io.{WritesAtMost};
ghost use Rattle.std.specs.Io.KnownBytes.{Keeps, WriteAppends};
ghost use Rattle.council_c.specs.Answer.{Shows};

use std::alloc::Global;
use std::io;
use std::io::Write;

/// The beginning of a text, as much of it as fits the buffer.
///
/// A write takes what there is room for, and in the end nothing. It fails if the page cannot grow.
#[derive(Drop)]
pub(crate) struct Page {
    bytes: Vec<u8>,
    room: usize,
}

impl Page {
    /// Makes a page with nothing written.
    pub(crate) fn new(alloc: Global, room: usize) -> Page
        ensures bytes { result.bytes.items ≡ [] }
        ensures room { result.room ≡ room }
    {
        Page {
            bytes: Vec::new(alloc),
            room,
        }
    }

    /// Returns what is written.
    pub(crate) fn bytes(&self) -> &[u8]
        ensures { result.now ≡ self.now.bytes.items }
    {
        self.bytes.as_slice()
    }
}

impl Write for Page {
    ghost contents = { λ page. Some page.bytes.items };

    fn write(&mut self, bytes: &[u8]) -> io::Result<usize>
        ensures bound { WritesAtMost result bytes.now }
        ensures bytes { WriteAppends (Some self.old.bytes.items) (Some self.new.bytes.items) result bytes.now }
    {
        let count = bytes.len().min(self.room.saturating_sub(self.bytes.len()));
        self.bytes.extend_from_slice(&bytes[..count])?;
        Ok(count)
    }

    fn flush(&mut self) -> io::Result<()>
        ensures bytes { Keeps (Some self.old.bytes.items) (Some self.new.bytes.items) }
    {
        Ok(())
    }
}

/// Copies a text to the front of a buffer, as much of it as fits.
pub(crate) fn put(text: &[u8], room: &mut [u8])
    ensures { Shows text.now room.old room.new }
{
    let count = text.len().min(room.len());
    room[..count].copy_from_slice(&text[..count]);
}
