//! The block through which a report goes to its writer.
ghost use Rattle.std.specs.Prelude.{◌≡◌, ◌≤◌, ◌+◌, [], false, length, IfOk};
ghost use Rattle.std.specs.Vec.{vec_capacity};
ghost use Rattle.council_report.specs.Inner.Writing.{Takes};
ghost use Rattle.council_report.specs.Sending.{Sending};
ghost use Rattle.council_report.specs.declared.output.TheConstants.{LINE, ROOM};

use crate::fault::ReportFault;
use council_game::Sink;
use std::alloc::{AllocError, Global};

/// The bytes of a block.
const ROOM: usize = 65_536;

/// The bytes that are kept free for the next line, which is no longer.
pub(crate) const LINE: usize = 4_096;

/// For the prover: the numbers of the constants, which clauses name.
fn are_these_numbers()
    ensures room { ROOM ≡ 65536 }
    ensures line { LINE ≡ 4096 }
{}

/// Writes all bytes, and returns how many the writer took.
///
/// If the writer takes fewer than it is given, it is asked again for those that are left. A write
/// that takes none or fails, whatever the cause, is the last call.
fn write_whole<W: Sink>(writer: &mut W, bytes: &[u8]) -> usize
    ensures { Takes (Sending W.is_write W.is_flush) bytes.now writer.old writer.new result }
{
    let mut written = 0;
    while written < bytes.len() {
        match writer.write_once(&bytes[written..]) {
            Ok(0) | Err(_) => return written,
            Ok(count) => written += count,
        }
    }
    written
}

/// Bytes on their way to a writer.
#[derive(Drop)]
pub(crate) struct Block {
    pub(crate) bytes: Vec<u8>,
    /// Whether memory for some was refused.
    pub(crate) refused: bool,
    /// How many bytes the writer took before.
    pub(crate) written: u64,
    /// Whether a write failed or took nothing: then there is no other, and bytes are dropped.
    pub(crate) stopped: bool,
}

impl Block {
    ghost use Rattle.council_report.specs.Inner.Written.{Advances, progress_of};
    ghost use Rattle.council_report.specs.Inner.Ready.{HasRoom, IsReady, CanCount, AppendsInRoom};
    ghost use Rattle.council_report.specs.Inner.Writing.{Drains, Finishes};

    /// Makes an empty block with all its room.
    pub(crate) fn new(alloc: Global) -> Result<Block, AllocError>
        ensures empty { IfOk result (λ block. (block.bytes.items ≡ []) × (block.written ≡ 0) × (block.stopped ≡ false)) }
        ensures kept { IfOk result (λ block. block.refused ≡ false) }
        ensures room { IfOk result HasRoom }
    {
        Ok(Block {
            // memory: a block, whose room a clause says
            bytes: Vec::with_capacity(alloc, ROOM)?,
            refused: false,
            written: 0,
            stopped: false,
        })
    }

    /// Appends bytes.
    pub(crate) fn push(&mut self, bytes: &[u8])
        ensures { AppendsInRoom self.old self.new bytes.now }
    {
        // memory: what was refused is noted, and a clause says when it is not
        self.refused |= self.bytes.extend_from_slice(bytes).is_err();
    }

    /// Writes all bytes, and leaves the block empty.
    fn drain<W: Sink>(&mut self, writer: &mut W)
        requires { CanCount self.old [] }
        ensures calls { Drains (Sending W.is_write W.is_flush)
            (progress_of writer.old self.old) (progress_of writer.new self.new) }
        ensures empty { self.new.bytes.items ≡ [] }
        ensures count { self.new.written ≤ self.old.written + length self.old.bytes.items }
        ensures capacity { vec_capacity self.new.bytes ≡ vec_capacity self.old.bytes }
        ensures refused { self.new.refused ≡ self.old.refused }
    {
        if self.stopped {
            self.bytes.clear();
            return;
        }
        let taken = write_whole(writer, &self.bytes);
        self.written += taken as u64;
        self.stopped = taken < self.bytes.len();
        self.bytes.clear();
    }

    /// Makes ready for a line: if the next might not fit, all bytes go to the writer.
    pub(crate) fn settle<W: Sink>(&mut self, writer: &mut W)
        requires { CanCount self.old [] }
        ensures tells { Advances (Sending W.is_write W.is_flush)
            (progress_of writer.old self.old) (progress_of writer.new self.new) [] }
        ensures ready { HasRoom self.old → self.old.refused ≡ false → IsReady self.new }
    {
        if self.bytes.len() + LINE > ROOM {
            self.drain(writer);
        }
    }

    /// Writes the last bytes, and flushes the writer once if no write failed.
    ///
    /// It returns the number of bytes that the writer took.
    pub(crate) fn finish<W: Sink>(mut self, writer: &mut W) -> Result<u64, ReportFault>
        requires { CanCount self [] }
        ensures { Finishes (Sending W.is_write W.is_flush) (progress_of writer.old self) writer.new result }
    {
        self.drain(writer);
        let written = self.written;
        if self.stopped {
            return Err(ReportFault::Write { written });
        }
        match writer.flush_once() {
            Ok(()) => Ok(written),
            Err(_) => Err(ReportFault::Write { written }),
        }
    }
}
