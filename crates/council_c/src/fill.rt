//! A report in a buffer.
ghost use Rattle.std.specs.Prelude.{◌≡◌, IfErr, IfNone, IfOk, IfSome, OnErr, OnOk, false, length, true};
ghost use Rattle.council_game.specs.Options.{lines_of as lines_in};
ghost use Rattle.council_c.specs.Answer.{FillsBy, Reports, Shows, StopsCall, StopsOn, TakesTooLong};
ghost use Rattle.council_c.specs.Asked.{limit_in};
ghost use Rattle.council_run.specs.Columns.{report_of};
ghost use Rattle.council_run.specs.Findings.{AreFindings, columns_of};

use crate::arrays::name_ways;
use crate::fault::Fault;
use crate::finding::find_in_one_thread;
use crate::options::{Call, read_options};
use crate::page::{Page, put};
use council_file::parse_game;
use council_game::{Game, Memory, ReportLines};
use council_report::ReportFault;
use council_run::{Findings, RunFault};
use std::alloc::Global;
use std::io;

/// Returns how long the report of a game is.
fn write_length(
    alloc: Global,
    game: &Game,
    found: &Findings,
    lines: ReportLines,
) -> Result<u64, Memory>
    requires { AreFindings lines game.now found.now }
    ensures { IfOk result (λ len. len ≡ length (report_of (columns_of found.now) lines game.now)) }
{
    match found.write(alloc, game, lines, &mut io::sink()) {
        Ok(length) => Ok(length),
        // memory: a sink takes every write, so a report into one stops for nothing else
        Err(_) => Err(Memory),
    }
}

/// Puts the report of a game into a buffer, as much as fits, and returns its length.
fn put_report(
    alloc: Global,
    game: &Game,
    found: &Findings,
    lines: ReportLines,
    room: &mut [u8],
) -> Result<u64, Memory>
    requires { AreFindings lines game.now found.now }
    ensures length { IfOk result (λ len. len ≡ length (report_of (columns_of found.now) lines game.now)) }
    ensures text { OnOk result (Shows (report_of (columns_of found.now) lines game.now) room.old room.new) }
    ensures kept { OnErr result (room.new ≡ room.old) }
{
    let mut page = Page::new(alloc, room.len());
    let length = match found.write(alloc, game, lines, &mut page) {
        Ok(length) => length,
        Err(ReportFault::Write { .. }) if page.bytes().len() == room.len() => {
            write_length(alloc, game, found, lines)?
        }
        // memory: a page with room left fails if it cannot grow
        Err(_) => return Err(Memory),
    };
    put(page.bytes(), room);
    Ok(length)
}

/// Puts the report of a game file into a buffer, as much as fits; returns its length, or nothing if
/// a walk made all its visits before its end.
///
/// # Errors
///
/// The first of these: the first fault of the game; too many states; too many coalitions; out of
/// memory.
fn put_game(
    alloc: Global,
    bytes: &[u8],
    call: &Call,
    room: &mut [u8],
) -> Result<Option<u64>, RunFault>
    requires { call.now.tally ≡ true → call.now.options.list ≡ false }
    ensures ok { IfOk result (λ o. IfSome o (FillsBy (report_of call.now.columns (lines_in call.now.options))
        (limit_in call.now.columns call.now.tally call.now.options.most) bytes.now room.old room.new)) }
    ensures long { IfOk result (λ o. IfNone o (TakesTooLong call.now.visits bytes.now)) }
    ensures err { IfErr result (λ fault. StopsOn call.now.columns
        (limit_in call.now.columns call.now.tally call.now.options.most) bytes.now fault.cause) }
    ensures kept { OnErr result (room.new ≡ room.old) }
    ensures same { IfOk result (λ o. IfNone o (room.new ≡ room.old)) }
{
    let game = parse_game(alloc, bytes)?;
    match find_in_one_thread(alloc, &game, call)? {
        Some(found) => Ok(Some(put_report(alloc, &game, &found, call.options.lines(), room)?)),
        None => Ok(None),
    }
}

/// Puts the report of a game file into a buffer, as much as fits; returns its length.
///
/// # Errors
///
/// Size or Options if the words of the options are wrong; TooLong; or as for `put_game`.
pub(crate) fn fill(
    alloc: Global,
    bytes: &[u8],
    words: &[u64],
    room: &mut [u8],
) -> Result<u64, Fault>
    ensures ok { IfOk result (λ len. Reports words.now bytes.now room.old room.new len) }
    ensures err { IfErr result (StopsCall words.now bytes.now) }
    ensures kept { OnErr result (room.new ≡ room.old) }
{
    let call = read_options(words)?;
    if name_ways(&call.ways) {
        return Err(Fault::Options);
    }
    match put_game(alloc, bytes, &call, room) {
        Ok(Some(length)) => Ok(length),
        Ok(None) => Err(Fault::TooLong),
        Err(fault) => Err(Fault::Run(fault.cause)),
    }
}
