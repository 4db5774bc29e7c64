//! A report, written whole.
ghost use Rattle.std.specs.Prelude.{◌≡◌, ◌++◌, ◌≤◌, ◌^◌, true, ℕ, List, length, IfSome};
ghost use Rattle.council_game.specs.Lists.{joined};
ghost use Rattle.council_game.specs.declared.limits.TheConstants.{MEMBERS, COALITIONS};
ghost use Rattle.council_game.specs.Game.{AreNonemptyCoalitions};
ghost use Rattle.power_index.specs.Tables.{AreCounts};
ghost use Rattle.council_report.specs.Inner.Lines.{heading_of, lines_of};
ghost use Rattle.council_report.specs.Outcome.{Writes};
ghost use Rattle.council_report.specs.Report.{report_over, report_with};
ghost use Rattle.council_report.specs.SwingLines.{added_fields, swings_report, winning_lines};
ghost use Rattle.power_index.specs.Swings.{AreWinningCounts};

use crate::ReportLines;
use crate::fault::ReportFault;
use crate::game_numbers::{GameNumbers, are_some_counts};
use crate::heading::push_heading;
use crate::output::Block;
use crate::shared_line::SharedLine;
use crate::stream::{put_members, put_pieces, put_sizes};
use council_game::{Coalition, Game, Sink};
use power_index::{Counts, Swings};
use std::alloc::Global;

/// Writes the lines of what is there.
///
/// The coalitions lie in pieces, and need be there only if they are shown.
fn write_numbers<W: Sink>(
    alloc: Global,
    numbers: &GameNumbers<'_>,
    pieces: &[&[Coalition]],
    shown: ReportLines,
    writer: &mut W,
) -> Result<u64, ReportFault>
    requires few { shown.list ≡ true → length (joined pieces.now) ≤ 2 ^ MEMBERS }
    requires coalitions { AreNonemptyCoalitions numbers.now.game.now (joined pieces.now) }
    ensures { Writes W.held W.is_write W.is_flush
        (heading_of shown numbers.now ++ lines_of shown numbers.now (joined pieces.now))
        writer.old writer.new result }
{
    let mut block = Block::new(alloc)?;
    push_heading(&mut block, numbers, shown);
    if block.refused {
        // memory: for a line of the heading it was refused
        return Err(ReportFault::Memory);
    }
    let mut line = SharedLine::new(alloc, numbers.game)?;
    block.settle(writer);
    put_pieces(&mut block, writer, numbers.game, pieces, &mut line, shown);
    put_sizes(&mut block, writer, numbers, shown);
    put_members(&mut block, writer, numbers);
    block.finish(writer)
}

/// Writes the report of a game over a list of its coalitions, and flushes once.
///
/// The list has at least one coalition, and the counts are its own. The pieces have at most 2^40
/// coalitions, none of them empty; if the list is shown, they are the list, one after the other. If
/// there are swings, they are shown too. The answer is the number of bytes.
///
/// No byte goes out before all memory is there.
///
/// # Errors
///
/// As for `write_report`.
pub fn write_report_of<W: Sink>(
    alloc: Global,
    game: &Game,
    pieces: &[&[Coalition]],
    counts: &Counts,
    swings: Option<&Swings>,
    shown: ReportLines,
    writer: &mut W,
) -> Result<u64, ReportFault>
    ghost list: { List ℕ }
    requires some { 1 ≤ length list }
    requires few { length (joined pieces.now) ≤ 2 ^ MEMBERS }
    requires pieces { shown.list ≡ true → joined pieces.now ≡ list }
    requires coalitions { AreNonemptyCoalitions game.now (joined pieces.now) }
    requires counts { AreCounts game.now list counts.now }
    requires swings { IfSome swings (λ s. AreWinningCounts game.now s.now) }
    ensures { Writes W.held W.is_write W.is_flush
        (report_with (winning_lines game.now swings.entry) (added_fields game.now swings.entry) shown game.now list)
        writer.old writer.new result }
{
    // The lines are made from the counts; that they are those of the list is shown here.
    game.was_checked();
    are_some_counts(game, counts);
    let numbers = GameNumbers {
        game,
        counts: Some(counts),
        swings,
    };
    write_numbers(alloc, &numbers, pieces, shown, writer)
}

/// Writes the report of only the swings of a game, and flushes once.
///
/// Of the optional lines only the notation is shown. The answer is the number of bytes.
///
/// No byte goes out before all memory is there.
///
/// # Errors
///
/// As for `write_report`.
pub fn write_swings<'a, W: Sink>(
    alloc: Global,
    game: &'a Game,
    swings: &'a Swings,
    shown: ReportLines,
    writer: &mut W,
) -> Result<u64, ReportFault>
    requires { AreWinningCounts game.now swings.now }
    ensures { Writes W.held W.is_write W.is_flush (swings_report shown game.now)
        writer.old writer.new result }
{
    game.was_checked();
    let numbers = GameNumbers {
        game,
        counts: None,
        swings: Some(swings),
    };
    let shown = ReportLines {
        list: false,
        sizes: false,
        notation: shown.notation,
    };
    write_numbers(alloc, &numbers, &[], shown, writer)
}

/// Writes the report of a game over a list, and flushes once.
///
/// The list has 1 to 4,000,000 coalitions of the game, none of them empty. The answer is the number
/// of bytes.
///
/// No byte goes out before all memory is there.
///
/// # Errors
///
/// Memory if an allocation was refused; nothing was written then. Write if a write or the flush
/// failed, or a write took nothing; it tells how many bytes the writer took, which are the first
/// ones of the report.
pub fn write_report<W: Sink>(
    alloc: Global,
    game: &Game,
    list: &[Coalition],
    shown: ReportLines,
    writer: &mut W,
) -> Result<u64, ReportFault>
    requires some { 1 ≤ length list.now }
    requires few { length list.now ≤ COALITIONS }
    requires coalitions { AreNonemptyCoalitions game.now list.now }
    ensures { Writes W.held W.is_write W.is_flush (report_over shown game.now list.now)
        writer.old writer.new result }
{
    let counts = Counts::of(game, list);
    write_report_of(alloc, game, &[list], &counts, None, shown, writer)
}
