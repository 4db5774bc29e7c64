//! The lines of a report on their way to its writer.
ghost use Rattle.std.specs.Prelude.{◌<◌, length};
ghost use Rattle.std.specs.List.{flat_map};
ghost use Rattle.council_game.specs.Lists.{joined};
ghost use Rattle.council_game.specs.Game.{AreNonemptyCoalitions};
ghost use Rattle.council_report.specs.Lines.{coalition_line};
ghost use Rattle.council_report.specs.Report.{coalition_lines};
ghost use Rattle.council_report.specs.Inner.Lines.{lines_of_members, lines_of_sizes};
ghost use Rattle.council_report.specs.Inner.SharedLine.{IsReadyLine};
ghost use Rattle.council_report.specs.Inner.Ready.{IsReady, CanCount};
ghost use Rattle.council_report.specs.Inner.Writing.{KeepsReady};
ghost use Rattle.council_report.specs.Inner.Written.{progress_of};
ghost use Rattle.council_report.specs.Sending.{Sending};

use crate::ReportLines;
use crate::count_lines::{push_member, push_size};
use crate::game_numbers::GameNumbers;
use crate::output::Block;
use crate::shared_line::SharedLine;
use council_game::{Coalition, Game, Sink};

/// Appends a line for each coalition, in the order of the list, whichever that is.
fn put_coalitions<W: Sink>(
    block: &mut Block,
    writer: &mut W,
    game: &Game,
    list: &[Coalition],
    line: &mut SharedLine,
)
    requires coalitions { AreNonemptyCoalitions game.now list.now }
    requires line { IsReadyLine game.now line.old }
    requires ready { IsReady block.old }
    requires counted { CanCount block.old (flat_map (coalition_line game.now) list.now) }
    ensures puts { KeepsReady (Sending W.is_write W.is_flush) (progress_of writer.old block.old) writer.new block.new
        (flat_map (coalition_line game.now) list.now) }
    ensures line { IsReadyLine game.now line.new }
{
    for coalition in list {
        line.move_to(game, *coalition);
        line.push(block, game);
        block.settle(writer);
    }
}

/// Appends a line for each coalition, piece after piece, if they are shown.
pub(crate) fn put_pieces<W: Sink>(
    block: &mut Block,
    writer: &mut W,
    game: &Game,
    pieces: &[&[Coalition]],
    line: &mut SharedLine,
    shown: ReportLines,
)
    requires coalitions { AreNonemptyCoalitions game.now (joined pieces.now) }
    requires line { IsReadyLine game.now line.old }
    requires ready { IsReady block.old }
    requires counted { CanCount block.old (coalition_lines shown game.now (joined pieces.now)) }
    ensures { KeepsReady (Sending W.is_write W.is_flush) (progress_of writer.old block.old) writer.new block.new
        (coalition_lines shown game.now (joined pieces.now)) }
{
    if !shown.list {
        return;
    }
    for piece in pieces {
        put_coalitions(block, writer, game, piece, line);
    }
}

/// Appends a line for each size that some coalition has, if they are shown.
pub(crate) fn put_sizes<W: Sink>(
    block: &mut Block,
    writer: &mut W,
    numbers: &GameNumbers<'_>,
    shown: ReportLines,
)
    requires ready { IsReady block.old }
    requires counted { CanCount block.old (lines_of_sizes shown numbers.now) }
    ensures { KeepsReady (Sending W.is_write W.is_flush) (progress_of writer.old block.old) writer.new block.new
        (lines_of_sizes shown numbers.now) }
{
    if !shown.sizes {
        return;
    }
    let Some(counts) = numbers.counts else {
        return;
    };
    for size in 1..numbers.game.members() + 1 {
        push_size(block, counts, size);
        block.settle(writer);
    }
}

/// Appends a line for each member.
pub(crate) fn put_members<W: Sink>(block: &mut Block, writer: &mut W, numbers: &GameNumbers<'_>)
    requires ready { IsReady block.old }
    requires counted { CanCount block.old (lines_of_members numbers.now) }
    ensures { KeepsReady (Sending W.is_write W.is_flush) (progress_of writer.old block.old) writer.new block.new
        (lines_of_members numbers.now) }
{
    for member in 0..numbers.game.members() {
        push_member(block, numbers, member);
        block.settle(writer);
    }
}
