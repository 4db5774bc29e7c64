//! What a report is made from.
ghost use Rattle.std.specs.Prelude.{◌≡◌, IfOk, IfSome};
ghost use Rattle.council_game.specs.Lists.{joined};
ghost use Rattle.council_game.specs.Game.{votes_of};
ghost use Rattle.council_game.specs.Votes.{minimal_coalitions};
ghost use Rattle.council_report.specs.Outcome.{Writes};
ghost use Rattle.council_report.specs.Report.{report_with};
ghost use Rattle.council_report.specs.SwingLines.{added_fields, winning_lines};
ghost use Rattle.council_run.specs.Found.{HoldAll, IsFound};
ghost use Rattle.power_index.specs.Tables.{AreCountsOfGame};
ghost use Rattle.power_index.specs.Swings.{AreWinningCounts};

use council_game::{Coalition, Game, Memory, ReportLines, Sink};
use council_report::{ReportFault, write_report_of};
use mwc_gather::Gathered;
use power_index::laws::minimal_coalitions_can_be_counted;
use power_index::{Counts, Swings};
use std::alloc::Global;

/// The minimal winning coalitions of a game, if they were kept.
#[derive(Drop)]
pub enum Coalitions {
    /// None was kept: they were only counted.
    Counted,
    /// All of them, in listing order.
    Whole(Vec<Coalition>),
    /// All of them, in the parts of the workers that listed them.
    Parts(Gathered),
}

/// What the report of a game is made from.
#[derive(Drop)]
pub struct Found {
    /// The counts of its minimal winning coalitions.
    pub counts: Box<Counts>,
    pub coalitions: Coalitions,
}

/// Puts counts on the heap.
///
/// # Errors
///
/// `Memory` if an allocation was refused.
pub fn on_heap(alloc: Global, counts: Counts) -> Result<Box<Counts>, Memory>
    ensures { IfOk result (λ own. own.value ≡ counts) }
{
    Ok(Box::new(alloc, counts)?)
}

/// Lists where the coalitions of each slice lie, slice after slice.
pub(crate) fn pieces<'a>(
    alloc: Global,
    game: &Game,
    gathered: &'a Gathered,
) -> Result<Vec<&'a [Coalition]>, Memory>
    requires { HoldAll game.now gathered.now }
    ensures { IfOk result
        (λ row. joined row.items ≡ minimal_coalitions (votes_of game.now)) }
{
    gathered.pieces(alloc)
}

impl Found {
    /// Writes the report of the game, and returns its length.
    ///
    /// If there are swings, it shows them too.
    ///
    /// # Errors
    ///
    /// As for `council_report::write_report`.
    pub fn write<W: Sink>(
        &self,
        alloc: Global,
        game: &Game,
        swings: Option<&Swings>,
        lines: ReportLines,
        writer: &mut W,
    ) -> Result<u64, ReportFault>
        requires found { IsFound game.now lines self.now }
        requires swings { IfSome swings (λ s. AreWinningCounts game.now s.now) }
        ensures { Writes W.held W.is_write W.is_flush
            (report_with (winning_lines game.now swings.entry) (added_fields game.now swings.entry)
            lines game.now (minimal_coalitions (votes_of game.now))) writer.old writer.new result }
    {
        game.was_checked();
        minimal_coalitions_can_be_counted();
        let counts = &self.counts;
        match &self.coalitions {
            Coalitions::Counted => {
                write_report_of(alloc, game, &[], counts, swings, lines, writer)
            }
            Coalitions::Whole(list) => {
                let pieces = [list.as_slice()];
                write_report_of(alloc, game, &pieces, counts, swings, lines, writer)
            }
            Coalitions::Parts(gathered) => {
                let pieces = pieces(alloc, game, gathered)?;
                write_report_of(alloc, game, &pieces, counts, swings, lines, writer)
            }
        }
    }
}
