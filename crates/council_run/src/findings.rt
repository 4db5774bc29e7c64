//! All that a report is made from.
ghost use Rattle.std.specs.Prelude.{◌≡◌};
ghost use Rattle.council_game.specs.declared.report_lines.ReportLines.{ReportLines};
ghost use Rattle.council_report.specs.Outcome.{Writes};
ghost use Rattle.council_run.specs.Columns.{report_of};
ghost use Rattle.council_run.specs.Findings.{AreFindings, columns_of};

use crate::found::Found;
use council_game::{Game, ReportLines, Sink};
use council_report::{ReportFault, write_swings};
use power_index::Swings;
use std::alloc::Global;

/// All that a report is made from, by what it shows.
#[derive(Drop)]
pub enum Findings {
    /// Only the minimal winning coalitions.
    Minimal(Found),
    /// These, and the swings.
    Both(Found, Swings),
    /// Only the swings.
    Swings(Swings),
}

impl Findings {
    /// Writes the report of the game, and returns its length.
    ///
    /// # Errors
    ///
    /// As for `council_report::write_report`.
    pub fn write<'a, W: Sink>(
        &'a self,
        alloc: Global,
        game: &'a Game,
        lines: ReportLines,
        writer: &mut W,
    ) -> Result<u64, ReportFault>
        requires { AreFindings lines game.now self.now }
        ensures { Writes W.held W.is_write W.is_flush (report_of (columns_of self.now) lines game.now)
            writer.old writer.new result }
    {
        match self {
            Findings::Minimal(found) => found.write(alloc, game, None, lines, writer),
            Findings::Both(found, swings) => found.write(alloc, game, Some(swings), lines, writer),
            Findings::Swings(swings) => write_swings(alloc, game, swings, lines, writer),
        }
    }
}
