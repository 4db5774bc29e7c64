//! The options of a run.
ghost use Rattle.council_game.specs.declared.limits.TheConstants.{BITS, WORKERS, COALITIONS, STATES};
ghost use Rattle.std.specs.Prelude.{◌≤◌};

use crate::report_lines::ReportLines;

/// The options of a run, each number in its range.
#[derive(Clone, Copy, Debug, PartialEq, Eq)]
pub struct Options {
    /// The number of worker threads, 1 to 16.
    pub workers: u8,
    /// How many of the heaviest members are fixed in each slice, 0 to 10.
    ///
    /// A game with fewer members fixes all of them.
    pub bits: u8,
    /// The greatest number of minimal winning coalitions that a run keeps, 1 to 4,000,000.
    pub most: u32,
    /// The greatest number of states by which a run counts, 1 to 134,217,728.
    pub room: u32,
    /// Write a line for each minimal winning coalition.
    pub list: bool,
    /// Write a line for each size that a minimal winning coalition has.
    pub sizes: bool,
    /// Write a line with the notation of each rule.
    pub notation: bool,
    ghost workers_in_range: { (1 ≤ workers) × (workers ≤ WORKERS) },
    ghost bits_in_range: { bits ≤ BITS },
    ghost most_in_range: { (1 ≤ most) × (most ≤ COALITIONS) },
    ghost room_in_range: { (1 ≤ room) × (room ≤ STATES) },
}

impl Options {
    ghost use Rattle.council_game.specs.Options.{lines_of};
    ghost use Rattle.std.specs.Prelude.{◌≡◌};

    /// Returns the optional lines of the report.
    pub fn lines(&self) -> ReportLines
        ensures { result ≡ lines_of self.now }
    {
        ReportLines {
            list: self.list,
            sizes: self.sizes,
            notation: self.notation,
        }
    }
}
