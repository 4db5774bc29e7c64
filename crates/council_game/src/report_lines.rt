//! Which optional lines a report has.
ghost use Rattle.council_game.specs.Options.{without_list};
ghost use Rattle.std.specs.Prelude.{◌≡◌};

/// The optional lines of a report.
#[derive(Clone, Copy, Debug, PartialEq, Eq)]
pub struct ReportLines {
    /// A line for each minimal winning coalition.
    pub list: bool,
    /// A line for each size that a minimal winning coalition has.
    pub sizes: bool,
    /// A line with the notation of each rule.
    pub notation: bool,
}

impl ReportLines {
    /// Returns these lines without a line for each coalition.
    pub fn without_list(self) -> ReportLines
        ensures { result ≡ without_list self }
    {
        ReportLines {
            list: false,
            sizes: self.sizes,
            notation: self.notation,
        }
    }
}
