//! Which numbers a report shows.

/// Which numbers a report shows.
#[derive(Clone, Copy, Debug, PartialEq, Eq)]
pub enum Columns {
    /// Those of the minimal winning coalitions.
    Minimal,
    /// Those, and the swings with what rests on them.
    Both,
    /// The swings, and what rests on them.
    Swings,
}
