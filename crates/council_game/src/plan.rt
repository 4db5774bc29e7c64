//! How the coalitions of a game are found.

/// How the minimal winning coalitions of a game are found for its report.
#[derive(Clone, Copy, Debug, PartialEq, Eq)]
pub enum Plan {
    /// Worker threads list them. There may be at most `most`.
    List,
    /// They are only counted. There may be any number.
    Count,
    /// Worker threads list them. If there are more than `most`, and the report shows no list, they
    /// are counted by states. They are too many only if that takes too many states.
    Either,
}
