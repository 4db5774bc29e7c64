//! The words that go through a pipe.
use council_game::Coalition;

/// A word of a worker to the gatherer, or of the gatherer to a worker.
#[derive(Clone, Copy, Debug, Eq, PartialEq)]
pub enum Word {
    /// The coalitions of the slice of this number come next.
    Open(u16),
    /// A coalition.
    One(Coalition),
    /// The slice of this number is whole.
    Done(u16),
    /// Nothing more comes; `cut` says that a slice was not finished.
    End { cut: bool },
}
