//! What a seek of a walk came to.
use council_game::Coalition;

/// What a seek of a walk came to.
#[derive(Clone, Copy, Debug, Eq, PartialEq)]
pub enum Seek {
    /// The next coalition of the slice.
    Found(Coalition),
    /// Nothing is left of the slice.
    End,
    /// Neither of these yet, after as many visits as you asked for.
    NotYet,
}
