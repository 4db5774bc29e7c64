//! How the sending of a slice ended.

/// How the sending of a slice ended.
#[derive(Clone, Copy, Debug, Eq, PartialEq)]
pub enum Sent {
    /// The whole slice was sent, and `left` more coalitions may be.
    Whole { left: u32 },
    /// The last coalition that may be sent was sent, and the slice is not finished.
    Cut,
    /// The pipe refused a word for good.
    Refused,
}
