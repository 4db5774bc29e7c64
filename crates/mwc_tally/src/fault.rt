//! Why a tally failed.
use council_game::Memory;
use thiserror::Error;

/// Why a tally failed.
#[derive(Clone, Copy, Debug, Error, PartialEq, Eq)]
pub enum TallyFault {
    /// An allocation was refused.
    #[error("out of memory")]
    Memory,
    /// A thread could not be started.
    #[error("a worker could not be started")]
    Start,
}

impl From<Memory> for TallyFault {
    fn from(_e: Memory) -> TallyFault {
        TallyFault::Memory
    }
}
