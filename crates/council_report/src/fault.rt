//! Why a report was not written.
ghost use Rattle.std.specs.Prelude.{◌≡◌};
ghost use Rattle.council_report.specs.declared.fault.ReportFault.TheVariants.{Memory};

use std::alloc::AllocError;
use thiserror::Error;

/// Why a report was not written, or not whole.
#[derive(Clone, Copy, Debug, Error, PartialEq, Eq)]
pub enum ReportFault {
    /// A growth was refused, and nothing was written.
    #[error("out of memory")]
    Memory,
    /// The writer failed after it took `written` bytes.
    #[error("output failed")]
    Write { written: u64 },
}

impl From<AllocError> for ReportFault {
    ghost from_gives = { λ _ e. e ≡ Memory };

    fn from(_e: AllocError) -> ReportFault {
        ReportFault::Memory
    }
}

impl From<council_game::Memory> for ReportFault {
    ghost from_gives = { λ _ e. e ≡ Memory };

    fn from(_e: council_game::Memory) -> ReportFault {
        ReportFault::Memory
    }
}
