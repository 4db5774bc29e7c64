//! Why a run stopped.
ghost use Rattle.std.specs.Prelude.{◌≡◌, ℕ, Some};
ghost use Rattle.std.specs.Fmt.InlineText.{inline_text};
ghost use Rattle.council_report.specs.declared.fault.ReportFault.TheVariants as report;
ghost use Rattle.mwc_gather.specs.declared.fault.GatherFault.TheVariants as gather;
ghost use Rattle.mwc_tally.specs.declared.fault.TallyFault.TheVariants as tally;
ghost use Rattle.council_run.specs.declared.fault.Cause.TheVariants as cause;
ghost use Rattle.council_run.specs.Plans.{is_cause_many};
ghost use Rattle.council_run.specs.Status.{number_of, status_of, text_of};

use council_game::{GameFault, Memory, short_text};
use council_report::ReportFault;
use mwc_gather::GatherFault;
use mwc_tally::TallyFault;
use std::fmt;
use std::fmt::InlineText;
use thiserror::Error;

/// Why a run stopped.
#[derive(Clone, Copy, Debug, Error, PartialEq, Eq)]
pub enum Cause {
    /// The file has no game, or could not be read.
    Game(GameFault),
    /// The minimal winning coalitions could not be gathered, or are more than a run keeps.
    Gather(GatherFault),
    /// The writer failed.
    Write,
    /// A growth was refused.
    Memory,
    /// The swings of the game take more than `MOST_STATES` states.
    States,
}

/// Why a run stopped, and how many bytes the writer took. Only after `Write` it may have taken
/// some.
#[derive(Clone, Copy, Debug, PartialEq, Eq)]
pub struct RunFault {
    pub cause: Cause,
    pub written: u64,
}

impl Cause {
    /// Returns the number of the cause, 1 to 5.
    pub fn number(self) -> u8
        ensures { result ≡ number_of self }
    {
        match self {
            Cause::Game(_) => 1,
            Cause::Gather(_) => 2,
            Cause::Write => 3,
            Cause::Memory => 4,
            Cause::States => 5,
        }
    }

    /// Returns the text of the cause.
    pub fn text(self) -> InlineText<100>
        ensures { inline_text result ≡ text_of self }
    {
        match self {
            Cause::Game(fault) => fault.text(),
            Cause::Gather(fault) => fault.text(),
            Cause::Write => short_text("output failed"),
            Cause::Memory => short_text("out of memory"),
            Cause::States => short_text("too many states for the swings"),
        }
    }
}

/// The text of each cause. (By hand: docs/DECISIONS.md says why.)
impl fmt::Display for Cause {
    ghost output = { λ cause. Some (text_of cause) };

    fn fmt<W: fmt::Write>(&self, f: &mut fmt::Formatter<W>) -> fmt::Result {
        f.write_str(self.text().as_str())
    }
}

impl RunFault {
    /// Returns whether there are too many coalitions.
    pub fn is_too_many(&self) -> bool
        ensures { result ≡ is_cause_many self.now.cause }
    {
        matches!(self.cause, Cause::Gather(GatherFault::TooMany))
    }

    /// Returns a fault before anything was written.
    pub(crate) fn early(cause: Cause) -> RunFault
        ensures { result ≡ record { cause = cause; written = 0 } }
    {
        RunFault { cause, written: 0 }
    }
}

impl From<GameFault> for RunFault {
    ghost from_gives = { λ fault e. e ≡ record { cause = cause.Game fault; written = 0 } };

    fn from(fault: GameFault) -> RunFault {
        RunFault::early(Cause::Game(fault))
    }
}

impl From<GatherFault> for RunFault {
    ghost from_gives = { λ fault e. e ≡ record { cause = cause.Gather fault; written = 0 } };

    fn from(fault: GatherFault) -> RunFault {
        RunFault::early(Cause::Gather(fault))
    }
}

impl From<Memory> for RunFault {
    ghost from_gives = { λ _ e. e ≡ record { cause = cause.Memory; written = 0 } };

    fn from(_e: Memory) -> RunFault {
        RunFault::early(Cause::Memory)
    }
}

impl From<TallyFault> for RunFault {
    ghost from_gives = { λ fault e.
        (fault ≡ tally.Memory → e ≡ record { cause = cause.Memory; written = 0 })
        × (fault ≡ tally.Start → e ≡ record { cause = cause.Gather gather.Start; written = 0 }) };

    fn from(fault: TallyFault) -> RunFault {
        RunFault::early(match fault {
            TallyFault::Memory => Cause::Memory,
            TallyFault::Start => Cause::Gather(GatherFault::Start),
        })
    }
}

impl From<ReportFault> for RunFault {
    ghost from_gives = { λ fault e.
        (fault ≡ report.Memory → e ≡ record { cause = cause.Memory; written = 0 })
        × ((n : ℕ) → fault ≡ report.Write n → e ≡ record { cause = cause.Write; written = n }) };

    fn from(fault: ReportFault) -> RunFault {
        match fault {
            ReportFault::Memory => RunFault::early(Cause::Memory),
            ReportFault::Write { written } => RunFault {
                cause: Cause::Write,
                written,
            },
        }
    }
}

/// Returns the status that the program ends with.
///
/// It is 1 if the game file could not be read, 3 for any other fault of the game, 4 for too many
/// coalitions, 5 if memory, a thread, a ring or the writer failed, and 6 for too many states.
pub fn status(fault: &RunFault) -> u8
    ensures { result ≡ status_of fault.now.cause }
{
    match fault.cause {
        Cause::Game(GameFault::Read) => 1,
        Cause::Game(GameFault::Memory) => 5,
        Cause::Game(_) => 3,
        Cause::Gather(GatherFault::TooMany) => 4,
        Cause::Gather(_) | Cause::Write | Cause::Memory => 5,
        Cause::States => 6,
    }
}
