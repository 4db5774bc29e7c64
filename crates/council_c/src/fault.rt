//! Why there is no report.
ghost use Rattle.std.specs.Prelude.{◌≡◌, Some};
ghost use Rattle.std.specs.Fmt.InlineText.{inline_text};
ghost use Rattle.council_c.specs.Answer.{Tells, status_of_call, text_of_call};
ghost use Rattle.council_c.specs.declared.fault.Fault.TheVariants as fault;
ghost use Rattle.council_run.specs.declared.fault.Cause.TheVariants as cause;

use crate::page::put;
use council_game::{Memory, short_text};
use council_run::{Cause, RunFault, status};
use std::fmt;
use std::fmt::InlineText;
use thiserror::Error;

/// Why there is no report, with the texts of the program.
#[derive(Clone, Copy, Debug, Error)]
pub enum Fault {
    /// A length, or the size of a struct, is none that the call takes.
    Size,
    /// No call takes the options.
    Options,
    /// The run stopped.
    Run(Cause),
    /// A walk made as many visits as it may.
    TooLong,
}

/// The text of each fault. (By hand: docs/DECISIONS.md says why.)
impl fmt::Display for Fault {
    ghost output = { λ fault. Some (text_of_call fault) };

    fn fmt<W: fmt::Write>(&self, f: &mut fmt::Formatter<W>) -> fmt::Result {
        f.write_str(self.text().as_str())
    }
}

impl From<Memory> for Fault {
    ghost from_gives = { λ _ e. e ≡ fault.Run cause.Memory };

    fn from(_e: Memory) -> Fault {
        Fault::Run(Cause::Memory)
    }
}

impl From<RunFault> for Fault {
    ghost from_gives = { λ why e. e ≡ fault.Run why.cause };

    fn from(why: RunFault) -> Fault {
        Fault::Run(why.cause)
    }
}

impl Fault {
    /// Returns the status of a call that this fault stopped.
    pub(crate) fn status(self) -> u32
        ensures { result ≡ status_of_call self }
    {
        match self {
            Fault::Size => 8,
            Fault::Options => 2,
            Fault::Run(cause) => u32::from(status(&RunFault { cause, written: 0 })),
            Fault::TooLong => 7,
        }
    }

    /// Returns the text of the fault.
    fn text(self) -> InlineText<100>
        ensures { inline_text result ≡ text_of_call self }
    {
        match self {
            Fault::Size => short_text("bad size"),
            Fault::Options => short_text("bad options"),
            Fault::Run(cause) => cause.text(),
            Fault::TooLong => short_text("too many visits"),
        }
    }

    /// Puts its text into a buffer, as much as fits, and returns how long the text is.
    pub(crate) fn put_words(self, room: &mut [u8]) -> u64
        ensures { Tells self room.old room.new result }
    {
        let text = self.text();
        let bytes = text.as_str().as_bytes();
        put(bytes, room);
        bytes.len() as u64
    }
}
