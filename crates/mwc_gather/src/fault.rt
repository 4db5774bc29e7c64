//! Why nothing was gathered.
ghost use Rattle.std.specs.Prelude.{◌≡◌, Some};
ghost use Rattle.std.specs.Fmt.InlineText.{inline_text};
ghost use Rattle.mwc_gather.specs.Faults.{text_of};
ghost use Rattle.mwc_gather.specs.Inner.Fault.{first_of};
ghost use Rattle.mwc_gather.specs.declared.fault.GatherFault.TheVariants.{Memory};

use council_game::short_text;
use std::alloc::AllocError;
use std::fmt;
use std::fmt::InlineText;
use thiserror::Error;

/// Why nothing was gathered.
///
/// Of several causes it is the first of `Start`, `Memory`, `Ring` and `TooMany`.
#[derive(Clone, Copy, Debug, Eq, Error, PartialEq)]
pub enum GatherFault {
    /// The game has more minimal winning coalitions than were asked for.
    TooMany,
    /// A thread could not be started, whatever the cause.
    Start,
    /// An allocation was refused.
    Memory,
    /// A ring could not be finished.
    Ring,
}

impl GatherFault {
    /// Returns the text of the fault.
    pub fn text(self) -> InlineText<100>
        ensures { inline_text result ≡ text_of self }
    {
        match self {
            GatherFault::TooMany => short_text("too many minimal winning coalitions"),
            GatherFault::Start => short_text("a worker could not be started"),
            GatherFault::Memory => short_text("out of memory"),
            GatherFault::Ring => short_text("a ring could not be finished"),
        }
    }
}

/// The text of each fault. (By hand: docs/DECISIONS.md says why.)
impl fmt::Display for GatherFault {
    ghost output = { λ fault. Some (text_of fault) };

    fn fmt<W: fmt::Write>(&self, f: &mut fmt::Formatter<W>) -> fmt::Result {
        f.write_str(self.text().as_str())
    }
}

impl From<AllocError> for GatherFault {
    ghost from_gives = { λ _ e. e ≡ Memory };

    fn from(_e: AllocError) -> GatherFault {
        GatherFault::Memory
    }
}

impl From<council_game::Memory> for GatherFault {
    ghost from_gives = { λ _ e. e ≡ Memory };

    fn from(_e: council_game::Memory) -> GatherFault {
        GatherFault::Memory
    }
}

/// Returns the first of two faults: Start, then Memory, then Ring, then TooMany.
pub(crate) fn first_of(met: Option<GatherFault>, fault: GatherFault) -> GatherFault
    ensures { result ≡ first_of met fault }
{
    match (met, fault) {
        (None | Some(GatherFault::TooMany), _) => fault,
        (Some(GatherFault::Start), _) | (_, GatherFault::Start) => GatherFault::Start,
        (Some(GatherFault::Memory), _) | (_, GatherFault::Memory) => GatherFault::Memory,
        (Some(GatherFault::Ring), _) => GatherFault::Ring,
    }
}
