//! What a status says.
ghost use Rattle.std.specs.Prelude.{◌≡◌, MatchOption};
ghost use Rattle.council_c.specs.Explain.{HasNumbers, IsStoppedBy};
ghost use Rattle.council_game.specs.declared.fault.GameFault.{GameFault};
ghost use Rattle.council_c.specs.declared.fault.Fault.{Fault};

use crate::fault::Fault;
use crate::results::CouncilSummary;
use council_game::{GameFault, limits};
use council_run::Cause;
use mwc_gather::GatherFault;

/// Returns the fault of a game with these numbers, if there is one.
fn game_fault_of(number: u64, member: u64) -> Option<GameFault>
    ensures { MatchOption result ((why : GameFault) → HasNumbers number member why → ⊥) (HasNumbers number member) }
{
    if member > limits::MEMBERS as u64 {
        return None;
    }
    let place = member as u8;
    match number {
        8 => Some(GameFault::Name { member: place }),
        9 => Some(GameFault::SameName { member: place }),
        10 => Some(GameFault::Weight { member: place }),
        _ if member > 0 => None,
        1 => Some(GameFault::Read),
        2 => Some(GameFault::TooLong),
        3 => Some(GameFault::Text),
        4 => Some(GameFault::UnknownKey),
        5 => Some(GameFault::Title),
        6 => Some(GameFault::Quota),
        7 => Some(GameFault::Members),
        11 => Some(GameFault::QuotaRange),
        12 => Some(GameFault::Bracket),
        13 => Some(GameFault::Rules),
        15 => Some(GameFault::Ways),
        // memory: the caller says so
        14 => Some(GameFault::Memory),
        _ => None,
    }
}

/// Returns the fault that stopped a call, if one did.
pub(crate) fn fault_of(status: u32, summary: &CouncilSummary) -> Option<Fault>
    ensures { MatchOption result ((why : Fault) → IsStoppedBy status summary.now why → ⊥) (IsStoppedBy status summary.now) }
{
    match status {
        2 => Some(Fault::Options),
        3 => match game_fault_of(summary.fault, summary.member) {
            Some(fault) => Some(Fault::Run(Cause::Game(fault))),
            None => None,
        },
        4 => Some(Fault::Run(Cause::Gather(GatherFault::TooMany))),
        // memory: the caller says so
        5 => Some(Fault::Run(Cause::Memory)),
        6 => Some(Fault::Run(Cause::States)),
        7 => Some(Fault::TooLong),
        8 => Some(Fault::Size),
        _ => None,
    }
}
