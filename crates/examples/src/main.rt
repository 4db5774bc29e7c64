//! Examples: small complete functions over the public calls, each as you would write it in a crate
//! of your own, with the contract that its callers want. The program prints both indices of each
//! member of the game on standard input, a line for each.
#![tactic(auto)]

mod coalitions;
mod counts;
mod names;
mod rings;
mod slices;
mod tables;
#[cfg(test)]
mod tests;

ghost use Rattle.council_game.specs.declared.limits.TheConstants.{COALITIONS};
ghost use Rattle.council_game.specs.Game.{votes_of};
ghost use Rattle.council_game.specs.Members.{members};
ghost use Rattle.council_game.specs.Votes.{minimal_coalitions};
ghost use Rattle.power_index.specs.MemberIndices.{indices_of_member};
ghost use Rattle.std.specs.Prelude.{◌≡◌, ◌<◌, IfNone, IfOk, IfSome, length, map};

use council_file::read_game;
use council_game::{Game, Memory, limits};
use mwc_walk::list_all;
use power_index::{Counts, MemberIndices, all_indices};
use std::alloc::Global;
use std::process::ExitCode;

/// Returns both indices of each member, in the order of the file.
///
/// It is none if the game has more than 4,000,000 minimal winning coalitions.
///
/// # Errors
///
/// `Memory` if an allocation was refused.
pub fn indices_of(alloc: Global, game: &Game) -> Result<Option<Vec<MemberIndices>>, Memory>
    ensures indices { IfOk result (λ o. IfSome o (λ v. v.items ≡
        map (indices_of_member game.now (minimal_coalitions (votes_of game.now))) (members game.now))) }
    ensures count { IfOk result (λ o. IfSome o (λ v. length v.items ≡ length game.now.names)) }
    ensures more { IfOk result
        (λ o. IfNone o (COALITIONS < length (minimal_coalitions (votes_of game.now)))) }
{
    let Some(list) = list_all(alloc, game, limits::COALITIONS)? else {
        return Ok(None);
    };
    let counts = Counts::of(game, &list);
    Ok(Some(all_indices(alloc, &counts)?))
}

fn main(rt: HostRuntime) -> ExitCode {
    let alloc = rt.alloc();
    let Ok(game) = read_game(alloc, &mut rt.stdin()) else {
        return ExitCode::from(2);
    };
    let Ok(Some(indices)) = indices_of(alloc, &game) else {
        return ExitCode::from(3);
    };
    for i in 0..indices.len() {
        let both = &indices[i];
        let name = game.name(i);
        if println!(rt; "{name}\t{}\t{}", both.deegan_packel, both.public_good).is_err() {
            return ExitCode::from(5);
        }
    }
    ExitCode::SUCCESS
}
