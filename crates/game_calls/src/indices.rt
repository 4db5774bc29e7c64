//! The indices of a member.
ghost use Rattle.council_game.specs.declared.limits.TheConstants.{COALITIONS};
ghost use Rattle.council_game.specs.Game.{votes_of};
ghost use Rattle.council_game.specs.Votes.{minimal_coalitions};
ghost use Rattle.power_index.specs.MemberIndices.{indices_of_member};
ghost use Rattle.std.specs.Prelude.{◌≡◌, ◌<◌, IfNone, IfOk, IfSome, length};

use council_game::{Game, Memory, limits};
use mwc_walk::laws::one_slice_is_the_whole;
use mwc_walk::{Walk, list_all};
use power_index::laws::minimal_coalitions_can_be_counted;
use power_index::{Counts, Index, MemberIndices, deegan_packel, public_good};
use std::alloc::Global;

/// Returns both indices of a member, given by its place in the file.
///
/// It is none if the game has more than 4,000,000 minimal winning coalitions.
///
/// # Errors
///
/// `Memory` if an allocation was refused.
pub fn member_indices(
    alloc: Global,
    game: &Game,
    member: usize,
) -> Result<Option<MemberIndices>, Memory>
    requires { member < length game.now.names }
    ensures indices { IfOk result (λ o. IfSome o (λ both. both ≡
        indices_of_member game.now (minimal_coalitions (votes_of game.now)) member)) }
    ensures more { IfOk result
        (λ o. IfNone o (COALITIONS < length (minimal_coalitions (votes_of game.now)))) }
{
    let Some(list) = list_all(alloc, game, limits::COALITIONS)? else {
        return Ok(None);
    };
    let counts = Counts::of(game, &list);
    Ok(Some(MemberIndices {
        deegan_packel: Index::of(deegan_packel(&counts, member)),
        public_good: Index::of(public_good(&counts, member)),
    }))
}

/// Counts the minimal winning coalitions of a game.
///
/// It walks over the one slice at 0 bits, and takes no memory.
pub fn count_minimal(game: &Game) -> u64
    ensures { result ≡ length (minimal_coalitions (votes_of game.now)) }
{
    game.was_checked();
    one_slice_is_the_whole();
    minimal_coalitions_can_be_counted();
    let mut walk = Walk::new(game, 0, 0);
    let mut count = 0;
    while let Some(_coalition) = walk.next() {
        count += 1;
    }
    count
}
