//! Counting the coalitions and the swings of a small game by trying each coalition.
ghost use Rattle.std.specs.Prelude.{◌≡◌, ◌≤◌, IfOk, length};
ghost use Rattle.council_game.specs.declared.limits.TheConstants.{PLAIN_MEMBERS};
ghost use Rattle.power_index.specs.Swings.{AreWinningCounts, winning_coalitions};
ghost use Rattle.power_index.specs.Tables.{AreCountsOfGame};

use crate::found::on_heap;
use council_game::{Coalition, Game, Memory, plain_list};
use power_index::laws::minimal_coalitions_can_be_counted;
use power_index::{Counts, Swings};
use std::alloc::Global;

/// Lists the winning coalitions of a game of at most 20 members.
#[tactic(auto, using(crate::proofs::Filled::less))]
fn list_winning(alloc: Global, game: &Game) -> Result<Vec<Coalition>, Memory>
    requires { length game.now.names ≤ PLAIN_MEMBERS }
    ensures { IfOk result (λ list. list.items ≡ winning_coalitions game.now) }
{
    let members = game.members();
    let mut list = Vec::new(alloc);
    for mask in (0..1 << members).rev() {
        let coalition = Coalition::of_mask(mask);
        if game.wins(coalition) {
            list.push(coalition)?;
        }
    }
    Ok(list)
}

/// Counts the minimal winning coalitions of a game of at most 20 members.
pub(crate) fn plain_counts(alloc: Global, game: &Game) -> Result<Box<Counts>, Memory>
    requires { length game.now.names ≤ PLAIN_MEMBERS }
    ensures { IfOk result (λ counts. AreCountsOfGame game.now counts.value) }
{
    game.was_checked();
    minimal_coalitions_can_be_counted();
    let all = plain_list(alloc, game)?;
    on_heap(alloc, Counts::of(game, &all))
}

/// Counts the swings of a game of at most 20 members.
pub(crate) fn plain_swings(alloc: Global, game: &Game) -> Result<Swings, Memory>
    requires { length game.now.names ≤ PLAIN_MEMBERS }
    ensures { IfOk result (AreWinningCounts game.now) }
{
    let winning = list_winning(alloc, game)?;
    game.was_checked();
    let counts = on_heap(alloc, Counts::of(game, &winning))?;
    Ok(Swings::of(game, counts))
}
