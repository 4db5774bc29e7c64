//! Coalitions of a game that pass a test: the lightest that wins, and those that block.
ghost use Rattle.council_game.specs.Game.{votes_of};
ghost use Rattle.council_game.specs.Members.{contains};
ghost use Rattle.council_game.specs.Votes.{minimal_coalitions, rule_at, weight, wins};
ghost use Rattle.std.specs.Prelude.{◌<◌, ◌↔◌, ◌≡◌, ◌≤◌, All, Contains, IfSome, IsSome, IsTrue, ℕ, false, length, true};

use council_game::{Coalition, Game};
use game_calls::laws::larger_coalitions_win;
use game_calls::outsiders;
use mwc_walk::Walk;
use mwc_walk::laws::{one_slice_is_the_whole, steps_keep_the_least, steps_keep_the_whole};
use power_index::laws::minimal_coalitions_can_be_counted;

/// Returns a minimal winning coalition of least weight under the first rule.
///
/// It is the best of a walk, which keeps one coalition and compares. The first in listing order
/// need not be it.
pub fn lightest(game: &Game) -> Option<Coalition>
    ensures some { IsSome result }
    ensures listed { IfSome result (Contains (minimal_coalitions (votes_of game.now))) }
    ensures least { IfSome result (λ best. All (λ c.
        weight (rule_at (votes_of game.now).rules 0).weights best
        ≤ weight (rule_at (votes_of game.now).rules 0).weights c)
        (minimal_coalitions (votes_of game.now))) }
{
    game.was_checked();
    one_slice_is_the_whole();
    minimal_coalitions_can_be_counted();
    steps_keep_the_whole();
    steps_keep_the_least();
    let mut walk = Walk::new(game, 0, 0);
    let mut best = walk.next()?;
    while let Some(coalition) = walk.next() {
        if game.weight_of(coalition) < game.weight_of(best) {
            best = coalition;
        }
    }
    Some(best)
}

/// Returns whether no coalition wins that has none of these members.
///
/// Such a coalition is blocking (Felsenthal and Machover 1998).
pub fn is_blocking(game: &Game, coalition: Coalition) -> bool
    ensures { IsTrue result ↔ ((c : ℕ) →
        ((i : ℕ) → i < length game.now.names → contains game.now i c ≡ true
        → contains game.now i coalition ≡ false) → wins (votes_of game.now) c ≡ false) }
{
    game.was_checked();
    larger_coalitions_win();
    !game.wins(outsiders(game, coalition))
}
