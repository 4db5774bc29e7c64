//! Vetoers.
ghost use Rattle.council_game.specs.Members.{contains};
ghost use Rattle.game_calls.specs.Winning.{IsInAll, IsVetoer};
ghost use Rattle.std.specs.Prelude.{◌≡◌, ◌↔◌, ◌<◌, ◌^◌, ℕ, IsTrue, length, true};

use crate::laws::{larger_coalitions_win, members_of_all_are_vetoers};
use crate::membership::{everyone, with_member, without_member};
use council_game::{Coalition, Game};

/// Returns whether no coalition wins without a member.
///
/// Such a member is a vetoer (Felsenthal and Machover 1998).
pub fn is_vetoer(game: &Game, member: usize) -> bool
    requires { member < length game.now.names }
    ensures { IsTrue result ↔ IsVetoer game.now member }
{
    game.was_checked();
    larger_coalitions_win();
    let others = without_member(game, everyone(game), member);
    !game.wins(others)
}

/// Returns the coalition of all vetoers.
///
/// Without one of them no coalition wins, and they are the members of all minimal winning
/// coalitions.
pub fn vetoers(game: &Game) -> Coalition
    ensures vetoers { (i : ℕ) → i < length game.now.names →
        (contains game.now i result ≡ true) ↔ IsVetoer game.now i }
    ensures in_all { (i : ℕ) → i < length game.now.names →
        (contains game.now i result ≡ true) ↔ IsInAll game.now i }
    ensures below { result < 2 ^ length game.now.names }
{
    game.was_checked();
    members_of_all_are_vetoers();
    let mut vetoers = Coalition::none();
    for member in 0..game.members() {
        if is_vetoer(game, member) {
            vetoers = with_member(game, vetoers, member);
        }
    }
    vetoers
}
