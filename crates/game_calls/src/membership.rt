//! Members of a coalition, each given by its place in the file, from 0.
ghost use Rattle.council_game.specs.Coalitions.{with_member, without};
ghost use Rattle.council_game.specs.Members.{contains};
ghost use Rattle.std.specs.Prelude.{◌≡◌, ◌≢◌, ◌<◌, ◌^◌, ℕ, false, true, if◌then◌else◌, length, not, slice_index};

use crate::laws::nobody_is_in_the_empty_coalition;
use council_game::{Coalition, Game};

/// Returns whether a member is in a coalition.
pub fn has_member(game: &Game, coalition: Coalition, member: usize) -> bool
    requires { member < length game.now.names }
    ensures { result ≡ contains game.now member coalition }
{
    coalition.has(game.members(), game.place_of(member))
}

/// Returns the coalition with one more member.
///
/// It is the same if that member is in.
pub fn with_member(game: &Game, coalition: Coalition, member: usize) -> Coalition
    requires { member < length game.now.names }
    ensures mask { result ≡ if contains game.now member coalition
        then coalition
        else with_member (length game.now.names) (slice_index game.now.ranks member) coalition }
    ensures inside { contains game.now member result ≡ true }
    ensures others { (i : ℕ) → i < length game.now.names → i ≢ member →
        contains game.now i result ≡ contains game.now i coalition }
    ensures below { coalition < 2 ^ length game.now.names → result < 2 ^ length game.now.names }
{
    coalition.with(game.members(), game.place_of(member))
}

/// Returns the coalition without a member.
///
/// It is the same if that member is not in.
pub fn without_member(game: &Game, coalition: Coalition, member: usize) -> Coalition
    requires { member < length game.now.names }
    ensures mask { result ≡ if contains game.now member coalition
        then without (length game.now.names) (slice_index game.now.ranks member) coalition
        else coalition }
    ensures outside { contains game.now member result ≡ false }
    ensures others { (i : ℕ) → i < length game.now.names → i ≢ member →
        contains game.now i result ≡ contains game.now i coalition }
    ensures below { coalition < 2 ^ length game.now.names → result < 2 ^ length game.now.names }
{
    coalition.without(game.members(), game.place_of(member))
}

/// Returns the coalition of all members that are not in a coalition.
pub fn outsiders(game: &Game, coalition: Coalition) -> Coalition
    ensures members { (i : ℕ) → i < length game.now.names →
        contains game.now i result ≡ not (contains game.now i coalition) }
    ensures below { result < 2 ^ length game.now.names }
{
    let mut outsiders = Coalition::none();
    for member in 0..game.members() {
        if !has_member(game, coalition, member) {
            outsiders = with_member(game, outsiders, member);
        }
    }
    outsiders
}

/// Returns the coalition of all members.
pub fn everyone(game: &Game) -> Coalition
    ensures members { (i : ℕ) → i < length game.now.names → contains game.now i result ≡ true }
    ensures below { result < 2 ^ length game.now.names }
{
    nobody_is_in_the_empty_coalition();
    outsiders(game, Coalition::none())
}
