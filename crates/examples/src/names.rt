//! Coalitions by the names of their members.
ghost use Rattle.council_game.specs.Game.{votes_of};
ghost use Rattle.council_game.specs.Members.{contains, members};
ghost use Rattle.council_game.specs.Votes.{has, wins};
ghost use Rattle.power_index.specs.Swings.{is_critical};
ghost use Rattle.game_calls.specs.Named.{is_named, is_unnamed};
ghost use Rattle.std.specs.Cmp.Lexicographic.{pointwise};
ghost use Rattle.std.specs.List.{filter, list_any};
ghost use Rattle.std.specs.Prelude.{◌≡◌, ◌==◌, ◌<◌, ◌∷◌, [], ℕ, ◌⊎◌, IfNone, IfOk, IfSome, None, Some, length, nat_eq, position, slice_index};

use council_game::{Game, Memory};
use game_calls::{coalition_named, critical_members};
use std::alloc::Global;

/// Returns whether two members, given by their names, win together.
///
/// It is none if the game has no member of a name.
pub fn win_together(game: &Game, first: &str, second: &str) -> Option<bool>
    ensures won { IfSome result (λ won. (i j c : ℕ)
        × (position (pointwise nat_eq first.now) game.now.names ≡ Some i)
        × (position (pointwise nat_eq second.now) game.now.names ≡ Some j)
        × ((k : ℕ) → k < length game.now.names →
        has (length game.now.names) (slice_index game.now.ranks k) c
        ≡ list_any (λ m. m == k) (i ∷ j ∷ []))
        × (won ≡ wins (votes_of game.now) c)) }
    ensures unnamed { IfNone result
        ((position (pointwise nat_eq first.now) game.now.names ≡ None)
        ⊎ (position (pointwise nat_eq second.now) game.now.names ≡ None)) }
{
    let first = game.member_named(first)?;
    let second = game.member_named(second)?;
    Some(game.wins(game.coalition_of(&[first, second])))
}

/// Returns the critical members of the coalition with these names.
///
/// Each is given by its place in the file. It is none if nobody has a name.
///
/// # Errors
///
/// `Memory` if an allocation was refused.
pub fn find_critical(
    alloc: Global,
    game: &Game,
    names: &[&str],
) -> Result<Option<Vec<usize>>, Memory>
    ensures critical { IfOk result (λ o. IfSome o (λ v. (c : ℕ)
        × ((i : ℕ) → i < length game.now.names →
        contains game.now i c ≡ list_any (λ name. is_named game.now i name.now) names.now)
        × (v.items ≡ filter (is_critical game.now c) (members game.now)))) }
    ensures unnamed { IfOk result (λ o. IfNone o ((k : ℕ)
        × (position (λ name. is_unnamed game.now name.now) names.now ≡ Some k))) }
{
    match coalition_named(game, names) {
        Ok(coalition) => Ok(Some(critical_members(alloc, game, coalition)?)),
        Err(_) => Ok(None),
    }
}
