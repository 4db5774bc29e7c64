//! Coalitions by the names of their members.
ghost use Rattle.council_game.specs.Members.{contains};
ghost use Rattle.game_calls.specs.Named.{is_named, is_unnamed};
ghost use Rattle.std.specs.List.{list_any};
ghost use Rattle.std.specs.Prelude.{◌≡◌, ◌<◌, ◌^◌, ℕ, IfErr, IfOk, IfSome, None, Some, length, position};

use crate::membership::with_member;
use council_game::{Coalition, Game};

/// Returns whether no member has a name.
fn is_unnamed(game: &Game, name: &str) -> bool
    ensures { result ≡ is_unnamed game.now name.now }
{
    match game.member_named(name) {
        Some(_) => false,
        None => true,
    }
}

/// Returns the place of the first of these names that no member has.
///
/// It is none if each has a member.
pub fn first_unnamed(game: &Game, names: &[&str]) -> Option<usize>
    ensures place { result ≡ position (λ name. is_unnamed game.now name.now) names.now }
    ensures bound { IfSome result (λ k. k < length names.now) }
{
    names.iter().position(|name| is_unnamed(game, name))
}

/// Returns the coalition of the members with these names.
///
/// A name that nobody has counts for nothing.
fn coalition_of_names(game: &Game, names: &[&str]) -> Coalition
    ensures members { (i : ℕ) → i < length game.now.names → contains game.now i result
        ≡ list_any (λ name. is_named game.now i name.now) names.now }
    ensures below { result < 2 ^ length game.now.names }
{
    let mut coalition = Coalition::none();
    for name in names {
        if let Some(member) = game.member_named(name) {
            coalition = with_member(game, coalition, member);
        }
    }
    coalition
}

/// Returns the coalition of the members with these names, in any order.
///
/// A member that is named twice is in once.
///
/// # Errors
///
/// The place of the first name that no member has.
pub fn coalition_named(game: &Game, names: &[&str]) -> Result<Coalition, usize>
    ensures unnamed { IfErr result
        (λ k. position (λ name. is_unnamed game.now name.now) names.now ≡ Some k) }
    ensures named { IfOk result
        (λ _. position (λ name. is_unnamed game.now name.now) names.now ≡ None) }
    ensures members { IfOk result (λ c. (i : ℕ) → i < length game.now.names → contains game.now i c
        ≡ list_any (λ name. is_named game.now i name.now) names.now) }
    ensures below { IfOk result (λ c. c < 2 ^ length game.now.names) }
{
    match first_unnamed(game, names) {
        Some(k) => Err(k),
        None => Ok(coalition_of_names(game, names)),
    }
}
