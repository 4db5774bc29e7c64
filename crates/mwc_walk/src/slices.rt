//! The slices of a game: how many there are, and one as a list.
ghost use Rattle.std.specs.Prelude.{◌≡◌, ◌≤◌, ◌<◌, ◌^◌, length, take, drop, IfOk, OnOk, IfSome, IfNone};
ghost use Rattle.council_game.specs.declared.limits.TheConstants.{BITS};
ghost use Rattle.council_game.specs.Game.{votes_of};
ghost use Rattle.mwc_walk.specs.Slices.{slice};
ghost use Rattle.council_game.specs.Votes.{minimal_coalitions};
ghost use Rattle.mwc_walk.specs.Listed.{ListsAll};

use crate::Walk;
use council_game::{Coalition, Game, Memory};
use std::alloc::Global;

/// Returns the number of slices at `bits` bits, at most 10: 2^bits.
pub fn slice_count(bits: u8) -> u16
    requires { bits ≤ BITS }
    ensures { result ≡ 2 ^ bits }
{
    1 << bits
}

/// Lists the first `most` coalitions of slice `j` at `bits` bits.
///
/// They are in listing order. If there are no more, it lists all of them.
///
/// There are at most 10 bits, and no more than members; `j` is below 2^bits.
///
/// # Errors
///
/// `Memory` if a growth was refused.
pub fn list_slice(
    alloc: Global,
    game: &Game,
    bits: u8,
    j: u16,
    most: u32,
) -> Result<Vec<Coalition>, Memory>
    requires few { bits ≤ BITS }
    requires bits { bits ≤ length game.now.names }
    requires slice { j < 2 ^ bits }
    ensures { IfOk result (λ v. v.items ≡ take most (slice (votes_of game.now) bits j)) }
{
    let mut walk = Walk::new(game, bits, j);
    list_next(alloc, &mut walk, most)
}

/// Returns the next `most` coalitions of a walk, or all that are still to come if there are no
/// more.
pub(crate) fn list_next(
    alloc: Global,
    walk: &mut Walk<'_>,
    most: u32,
) -> Result<Vec<Coalition>, Memory>
    ensures list { IfOk result (λ v. v.items ≡ take most walk.old.to_come) }
    ensures rest { OnOk result (walk.new.to_come ≡ drop most walk.old.to_come) }
{
    let mut list = Vec::new(alloc);
    for _ in 0..most {
        match walk.next() {
            Some(coalition) => list.push(coalition)?,
            None => break,
        }
    }
    Ok(list)
}

/// Lists all minimal winning coalitions of a game, in listing order.
///
/// It is none if there are more than `most`.
///
/// They are listed in this thread. For a game of few members it is the list that
/// `council_game::plain_list` gives by trying each coalition.
///
/// # Errors
///
/// `Memory` if a growth was refused.
pub fn list_all(alloc: Global, game: &Game, most: u32) -> Result<Option<Vec<Coalition>>, Memory>
    ensures all { IfOk result (λ o. IfSome o (λ v. ListsAll game.now most v.items)) }
    ensures more { IfOk result
        (λ o. IfNone o (most < length (minimal_coalitions (votes_of game.now)))) }
{
    game.was_checked();
    let mut walk = Walk::new(game, 0, 0);
    let list = list_next(alloc, &mut walk, most)?;
    match walk.next() {
        Some(_) => Ok(None),
        None => Ok(Some(list)),
    }
}
