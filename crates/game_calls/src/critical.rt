//! Members that a coalition cannot do without.
ghost use Rattle.council_game.specs.Members.{members};
ghost use Rattle.power_index.specs.Swings.{is_critical};
ghost use Rattle.std.specs.List.{filter};
ghost use Rattle.std.specs.Prelude.{◌≡◌, ◌<◌, IfOk, length};

use crate::membership::{has_member, without_member};
use council_game::{Coalition, Game, Memory};
use std::alloc::Global;

/// Returns whether a member is critical in a coalition.
///
/// It is in, the coalition wins, and loses without it (Felsenthal and Machover 1998). Members are
/// given by their places in the file.
pub fn is_critical(game: &Game, coalition: Coalition, member: usize) -> bool
    requires { member < length game.now.names }
    ensures { result ≡ is_critical game.now coalition member }
{
    has_member(game, coalition, member)
        && game.wins(coalition)
        && !game.wins(without_member(game, coalition, member))
}

/// Returns the critical members of a coalition, in the order of the file.
///
/// Each is given by its place in the file.
///
/// # Errors
///
/// `Memory` if an allocation was refused.
pub fn critical_members(
    alloc: Global,
    game: &Game,
    coalition: Coalition,
) -> Result<Vec<usize>, Memory>
    ensures { IfOk result
        (λ v. v.items ≡ filter (is_critical game.now coalition) (members game.now)) }
{
    let mut critical = Vec::new(alloc);
    for member in 0..game.members() {
        if is_critical(game, coalition, member) {
            critical.push(member)?;
        }
    }
    Ok(critical)
}
