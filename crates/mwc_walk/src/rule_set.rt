//! Sets of rules, and the ways of a game as such.
ghost use Rattle.std.specs.Prelude.{◌≡◌, ◌<◌, ℕ, [], length, slice_index_or};
ghost use Rattle.council_game.specs.Game.{votes_of};
ghost use Rattle.mwc_walk.specs.Inner.Places.{IsWay};

use council_game::{Game, limits};

/// Says of each rule whether it is in a set.
pub(crate) type RuleSet = [bool; limits::RULES];

/// Returns the rules of a way.
fn set_of(game: &Game, way: usize) -> RuleSet
    requires { way < length game.now.ways }
    ensures { IsWay (votes_of game.now) way result }
{
    game.was_checked();
    let mut set = [false; limits::RULES];
    for rule in game.way(way) {
        set[*rule] = true;
    }
    set
}

/// Returns the rules of each way; copies of the first after them.
pub(crate) fn sets_of(game: &Game) -> [RuleSet; limits::WAYS]
    ensures { (k : ℕ) → k < length (votes_of game.now).ways →
        IsWay (votes_of game.now) k (slice_index_or result k []) }
{
    let ways = game.ways();
    let mut sets = [set_of(game, 0); limits::WAYS];
    for way in 1..ways {
        sets[way] = set_of(game, way);
    }
    sets
}
