//! A game with the numbers that its report shows.
ghost use Rattle.std.specs.Prelude.{◌≤◌, ℕ, List, IfSome, length};
ghost use Rattle.std.proofs.Props.{props};
ghost use Rattle.council_game.specs.Game.{IsGame};
ghost use Rattle.council_report.specs.Inner.Numbers.{AreSomeCounts};
ghost use Rattle.power_index.specs.Tables.{AreCounts};
ghost use Rattle.power_index.specs.Swings.{AreWinningCounts};

use council_game::Game;
use power_index::{Counts, Swings};

/// A game, and what is shown of it.
#[derive(Drop)]
pub(crate) struct GameNumbers<'a> {
    pub(crate) game: &'a Game,
    /// The counts of a list of its coalitions. The list itself need not be there.
    pub(crate) counts: Option<&'a Counts>,
    pub(crate) swings: Option<&'a Swings>,
    ghost is_game: { IsGame game.now },
    ghost counted: { IfSome counts (λ c. AreSomeCounts game.now c.now) } by { Prim.hlevel props },
    ghost winning: { IfSome swings (λ s. AreWinningCounts game.now s.now) } by { Prim.hlevel props },
}

/// For the prover: what holds of the counts of some of a game's coalitions.
pub(crate) fn are_some_counts(game: &Game, counts: &Counts)
    requires game { IsGame game.now }
    ensures { (list : List ℕ) → 1 ≤ length list → AreCounts game.now list counts.now
        → AreSomeCounts game.now counts.now }
{
    counts.members();
}
