//! What votes decide before all are cast.
ghost use Rattle.game_calls.specs.Winning.{Foresees};

use crate::laws::larger_coalitions_win;
use crate::membership::outsiders;
use council_game::{Coalition, Game};

/// What the votes that are cast decide.
#[derive(Clone, Copy, Debug, PartialEq, Eq)]
pub enum Forecast {
    /// The motion passes, however the others vote.
    Passed,
    /// It fails, however the others vote.
    Failed,
    /// The others decide.
    Open,
}

/// Returns what the votes decide that are cast: the ayes and the nays.
///
/// No member is in both. The others have not voted yet; who abstains counts as a nay.
pub fn foresee(game: &Game, ayes: Coalition, nays: Coalition) -> Forecast
    ensures { Foresees game.now ayes nays result }
{
    game.was_checked();
    larger_coalitions_win();
    if game.wins(ayes) {
        Forecast::Passed
    } else if game.wins(outsiders(game, nays)) {
        Forecast::Open
    } else {
        Forecast::Failed
    }
}
