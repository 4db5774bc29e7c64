//! The counts of one slice.
ghost use Rattle.std.specs.Prelude.{◌≤◌, ◌<◌, ◌^◌, length};
ghost use Rattle.council_game.specs.declared.limits.TheConstants.{BITS};
ghost use Rattle.council_game.specs.Game.{votes_of};
ghost use Rattle.mwc_walk.specs.Slices.{slice};
ghost use Rattle.power_index.specs.Tables.{AreTallies};
ghost use Rattle.mwc_tally.specs.Inner.SliceCounts.{slice_of};

use crate::sliced_game::SlicedGame;
use council_game::{Game, Gate, NoGate};
use mwc_walk::{SliceProgress, Walk};
use power_index::Counts;

/// Counts slice `j` of a game at `bits` bits, by a walk over it.
///
/// It allocates nothing. There are at most 10 bits, and no more than members; `j` is below 2^bits.
pub fn tally_slice(game: &Game, bits: u8, j: u16) -> Counts
    requires few { bits ≤ BITS }
    requires bits { bits ≤ length game.now.names }
    requires slice { j < 2 ^ bits }
    ensures { AreTallies game.now (slice (votes_of game.now) bits j) result }
{
    count_slice(SlicedGame { game, bits }, j, &NoGate)
}

/// Counts a slice, and informs a gate of progress.
pub(crate) fn count_slice<G: Gate>(slices: SlicedGame<'_>, j: u16, gate: &G) -> Counts
    requires { j < 2 ^ slices.bits }
    ensures { AreTallies slices.entry.game.now (slice_of slices.entry j) result }
{
    let mut walk = Walk::new(slices.game, slices.bits, j);
    let mut counts = Counts::none(slices.game);
    let mut progress = SliceProgress::new();
    while let Some(coalition) = progress.next(gate, &mut walk) {
        counts.count(coalition);
    }
    progress.inform(gate, &walk);
    counts
}
