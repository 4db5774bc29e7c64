//! A game cut into slices.
ghost use Rattle.std.specs.Prelude.{◌≡◌, ◌≤◌, ◌^◌, length};
ghost use Rattle.council_game.specs.declared.limits.TheConstants.{BITS};

use crate::thread_counts::ThreadCounts;
use council_game::{Game, Memory};
use mwc_walk::slice_count;
use std::thread::Promise;

/// A game in slices: `bits` of its heaviest members are fixed in each.
#[derive(Clone, Copy)]
pub(crate) struct SlicedGame<'a> {
    pub game: &'a Game,
    /// How many of the heaviest members are fixed, 0 to 10, and no more than members.
    pub bits: u8,
    ghost bits_fit: { (bits ≤ BITS) × (bits ≤ length game.now.names) },
}

impl<'a> SlicedGame<'a> {
    /// Returns how many slices there are.
    pub(crate) fn count(self) -> u16
        ensures { result ≡ 2 ^ self.entry.bits }
    {
        slice_count(self.bits)
    }
}

/// A thread that was given these slices promises the counts of some of them.
impl<'a> Promise<Result<ThreadCounts, Memory>> for SlicedGame<'a> {
    ghost use Rattle.std.specs.Prelude.{IfOk};
    ghost use Rattle.mwc_tally.specs.Inner.SliceCounts.{AreThreadCounts};

    ghost kept_by = { λ s r. IfOk r (AreThreadCounts s) };
}
