//! What one thread counted.
ghost use Rattle.std.specs.Prelude.{◌≡◌, true, IfOk, IfSome};
ghost use Rattle.std.specs.List.{range_with_len};
ghost use Rattle.mwc_tally.specs.Inner.SliceCounts.{AreTaken, AreThreadCounts, CountSlices, CountWhole};

use crate::sliced_game::SlicedGame;
use council_game::{Memory, limits};
use power_index::Counts;
use std::alloc::Global;

/// The most minimal winning coalitions that a game can have.
const MOST: u64 = 1 << limits::MEMBERS;

/// The counts of the slices that one thread took, and which slices these are.
///
/// The slices are in the order in which they were added.
#[derive(Drop)]
pub(crate) struct ThreadCounts {
    pub taken: Vec<u16>,
    /// On the heap: a thread returns its counts by value, and its stack may be small.
    pub counts: Box<Counts>,
}

impl ThreadCounts {
    /// Returns the counts of no slice.
    ///
    /// Kept out of line: inlined, it would cost stack on every call.
    #[inline(never)]
    pub(crate) fn none(alloc: Global, slices: SlicedGame<'_>) -> Result<ThreadCounts, Memory>
        ensures { IfOk result (AreThreadCounts slices.entry) }
    {
        let counts = Box::new(alloc, Counts::none(slices.game))?;
        Ok(ThreadCounts {
            taken: Vec::new(alloc),
            counts,
        })
    }

    /// Adds the counts of further slices.
    ///
    /// It adds nothing if an allocation was refused, or if there were more coalitions than any game
    /// has: then `whole` finds that slices are missing.
    pub(crate) fn add(
        &mut self,
        slices: SlicedGame<'_>,
        taken: &[u16],
        counts: &Counts,
    ) -> Result<(), Memory>
        requires own { AreThreadCounts slices self.old }
        requires more { CountSlices slices taken.now counts.now }
        ensures counts { AreThreadCounts slices.entry self.new }
        ensures taken { IfOk result (λ _. AreTaken self.old taken.now counts.now self.new) }
    {
        if self.counts.wide_total() + counts.wide_total() > MOST {
            return Ok(());
        }
        self.taken.extend_from_slice(taken)?;
        self.counts.add(counts);
        Ok(())
    }

    /// Returns the counts if the slices are all those of the game, each once.
    pub(crate) fn whole(self, slices: SlicedGame<'_>) -> Option<Box<Counts>>
        requires { AreThreadCounts slices self }
        ensures { IfSome result (λ counts. CountWhole slices.entry counts.value) }
    {
        let ThreadCounts { mut taken, counts } = self;
        taken.sort_unstable();
        if is_each_once(&taken, slices.count()) {
            Some(counts)
        } else {
            None
        }
    }
}

/// Returns whether a row of numbers is 0, 1, .. up to `count - 1`.
#[tactic(auto, using(crate::proofs::Counting::each_once))]
fn is_each_once(row: &[u16], count: u16) -> bool
    ensures { result ≡ true → row.now ≡ range_with_len 0 count }
{
    if row.len() != usize::from(count) {
        return false;
    }
    for i in 0..row.len() {
        if usize::from(row[i]) != i {
            return false;
        }
    }
    true
}
