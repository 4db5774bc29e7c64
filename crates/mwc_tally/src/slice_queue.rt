//! The slices that the workers of a tally take.
ghost use Rattle.std.specs.Prelude.{◌≡◌, IfOk};
ghost use Rattle.mwc_tally.specs.Inner.SliceCounts.{AreThreadCounts};

use crate::slice::count_slice;
use crate::sliced_game::SlicedGame;
use crate::thread_counts::ThreadCounts;
use council_game::{Gate, Memory};
use std::alloc::Global;
use std::sync::atomic::{AtomicU64, Ordering};

/// The slices of a game, how many were taken, and the gate that workers pass.
#[derive(Drop)]
pub(crate) struct SliceQueue<'a, G> {
    pub slices: SlicedGame<'a>,
    pub taken: &'a AtomicU64,
    pub gate: &'a G,
}

impl<'a, G: Gate> SliceQueue<'a, G> {
    /// Begins with no slice taken.
    pub(crate) fn new(
        slices: SlicedGame<'a>,
        taken: &'a AtomicU64,
        gate: &'a G,
    ) -> SliceQueue<'a, G>
        ensures { result.slices ≡ slices.entry }
    {
        SliceQueue {
            slices,
            taken,
            gate,
        }
    }

    /// Leaves no slice for any worker.
    pub(crate) fn stop(&self) {
        self.taken
            .store(u64::from(self.slices.count()), Ordering::SeqCst);
    }

    /// Counts one slice after another that nobody took yet, until none is left.
    ///
    /// The last slice comes first: the heaviest members are out there, and it mostly takes longest.
    fn count(&self, alloc: Global, worker: u8) -> Result<ThreadCounts, Memory>
        ensures { IfOk result (AreThreadCounts self.now.slices) }
    {
        let slices = self.slices;
        let count = slices.count();
        let mut totals = ThreadCounts::none(alloc, slices)?;
        for _ in 0..count {
            let taken = self.taken.fetch_add(1, Ordering::SeqCst);
            if taken >= u64::from(count) {
                break;
            }
            let slice = count - 1 - taken as u16;
            self.gate.pass(worker, slice);
            totals.add(slices, &[slice], &count_slice(slices, slice, self.gate))?;
        }
        Ok(totals)
    }

    /// Counts as `count` does; if memory runs out, it stops the other workers.
    pub(crate) fn run(&self, alloc: Global, worker: u8) -> Result<ThreadCounts, Memory>
        ensures { IfOk result (AreThreadCounts self.now.slices) }
    {
        let totals = self.count(alloc, worker);
        // memory: the one error of these counts is Memory
        if totals.is_err() {
            self.stop();
        }
        totals
    }
}
