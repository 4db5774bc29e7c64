//! A gate, as the one function that passes it sees it.
ghost use Rattle.std.specs.Prelude.{ℕ, ⊤};

use council_game::Gate;
use mwc_walk::Informed;

/// Whoever is informed of the slices that workers examine.
///
/// Code that may announce one worker and slice can announce no other.
pub(crate) trait SliceObserver: Informed {
    /// For the prover: the workers and slices that it may be informed of.
    ghost takes: { ℕ → ℕ → Type 0 };

    /// Announces that a worker is about to examine a slice.
    fn announce(&self, worker: u8, slice: u16)
        requires { takes worker slice };
}

/// A gate may be informed of any worker and slice.
impl<G: Gate> SliceObserver for G {
    ghost takes = { λ _ _. ⊤ };

    fn announce(&self, worker: u8, slice: u16) {
        self.pass(worker, slice)
    }
}
