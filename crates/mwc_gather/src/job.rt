//! What the workers do.
ghost use Rattle.std.specs.Prelude.{◌≡◌, ◌≤◌, length};
ghost use Rattle.council_game.specs.declared.limits.TheConstants.{BITS, COALITIONS};

use crate::guarded::Guarded;
use crate::promise::GivenJob;
use mwc_pipe::{RingIn, RingOut};
use std::snapshot::Snapshot;

/// What all workers do: list slices of the game at `bits` bits, up to `most` coalitions.
#[derive(Drop)]
pub(crate) struct Job<'a, G> {
    pub guarded: Guarded<'a, G>,
    /// How many of the heaviest members are fixed in each slice, 0 to 10, and no more than members.
    pub bits: u8,
    /// How many coalitions are wanted at most, 1 to 4,000,000.
    pub most: u32,
    ghost bits_fit: { (bits ≤ BITS) × (bits ≤ length guarded.names) },
    ghost most_fits: { (1 ≤ most) × (most ≤ COALITIONS) },
}

impl<'a, G> Job<'a, G> {
    /// For the prover: returns the job with a worker's ends of its two rings.
    pub fn with_rings(&self, out: &RingIn, tasks: &RingOut) -> GivenJob
        ensures game { result.game.value ≡ self.now.guarded }
        ensures asked { (result.bits ≡ self.now.bits) × (result.most ≡ self.now.most) }
        ensures rings { (result.out.value ≡ out.now) × (result.tasks.value ≡ tasks.now) }
    {
        GivenJob {
            game: self.guarded.snapshot(),
            bits: self.bits,
            most: self.most,
            out: Snapshot::of(out),
            tasks: Snapshot::of(tasks),
        }
    }
}
