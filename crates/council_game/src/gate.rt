//! The observer of the workers of a run or a tally, and of a count by states.

/// How many prefixes, or coalitions, of a slice there are between two calls of `Gate::inform`.
pub const INFORM_EVERY: u64 = 1 << 20;

/// An observer of the workers, which each of them passes before it walks a slice.
///
/// The worker's own thread makes these calls, so calls of different workers may overlap.
pub trait Gate {
    /// Lets worker `worker` begin slice `slice`.
    fn pass(&self, worker: u8, slice: u16);

    /// Notes progress inside a slice.
    ///
    /// Since the last call `prefixes` more prefixes were examined, and `found` more coalitions were
    /// found. A worker calls this after each `INFORM_EVERY` prefixes or coalitions of a slice, and
    /// at the end of the slice for the rest, so all calls of a finished run add up to all that it
    /// found.
    fn inform(&self, _prefixes: u64, _found: u64) {}

    /// Notes progress of a count by states, after another of the members is decided.
    fn decide(&self, _decided: u8, _members: u8) {}

    /// Notes that all is found, before the report is written.
    fn finish(&self) {}
}

/// The gate that returns at once.
#[derive(Clone, Copy, Debug)]
pub struct NoGate;

impl Gate for NoGate {
    fn pass(&self, _worker: u8, _slice: u16) {}
}
