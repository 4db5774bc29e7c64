//! A gate for the tests of threads.
use council_game::{Gate, INFORM_EVERY};
use std::sync::atomic::{AtomicU64, Ordering};
use std::{array, thread};

/// A gate that notes what it hears, and may hold workers.
#[derive(Drop)]
pub(crate) struct Watch {
    /// Each of the first `held` passes lasts until there were `until`.
    held: u64,
    until: u64,
    /// How often each slice passed, and the worker that passed it last.
    of: [AtomicU64; 1024],
    by: [AtomicU64; 1024],
    /// The workers that passed, a binary digit for each.
    workers: AtomicU64,
    passes: AtomicU64,
    /// The slice that passed last, and how many passed after a lower one.
    last: AtomicU64,
    ascents: AtomicU64,
    prefixes: AtomicU64,
    found: AtomicU64,
    /// The most prefixes or coalitions of one call of `inform`, and the calls of fewer than usual.
    most: AtomicU64,
    short: AtomicU64,
    /// The calls of `inform` before the first pass.
    early: AtomicU64,
    /// How many members were decided, in all counts by states.
    decided: AtomicU64,
}

impl Watch {
    /// Makes a gate that holds nobody.
    pub(crate) fn new() -> Watch {
        Watch::holding(0, 0)
    }

    /// Makes a gate that holds each of the first `held` passes until there were `until`.
    pub(crate) fn holding(held: u64, until: u64) -> Watch {
        Watch {
            held,
            until,
            of: array::from_fn(|_| AtomicU64::new(0)),
            by: array::from_fn(|_| AtomicU64::new(0)),
            workers: AtomicU64::new(0),
            passes: AtomicU64::new(0),
            last: AtomicU64::new(1024),
            ascents: AtomicU64::new(0),
            prefixes: AtomicU64::new(0),
            found: AtomicU64::new(0),
            most: AtomicU64::new(0),
            short: AtomicU64::new(0),
            early: AtomicU64::new(0),
            decided: AtomicU64::new(0),
        }
    }

    /// Returns how many passes there were.
    pub(crate) fn passes(&self) -> u64 {
        self.passes.load(Ordering::SeqCst)
    }

    /// Returns how many members were decided.
    pub(crate) fn decided(&self) -> u64 {
        self.decided.load(Ordering::SeqCst)
    }

    /// Returns how often a slice passed.
    pub(crate) fn count(&self, slice: u16) -> u64 {
        if slice >= 1024 {
            return 0;
        }
        self.of[slice as usize].load(Ordering::SeqCst)
    }

    /// Returns whether the slice passed once, and by this worker.
    pub(crate) fn is_passed_by(&self, slice: u16, worker: usize) -> bool {
        slice < 1024
            && self.count(slice) == 1
            && self.by[slice as usize].load(Ordering::SeqCst) == worker as u64
    }

    /// Returns whether each of the first `count` slices passed once, and no other.
    pub(crate) fn has_each_once(&self, count: u16) -> bool {
        for slice in 0..count {
            if self.count(slice) != 1 {
                return false;
            }
        }
        self.passes() == u64::from(count)
    }

    /// Returns the workers that passed, a binary digit for each.
    pub(crate) fn workers(&self) -> u64 {
        self.workers.load(Ordering::SeqCst)
    }

    /// Returns whether each slice that passed was lower than the one before.
    pub(crate) fn is_descending(&self) -> bool {
        self.ascents.load(Ordering::SeqCst) == 0
    }

    /// Returns the coalitions and prefixes of all calls of `inform`, and how many calls were short.
    ///
    /// All are 0 if a call came before the first pass, or was of far more than usual.
    pub(crate) fn sums(&self) -> (u64, u64, u64) {
        let most = self.most.load(Ordering::SeqCst);
        if self.early.load(Ordering::SeqCst) != 0 || most > INFORM_EVERY + 100 {
            return (0, 0, 0);
        }
        (
            self.found.load(Ordering::SeqCst),
            self.prefixes.load(Ordering::SeqCst),
            self.short.load(Ordering::SeqCst),
        )
    }

    /// Waits until there were as many passes as wanted. No run lives to see 2^64 turns.
    fn hold(&self) {
        for _ in 0..u64::MAX {
            if self.passes() >= self.until {
                return;
            }
            thread::yield_now();
        }
    }
}

impl Gate for Watch {
    fn pass(&self, worker: u8, slice: u16) {
        let digit = if worker < 16 { 1 << worker } else { 1 << 16 };
        self.workers.fetch_or(digit, Ordering::SeqCst);
        if slice < 1024 {
            self.of[slice as usize].fetch_add(1, Ordering::SeqCst);
            self.by[slice as usize].store(u64::from(worker), Ordering::SeqCst);
        }
        let last = self.last.swap(u64::from(slice), Ordering::SeqCst);
        self.ascents
            .fetch_add(u64::from(last <= u64::from(slice)), Ordering::SeqCst);
        let before = self.passes.fetch_add(1, Ordering::SeqCst);
        if before < self.held {
            self.hold();
        }
    }

    fn inform(&self, prefixes: u64, found: u64) {
        self.prefixes.fetch_add(prefixes, Ordering::SeqCst);
        self.found.fetch_add(found, Ordering::SeqCst);
        let most = prefixes.max(found);
        self.most.fetch_max(most, Ordering::SeqCst);
        self.short
            .fetch_add(u64::from(most < INFORM_EVERY), Ordering::SeqCst);
        self.early
            .fetch_add(u64::from(self.passes() == 0), Ordering::SeqCst);
    }

    fn decide(&self, _decided: u8, _members: u8) {
        self.decided.fetch_add(1, Ordering::SeqCst);
    }
}
