//! Waiting that yields the processor.
//!
//! A thread that finds nothing to do looks again a few times, announces that it is about to sleep,
//! looks once more, and sleeps until it is woken. After each sleep it looks an eighth less often,
//! and after a look that found something twice as often. Of full rows only every fourth wakes the
//! other side: a wake-up for each costs a tenth of the time of one worker. No contract depends on
//! this; `tests/waiting.sh` tests it. A lost wake-up costs one millisecond, the longest sleep.
ghost use Rattle.std.specs.Prelude.{◌<◌};
ghost use Rattle.council_game.specs.declared.limits.TheConstants.{WORKERS};

use council_game::limits;
use std::sync::Wait;
use std::sync::atomic::{AtomicBool, AtomicU32, Ordering};
use std::thread::Parker;
use std::time::Duration;
use std::{array, hint};

/// How often a thread looks again before it sleeps, at most.
const MOST_LOOKS: u32 = 2_048;

/// How often a thread looks again before it sleeps, at least.
const FEWEST_LOOKS: u32 = 32;

/// How many nudges go with one wake-up: as many rows as half a ring has.
const NUDGES: u32 = 4;

/// How many milliseconds a thread sleeps at most before it looks again.
const LONGEST: u64 = 1;

/// What wakes a thread.
#[derive(Drop)]
pub(crate) struct Waker {
    /// Whether the thread sleeps, or is about to.
    asleep: AtomicBool,
    /// How often the thread looks again before it sleeps.
    looks: AtomicU32,
    parker: Parker,
    /// How often it was nudged.
    nudges: AtomicU32,
}

impl Waker {
    /// Makes a waker that nobody has called.
    pub fn new() -> Waker {
        Waker {
            asleep: AtomicBool::new(false),
            looks: AtomicU32::new(MOST_LOOKS),
            parker: Parker::new(),
            nudges: AtomicU32::new(0),
        }
    }

    /// Wakes the thread if it sleeps or is about to: it may have something to do.
    pub fn wake(&self) {
        if self.asleep.load(Ordering::SeqCst) && self.asleep.swap(false, Ordering::SeqCst) {
            self.parker.unpark();
        }
    }

    /// Wakes the thread at every fourth call: what it may have to do can wait.
    pub fn nudge(&self) {
        if self.nudges.fetch_add(1, Ordering::Relaxed) % NUDGES == 0 {
            self.wake();
        }
    }
}

/// The wakers of the gatherer and of 16 workers.
#[derive(Drop)]
pub(crate) struct Wakers {
    pub gatherer: Waker,
    pub workers: [Waker; limits::WORKERS as usize],
}

impl Wakers {
    /// Makes wakers that nobody has called.
    pub fn new() -> Wakers {
        Wakers {
            gatherer: Waker::new(),
            workers: array::from_fn(|_| Waker::new()),
        }
    }

    /// Returns the two wakers of a worker's rings, as the gatherer sees them.
    pub fn pair(&self, worker: usize) -> WakerPair<'_>
        requires { worker < WORKERS }
    {
        WakerPair {
            own: &self.gatherer,
            other: &self.workers[worker],
        }
    }
}

/// The wakers of the two sides of a ring, as one of them sees them.
#[derive(Clone, Copy)]
pub(crate) struct WakerPair<'a> {
    /// What wakes this side.
    pub own: &'a Waker,
    /// What wakes the other side.
    pub other: &'a Waker,
}

/// How a thread has waited since it last had something to do.
#[derive(Drop)]
pub(crate) struct Backoff {
    /// How often it looked again.
    looks: u32,
    /// Whether it has announced that it is about to sleep.
    announced: bool,
    /// Whether it has slept.
    slept: bool,
}

impl Backoff {
    /// Begins with no wait.
    pub fn new() -> Backoff {
        Backoff {
            looks: 0,
            announced: false,
            slept: false,
        }
    }

    /// Starts again: there was something to do.
    pub fn renew(&mut self, waker: &Waker) {
        if self.looks > 0 && !self.slept {
            let looks = waker.looks.load(Ordering::Relaxed);
            waker
                .looks
                .store(MOST_LOOKS.min(looks.saturating_mul(2)), Ordering::Relaxed);
        }
        if self.announced {
            waker.asleep.store(false, Ordering::SeqCst);
        }
        *self = Backoff::new();
    }

    /// Waits until it is time to look again: there was nothing to do.
    pub fn wait<R: Wait>(&mut self, rt: &R, waker: &Waker) {
        if self.announced {
            waker
                .parker
                .park_timeout(rt, Duration::from_millis(LONGEST));
            waker.asleep.store(false, Ordering::SeqCst);
            let looks = waker.looks.load(Ordering::Relaxed);
            waker
                .looks
                .store(FEWEST_LOOKS.max(looks - looks / 8), Ordering::Relaxed);
            self.announced = false;
            self.slept = true;
        } else if self.looks < waker.looks.load(Ordering::Relaxed) {
            self.looks += 1;
            hint::spin_loop();
        } else {
            waker.asleep.store(true, Ordering::SeqCst);
            self.announced = true;
        }
    }
}
