//! How far a run or a tally has come.
use crate::thousands::Thousands;
use council_game::Gate;
use std::fmt::{self, Display, Formatter, Write};
use std::sync::{Mutex, Wait};
use std::time::{Clock, Duration};

/// How many seconds pass before the line is first printed.
const QUIET: u64 = 1;

/// What the workers have done so far, as far as they have said so.
#[derive(Clone, Copy)]
struct Counts {
    /// How many slices are done, and how many there are in all.
    slices: u64,
    all: u16,
    /// How many coalitions were found.
    found: u64,
    /// How many prefixes were examined.
    prefixes: u64,
}

impl Display for Counts {
    fn fmt<W: Write>(&self, f: &mut Formatter<W>) -> fmt::Result {
        let (some, all, found) = (self.slices, self.all, Thousands(self.found));
        write!(f, "{found} coalitions found, {some} of {all} slices done")?;
        if self.found == 0 && self.prefixes > 0 {
            write!(f, ", {} prefixes examined", Thousands(self.prefixes))?;
        }
        Ok(())
    }
}

/// What is done, and what is shown of it.
#[derive(Drop)]
struct Done {
    counts: Counts,
    /// Which workers have begun a slice, one bit for each.
    busy: u32,
    /// Whether a line on standard error says what is done.
    is_shown: bool,
}

/// Prints how far a run or a tally has come, in one line that is written anew each time, if
/// standard error is a terminal and more than a second has passed.
#[derive(Drop)]
pub struct Progress<'a, R> {
    rt: &'a R,
    /// The time after which it is printed; `Duration::MAX` if it never is.
    start: Duration,
    done: Mutex<Done>,
}

impl<'a, R: Eprint + Clock + Wait> Progress<'a, R> {
    /// Begins with nothing done of `all` slices.
    pub fn new(rt: &'a R, is_terminal: bool, all: u16) -> Progress<'a, R> {
        let start = match rt.monotonic() {
            Ok(now) if is_terminal => now.saturating_add(Duration::from_secs(QUIET)),
            _ => Duration::MAX,
        };
        let counts = Counts {
            slices: 0,
            all,
            found: 0,
            prefixes: 0,
        };
        Progress {
            rt,
            start,
            done: Mutex::new(Done {
                counts,
                busy: 0,
                is_shown: false,
            }),
        }
    }

    /// Wipes the line, if it was written.
    pub fn wipe(&self) {
        let mut done = self.done.lock(self.rt);
        if done.is_shown {
            done.is_shown = false;
            let _ = eprint!(self.rt; "\x1b[A\r\x1b[K");
        }
    }

    /// Writes the line anew, over the one before, if it has taken long.
    ///
    /// It does not wrap (`?7l`), however narrow the terminal is. The cursor waits below it, so an
    /// interrupt leaves a whole line.
    fn show(&self, is_shown: &mut bool, line: impl Display + Drop) {
        if self.rt.monotonic().unwrap_or(Duration::ZERO) > self.start {
            let up = if *is_shown { "\x1b[A" } else { "" };
            *is_shown = true;
            let _ = eprint!(self.rt; "{up}\r\x1b[?7lcouncil: {line}\x1b[K\x1b[?7h\n");
        }
    }
}

impl<'a, R: Eprint + Clock + Wait> Gate for Progress<'a, R> {
    /// A worker that goes on to a further slice has done the one before.
    fn pass(&self, worker: u8, _slice: u16) {
        let mut done = self.done.lock(self.rt);
        let bit = 1u32.wrapping_shl(u32::from(worker));
        if done.busy & bit != 0 {
            done.counts.slices = done.counts.slices.wrapping_add(1);
        }
        done.busy |= bit;
        let counts = done.counts;
        self.show(&mut done.is_shown, counts);
    }

    fn inform(&self, prefixes: u64, found: u64) {
        let mut done = self.done.lock(self.rt);
        done.counts.found = done.counts.found.wrapping_add(found);
        done.counts.prefixes = done.counts.prefixes.wrapping_add(prefixes);
        let counts = done.counts;
        self.show(&mut done.is_shown, counts);
    }

    fn decide(&self, decided: u8, members: u8) {
        let mut done = self.done.lock(self.rt);
        self.show(
            &mut done.is_shown,
            format_args!("{decided} of {members} members decided"),
        );
    }

    fn finish(&self) {
        self.wipe();
    }
}
