//! A gate and a pipe of one's own.
ghost use Rattle.council_game.specs.declared.limits.TheConstants.{BITS};
ghost use Rattle.mwc_gather.specs.Slicing.{slicing};
ghost use Rattle.mwc_gather.specs.Wording.{slice_words};
ghost use Rattle.std.specs.Prelude.{◌≡◌, ◌≤◌, ◌<◌, ◌^◌, ℕ, IfSome, length};

use council_game::{Game, limits};
use mwc_gather::{Gate, Guarded, Sent, send_slice};
use mwc_pipe::{PipeIn, Refused, Word};
use std::alloc::Global;
use std::sync::Wait;
use std::sync::atomic::{AtomicU64, Ordering};

/// A gate that counts how often it was passed.
#[derive(Drop)]
pub struct Passes {
    count: AtomicU64,
}

impl Passes {
    /// Makes a gate that nobody has passed.
    pub fn none() -> Passes {
        Passes {
            count: AtomicU64::new(0),
        }
    }

    /// Returns how often the gate was passed.
    pub fn count(&self) -> u64 {
        self.count.load(Ordering::SeqCst)
    }
}

impl Gate for Passes {
    fn pass(&self, _worker: u8, _slice: u16) {
        self.count.fetch_add(1, Ordering::SeqCst);
    }
}

/// A pipe that keeps its words in a vector and is never full.
#[derive(Drop)]
struct Kept {
    words: Vec<Word>,
    broken: bool,
}

impl PipeIn<Word> for Kept {
    ghost Identity = { ℕ };

    ghost identity = { λ _. 0 };

    ghost accepted = { λ p. p.words.items };

    ghost broken = { λ p. p.broken };

    fn put(&mut self, item: Word) -> Result<(), Refused<Word>> {
        match self.words.push(item) {
            Ok(()) => Ok(()),
            Err(failed) => {
                self.broken = true;
                Err(Refused::Memory(failed.value))
            }
        }
    }
}

/// Returns the words that a worker sends of one slice.
///
/// Its gate is passed once. It is none if the slice has more than 4,000,000 coalitions, or an
/// allocation was refused.
///
/// There are at most 10 bits, and no more than members; `slice` is below 2^bits.
pub fn words_of_slice<R: Wait>(
    rt: &R,
    alloc: Global,
    game: &Game,
    passes: &Passes,
    bits: u8,
    slice: u16,
) -> Option<Vec<Word>>
    requires bits { (bits ≤ BITS) × (bits ≤ length game.now.names) }
    requires slice { slice < 2 ^ bits }
    ensures { IfSome result (λ v. v.items ≡ slice_words (slicing game.now bits) slice) }
{
    let guarded = Guarded::new(game, passes);
    let mut kept = Kept {
        words: Vec::new(alloc),
        broken: false,
    };
    let left = limits::COALITIONS + 1;
    match send_slice(rt, &guarded, bits, slice, 0, left, &mut kept) {
        Sent::Whole { left: _ } => Some(kept.words),
        Sent::Cut | Sent::Refused => None,
    }
}
