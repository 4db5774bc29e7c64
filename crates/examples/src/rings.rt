//! Words through a ring, from one thread to another.
ghost use Rattle.std.specs.Prelude.{◌≡◌, ◌≤◌, [], IfOk, IfSome, length};
ghost use Rattle.council_game.specs.declared.limits.TheConstants.{CAPACITY};

use council_game::Memory;
use mwc_pipe::{Closed, Rest, RingIn, Unfinished, Word, ring};
use std::alloc::Global;
use std::snapshot::Snapshot;
use std::thread;
use std::thread::{Promise, Threads};

/// What the sending thread promises: the closed end is of that ring, and accepted these words.
#[derive(Drop)]
struct Sends {
    to: Snapshot<RingIn>,
    words: Snapshot<Vec<Word>>,
}

impl Promise<Result<Closed, Unfinished>> for Sends {
    ghost kept_by = { λ p r. IfOk r (λ c.
        (c.ring ≡ p.to.value.ring) × (c.accepted ≡ p.words.value.items)) };
}

/// Puts all words into a ring that has room for them, and closes it.
fn send_all(to: RingIn, words: &[Word]) -> Result<Closed, Unfinished>
    requires empty { to.accepted ≡ [] }
    requires room { length words.now ≤ to.capacity }
    ensures { IfOk result (λ c. (c.ring ≡ to.ring) × (c.accepted ≡ words.now)) }
{
    let mut to = to;
    to.put_some(words);
    to.close()
}

/// Sends 1 to 65,536 words through a ring by a thread, and returns them.
///
/// They are the same words in the same order. It is none if the thread could not be started, or the
/// ring not be finished.
///
/// # Errors
///
/// `Memory` if an allocation was refused.
pub fn through_a_ring<R: Threads>(
    rt: &R,
    alloc: Global,
    words: Vec<Word>,
) -> Result<Option<Rest>, Memory>
    requires some { 1 ≤ length words.items }
    requires few { length words.items ≤ CAPACITY }
    ensures { IfOk result (λ o. IfSome o (λ rest. rest ≡ words.items)) }
{
    let (to, from) = ring(alloc, words.len())?;
    let sends = Sends {
        to: Snapshot::of(&to),
        words: Snapshot::of(&words),
    };
    let sending = move || -> Result<Closed, Unfinished>
        requires empty { to.accepted ≡ [] }
        requires room { length words.items ≤ to.capacity }
        ensures { IfOk result (λ c. (c.ring ≡ to.ring) × (c.accepted ≡ words.items)) }
    { send_all(to, &words) };
    let Ok(sender) = thread::spawn_with(rt, sends, sending) else {
        return Ok(None);
    };
    match sender.join(rt) {
        Ok(closed) => Ok(Some(from.end(closed))),
        Err(_) => Ok(None),
    }
}
