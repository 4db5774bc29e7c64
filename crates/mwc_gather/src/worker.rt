//! The body of a worker's thread.
ghost use Rattle.std.specs.Prelude.{◌≡◌, ℕ, ◌+◌, ◌<◌, ◌≤◌, ◌^◌, ◌++◌, ◌∷◌, [], length, IfOk, MatchOption};
ghost use Rattle.council_game.specs.declared.limits.TheConstants.{BITS, WORKERS, COALITIONS};
ghost use Rattle.mwc_gather.specs.Inner.Gathering.{slices_of};
ghost use Rattle.mwc_gather.specs.Slicing.{slicing};
ghost use Rattle.mwc_gather.specs.Sending.{HasWorked};
ghost use Rattle.mwc_gather.specs.Inner.Sending.{TakesLast, TakesTask};
ghost use Rattle.mwc_gather.specs.Wording.{IsLast};
ghost use Rattle.mwc_pipe.specs.declared.word.Word.TheVariants.{End, Open};

use crate::guarded::Guarded;
use crate::job::Job;
use crate::observer::SliceObserver;
use crate::putting::RowByRow;
use crate::send::{put, send_slice_in_rows};
use crate::sent::Sent;
use crate::waiting::{Backoff, Waker, WakerPair};
use crate::word_buffer::{SHORT_ROW, WordBuffer};
use council_game::Gate;
use mwc_pipe::{Closed, RingIn, RingOut, Unfinished, Word};
use mwc_walk::slice_count;
use std::sync::Wait;

/// Returns the slice that a task gives, or `None` if the task ends the work.
fn slice_of(task: Word, slices: u16) -> Option<u16>
    ensures { MatchOption result (IsLast slices task) (λ j. (j < slices) × (task ≡ Open j)) }
{
    match task {
        Word::Open(slice) if slice < slices => Some(slice),
        Word::Open(_) | Word::One(_) | Word::Done(_) | Word::End { .. } => None,
    }
}

/// Waits for the next slice, and returns it, or `None` if the work ends.
fn next_task<R: Wait>(rt: &R, slices: u16, tasks: &mut RingOut, pair: WakerPair<'_>) -> Option<u16>
    ensures ring { tasks.new.ring ≡ tasks.old.ring }
    ensures taken { MatchOption result (TakesLast slices tasks.old.taken tasks.new.taken)
        (λ j. TakesTask slices j tasks.old.taken tasks.new.taken) }
{
    let mut backoff = Backoff::new();
    for _ in rt.forever() {
        if let Some(task) = tasks.take() {
            backoff.renew(pair.own);
            pair.other.wake();
            return slice_of(task, slices);
        }
        backoff.wait(rt, pair.own);
    }
    unreachable!()
}

/// Sends the End, and closes the ring.
fn finish<R: Wait>(
    rt: &R,
    mut out: RingIn,
    cut: bool,
    pair: WakerPair<'_>,
) -> Result<Closed, Unfinished>
    ensures { IfOk result (λ c. (c.ring ≡ out.ring) × (c.accepted ≡ out.accepted ++ End cut ∷ [])) }
{
    put(rt, &mut out, Word::End { cut }, pair);
    out.close()
}

/// Sends the slices that the tasks give, then End, and closes.
///
/// It stops at a task that gives no slice, or after coalition number `most + 1`. It hands back the
/// end that the tasks came from. It takes no memory.
///
/// There are at most 10 bits, and no more than members; `worker` is below 16, `most` 1 to
/// 4,000,000. Both ends are new: `out` has accepted no word, and none was taken from `tasks`.
///
/// # Errors
///
/// Returns `Unfinished` if `out` could not be finished.
pub fn work<R: Wait, G: Gate>(
    rt: &R,
    guarded: &Guarded<'_, G>,
    bits: u8,
    worker: u8,
    most: u32,
    out: RingIn,
    tasks: RingOut,
) -> (Result<Closed, Unfinished>, RingOut)
    requires bits { (bits ≤ BITS) × (bits ≤ length guarded.now.names) }
    requires worker { worker < WORKERS }
    requires most { (1 ≤ most) × (most ≤ COALITIONS) }
    requires fresh { (out.accepted ≡ []) × (tasks.taken ≡ []) }
    ensures { HasWorked (slicing guarded.now bits) most out tasks result }
{
    // no other thread waits for it: one waker serves both sides
    let waker = Waker::new();
    let pair = WakerPair {
        own: &waker,
        other: &waker,
    };
    let job = Job {
        guarded: guarded.for_thread(),
        bits,
        most,
    };
    let mut row = [Word::Open(0); SHORT_ROW];
    run_worker(rt, &job, worker, &mut row, out, tasks, pair)
}

/// Works as `work` does, with wakers for both sides of its rings.
///
/// It wakes the other side after it has put words in or taken tasks, and sleeps until it is woken.
pub(crate) fn run_worker<R: Wait, G: SliceObserver>(
    rt: &R,
    job: &Job<'_, G>,
    worker: u8,
    row: &mut [Word],
    mut out: RingIn,
    mut tasks: RingOut,
    pair: WakerPair<'_>,
) -> (Result<Closed, Unfinished>, RingOut)
    requires worker { worker < WORKERS }
    requires row { 0 < length row.old }
    requires fresh { (out.accepted ≡ []) × (tasks.taken ≡ []) }
    requires gate { (j : ℕ) → j < 2 ^ job.now.bits → G.takes worker j }
    ensures { HasWorked (slices_of job.now) job.now.most out tasks result }
{
    let slices = slice_count(job.bits);
    let mut buffer = WordBuffer::new(row);
    let mut left = job.most + 1;
    for _ in rt.forever() {
        let Some(slice) = next_task(rt, slices, &mut tasks, pair) else {
            return (finish(rt, out, false, pair), tasks);
        };
        let sent = send_slice_in_rows::<RowByRow, _, _, _>(
            rt,
            &job.guarded,
            job.bits,
            slice,
            worker,
            left,
            &mut buffer,
            &mut out,
            pair,
        );
        match sent {
            Sent::Whole { left: rest } => left = rest,
            Sent::Cut => return (finish(rt, out, true, pair), tasks),
            Sent::Refused => unreachable!(),
        }
    }
    unreachable!()
}
