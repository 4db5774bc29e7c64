//! The counts of all slices, by threads.
ghost use Rattle.std.specs.Prelude.{◌≡◌, ◌≤◌, All, length, IfOk, MatchOption, ⊤};
ghost use Rattle.council_game.specs.declared.limits.TheConstants.{BITS, WORKERS};
ghost use Rattle.power_index.specs.Tables.{AreCountsOfGame};
ghost use Rattle.mwc_tally.specs.Inner.SliceCounts.{AreThreadCounts, AreThreadCountsAt, CountWhole};

use crate::fault::TallyFault;
use crate::slice::count_slice;
use crate::slice_queue::SliceQueue;
use crate::sliced_game::SlicedGame;
use crate::thread_counts::ThreadCounts;
use council_game::{Game, Gate, Memory};
use power_index::Counts;
use std::alloc::Global;
use std::sync::Wait;
use std::sync::atomic::AtomicU64;
use std::thread;
use std::thread::{PromisedHandle, Scope, Threads};

/// A thread that was started.
type Started<'s> = PromisedHandle<Result<ThreadCounts, Memory>, SlicedGame<'s>>;

/// Counts all minimal winning coalitions of a game by `workers` threads, 1 to 16.
///
/// The `bits` heaviest members are fixed in each slice; there are at most 10 bits, and no more than
/// members. A worker takes the next slice that nobody took yet, until none is left. Before it walks
/// a slice, it passes the gate with its number, from 0, and that of the slice. The call waits for
/// the end of all workers.
///
/// # Errors
///
/// Returns `Start` if a thread could not be started, and else `Memory` if an allocation was
/// refused.
pub fn tally<R: Threads + Wait + Sync, G: Gate + Sync>(
    rt: &R,
    alloc: Global,
    game: &Game,
    bits: u8,
    workers: u8,
    gate: &G,
) -> Result<Box<Counts>, TallyFault>
    requires few { bits ≤ BITS }
    requires bits { bits ≤ length game.now.names }
    requires workers { (1 ≤ workers) × (workers ≤ WORKERS) }
    ensures { IfOk result (λ c. AreCountsOfGame game.now c.value) }
{
    let taken = AtomicU64::new(0);
    let taken = &taken;
    let totals = thread::scope(
        thread::scope_env(),
        rt,
        move |scope| -> Result<ThreadCounts, TallyFault>
            requires { (bits ≤ BITS) × (bits ≤ length game.now.names) }
            ensures { IfOk result (AreThreadCountsAt game.entry.now bits) }
        {
            let queue = SliceQueue::new(SlicedGame { game, bits }, taken, gate);
            count_in_threads(scope, rt, alloc, &queue, workers)
        },
    )?;
    let slices = SlicedGame { game, bits };
    match totals.whole(slices) {
        Some(counts) => Ok(counts),
        None => Ok(one_by_one(alloc, slices, gate)?),
    }
}

/// Starts a worker, and returns its thread, or `None` if it could not be started.
fn start<'s, E, G: Gate + Sync>(
    scope: &Scope<'s, E>,
    alloc: Global,
    queue: &SliceQueue<'s, G>,
    worker: u8,
) -> Option<Started<'s>>
    ensures { MatchOption result ⊤ (λ t. t.promise ≡ queue.now.slices) }
{
    let own = SliceQueue { ..*queue };
    let body = move || -> Result<ThreadCounts, Memory>
        ensures { IfOk result (AreThreadCounts own.entry.slices) }
    { own.run(alloc, worker) };
    scope.spawn_with(queue.slices, body).ok()
}

/// Starts the workers, until one cannot be started, and returns those that run.
fn start_all<'s, E, G: Gate + Sync>(
    scope: &Scope<'s, E>,
    alloc: Global,
    queue: &SliceQueue<'s, G>,
    workers: u8,
) -> Result<Vec<Started<'s>>, Memory>
    ensures { IfOk result (λ threads. All (λ t. t.promise ≡ queue.now.slices) threads.items) }
{
    let mut threads = Vec::with_capacity(alloc, usize::from(workers))?;
    for worker in 0..workers {
        match start(scope, alloc, queue, worker) {
            Some(thread) => threads.push_reserved(thread),
            None => {
                queue.stop();
                break;
            }
        }
    }
    Ok(threads)
}

/// Starts the workers, and adds up what they counted.
fn count_in_threads<'s, E, R: Threads, G: Gate + Sync>(
    scope: &Scope<'s, E>,
    rt: &R,
    alloc: Global,
    queue: &SliceQueue<'s, G>,
    workers: u8,
) -> Result<ThreadCounts, TallyFault>
    ensures { IfOk result (AreThreadCounts queue.now.slices) }
{
    let none = ThreadCounts::none(alloc, queue.slices)?;
    let threads = start_all(scope, alloc, queue, workers)?;
    let started = threads.len() == usize::from(workers);
    let totals = join_all(rt, queue.slices, threads, none);
    if !started {
        // memory: a thread was not started
        return Err(TallyFault::Start);
    }
    Ok(totals?)
}

/// Joins all threads, and adds up what they counted.
fn join_all<'s, R: Threads>(
    rt: &R,
    slices: SlicedGame<'s>,
    threads: Vec<Started<'s>>,
    totals: ThreadCounts,
) -> Result<ThreadCounts, Memory>
    requires threads { All (λ t. t.promise ≡ slices) threads.items }
    requires totals { AreThreadCounts slices totals }
    ensures { IfOk result (AreThreadCounts slices.entry) }
{
    let mut all = totals;
    let mut out_of_memory = false;
    for thread in threads {
        match thread.join(rt) {
            // memory: a growth that was refused
            Ok(totals) => out_of_memory |= all.add(slices, &totals.taken, &totals.counts).is_err(),
            // memory: the one error of a thread is Memory
            Err(_) => out_of_memory = true,
        }
    }
    // memory: counts that were refused, or not added
    if out_of_memory { Err(Memory) } else { Ok(all) }
}

/// Counts all slices one after the other.
///
/// For the prover: this fallback never runs, since each slice is taken once.
fn one_by_one<G: Gate>(
    alloc: Global,
    slices: SlicedGame<'_>,
    gate: &G,
) -> Result<Box<Counts>, Memory>
    ensures { IfOk result (λ counts. CountWhole slices.entry counts.value) }
{
    let mut counts = Box::new(alloc, Counts::none(slices.game))?;
    for slice in 0..slices.count() {
        gate.pass(0, slice);
        counts.add(&count_slice(slices, slice, gate));
    }
    Ok(counts)
}
