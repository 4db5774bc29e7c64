//! The call that runs the workers.
ghost use Rattle.std.specs.Prelude.{◌≡◌, ◌≢◌, ◌<◌, ◌≤◌, ◌^◌, All, List, ℕ, Option, Some, None, IfOk, IfErr, length, vec_len};
ghost use Rattle.std.specs.Option.{is_some};
ghost use Rattle.std.specs.List.{AllZip};
ghost use Rattle.council_game.specs.declared.limits.TheConstants.{BITS, WORKERS, COALITIONS};
ghost use Rattle.council_game.specs.Votes.{minimal_coalitions};
ghost use Rattle.council_game.specs.Game.{votes_of};
ghost use Rattle.mwc_gather.specs.Inner.Scheduling.{IsFresh};
ghost use Rattle.mwc_gather.specs.Inner.Fault.{fault_in, first_of_all};
ghost use Rattle.mwc_gather.specs.Inner.WorkerHandles.{AllOf, AssignsTo, CanEndWith, HasStarted, views_of};
ghost use Rattle.mwc_gather.specs.declared.scheduler.Scheduler.{Scheduler};
ghost use Rattle.mwc_gather.specs.Gathering.{Gathers};
ghost use Rattle.mwc_gather.specs.Inner.Gathering.{slices_of, all_total, Answers, IsComplete};

use crate::channels::new_row;
use crate::fault::{GatherFault, first_of};
use crate::gathered::Gathered;
use crate::guarded::Guarded;
use crate::job::Job;
use crate::marks::Marks;
use crate::observer::SliceObserver;
use crate::part::{Part, fits};
use crate::scheduler::Scheduler;
use crate::waiting::Wakers;
use crate::worker_handle::WorkerHandle;
use council_game::Gate;
use mwc_walk::slice_count;
use std::alloc::Global;
use std::sync::Wait;
use std::thread;
use std::thread::{Scope, Threads};

/// Lists the minimal winning coalitions of the game, if there are at most `most`.
///
/// Each worker runs in a thread of its own. Worker w begins with slice w; a worker that has
/// finished its slices gets the lowest slice that no worker has. The call returns after all workers
/// have ended.
///
/// There are at most 10 bits, and no more than members; 1 to 16 workers; `most` is 1 to 4,000,000.
///
/// # Errors
///
/// The first of `Start`, `Memory`, `Ring` and `TooMany` that was met. Without the first three it is
/// `TooMany` exactly if the game has more than `most` minimal winning coalitions. After a fault no
/// further slice is given, and nothing is kept.
#[tactic(auto, using(std::proofs::lemmas::Grind::common_steps))]
pub fn gather<R: Threads + Wait + Sync, G: Gate + Sync>(
    rt: &R,
    alloc: Global,
    guarded: &Guarded<'_, G>,
    bits: u8,
    workers: u8,
    most: u32,
) -> Result<Gathered, GatherFault>
    requires bits { (bits ≤ BITS) × (bits ≤ length guarded.now.names) }
    requires workers { (1 ≤ workers) × (workers ≤ WORKERS) }
    requires most { (1 ≤ most) × (most ≤ COALITIONS) }
    ensures gathers { IfOk result (Gathers (votes_of guarded.now) bits workers most) }
    ensures many { result ≡ Err GatherFault.TooMany
        → most < length (minimal_coalitions (votes_of guarded.now)) }
{
    let job = Job {
        guarded: guarded.for_thread(),
        bits,
        most,
    };
    let wakers = Wakers::new();
    let wakers = &wakers;
    thread::scope(
        thread::scope_env(),
        rt,
        move |scope| -> Result<Gathered, GatherFault>
            requires { (1 ≤ workers) × (workers ≤ WORKERS) }
            ensures { Answers job.entry workers result }
        { run(scope, rt, alloc, &job, workers, wakers) },
    )
}

/// Starts the workers, gives them slices while they run, and joins them.
fn run<'s, E, R: Threads + Wait + Sync, G: SliceObserver + Sync>(
    scope: &Scope<'s, E>,
    rt: &'s R,
    alloc: Global,
    job: &Job<'s, G>,
    workers: u8,
    wakers: &'s Wakers,
) -> Result<Gathered, GatherFault>
    requires workers { (1 ≤ workers) × (workers ≤ WORKERS) }
    requires gate { (w j : ℕ) → w < workers → j < 2 ^ job.now.bits → G.takes w j }
    ensures { Answers job.now workers result }
{
    let mut row = new_row(alloc)?;
    let (mut handles, met) = open_all(scope, rt, alloc, job, workers, wakers);
    let mut scheduler = Scheduler {
        marks: Marks::new(slice_count(job.bits)),
        stopped: met.is_some(),
    };
    scheduler.read_all(rt, job, handles.as_mut_slice(), row.as_mut_slice(), wakers);
    let parts = finish_all(rt, alloc, job, handles, met)?;
    combine_parts(job, workers, parts)
}

/// Returns the parts together, unless they have more coalitions than were asked for.
fn combine_parts<G>(
    job: &Job<'_, G>,
    workers: u8,
    parts: Vec<Part>,
) -> Result<Gathered, GatherFault>
    requires { IsComplete (slices_of job.now) workers parts.items }
    ensures answers { Answers job.now workers result }
    ensures fault { IfErr result (λ fault. fault ≡ GatherFault.TooMany) }
{
    if !fits(parts.as_slice(), job.most) {
        return Err(GatherFault::TooMany);
    }
    Ok(Gathered {
        parts,
        slices: slice_count(job.bits),
    })
}

/// Starts the workers, until one cannot be started.
///
/// Returns their handles, for which room is made first, and the fault of the one that did not
/// start.
#[tactic(auto, using(std::proofs::lemmas::Grind::common_steps))]
fn open_all<'s, E, R: Threads + Wait + Sync, G: SliceObserver + Sync>(
    scope: &Scope<'s, E>,
    rt: &'s R,
    alloc: Global,
    job: &Job<'s, G>,
    workers: u8,
    wakers: &'s Wakers,
) -> (Vec<WorkerHandle>, Option<GatherFault>)
    requires workers { (1 ≤ workers) × (workers ≤ WORKERS) }
    requires gate { (w j : ℕ) → w < workers → j < 2 ^ job.now.bits → G.takes w j }
    ensures few { vec_len result.0 ≤ workers }
    ensures started { HasStarted workers (vec_len result.0) result.1 }
    ensures order { AllOf (slices_of job.now) job.now.most result.0.items }
    ensures fresh { All IsFresh (views_of result.0.items) }
{
    let mut handles = Vec::new(alloc);
    if handles.reserve(usize::from(workers)).is_err() {
        return (handles, Some(GatherFault::Memory));
    }
    for worker in 0..workers {
        match WorkerHandle::open(scope, rt, alloc, job, worker, wakers) {
            Ok(handle) => handles.push_reserved(handle),
            Err(why) => return (handles, Some(why)),
        }
    }
    (handles, None)
}

/// Joins all workers, and returns the part of each, or the first fault.
fn finish_all<R: Threads, G>(
    rt: &R,
    alloc: Global,
    job: &Job<'_, G>,
    handles: Vec<WorkerHandle>,
    start: Option<GatherFault>,
) -> Result<Vec<Part>, GatherFault>
    requires start { start ≢ Some GatherFault.TooMany }
    requires assigned { (scheduler : Scheduler) × AssignsTo (slices_of job.now) job.now.most
        (is_some start) scheduler handles.items }
    ensures first { (whys : List (Option GatherFault))
        × AllZip (CanEndWith (slices_of job.now) job.now.most) handles.items whys
        × (fault_in result ≡ first_of_all start whys) }
    ensures none { IfOk result (λ v. start ≡ None) }
    ensures parts { IfOk result (λ v. 0 < vec_len handles
        → IsComplete (slices_of job.now) (vec_len handles) v.items) }
    ensures many { result ≡ Err GatherFault.TooMany
        → job.now.most < all_total (slices_of job.now) }
{
    let mut met = start;
    let mut parts = Vec::new(alloc);
    for handle in handles {
        match handle.finish(rt) {
            Ok(part) => {
                if parts.push(part).is_err() {
                    met = Some(first_of(met, GatherFault::Memory));
                }
            }
            Err(why) => met = Some(first_of(met, why)),
        }
    }
    match met {
        Some(why) => Err(why),
        None => Ok(parts),
    }
}
