//! The gatherer's side of one worker.
ghost use Rattle.std.specs.Prelude.{◌≡◌, ℕ, ◌||◌, ◌+◌, ◌<◌, ◌≤◌, ◌^◌, ◌++◌, ◌∷◌, [], List, All, IfOk, IfErr, if◌then◌else◌, IsTrue, IsFalse, true, false, count_by, length, take, vec_len, vec_capacity};
ghost use Rattle.std.specs.List.{list_any};
ghost use Rattle.council_game.specs.declared.limits.TheConstants.{WORKERS};
ghost use Rattle.mwc_pipe.specs.declared.word.Word.{Word};
ghost use Rattle.mwc_gather.specs.Slicing.{Slicing};
ghost use Rattle.mwc_gather.specs.Wording.{open_words};
ghost use Rattle.mwc_gather.specs.Inner.PartBuilders.{IsBuilderOf, AddsWords, FailsOnlyWithoutRoom};
ghost use Rattle.mwc_gather.specs.Inner.Sending.{end_words, is_done};
ghost use Rattle.mwc_gather.specs.Inner.Scheduling.{IsFresh};
ghost use Rattle.mwc_gather.specs.Inner.Fault.{IsEarly, fault_in};
ghost use Rattle.mwc_gather.specs.Inner.Gathering.{slices_of};
ghost use Rattle.mwc_gather.specs.Sending.{HasWorked};
ghost use Rattle.mwc_gather.specs.Inner.Sending.{is_end};

use crate::channels::Channels;
use crate::fault::GatherFault;
use crate::job::Job;
use crate::observer::SliceObserver;
use crate::part::Part;
use crate::part_builder::PartBuilder;
use crate::promise::{Answer, GivenJob};
use crate::send::put;
use crate::waiting::{WakerPair, Wakers};
use crate::worker::run_worker;
use mwc_pipe::{Rest, RingIn, RingOut, Word};
use mwc_walk::slice_count;
use std::alloc::Global;
use std::sync::Wait;
use std::thread::{PromisedHandle, Scope, Threads};

/// The gatherer's side of one worker.
#[derive(Drop)]
pub(crate) struct WorkerHandle {
    pub worker: PromisedHandle<Answer, GivenJob>,
    /// The end that its words come from.
    pub words: RingOut,
    /// The end that its tasks are put into.
    pub tasks: RingIn,
    /// The slices that it was given, in that order.
    pub given: Vec<u16>,
    /// Whether it has finished all slices that it was given.
    pub idle: bool,
    /// Whether it was sent the task that there are no more slices.
    pub dismissed: bool,
    /// Whether it has sent its End.
    pub ended: bool,
    /// What is kept of its words.
    pub builder: PartBuilder,
    ghost words_ring: { words.ring ≡ worker.promise.out.value.ring },
    ghost tasks_ring: { worker.promise.tasks.value.ring ≡ tasks.ring },
    ghost keeps: { IsBuilderOf words.taken builder },
    ghost tasks_are: { tasks.accepted ≡ open_words given.items ++ end_words dismissed },
    ghost one_ahead: { length given.items ≤ count_by is_done words.taken + 1 },
    ghost idle_is_done: { idle ≡ true → length given.items ≤ count_by is_done words.taken },
    ghost ended_is_end: { ended ≡ list_any is_end words.taken },
    ghost below: { All (λ j. j < 2 ^ worker.promise.bits) given.items },
}

impl WorkerHandle {
    ghost use Rattle.mwc_gather.specs.Inner.WorkerHandles.{IsOf, IsSameWorker, view_of, IsPartOfWorker, CanEndWith};

    /// Makes room for what a worker sends, and starts it.
    pub fn open<'s, E, R: Threads + Wait + Sync, G: SliceObserver + Sync>(
        scope: &Scope<'s, E>,
        rt: &'s R,
        alloc: Global,
        job: &Job<'s, G>,
        worker: u8,
        wakers: &'s Wakers,
    ) -> Result<WorkerHandle, GatherFault>
        requires worker { worker < WORKERS }
        requires gate { (j : ℕ) → j < 2 ^ job.now.bits → G.takes worker j }
        ensures order { IfOk result (IsOf (slices_of job.now) job.now.most) }
        ensures fresh { IfOk result (λ d. IsFresh (view_of d)) }
        ensures fault { IfErr result IsEarly }
    {
        let Channels {
            out,
            words,
            tasks,
            list,
            mut row,
            given,
            builder,
        } = Channels::new(alloc, slice_count(job.bits))?;
        let given_job = job.with_rings(&out, &list);
        let own = Job {
            guarded: job.guarded.for_thread(),
            bits: job.bits,
            most: job.most,
        };
        let pair = WakerPair {
            own: &wakers.workers[usize::from(worker)],
            other: &wakers.gatherer,
        };
        let body = move || -> Answer
            requires worker { worker < WORKERS }
            requires row { 0 < length row.items }
            requires fresh { (out.accepted ≡ []) × (list.taken ≡ []) }
            requires gate { (j : ℕ) → j < 2 ^ own.bits → G.takes worker j }
            ensures { HasWorked (slices_of own.entry) own.entry.most
                out list result }
        { run_worker(rt, &own, worker, row.as_mut_slice(), out, list, pair) };
        let Ok(worker) = scope.spawn_with(given_job, body) else {
            return Err(GatherFault::Start);
        };
        Ok(WorkerHandle {
            worker,
            words,
            tasks,
            given,
            idle: true,
            dismissed: false,
            ended: false,
            builder,
        })
    }

    /// Makes room for one more slice, and returns whether there is room.
    ///
    /// If there is none, the builder notes it.
    pub fn make_room(&mut self) -> bool
        ensures same { IsSameWorker self.old self.new }
        ensures room { IsTrue result → vec_len self.new.given < vec_capacity self.new.given }
        ensures make_room { IsTrue result → view_of self.new ≡ view_of self.old }
        ensures out_of_memory { IsFalse result
            → view_of self.new ≡ record (view_of self.old) { out_of_memory = true } }
        ensures full { IsFalse result → vec_capacity self.old.given ≤ vec_len self.old.given }
    {
        if self.given.reserve(1).is_err() {
            self.builder.out_of_memory = true;
            return false;
        }
        true
    }

    /// Gives a slice to a worker that has finished all that it was given.
    #[tactic(auto, using(std::proofs::lemmas::Grind::common_steps))]
    pub fn assign<R: Wait>(&mut self, rt: &R, slice: u16, pair: WakerPair<'_>)
        requires slice { slice < 2 ^ self.old.worker.promise.bits }
        requires room { vec_len self.old.given < vec_capacity self.old.given }
        requires idle { (self.old.dismissed ≡ false) × (self.old.idle ≡ true) }
        ensures same { IsSameWorker self.old self.new }
        ensures given { view_of self.new ≡
            record (view_of self.old) { given = self.old.given.items ++ slice ∷ []; idle = false } }
    {
        self.given.push_reserved(slice);
        put(rt, &mut self.tasks, Word::Open(slice), pair);
        self.idle = false;
    }

    /// Sends the worker the task that there are no more slices.
    pub fn dismiss<R: Wait>(&mut self, rt: &R, pair: WakerPair<'_>)
        requires { self.old.dismissed ≡ false }
        ensures same { IsSameWorker self.old self.new }
        ensures dismissed { view_of self.new ≡ record (view_of self.old) { dismissed = true } }
    {
        put(rt, &mut self.tasks, Word::End { cut: false }, pair);
        self.dismissed = true;
    }

    /// Takes the words that have arrived into a row, keeps them, and returns how many.
    pub fn read(&mut self, row: &mut [Word]) -> usize
        ensures worker { self.new.worker.promise ≡ self.old.worker.promise }
        ensures same { (self.new.given.items ≡ self.old.given.items)
            × (self.new.dismissed ≡ self.old.dismissed) }
        ensures idle { self.new.idle ≡ (self.old.idle || list_any is_done (take result row.new)) }
        ensures taken { (result ≤ length row.new)
            × (self.new.words.taken ≡ self.old.words.taken ++ take result row.new) }
        ensures out_of_memory { self.new.builder.out_of_memory ≡ false → self.old.builder.out_of_memory ≡ false }
        ensures full { FailsOnlyWithoutRoom self.old.builder result self.new.builder }
        ensures cut { self.new.builder.cut ≡ false → self.old.builder.cut ≡ false }
    {
        let count = self.words.take_some(row);
        let signals = self.builder.add_row(&row[..count]);
        self.idle |= signals.done;
        self.ended |= signals.end;
        count
    }

    /// Joins the worker, keeps what is left of its words, and returns its part.
    pub fn finish<R: Threads>(self, rt: &R) -> Result<Part, GatherFault>
        ensures part { IfOk result (λ p. (g : Slicing) (most : ℕ) → IsOf g most self
            → IsPartOfWorker g self p) }
        ensures ends { (g : Slicing) (most : ℕ) → IsOf g most self
            → CanEndWith g most self (fault_in result) }
    {
        let WorkerHandle {
            worker,
            words,
            tasks,
            given,
            idle: _,
            dismissed: _,
            ended: _,
            mut builder,
        } = self;
        let (closed, list) = worker.join(rt);
        let Ok(dismissed) = tasks.close() else {
            return Err(ring_fault(&builder));
        };
        let _left = list.end(dismissed);
        let Ok(closed) = closed else {
            return Err(ring_fault(&builder));
        };
        drain(words.end(closed), &mut builder);
        builder.into_part(given)
    }
}

/// Returns the fault of a ring that could not be finished.
///
/// It is `Memory` if a growth was refused before.
fn ring_fault(builder: &PartBuilder) -> GatherFault
    ensures { result ≡ (if builder.now.out_of_memory then GatherFault.Memory else GatherFault.Ring) }
{
    if builder.out_of_memory {
        // memory: a growth was refused
        GatherFault::Memory
    } else {
        GatherFault::Ring
    }
}

/// Keeps all words that are left.
fn drain(mut rest: Rest, builder: &mut PartBuilder)
    ensures { AddsWords builder.old rest builder.new }
{
    while let Some(word) = rest.next() {
        let _signals = builder.add_row([word].as_slice());
    }
}
