//! The code that hands out slices to the workers while they run.
ghost use Rattle.std.specs.Prelude.{◌≡◌, ◌<◌, ◌≤◌, ◌^◌, ◌++◌, List, All, length, replicate, true, false};
ghost use Rattle.std.specs.List.{list_any};
ghost use Rattle.council_game.specs.declared.limits.TheConstants.{WORKERS};
ghost use Rattle.mwc_pipe.specs.declared.word.Word.{Word};
ghost use Rattle.mwc_gather.specs.Inner.Sending.{is_done};
ghost use Rattle.mwc_gather.specs.Inner.Scheduling.{TakesTurn, IsFresh};
ghost use Rattle.mwc_gather.specs.Inner.Gathering.{slices_of};
ghost use Rattle.mwc_gather.specs.Inner.WorkerHandles.{IsSameWorker, view_of, views_of, AllOf, CanAssign, AssignsTo, AssignsFirst};

use crate::job::Job;
use crate::marks::Marks;
use crate::waiting::{Backoff, WakerPair, Wakers};
use crate::worker_handle::WorkerHandle;
use mwc_pipe::Word;
use std::sync::Wait;

/// What hands out the slices to the workers.
#[derive(Drop)]
pub(crate) struct Scheduler {
    /// Which worker each slice was given to.
    pub marks: Marks,
    /// Whether no further slice is given: from the beginning if a worker did not start.
    pub stopped: bool,
}

impl Scheduler {
    /// Gives a worker that has finished its slices the next one, or says there is none.
    ///
    /// It is the lowest slice without a holder. After a refused growth or a cut no slice is given.
    fn assign_next<R: Wait>(
        &mut self,
        rt: &R,
        handle: &mut WorkerHandle,
        worker: u8,
        pair: WakerPair<'_>,
    )
        requires slices { length self.old.marks ≡ 2 ^ handle.old.worker.promise.bits }
        requires worker { worker < WORKERS }
        ensures same { IsSameWorker handle.old handle.new }
        ensures turns { TakesTurn false self.old.marks self.old.stopped (view_of handle.old) worker
            self.new.marks self.new.stopped (view_of handle.new) }
    {
        self.stopped |= handle.builder.out_of_memory | handle.builder.cut;
        if handle.dismissed || !handle.idle {
            return;
        }
        if self.stopped || !handle.make_room() {
            handle.dismiss(rt, pair);
            self.stopped = true;
            return;
        }
        match self.marks.lowest() {
            Some(slice) => {
                if !self.marks.give(slice, worker) {
                    unreachable!()
                }
                handle.assign(rt, slice, pair);
            }
            None => handle.dismiss(rt, pair),
        }
    }

    /// Takes the words of a worker that have arrived, and gives it the next slice.
    ///
    /// Returns whether a word had arrived.
    fn serve<R: Wait>(
        &mut self,
        rt: &R,
        handle: &mut WorkerHandle,
        worker: u8,
        row: &mut [Word],
        pair: WakerPair<'_>,
    ) -> bool
        requires slices { length self.old.marks ≡ 2 ^ handle.old.worker.promise.bits }
        requires worker { worker < WORKERS }
        ensures worker { handle.new.worker.promise ≡ handle.old.worker.promise }
        ensures turns { (words : List Word)
            × (handle.new.words.taken ≡ handle.old.words.taken ++ words)
            × TakesTurn (list_any is_done words) self.old.marks self.old.stopped
            (view_of handle.old) worker self.new.marks self.new.stopped (view_of handle.new) }
    {
        let count = handle.read(row);
        if count > 0 {
            pair.other.wake();
        }
        self.assign_next(rt, handle, worker, pair);
        count > 0
    }

    /// Gives one slice to each worker.
    #[tactic(auto, using(std::proofs::lemmas::Grind::common_steps))]
    fn assign_first<R: Wait, G>(
        &mut self,
        rt: &R,
        job: &Job<'_, G>,
        handles: &mut [WorkerHandle],
        wakers: &Wakers,
    )
        requires { CanAssign job.now self.old handles.old }
        ensures { AssignsFirst (slices_of job.now) job.now.most self.old.stopped
            self.new (length handles.old) handles.new }
    {
        for i in 0..handles.len() {
            self.assign_next(rt, &mut handles[i], i as u8, wakers.pair(i));
        }
    }

    /// Hands out the slices and reads the rings in turn, until each worker has ended.
    ///
    /// It waits if no word has arrived.
    pub fn read_all<R: Wait, G>(
        &mut self,
        rt: &R,
        job: &Job<'_, G>,
        handles: &mut [WorkerHandle],
        row: &mut [Word],
        wakers: &Wakers,
    )
        requires { CanAssign job.now self.old handles.old }
        ensures assigns { AssignsTo (slices_of job.now) job.now.most self.old.stopped
            self.new handles.new }
        ensures ended { All (λ d. d.ended ≡ true) handles.new }
    {
        let mut backoff = Backoff::new();
        self.assign_first(rt, job, handles, wakers);
        for _ in rt.forever() {
            let mut running = false;
            let mut moved = false;
            for i in 0..handles.len() {
                let handle = &mut handles[i];
                moved |= self.serve(rt, handle, i as u8, row, wakers.pair(i));
                running |= !handle.ended;
            }
            if !running {
                return;
            }
            if moved {
                backoff.renew(&wakers.gatherer);
            } else {
                backoff.wait(rt, &wakers.gatherer);
            }
        }
        unreachable!()
    }
}
