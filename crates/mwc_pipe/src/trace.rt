//! A whole history of a pipe.
ghost use Rattle.std.specs.Prelude.{◌≡◌, ◌≤◌, ◌^◌, [], ◌∷◌, ◌++◌, length, false, IfOk, OnOk};
ghost use Rattle.std.specs.Option.{option_to_list};
ghost use Rattle.std.specs.List.{list_any};
ghost use Rattle.mwc_pipe.specs.PipeView.{IsStep, Leaves};
ghost use Rattle.mwc_pipe.specs.History.{history, replies, items_in, items_out, is_close, item_in, item_out, IsLawful};
ghost use Rattle.mwc_pipe.specs.Laws.{NothingEntersAfterClose};

use crate::pipe::Pipe;
use crate::step::{Refused, Reply, Step, Taken};
use council_game::Memory;
use std::alloc::Global;

/// What a pipe made of a list of steps.
#[derive(Drop)]
pub struct Trace<T> {
    /// The reply to each step.
    pub replies: Vec<Reply<T>>,
    /// The items that were accepted, in step order.
    pub came: Vec<T>,
    /// The items that were taken, in step order.
    pub gone: Vec<T>,
    /// The items that are left, oldest first.
    pub inside: Vec<T>,
    /// Whether there was a close.
    pub closed: bool,
}

/// Serves steps, one after another, by a new pipe with room for 1 to 2^23 items.
///
/// The items that came out, and after them those inside, are the items that went in, in their
/// order; after a close none did.
///
/// # Errors
///
/// `Memory` if a growth was refused.
pub fn replay<T: Copy>(alloc: Global, capacity: u32, steps: &[Step<T>]) -> Result<Trace<T>, Memory>
    requires { (1 ≤ capacity) × (capacity ≤ 2 ^ 23) }
    ensures replies { IfOk result (λ trace. trace.replies.items ≡ replies capacity steps.now) }
    ensures came { IfOk result (λ trace. trace.came.items ≡ items_in (history capacity steps.now)) }
    ensures gone { IfOk result
        (λ trace. trace.gone.items ≡ items_out (history capacity steps.now)) }
    ensures lawful { IfOk result
        (λ trace. IsLawful trace.came.items trace.gone.items trace.inside.items) }
    ensures room { IfOk result (λ trace. length trace.inside.items ≤ capacity) }
    ensures shut { IfOk result (λ trace. NothingEntersAfterClose steps.now trace.replies.items) }
    ensures closed { IfOk result (λ trace. trace.closed ≡ list_any is_close steps.now) }
{
    let mut pipe = Pipe::new(alloc, capacity);
    let mut trace = Trace {
        replies: Vec::new(alloc),
        came: Vec::new(alloc),
        gone: Vec::new(alloc),
        inside: Vec::new(alloc),
        closed: false,
    };
    trace.serve_all(&mut pipe, steps)?;
    trace.closed = pipe.is_closed();
    trace.inside = items_of(alloc, pipe)?;
    Ok(trace)
}

impl<T: Copy> Trace<T> {
    /// Notes a step and the reply to it.
    fn add(&mut self, step: Step<T>, reply: Reply<T>) -> Result<(), Memory>
        ensures replies { OnOk result (self.new.replies.items ≡ self.old.replies.items ++ reply ∷ []) }
        ensures came { OnOk result
            (self.new.came.items ≡ self.old.came.items ++ option_to_list (item_in (step, reply))) }
        ensures gone { OnOk result
            (self.new.gone.items ≡ self.old.gone.items ++ option_to_list (item_out (step, reply))) }
    {
        self.replies.push(reply)?;
        match (step, reply) {
            (Step::Put(item), Reply::Accepted) => self.came.push(item)?,
            (Step::Take, Reply::Item(item)) => self.gone.push(item)?,
            _ => {}
        }
        Ok(())
    }

    /// Serves steps by a new pipe, and notes them in a new trace.
    fn serve_all(&mut self, pipe: &mut Pipe<T>, steps: &[Step<T>]) -> Result<(), Memory>
        requires new { (self.old.replies.items ≡ []) × (self.old.came.items ≡ [])
            × (self.old.gone.items ≡ []) }
        requires pipe { (pipe.old.inside ≡ []) × (pipe.old.closed ≡ false) }
        ensures replies { OnOk result
            (self.new.replies.items ≡ replies pipe.old.capacity steps.now) }
        ensures came { OnOk result
            (self.new.came.items ≡ items_in (history pipe.old.capacity steps.now)) }
        ensures gone { OnOk result
            (self.new.gone.items ≡ items_out (history pipe.old.capacity steps.now)) }
        ensures leaves { OnOk result (Leaves (history pipe.old.capacity steps.now) pipe.new) }
    {
        for step in steps {
            let reply = serve(pipe, *step)?;
            self.add(*step, reply)?;
        }
        Ok(())
    }
}

/// Serves one step; only a put may run out of memory.
fn serve<T: Copy>(pipe: &mut Pipe<T>, step: Step<T>) -> Result<Reply<T>, Memory>
    ensures { IfOk result (λ reply. IsStep pipe.old step reply pipe.new) }
{
    match step {
        Step::Put(item) => match pipe.put(item) {
            Ok(()) => Ok(Reply::Accepted),
            Err(Refused::Closed(_)) => Ok(Reply::Closed),
            Err(Refused::Full(_)) => Ok(Reply::Full),
            Err(Refused::Memory(_)) => Err(Memory),
        },
        Step::Take => match pipe.take() {
            Taken::Item(item) => Ok(Reply::Item(item)),
            Taken::Empty => Ok(Reply::Empty),
            Taken::Ended => Ok(Reply::Ended),
        },
        Step::Close => {
            if pipe.close() {
                Ok(Reply::First)
            } else {
                Ok(Reply::Again)
            }
        }
    }
}

/// Takes the items that are left inside, oldest first.
fn items_of<T: Copy>(alloc: Global, mut pipe: Pipe<T>) -> Result<Vec<T>, Memory>
    ensures { IfOk result (λ items. items.items ≡ pipe.inside) }
{
    let mut items = Vec::new(alloc);
    while let Taken::Item(item) = pipe.take() {
        items.push(item)?;
    }
    Ok(items)
}
