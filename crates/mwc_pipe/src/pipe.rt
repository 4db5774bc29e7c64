//! A bounded queue with a close.
ghost use Rattle.std.specs.Prelude.{◌≡◌, ◌≤◌, ◌<◌, ◌^◌, ◌↔◌, [], ◌∷◌, ◌++◌, length, true, false, not, OnOk, IfErr, IfSome};
ghost use Rattle.mwc_pipe.specs.PipeView.{IsStep};
ghost use Rattle.mwc_pipe.specs.Refusal.{handed_back};
ghost use Rattle.mwc_pipe.specs.Calls.{reply_of_put, reply_of_taken, reply_of_close, TakesOut};
ghost use Rattle.mwc_pipe.specs.declared.step.Step.TheVariants.{Put, Take, Close};

use crate::step::{Refused, Taken};
use std::alloc::Global;
use std::collections::VecDeque;
use std::marker::Model;
use std::mem;

/// A bounded queue that can be closed, in one thread.
///
/// Contracts see its capacity, the items inside, oldest first, and whether it is closed.
#[derive(Drop)]
pub struct Pipe<T> {
    items: VecDeque<T>,
    capacity: u32,
    closed: bool,
}

impl<T> Model for Pipe<T> {
    ghost use Rattle.std.specs.Prelude.{◌≤◌, ◌^◌, length};
    ghost use Rattle.mwc_pipe.specs.PipeView.{PipeView};

    ghost Value = { PipeView T };

    ghost view = { λ p.
        record { capacity = p.capacity; inside = p.items.items; closed = p.closed } };

    ghost invariant = { λ p. (length p.items.items ≤ p.capacity) × (p.capacity ≤ 2 ^ 23) };
}

impl<T> Pipe<T> {
    /// Makes an empty, open pipe with room for 1 to 2^23 items.
    ///
    /// It takes no memory.
    pub fn new(alloc: Global, capacity: u32) -> Self
        requires { (1 ≤ capacity) × (capacity ≤ 2 ^ 23) }
        ensures { result ≡ record { capacity = capacity; inside = []; closed = false } }
    {
        Pipe {
            items: VecDeque::new(alloc),
            capacity,
            closed: false,
        }
    }

    /// Puts an item in, after all others.
    ///
    /// # Errors
    ///
    /// Hands the item back, and changes nothing: Closed after a close; else Full if `capacity`
    /// items are inside; else Memory if a growth was refused.
    pub fn put(&mut self, item: T) -> Result<(), Refused<T>>
        ensures ok { OnOk result
            (self.new ≡ record self.old { inside = self.old.inside ++ item ∷ [] }) }
        ensures refused { IfErr result (λ e. (handed_back e ≡ item) × (self.new ≡ self.old)) }
        ensures closed { (result ≡ Err (Refused.Closed item)) ↔ (self.old.closed ≡ true) }
        ensures full { (result ≡ Err (Refused.Full item)) ↔
            ((self.old.closed ≡ false) × (length self.old.inside ≡ self.old.capacity)) }
        ensures step { IfSome (reply_of_put result)
            (λ reply. IsStep self.old (Put item) reply self.new) }
    {
        if self.closed {
            return Err(Refused::Closed(item));
        }
        if self.items.len() >= self.capacity as usize {
            return Err(Refused::Full(item));
        }
        if let Err(failed) = self.items.push_back(item) {
            return Err(Refused::Memory(failed.value));
        }
        Ok(())
    }

    /// Takes the oldest item out; it takes no memory.
    pub fn take(&mut self) -> Taken<T>
        ensures taken { TakesOut self.old result self.new }
        ensures step { IsStep self.old Take (reply_of_taken result) self.new }
    {
        match self.items.pop_front() {
            Some(item) => Taken::Item(item),
            None if self.closed => Taken::Ended,
            None => Taken::Empty,
        }
    }

    /// Closes the pipe, and returns whether this was the first close.
    ///
    /// A later one changes nothing.
    #[tactic(auto, using(crate::proofs::Steps::stepping))]
    pub fn close(&mut self) -> bool
        ensures first { result ≡ not self.old.closed }
        ensures closed { self.new ≡ record self.old { closed = true } }
        ensures step { IsStep self.old Close (reply_of_close result) self.new }
    {
        !mem::replace(&mut self.closed, true)
    }

    /// Returns how many items are inside.
    pub fn len(&self) -> u32
        ensures length { result ≡ length self.now.inside }
        ensures bound { result ≤ self.now.capacity }
    {
        self.items.len() as u32
    }

    /// Returns how many items there is room for.
    pub fn capacity(&self) -> u32
        ensures { result ≡ self.now.capacity }
    {
        self.capacity
    }

    /// Returns whether the pipe is closed.
    pub fn is_closed(&self) -> bool
        ensures { result ≡ self.now.closed }
    {
        self.closed
    }
}
