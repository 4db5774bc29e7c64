//! A pipe of words that is only filled.
ghost use Rattle.std.specs.Prelude.{◌≡◌, ◌≢◌, ◌≤◌, ◌^◌, ◌↔◌, ◌++◌, ◌∷◌, [], ℕ, length, true, false, OnOk, IfErr, IfSome};
ghost use Rattle.mwc_pipe.specs.Refusal.{PutsIn};
ghost use Rattle.mwc_pipe.specs.Calls.{reply_of_put};
ghost use Rattle.mwc_pipe.specs.PipeView.{IsStep};
ghost use Rattle.mwc_pipe.specs.BatchView.{still_open};
ghost use Rattle.mwc_pipe.specs.declared.step.Step.TheVariants.{Put};

use crate::pipe::Pipe;
use crate::pipe_in::PipeIn;
use crate::step::Refused;
use crate::word::Word;
use std::alloc::Global;
use std::marker::Model;

/// A pipe of words that is filled, and then closed.
///
/// Contracts see its capacity, the words that it accepted, and whether a put was refused for good.
#[derive(Drop)]
pub struct Batch {
    pipe: Pipe<Word>,
    broken: bool,
}

impl Model for Batch {
    ghost use Rattle.std.specs.Prelude.{◌≡◌, false};
    ghost use Rattle.mwc_pipe.specs.BatchView.{BatchView};

    ghost Value = { BatchView };

    ghost view = { λ b.
        record { capacity = b.pipe.capacity; accepted = b.pipe.inside; broken = b.broken } };

    ghost invariant = { λ b. b.pipe.closed ≡ false };
}

impl Batch {
    /// Makes an empty batch with room for 1 to 2^23 words.
    ///
    /// It takes no memory.
    pub fn new(alloc: Global, capacity: u32) -> Self
        requires { (1 ≤ capacity) × (capacity ≤ 2 ^ 23) }
        ensures { result ≡ record { capacity = capacity; accepted = []; broken = false } }
    {
        Batch {
            pipe: Pipe::new(alloc, capacity),
            broken: false,
        }
    }

    /// Returns the words that were accepted, in a closed pipe.
    ///
    /// It takes no memory.
    pub fn close(self) -> Pipe<Word>
        ensures { result
            ≡ record { capacity = self.capacity; inside = self.accepted; closed = true } }
    {
        let mut pipe = self.pipe;
        pipe.close();
        pipe
    }
}

impl PipeIn<Word> for Batch {
    ghost Identity = { ℕ };

    ghost identity = { λ b. b.capacity };

    ghost accepted = { λ b. b.accepted };

    ghost broken = { λ b. b.broken };

    /// Puts a word in, after all others.
    ///
    /// # Errors
    ///
    /// `Full` if `capacity` words were accepted, else `Memory` if a growth was refused. It is never
    /// refused as `Closed`.
    fn put(&mut self, item: Word) -> Result<(), Refused<Word>>
        ensures identity { self.new.capacity ≡ self.old.capacity }
        ensures put { PutsIn item self.old.accepted self.old.broken result
            self.new.accepted self.new.broken }
        ensures open { result ≢ Err (Refused.Closed item) }
        ensures full { (result ≡ Err (Refused.Full item))
            ↔ (length self.old.accepted ≡ self.old.capacity) }
        ensures step { IfSome (reply_of_put result)
            (λ reply. IsStep (still_open self.old) (Put item) reply (still_open self.new)) }
    {
        match self.pipe.put(item) {
            Ok(()) => Ok(()),
            Err(Refused::Full(word)) => Err(Refused::Full(word)),
            Err(Refused::Closed(word)) => {
                self.broken = true;
                Err(Refused::Closed(word))
            }
            Err(Refused::Memory(word)) => {
                self.broken = true;
                // memory: the pipe inside refused it
                Err(Refused::Memory(word))
            }
        }
    }
}
