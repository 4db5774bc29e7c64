//! The end of a ring that words are put into.
ghost use Rattle.std.specs.Prelude.{◌≡◌, ◌+◌, ◌<◌, ◌≤◌, List, [], ◌∷◌, ◌++◌, false, length, min, take, IfOk, OnOk, IfErr, IsOk};
ghost use Rattle.mwc_pipe.specs.declared.word.Word.{Word};
ghost use Rattle.mwc_pipe.specs.History.{Event};
ghost use Rattle.mwc_pipe.specs.RowSteps.{AreAnswered, IsSeenByIn, puts_of};
ghost use Rattle.mwc_pipe.specs.Refusal.{PutsIn};
ghost use Rattle.mwc_pipe.specs.RingName.{RingName};
ghost use Rattle.council_game.specs.declared.limits.TheConstants.{CAPACITY};

use crate::closed::{Closed, Unfinished};
use crate::pipe_in::PipeIn;
use crate::ring_out::RingOut;
use crate::step::Refused;
use crate::word::Word;
use council_game::Memory;
use rtrb::{Producer, PushError, RingBuffer};
use std::alloc::Global;
use std::marker::Model;

/// The end of a ring that words are put into.
///
/// Contracts see which ring it is of, the capacity, the words that it accepted, and how many of
/// them it knows to have been taken.
#[derive(Drop)]
pub struct RingIn {
    pub(crate) producer: Producer<Word>,
}

impl Model for RingIn {
    ghost use Rattle.std.specs.Prelude.{◌≤◌, ◌+◌, ◌-◌, length};
    ghost use Rattle.mwc_pipe.specs.RingViews.{RingInView};
    ghost use Rattle.mwc_pipe.specs.Inner.RingViews.{ring_of_producer};
    ghost use Rattle.rtrb.specs.Ring.{sent, known_free, producer_capacity};

    ghost Value = { RingInView };

    ghost view = { λ r. record {
      ring = ring_of_producer r.producer;
      capacity = producer_capacity r.producer;
      accepted = sent r.producer;
      gone = length (sent r.producer) + known_free r.producer - producer_capacity r.producer;
    } };

    ghost invariant = { λ r.
        producer_capacity r.producer ≤ length (sent r.producer) + known_free r.producer };
}

impl RingIn {
    /// Puts a word in, after all others.
    ///
    /// The first `capacity` puts of a ring succeed. It takes no memory.
    ///
    /// # Errors
    ///
    /// Hands the word back if the ring is full as far as this end knows.
    pub fn put(&mut self, word: Word) -> Result<(), Word>
        ensures ring { (self.new.ring ≡ self.old.ring) × (self.new.capacity ≡ self.old.capacity) }
        ensures ok { OnOk result (self.new.accepted ≡ self.old.accepted ++ word ∷ []) }
        ensures refused { IfErr result (λ w. (w ≡ word)
            × (self.new.accepted ≡ self.old.accepted)) }
        ensures full { IfErr result (λ w.
            length self.new.accepted ≡ self.new.gone + self.new.capacity) }
        ensures gone { self.old.gone ≤ self.new.gone }
        ensures room { length self.old.accepted < self.old.capacity → IsOk result }
    {
        match self.producer.push(word) {
            Ok(()) => Ok(()),
            Err(PushError::Full(word)) => Err(word),
        }
    }

    /// Puts as many words of a row in as there is room for, and returns how many.
    ///
    /// It stops short only if the ring is full as far as this end knows; the first `capacity` words
    /// of a ring are accepted at once. However many they are, the ring is updated by one store. It
    /// takes no memory. A pipe from which as many words were taken as this end knows of answers
    /// such puts alike.
    pub fn put_some(&mut self, words: &[Word]) -> usize
        ensures count { result ≤ length words.now }
        ensures ring { (self.new.ring ≡ self.old.ring) × (self.new.capacity ≡ self.old.capacity) }
        ensures accepted { self.new.accepted ≡ self.old.accepted ++ take result words.now }
        ensures room { length self.new.accepted < self.old.capacity → result ≡ length words.now }
        ensures gone { self.old.gone ≤ self.new.gone }
        ensures replies { (past : List (Event Word))
            → IsSeenByIn self.old.accepted (min self.new.gone (length self.old.accepted)) past
            → AreAnswered self.old.capacity past (puts_of words.now result) }
    {
        // For the prover: `rtrb` does not say that it accepts at most as many as the capacity.
        let most = words.len().min(self.producer.capacity());
        let (accepted, _) = self.producer.push_partial_slice(&words[..most]);
        accepted.len()
    }

    /// Closes the ring and consumes the end, so no word can be put in after it.
    ///
    /// It takes no memory.
    ///
    /// # Errors
    ///
    /// `Unfinished` if the ring could not be finished: then it can never be ended.
    pub fn close(self) -> Result<Closed, Unfinished>
        ensures { IfOk result (λ c. (c.ring ≡ self.ring) × (c.accepted ≡ self.accepted)) }
    {
        let RingIn { producer } = self;
        match producer.finish() {
            Some(finished) => Ok(Closed { finished }),
            None => Err(Unfinished),
        }
    }
}

impl PipeIn<Word> for RingIn {
    ghost Identity = { RingName };

    ghost identity = { λ r. r.ring };

    ghost accepted = { λ r. r.accepted };

    ghost broken = { λ _. false };

    /// Puts a word in, after all others.
    ///
    /// # Errors
    ///
    /// `Full` if the ring is full, and no other refusal: a ring is never broken.
    fn put(&mut self, item: Word) -> Result<(), Refused<Word>>
        ensures identity { self.new.ring ≡ self.old.ring }
        ensures put { PutsIn item self.old.accepted false result self.new.accepted false }
        ensures full { IfErr result (λ e. e ≡ Refused.Full item) }
        ensures room { length self.old.accepted < self.old.capacity → IsOk result }
    {
        match RingIn::put(self, item) {
            Ok(()) => Ok(()),
            Err(word) => Err(Refused::Full(word)),
        }
    }
}

/// Makes a ring with room for 1 to 65,536 words, and returns its two ends.
///
/// Each end may move to a thread of its own.
///
/// # Errors
///
/// `Memory` if there was none for the words.
pub fn ring(alloc: Global, capacity: usize) -> Result<(RingIn, RingOut), Memory>
    requires { (1 ≤ capacity) × (capacity ≤ CAPACITY) }
    ensures pair { IfOk result (λ r. r.1.ring ≡ r.0.ring) }
    ensures empty { IfOk result (λ r. (r.0.accepted ≡ []) × (r.1.taken ≡ [])) }
    ensures capacity { IfOk result (λ r. r.0.capacity ≡ capacity) }
{
    let (producer, consumer) = RingBuffer::new(alloc, capacity)?;
    Ok((RingIn { producer }, RingOut { consumer }))
}
