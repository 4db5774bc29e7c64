//! The end of a ring that words are taken from.
ghost use Rattle.std.specs.Prelude.{◌≡◌, ◌≤◌, ◌<◌, ℕ, nat_lt, List, [], ◌∷◌, ◌++◌, length, take, drop, MatchOption};
ghost use Rattle.mwc_pipe.specs.declared.word.Word.{Word};
ghost use Rattle.mwc_pipe.specs.History.{Event, IsLawful};
ghost use Rattle.mwc_pipe.specs.RowSteps.{AreAnswered, IsSeenByOut, takes_of};

use crate::closed::Closed;
use crate::rest::Rest;
use crate::word::Word;
use rtrb::Consumer;
use std::marker::Model;

/// The end of a ring that words are taken from.
///
/// Contracts see which ring it is of, the words that were taken, and those that it knows to be
/// inside.
#[derive(Drop)]
pub struct RingOut {
    pub(crate) consumer: Consumer<Word>,
}

impl Model for RingOut {
    ghost use Rattle.mwc_pipe.specs.RingViews.{RingOutView};
    ghost use Rattle.mwc_pipe.specs.Inner.RingViews.{ring_of_consumer};
    ghost use Rattle.rtrb.specs.Ring.{received, known_items};

    ghost Value = { RingOutView };

    ghost view = { λ r. record {
      ring = ring_of_consumer r.consumer;
      taken = received r.consumer;
      known = known_items r.consumer;
    } };
}

impl RingOut {
    /// Takes the oldest word, or returns `None` if none is known yet.
    ///
    /// It takes no memory.
    pub fn take(&mut self) -> Option<Word>
        ensures ring { self.new.ring ≡ self.old.ring }
        ensures taken { MatchOption result
            ((self.new.taken ≡ self.old.taken) × (self.new.known ≡ []))
            (λ w. self.new.taken ≡ self.old.taken ++ w ∷ []) }
    {
        self.consumer.pop().ok()
    }

    /// Takes the oldest words into the front of a row, and returns how many.
    ///
    /// It takes as many as are known and the row has room for; the rest of the row is unchanged.
    /// However many they are, the ring is updated by one store. It takes no memory.
    #[tactic(auto, using(crate::proofs::Counting::takes))]
    pub fn take_some(&mut self, into: &mut [Word]) -> usize
        ensures count { result ≤ length into.old }
        ensures ring { self.new.ring ≡ self.old.ring }
        ensures taken { self.new.taken ≡ self.old.taken ++ take result into.new }
        ensures rest { drop result into.new ≡ drop result into.old }
        ensures known { result < length into.old → self.new.known ≡ [] }
        ensures replies { (capacity : ℕ) (past : List (Event Word))
            → IsSeenByOut (self.new.taken ++ self.new.known) self.old.taken past
            → AreAnswered capacity past
            (takes_of (take result into.new) (nat_lt result (length into.old))) }
    {
        self.consumer.pop_partial_slice(into)
    }

    /// Meets the closed end of the same ring, and returns the words that are left.
    ///
    /// What was taken, followed by what is left, is what was accepted. It takes no memory.
    pub fn end(self, closed: Closed) -> Rest
        requires { closed.ring ≡ self.ring }
        ensures { IsLawful closed.accepted self.taken result }
    {
        let RingOut { mut consumer } = self;
        let Closed { mut finished } = closed;
        consumer.slots_after(&mut finished);
        Rest { consumer }
    }
}
