//! The words that are left in a closed ring.
ghost use Rattle.std.specs.Prelude.{◌≡◌, [], ◌∷◌, MatchOption};

use crate::word::Word;
use rtrb::Consumer;
use std::marker::Model;

/// The words that were left in a ring when its ends met.
///
/// Contracts see those still to come, in order.
#[derive(Drop)]
pub struct Rest {
    pub(crate) consumer: Consumer<Word>,
}

impl Model for Rest {
    ghost use Rattle.std.specs.Prelude.{List};
    ghost use Rattle.mwc_pipe.specs.declared.word.Word.{Word};
    ghost use Rattle.rtrb.specs.Ring.{known_items};

    ghost Value = { List Word };

    ghost view = { λ r. known_items r.consumer };
}

impl Rest {
    /// Returns the next word that was left, or `None` after the last one.
    ///
    /// It takes no memory.
    pub fn next(&mut self) -> Option<Word>
        ensures { MatchOption result ((self.old ≡ []) × (self.new ≡ []))
            (λ w. self.old ≡ w ∷ self.new) }
    {
        if self.consumer.cached_slots() == 0 {
            return None;
        }
        Some(self.consumer.pop_known())
    }
}
