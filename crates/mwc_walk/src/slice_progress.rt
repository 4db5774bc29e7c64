//! How far the walk over a slice has come.
ghost use Rattle.std.specs.Prelude.{◌≡◌, ◌<◌, ◌+◌, ◌-◌, ◌∷◌, [], MatchOption};
ghost use Rattle.council_game.specs.declared.gate.TheConstants.{INFORM_EVERY};

use crate::{Seek, Walk};
use council_game::{Coalition, Gate, INFORM_EVERY};

/// Whoever is informed of progress inside a slice.
pub trait Informed {
    /// Notes that `prefixes` more were examined, and `found` more coalitions found.
    fn note(&self, prefixes: u64, found: u64);
}

impl<G: Gate> Informed for G {
    fn note(&self, prefixes: u64, found: u64) {
        self.inform(prefixes, found)
    }
}

/// What was told of a walk, and what was not.
#[derive(Drop)]
pub struct SliceProgress {
    /// The visits of the walk that were told.
    pub visits: u64,
    /// The coalitions found that were not told.
    found: u64,
}

impl SliceProgress {
    /// Begins with nothing told.
    pub fn new() -> SliceProgress
        ensures visits { result.visits ≡ 0 }
        ensures found { result.found ≡ 0 }
    {
        SliceProgress {
            visits: 0,
            found: 0,
        }
    }

    /// Informs of what was not told yet.
    pub fn inform<I: Informed>(&mut self, informed: &I, walk: &Walk<'_>)
        ensures visits { self.new.visits ≡ walk.now.visits }
        ensures found { self.new.found ≡ 0 }
    {
        informed.note(walk.visits().saturating_sub(self.visits), self.found);
        self.visits = walk.visits();
        self.found = 0;
    }

    /// Informs if that is due, and returns how many visits are left until it is due.
    fn visits_until_due<I: Informed>(&mut self, informed: &I, walk: &Walk<'_>) -> u64
        ensures some { 0 < result }
        ensures due { (walk.now.visits - self.new.visits) + result ≡ INFORM_EVERY }
    {
        let visits = walk.visits().saturating_sub(self.visits);
        if visits < INFORM_EVERY {
            return INFORM_EVERY - visits;
        }
        self.inform(informed, walk);
        INFORM_EVERY
    }

    /// Returns the next coalition of the slice, as `Walk::next` does.
    ///
    /// On the way it informs after each `INFORM_EVERY` visits.
    pub fn next<I: Informed>(&mut self, informed: &I, walk: &mut Walk<'_>) -> Option<Coalition>
        ensures { MatchOption result ((walk.old.to_come ≡ []) × (walk.new.to_come ≡ []))
            (λ c. walk.old.to_come ≡ c ∷ walk.new.to_come) }
    {
        'seeks: loop {
            match walk.seek(self.visits_until_due(informed, walk)) {
                Seek::Found(coalition) => {
                    self.found = self.found.saturating_add(1);
                    return Some(coalition);
                }
                Seek::End => return None,
                Seek::NotYet => {}
            }
        }
    }
}
