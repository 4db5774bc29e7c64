//! Laws of slices, and of loops over a walk: what the definitions say, with nothing to run.
ghost use Rattle.council_game.specs.Votes.{Votes, IsVotes, minimal_coalitions};
ghost use Rattle.mwc_walk.specs.Laws.{IsLeast, SlicesMakeTheWhole};
ghost use Rattle.mwc_walk.specs.Slices.{slice};
ghost use Rattle.std.specs.Prelude.{◌≡◌, ◌<◌, ◌≤◌, ◌++◌, ◌∷◌, [], ℕ, List};

/// The slices, joined in order, are the minimal winning coalitions.
///
/// This holds of each number of bits that is no greater than 10 or than the number of members.
#[tactic(auto, using(crate::proofs::Remains::slices))]
pub fn slices_make_the_whole()
    ensures { (v : Votes) → IsVotes v → SlicesMakeTheWhole v }
{}

/// At 0 bits the one slice is all minimal winning coalitions.
///
/// A walk over it gives them.
#[tactic(auto, using(crate::proofs::Remains::slices))]
pub fn one_slice_is_the_whole()
    ensures { (v : Votes) → IsVotes v → slice v 0 0 ≡ minimal_coalitions v }
{}

/// One step keeps what was given and what is to come the same list.
///
/// This is a step of a loop over a walk.
#[tactic(auto, using(crate::proofs::Loops::steps))]
pub fn steps_keep_the_whole()
    ensures { (before after to_come left all : List ℕ) (c : ℕ) → after ≡ before ++ c ∷ []
        → to_come ≡ c ∷ left → before ++ to_come ≡ all → after ++ left ≡ all }
{}

/// After one step the least so far is still the least, or the next one is.
///
/// This is a step of a loop over a walk that keeps the least by a number of each coalition.
#[tactic(auto, using(crate::proofs::Loops::steps))]
pub fn steps_keep_the_least()
    ensures stays { (f : ℕ → ℕ) (before after : List ℕ) (least c : ℕ) → after ≡ before ++ c ∷ []
        → IsLeast f before least → f least ≤ f c → IsLeast f after least }
    ensures next { (f : ℕ → ℕ) (before after : List ℕ) (least c : ℕ) → after ≡ before ++ c ∷ []
        → IsLeast f before least → f c < f least → IsLeast f after c }
{}
