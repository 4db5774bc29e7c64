//! What a member adds to the line of a coalition.
ghost use Rattle.std.specs.Prelude.{◌≡◌, ◌<◌, ℕ, length, slice_index, IfOk};
ghost use Rattle.council_game.specs.declared.limits.TheConstants.{RULES};
ghost use Rattle.council_game.specs.Game.{IsGame};
ghost use Rattle.council_report.specs.Inner.SharedLine.{AreLabels, IsLabel, weights_under};

use council_game::{Game, limits};
use std::alloc::{AllocError, Global};

/// What the member of a rank place adds to the line of a coalition.
#[derive(Drop)]
pub(crate) struct Label {
    /// A TAB and its name.
    pub(crate) field: Vec<u8>,
    /// Its weight under each rule, and 0 past the last.
    pub(crate) weights: [u64; limits::RULES],
}

/// Returns the weights of the member of a rank place, one for each rule.
///
/// Past the last rule they are 0.
#[tactic(auto, unfolding(crate::specs::Inner::SharedLine::weights_under))]
fn weights_at(game: &Game, place: usize) -> [u64; limits::RULES]
    requires game { IsGame game.now }
    requires place { place < length game.now.names }
    ensures long { length result ≡ RULES }
    ensures weights { (r : ℕ) → r < RULES →
        slice_index result r ≡ slice_index (weights_under game.now r) place }
{
    let member = game.member_at(place);
    let mut weights = [0; limits::RULES];
    for rule in 0..game.rules() {
        weights[rule] = game.rule_weight(rule, member);
    }
    weights
}

impl Label {
    /// Returns the label of a rank place.
    fn new(alloc: Global, game: &Game, place: usize) -> Result<Label, AllocError>
        requires game { IsGame game.now }
        requires place { place < length game.now.names }
        ensures { IfOk result (IsLabel game.now place) }
    {
        let name = game.name(game.member_at(place));
        let mut field = Vec::with_capacity(alloc, 1 + name.len())?;
        field.extend_from_slice(b"\t")?;
        field.extend_from_slice(name.as_bytes())?;
        Ok(Label {
            field,
            weights: weights_at(game, place),
        })
    }
}

/// Returns the labels of a game's members, by rank.
pub(crate) fn labels_of(alloc: Global, game: &Game) -> Result<Vec<Label>, AllocError>
    ensures game { IsGame game.now }
    ensures labels { IfOk result (λ labels. AreLabels game.now (length game.now.names) labels.items) }
{
    let members = game.members();
    let mut labels = Vec::with_capacity(alloc, members)?;
    for place in 0..members {
        labels.push(Label::new(alloc, game, place)?)?;
    }
    Ok(labels)
}
