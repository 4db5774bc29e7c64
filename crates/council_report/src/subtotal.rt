//! How long a line's names are at a place, and what their members weigh.
ghost use Rattle.std.specs.Prelude.{◌≡◌, ◌+◌, ◌^◌, ◌<◌, ℕ, length, slice_index};
ghost use Rattle.council_game.specs.declared.limits.TheConstants.{RULES};

use crate::label::Label;
use council_game::limits;

/// How long the names of the members before a place are, and what these weigh under each rule.
#[derive(Clone, Copy)]
pub(crate) struct Subtotal {
    pub(crate) length: usize,
    pub(crate) weights: [u64; limits::RULES],
}

impl Subtotal {
    /// Returns the subtotal of no member.
    pub(crate) fn none() -> Subtotal
        ensures length { result.length ≡ 0 }
        ensures long { length result.weights ≡ RULES }
        ensures weights { (r : ℕ) → slice_index result.weights r ≡ 0 }
    {
        Subtotal {
            length: 0,
            weights: [0; limits::RULES],
        }
    }

    /// Returns the subtotal with one member more.
    pub(crate) fn with(self, label: &Label) -> Subtotal
        requires length { self.length + length label.now.field.items < 2 ^ 64 }
        requires long { length self.weights ≡ RULES }
        requires label_long { length label.now.weights ≡ RULES }
        requires weights { (r : ℕ) → r < RULES →
            slice_index self.weights r + slice_index label.now.weights r < 2 ^ 64 }
        ensures length { result.length ≡ self.length + length label.now.field.items }
        ensures long { length result.weights ≡ RULES }
        ensures weights { (r : ℕ) → r < RULES →
            slice_index result.weights r ≡
            slice_index self.weights r + slice_index label.now.weights r }
    {
        let mut weights = self.weights;
        for rule in 0..limits::RULES {
            weights[rule] += label.weights[rule];
        }
        Subtotal {
            length: self.length + label.field.len(),
            weights,
        }
    }
}
