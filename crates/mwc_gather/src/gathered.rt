//! The parts of all workers.
ghost use Rattle.std.specs.Prelude.{◌≡◌, ℕ, ◌<◌, List, All, IfOk, map};
ghost use Rattle.std.specs.List.{flat_map, range_with_len};
ghost use Rattle.council_game.specs.Lists.{joined};
ghost use Rattle.mwc_gather.specs.Parts.{HasPieces, HasEachSliceOnce};

use crate::part::Part;
use council_game::{Coalition, Memory};
use std::alloc::Global;

/// The parts of all workers: together they have each slice once.
#[derive(Drop)]
pub struct Gathered {
    /// The part of each worker.
    pub parts: Vec<Part>,
    /// How many slices there are.
    pub slices: u16,
    ghost each_slice_once: { HasEachSliceOnce slices parts.items },
}

impl Gathered {
    /// Copies the coalitions of all parts, slice after slice.
    ///
    /// After `gather` these are all minimal winning coalitions in listing order.
    ///
    /// # Errors
    ///
    /// `Memory` if an allocation was refused.
    pub fn in_order(&self, alloc: Global) -> Result<Vec<Coalition>, Memory>
        ensures { (slice : ℕ → List ℕ) → All (HasPieces slice) self.now.parts.items
            → IfOk result (λ all. all.items ≡ flat_map slice (range_with_len 0 self.now.slices)) }
    {
        let mut all = Vec::with_capacity(alloc, self.count())?;
        for j in 0..self.slices {
            all.extend_from_slice(self.piece(j))?;
        }
        Ok(all)
    }

    /// Returns how many coalitions the parts have together.
    fn count(&self) -> usize {
        let mut count: usize = 0;
        for part in &self.parts {
            count = count.saturating_add(part.got.len());
        }
        count
    }

    /// Borrows the coalitions of each slice, slice after slice.
    ///
    /// Joined, they are what `in_order` returns. Only the row of pieces takes memory, and no
    /// coalition is copied.
    ///
    /// # Errors
    ///
    /// `Memory` if an allocation was refused.
    pub fn pieces(&self, alloc: Global) -> Result<Vec<&[Coalition]>, Memory>
        ensures each { (slice : ℕ → List ℕ) → All (HasPieces slice) self.now.parts.items
            → IfOk result (λ row.
            map (λ p. p.now) row.items ≡ map slice (range_with_len 0 self.now.slices)) }
        ensures joined { (slice : ℕ → List ℕ) → All (HasPieces slice) self.now.parts.items
            → IfOk result (λ row.
            joined row.items ≡
            flat_map slice (range_with_len 0 self.now.slices)) }
    {
        let mut row = Vec::new(alloc);
        for number in 0..self.slices {
            row.push(self.piece(number))?;
        }
        Ok(row)
    }

    /// Returns the coalitions of a slice.
    fn piece(&self, j: u16) -> &[Coalition]
        requires { j < self.now.slices }
        ensures { (slice : ℕ → List ℕ) → All (HasPieces slice) self.now.parts.items
            → result.now ≡ slice j }
    {
        for part in &self.parts {
            if let Some(m) = part.place(j) {
                return part.piece(m);
            }
        }
        unreachable!()
    }
}
