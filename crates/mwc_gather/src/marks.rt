//! Which slice was given to which worker.
ghost use Rattle.std.specs.Prelude.{◌≡◌, ℕ, ◌<◌, ◌≤◌, ◌↔◌, List, length, take, replicate, IsTrue, IsSome, All, MatchOption, slice_index_or, slice_set, if◌then◌else◌};
ghost use Rattle.council_game.specs.declared.limits.TheConstants.{SLICES, WORKERS};
ghost use Rattle.mwc_gather.specs.Table.{IsFirstFree};

use council_game::limits;
use std::marker::Model;

/// Which slice was given to which worker: a fixed table for up to 1024 slices.
///
/// Contracts see the holder of each slice. No call takes memory.
#[derive(Drop)]
pub struct Marks {
    slices: u16,
    holders: [Option<u8>; limits::SLICES],
}

impl Model for Marks {
    ghost use Rattle.std.specs.Prelude.{ℕ, ◌≤◌, List, Option, take};
    ghost use Rattle.council_game.specs.declared.limits.TheConstants.{SLICES};

    ghost Value = { List (Option ℕ) };

    ghost view = { λ m. take m.slices m.holders };

    ghost invariant = { λ m. m.slices ≤ SLICES };
}

impl Marks {
    /// Makes a table of 1 to 1024 slices without holders.
    pub fn new(slices: u16) -> Marks
        requires { (1 ≤ slices) × (slices ≤ SLICES) }
        ensures { result ≡ replicate slices None }
    {
        Marks {
            slices,
            holders: [None; limits::SLICES],
        }
    }

    /// Gives the slice to the worker if it has no holder, and returns whether it did.
    #[tactic(auto, using(crate::proofs::Searches::for_give))]
    pub fn give(&mut self, slice: u16, worker: u8) -> bool
        requires slice { slice < length self.old }
        requires worker { worker < WORKERS }
        ensures given { IsTrue result ↔ slice_index_or self.old slice None ≡ None }
        ensures marks { self.new ≡
            (if result then slice_set self.old slice (Some worker) else self.old) }
    {
        if self.holders[usize::from(slice)].is_some() {
            return false;
        }
        self.holders[usize::from(slice)] = Some(worker);
        true
    }

    /// Returns the worker that the slice was given to.
    pub fn holder(&self, slice: u16) -> Option<u8>
        requires { slice < length self.now }
        ensures { result ≡ slice_index_or self.now slice None }
    {
        self.holders[usize::from(slice)]
    }

    /// Returns the lowest slice without a holder.
    pub fn lowest(&self) -> Option<u16>
        ensures { MatchOption result (All IsSome self.now) (λ j. IsFirstFree self.now j) }
    {
        for slice in 0..self.slices {
            if self.holders[usize::from(slice)].is_none() {
                return Some(slice);
            }
        }
        None
    }

    /// Returns whether each slice has a holder.
    pub fn all_given(&self) -> bool
        ensures { IsTrue result ↔ All IsSome self.now }
    {
        self.lowest().is_none()
    }
}
