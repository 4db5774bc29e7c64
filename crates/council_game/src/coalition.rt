//! Coalitions.
ghost use Rattle.std.specs.Prelude.{◌≡◌, ◌≢◌, ◌↔◌, ◌^◌, ◌<◌, ◌≤◌, ◌-◌, ◌&&◌, ◌||◌, ℕ, IsTrue, bit_and, if◌then◌else◌, false, true};
ghost use Rattle.council_game.specs.declared.limits.TheConstants.{MEMBERS};
ghost use Rattle.council_game.specs.Coalitions.{has, with_member, without, size};

use std::marker::Model;

/// A set of members, as a number.
///
/// The number is the rank mask, a number of 40 binary digits: among n members, the member of rank
/// place p is in it if digit n - 1 - p is 1. Contracts see the number.
#[derive(Clone, Copy, Debug, PartialEq, Eq)]
pub struct Coalition {
    mask: u64,
}

impl Model for Coalition {
    ghost use Rattle.std.specs.Prelude.{ℕ, ◌<◌, ◌^◌};
    ghost use Rattle.council_game.specs.declared.limits.TheConstants.{MEMBERS};

    ghost Value = { ℕ };

    ghost view = { λ c. c.mask };

    ghost invariant = { λ c. c.mask < 2 ^ MEMBERS };

    ghost inverse = { λ m. record { mask = m } };
}

impl Coalition {
    /// Returns the empty coalition.
    pub fn none() -> Coalition
        ensures { result ≡ 0 }
    {
        Coalition { mask: 0 }
    }

    /// Returns the coalition with this rank mask, a number below 2^40.
    pub fn of_mask(mask: u64) -> Coalition
        requires { mask < 2 ^ MEMBERS }
        ensures { result ≡ mask }
    {
        Coalition { mask }
    }

    /// Returns the rank mask, a number below 2^40.
    pub fn mask(self) -> u64
        ensures same { result ≡ self }
        ensures bound { result < 2 ^ MEMBERS }
    {
        self.mask
    }

    /// Returns whether the member of this rank place is in.
    ///
    /// There are `members` members, at most 40. Places count from 0, the heaviest first.
    pub fn has(self, members: usize, place: usize) -> bool
        requires few { members ≤ MEMBERS }
        requires place { place < members }
        ensures { result ≡ has members place self }
    {
        (self.mask >> (members - 1 - place)) % 2 == 1
    }

    /// Returns the coalition with the member of this rank place.
    ///
    /// There are `members` members, at most 40. If that member is in, it is the same coalition.
    pub fn with(self, members: usize, place: usize) -> Coalition
        requires few { members ≤ MEMBERS }
        requires place { place < members }
        ensures mask { result ≡
            if has members place self then self else with_member members place self }
        ensures inside { has members place result ≡ true }
        ensures others { (p : ℕ) → p < members → p ≢ place →
            has members p result ≡ has members p self }
        ensures below { self < 2 ^ members → result < 2 ^ members }
    {
        if self.has(members, place) {
            self
        } else {
            Coalition {
                mask: self.mask + (1 << (members - 1 - place)),
            }
        }
    }

    /// Returns the coalition without the member of this rank place.
    ///
    /// There are `members` members, at most 40. If that member is not in, it is the same coalition.
    pub fn without(self, members: usize, place: usize) -> Coalition
        requires few { members ≤ MEMBERS }
        requires place { place < members }
        ensures mask { result ≡
            if has members place self then without members place self else self }
        ensures outside { has members place result ≡ false }
        ensures others { (p : ℕ) → p < members → p ≢ place →
            has members p result ≡ has members p self }
        ensures below { self < 2 ^ members → result < 2 ^ members }
    {
        if self.has(members, place) {
            Coalition {
                mask: self.mask - (1 << (members - 1 - place)),
            }
        } else {
            self
        }
    }

    /// Returns the coalition of all who are in one of the two, or in both.
    pub fn union(self, other: Coalition) -> Coalition
        ensures members { (n p : ℕ) → has n p result ≡ (has n p self || has n p other) }
        ensures below { (n : ℕ) → self < 2 ^ n → other < 2 ^ n → result < 2 ^ n }
    {
        Coalition {
            mask: self.mask | other.mask,
        }
    }

    /// Returns the coalition of all who are in both.
    pub fn intersection(self, other: Coalition) -> Coalition
        ensures members { (n p : ℕ) → has n p result ≡ (has n p self && has n p other) }
        ensures below { (n : ℕ) → self < 2 ^ n → result < 2 ^ n }
        ensures mask { result ≡ bit_and self other }
    {
        Coalition {
            mask: self.mask & other.mask,
        }
    }

    /// Returns whether each member is in the other coalition too.
    pub fn is_subset_of(self, other: Coalition) -> bool
        ensures { (n : ℕ) → self < 2 ^ n → other < 2 ^ n → IsTrue result
            ↔ ((p : ℕ) → p < n → has n p self ≡ true → has n p other ≡ true) }
    {
        self.intersection(other) == self
    }

    /// Returns how many members are in, 0 to 40.
    pub fn size(self) -> u8
        ensures size { (n : ℕ) → self < 2 ^ n → result ≡ size n self }
        ensures bound { result ≤ MEMBERS }
    {
        self.mask.count_ones() as u8
    }
}
