//! Coalitions by their members, and members by their names.
ghost use Rattle.std.specs.Prelude.{◌≡◌, ◌≢◌, ◌<◌, ◌≤◌, ◌^◌, ◌==◌, ◌++◌, ◌∷◌, [], ℕ, All, IfOk, OnOk, length, map, slice_index, true};
ghost use Rattle.std.specs.List.{list_any};
ghost use Rattle.council_game.specs.Game.{IsGame};
ghost use Rattle.council_game.specs.Members.{size_of};
ghost use Rattle.council_game.specs.Ranks.{member_at};
ghost use Rattle.council_game.specs.Votes.{has, places_of};

use crate::{Coalition, Game, Memory};
use std::alloc::Global;

impl Game {
    /// Returns the coalition of some members, in any order.
    ///
    /// Each is given by its place in the file, from 0. A member that is given twice is in once.
    pub fn coalition_of(&self, members: &[usize]) -> Coalition
        requires { All (λ i. i < length self.now.names) members.now }
        ensures members { (i : ℕ) → i < length self.now.names →
            has (length self.now.names) (slice_index self.now.ranks i) result
            ≡ list_any (λ j. j == i) members.now }
        ensures below { result < 2 ^ length self.now.names }
    {
        let mut coalition = Coalition::of_mask(0);
        for member in members {
            coalition = self.with_member(coalition, *member);
        }
        coalition
    }

    /// Returns how many members of the game are in a coalition, 0 to 40.
    ///
    /// Binary digits of its mask above those of the game's members count for nothing.
    pub fn size_of(&self, coalition: Coalition) -> u8
        ensures size { result ≡ size_of self.now coalition }
        ensures few { result ≤ length self.now.names }
    {
        let members = self.members();
        (coalition.mask() % (1 << members)).count_ones() as u8
    }

    /// Returns the coalition with one more member, given by its place in the file.
    pub(crate) fn with_member(&self, coalition: Coalition, member: usize) -> Coalition
        requires { member < length self.now.names }
        ensures inside { has (length self.now.names) (slice_index self.now.ranks member) result
            ≡ true }
        ensures others { (p : ℕ) → p < length self.now.names → p ≢ slice_index self.now.ranks member
            → has (length self.now.names) p result ≡ has (length self.now.names) p coalition }
        ensures below { coalition < 2 ^ length self.now.names → result < 2 ^ length self.now.names }
        ensures game { IsGame self.now }
    {
        coalition.with(self.members(), self.place_of(member))
    }

    /// Returns the members of a coalition by rank, the heaviest first.
    ///
    /// Each is given by its place in the file, from 0.
    ///
    /// # Errors
    ///
    /// Memory if an allocation was refused.
    pub fn members_of(&self, alloc: Global, coalition: Coalition) -> Result<Vec<usize>, Memory>
        ensures { IfOk result (λ v. v.items ≡ map (member_at self.now.ranks)
            (places_of (length self.now.names) coalition)) }
    {
        let count = self.members();
        let mut members = Vec::new(alloc);
        for place in 0..count {
            if coalition.has(count, place) {
                self.push_member(&mut members, place)?;
            }
        }
        Ok(members)
    }

    /// Adds the member at a place by rank to a row.
    fn push_member(&self, members: &mut Vec<usize>, place: usize) -> Result<(), Memory>
        requires { place < length self.now.names }
        ensures { OnOk result (members.new.items
            ≡ members.old.items ++ member_at self.now.ranks place ∷ []) }
    {
        Ok(members.push(self.member_at(place))?)
    }
}
