//! The indices of all members.
ghost use Rattle.council_game.specs.Game.{GameView};
ghost use Rattle.power_index.specs.Counting.{members};
ghost use Rattle.power_index.specs.MemberIndices.{indices_of_member};
ghost use Rattle.power_index.specs.Tables.{AreCounts, table_total};
ghost use Rattle.std.specs.Prelude.{◌≡◌, ℕ, List, ◌<◌, ◌≤◌, IfOk, length, map};

use crate::{Counts, Index, deegan_packel, public_good};
use council_game::Memory;
use std::alloc::Global;

/// Both indices of a member, each of which prints as a digit, a point and six digits.
#[derive(Clone, Copy, Debug, PartialEq, Eq)]
pub struct MemberIndices {
    /// The Deegan-Packel index (Deegan and Packel 1978).
    pub deegan_packel: Index,
    /// The public good index (Holler 1982; Holler and Packel 1983).
    pub public_good: Index,
}

/// Computes both indices of a member.
fn indices_of(counts: &Counts, member: usize) -> MemberIndices
    requires some { 1 ≤ table_total counts.now }
    requires member { member < counts.now.members }
    ensures { (g : GameView) (list : List ℕ) → AreCounts g list counts.now
        → result ≡ indices_of_member g list member }
{
    MemberIndices {
        deegan_packel: Index::of(deegan_packel(counts, member)),
        public_good: Index::of(public_good(counts, member)),
    }
}

/// Computes both indices of each member, in the order of the file.
///
/// They hold for each list with these counts.
///
/// # Errors
///
/// Returns `Memory` if an allocation was refused.
pub fn all_indices(alloc: Global, counts: &Counts) -> Result<Vec<MemberIndices>, Memory>
    requires { 1 ≤ table_total counts.now }
    ensures count { IfOk result (λ v. length v.items ≡ counts.now.members) }
    ensures indices { IfOk result (λ v. (g : GameView) (list : List ℕ) → AreCounts g list counts.now →
        v.items ≡ map (indices_of_member g list) (members g)) }
{
    let mut all = Vec::new(alloc);
    for member in 0..counts.members() {
        all.push(indices_of(counts, member))?;
    }
    Ok(all)
}
