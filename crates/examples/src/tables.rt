//! Reports, and indices compared with each other and with a published table.
ghost use Rattle.council_game.specs.declared.limits.TheConstants.{COALITIONS};
ghost use Rattle.council_game.specs.Game.{votes_of};
ghost use Rattle.council_game.specs.Votes.{minimal_coalitions};
ghost use Rattle.council_report.specs.Report.{report};
ghost use Rattle.power_index.specs.Fractions.{SameFraction, fraction_cmp};
ghost use Rattle.std.specs.Prelude.{◌<◌, ◌↔◌, ◌≡◌, ◌≢◌, IfNone, IfOk, IfSome, IsTrue, ℕ, length, slice_index_or};
ghost use Rattle.std.specs.declared.cmp.Ordering.TheVariants.{Less};

use council_game::{Game, limits};
use council_report::{ReportFault, ReportLines, write_report};
use mwc_walk::list_all;
use power_index::Index;
use std::alloc::Global;

/// Returns the report of a game as bytes.
///
/// It is none if the game has more than 4,000,000 minimal winning coalitions.
///
/// # Errors
///
/// Memory, or Write if the vector could not grow.
pub fn report_into_memory(
    alloc: Global,
    game: &Game,
    shown: ReportLines,
) -> Result<Option<Vec<u8>>, ReportFault>
    ensures report { IfOk result (λ o. IfSome o (λ v. v.items ≡ report shown game.now)) }
    ensures more { IfOk result
        (λ o. IfNone o (COALITIONS < length (minimal_coalitions (votes_of game.now)))) }
{
    let Some(list) = list_all(alloc, game, limits::COALITIONS)? else {
        return Ok(None);
    };
    let mut bytes = Vec::new(alloc);
    write_report(alloc, game, &list, shown, &mut bytes)?;
    Ok(Some(bytes))
}

/// Returns whether the index of a member is above that of each other.
fn is_above_others(indices: &[Index], i: usize) -> bool
    requires { i < length indices.now }
    ensures { IsTrue result ↔ ((j : ℕ) → j < length indices.now → j ≢ i →
        fraction_cmp (slice_index_or indices.now j (0, 1)) (slice_index_or indices.now i (0, 1)) ≡ Less) }
{
    for j in 0..indices.len() {
        if j != i && !indices[j].compare(indices[i]).is_lt() {
            return false;
        }
    }
    true
}

/// Returns the member whose index is above that of each other.
///
/// It is none if two share the first place.
pub fn most_powerful(indices: &[Index]) -> Option<usize>
    ensures member { IfSome result (λ i. i < length indices.now) }
    ensures above { IfSome result (λ i. (j : ℕ) → j < length indices.now → j ≢ i →
        fraction_cmp (slice_index_or indices.now j (0, 1)) (slice_index_or indices.now i (0, 1)) ≡ Less) }
    ensures shared { IfNone result ((i : ℕ) → i < length indices.now →
        ((j : ℕ) → j < length indices.now → j ≢ i →
        fraction_cmp (slice_index_or indices.now j (0, 1)) (slice_index_or indices.now i (0, 1)) ≡ Less) → ⊥) }
{
    for i in 0..indices.len() {
        if is_above_others(indices, i) {
            return Some(i);
        }
    }
    None
}

/// Returns whether an index is this top over this bottom.
fn is_right(index: Index, row_top: u16, row_bottom: u16) -> bool
    ensures { IsTrue result ↔ SameFraction index (row_top, row_bottom) }
{
    let (top, bottom) = (index.top(), index.bottom());
    let by_index = top * u128::from(row_bottom);
    let by_row = u128::from(row_top) * bottom;
    by_index == by_row
}

/// Returns the first row of a published table that is not its member's index.
///
/// A row is a top and a bottom.
pub fn first_wrong_row(indices: &[Index], table: &[(u16, u16)]) -> Option<usize>
    requires { length table.now ≡ length indices.now }
    ensures row { IfSome result (λ k. k < length table.now) }
    ensures wrong { IfSome result (λ k.
        SameFraction (slice_index_or indices.now k (0, 1)) (slice_index_or table.now k (0, 1)) → ⊥) }
    ensures before { IfSome result (λ k. (j : ℕ) → j < k →
        SameFraction (slice_index_or indices.now j (0, 1)) (slice_index_or table.now j (0, 1))) }
    ensures right { IfNone result ((j : ℕ) → j < length table.now →
        SameFraction (slice_index_or indices.now j (0, 1)) (slice_index_or table.now j (0, 1))) }
{
    for k in 0..table.len() {
        if !is_right(indices[k], table[k].0, table[k].1) {
            return Some(k);
        }
    }
    None
}
