//! Rows, and the misses of a state.
ghost use Rattle.std.specs.Prelude.{◌≡◌, ◌+◌, ◌-◌, ◌≤◌, ◌&&◌, ℕ, min, max, not, slice_index, if◌then◌else◌, OnOk};
ghost use Rattle.std.specs.List.{list_any};
ghost use Rattle.mwc_states.specs.Inner.Sets.{MOST, meets};
ghost use Rattle.mwc_states.specs.Inner.Later.{IsTotal};
ghost use Rattle.mwc_states.specs.Inner.States.{misses_all};

use council_game::{Memory, limits};
use std::array;

/// A number under each rule; 0 under the rules that a game does not have.
pub(crate) type Row = [u64; limits::RULES];

/// The row of zeros.
pub(crate) const ZERO: Row = [0; limits::RULES];

/// Returns the sum of two rows, up to the greatest number of 64 bits.
#[inline]
pub(crate) fn add(a: &Row, b: &Row) -> Row
    ensures { (r : ℕ) → slice_index result r ≡ min (slice_index a.now r + slice_index b.now r) MOST }
{
    array::from_fn(|r| a[r].saturating_add(b[r]))
}

/// Returns the sum of some rows, up to the greatest number of 64 bits.
pub(crate) fn sum(rows: &[Row]) -> Row
    ensures { IsTotal rows.now result }
{
    let mut sum = ZERO;
    for row in rows {
        sum = add(&sum, row);
    }
    sum
}

/// Returns what is left of a row once a member is decided.
///
/// If the member is taken, its weights are subtracted, down to 0 at the least.
#[inline]
pub(crate) fn reduce(row: &Row, member: &Row, taken: bool) -> Row
    ensures { (r : ℕ) → slice_index result r
        ≡ slice_index row.now r - (if taken then slice_index member.now r else 0) }
{
    if !taken {
        return *row;
    }
    array::from_fn(|r| row[r].saturating_sub(member[r]))
}

/// Returns the greater of two numbers under each rule.
#[inline]
pub(crate) fn max(a: &Row, b: &Row) -> Row
    ensures { (r : ℕ) → slice_index result r ≡ max (slice_index a.now r) (slice_index b.now r) }
{
    array::from_fn(|r| a[r].max(b[r]))
}

/// Returns the lesser of two numbers under each rule.
#[inline]
pub(crate) fn min(a: &Row, b: &Row) -> Row
    ensures { (r : ℕ) → slice_index result r ≡ min (slice_index a.now r) (slice_index b.now r) }
{
    array::from_fn(|r| a[r].min(b[r]))
}

/// Returns whether weights are at least as great as a row under each rule.
#[inline]
#[tactic(auto, unfolding(crate::specs::Inner::Sets::meets))]
pub(crate) fn meets(weights: &Row, row: &Row) -> bool
    ensures { result ≡ meets (slice_index weights.now) row.now }
{
    (0..limits::RULES).all(|r| weights[r] >= row[r])
}

/// Lets proofs know that the numbers of a row have 64 bits.
#[inline]
pub(crate) fn is_row(row: &Row)
    ensures { (r : ℕ) → slice_index row.now r ≤ MOST }
{
    let _numbers = (row[0], row[1], row[2], row[3]);
}

/// Returns whether a row meets one of these: who misses them then misses it too.
pub(crate) fn is_implied(rows: &[Row], miss: &Row) -> bool
    ensures { result ≡ list_any (λ row. meets (slice_index miss.now) row) rows.now }
{
    rows.iter().any(|row| meets(miss, row))
}

/// Adds a row to some rows in order, and drops those that meet it.
///
/// Who misses it misses these too; so if one of the rows must be met, they are not needed.
pub(crate) fn insert(rows: &mut Vec<Row>, miss: &Row) -> Result<(), Memory>
    ensures { OnOk result ((weights : ℕ → ℕ) → misses_all weights rows.new.items
        ≡ (misses_all weights rows.old.items && not (meets weights miss.now))) }
{
    rows.retain(|row| !meets(row, miss));
    let at = rows.partition_point(|row| row < miss);
    rows.insert(at, *miss)?;
    Ok(())
}
