//! Sums of the subsets of some members.
ghost use Rattle.std.specs.Prelude.{◌≡◌, ◌<◌, ◌≤◌, ℕ, true, [], Bool, List, length, slice_index, IfOk, OnOk};
ghost use Rattle.council_game.specs.declared.limits.TheConstants.{RULES};
ghost use Rattle.mwc_states.specs.Inner.Sets.{weigh, meets};
ghost use Rattle.mwc_states.specs.Inner.Sums.{IsAscending, AddsSum, AddsMember, AreListed, AreLowered, AreSums};

use crate::row::{self, Row, ZERO};
use council_game::Memory;
use std::alloc::Global;

/// Adds a sum that is at least as great as the others under a rule.
///
/// If the last one is the same under the rule, it becomes the lesser of both under each rule.
#[tactic(auto, unfolding(crate::specs::Inner::Sums::HasSum))]
fn push(sums: &mut Vec<Row>, sum: &Row, rule: usize) -> Result<(), Memory>
    requires { rule < RULES }
    ensures { OnOk result (AddsSum rule sum.now sums.old.items sums.new.items) }
{
    let len = sums.len();
    if len > 0 && sums[len - 1][rule] == sum[rule] {
        sums[len - 1] = row::min(&sums[len - 1], sum);
    } else {
        sums.push(*sum)?;
    }
    Ok(())
}

/// Lists the sums of some members' subsets with and without one more member.
fn add_member(sums: &[Row], member: &Row, rule: usize, all: &mut Vec<Row>) -> Result<(), Memory>
    requires rule { rule < RULES }
    requires none { all.old.items ≡ [] }
    requires ascending { IsAscending rule sums.now }
    ensures { OnOk result (AddsMember rule member.now sums.now all.new.items
        (length sums.now) (length sums.now)) }
{
    let mut i = 0;
    let mut j = 0;
    while j < sums.len() {
        let with = row::add(&sums[j], member);
        if i < sums.len() && sums[i][rule] <= with[rule] {
            push(all, &sums[i], rule)?;
            i += 1;
        } else {
            push(all, &with, rule)?;
            j += 1;
        }
    }
    Ok(())
}

/// Lists the sums of all subsets of some members, ascending under a rule.
///
/// Stops early once there are more than `limit` sums.
fn list(
    alloc: Global,
    members: &[Row],
    rule: usize,
    limit: usize,
    sums: &mut Vec<Row>,
) -> Result<(), Memory>
    requires rule { rule < RULES }
    requires none { sums.old.items ≡ [] }
    ensures { OnOk result (length sums.new.items ≤ limit
        → AreListed rule members.now sums.new.items) }
{
    let Some((member, others)) = members.split_first() else {
        sums.push(ZERO)?;
        return Ok(());
    };
    list(alloc, others, rule, limit, sums)?;
    if sums.len() > limit {
        return Ok(());
    }
    let mut all = Vec::with_capacity(alloc, sums.len().saturating_mul(2))?;
    add_member(sums, member, rule, &mut all)?;
    *sums = all;
    Ok(())
}

/// Lowers each row to the least of itself and all later ones under each rule.
fn keep_least(rows: &mut Vec<Row>)
    ensures { AreLowered 1 rows.old.items rows.new.items }
{
    for k in (1..rows.len()).rev() {
        rows[k - 1] = row::min(&rows[k - 1], &rows[k]);
    }
}

/// The sums of all subsets of some members, ascending under a rule.
///
/// Under the other rules each has the least numbers of itself and all later sums. The list is empty
/// if there would be too many.
#[derive(Drop)]
pub(crate) struct Sums {
    rule: usize,
    rows: Vec<Row>,
    ghost in_range: { rule < RULES },
}

impl Sums {
    /// Lists the sums of the subsets of some members, or none if there are more than `limit`.
    pub(crate) fn new(
        alloc: Global,
        members: &[Row],
        rule: usize,
        limit: usize,
    ) -> Result<Sums, Memory>
        requires rule { rule < RULES }
        ensures { IfOk result (λ sums. AreSums sums.rule members.now sums.rows.items) }
    {
        let mut rows = Vec::new(alloc);
        list(alloc, members, rule, limit, &mut rows)?;
        if rows.len() > limit {
            return Ok(Sums {
                rule,
                rows: Vec::new(alloc),
            });
        }
        keep_least(&mut rows);
        Ok(Sums { rule, rows })
    }

    /// Raises a row further: to what all subsets weigh at least that meet `row`.
    #[inline]
    pub(crate) fn raise(&self, row: &Row, raised: &Row) -> Row
        ensures above { (r : ℕ) → slice_index raised.now r ≤ slice_index result r }
        ensures met { (members : List (List ℕ)) (set : List Bool)
            → AreSums self.now.rule members self.now.rows.items
            → meets (weigh members set) row.now ≡ true
            → meets (weigh members set) raised.now ≡ true → meets (weigh members set) result ≡ true }
    {
        row::is_row(row);
        let rule = self.rule;
        let at = self.rows.partition_point(|sum| sum[rule] < row[rule]);
        if at < self.rows.len() {
            row::max(raised, &self.rows[at])
        } else {
            *raised
        }
    }
}
