//! The later members.
ghost use Rattle.std.specs.Prelude.{◌≡◌, ◌≤◌, ◌&&◌, true, false, not, Bool, List, IfOk, OnOk};
ghost use Rattle.std.specs.List.{All};
ghost use Rattle.council_game.specs.declared.limits.TheConstants.{RULES};
ghost use Rattle.mwc_states.specs.Inner.Sets.{weigh, meets};
ghost use Rattle.mwc_states.specs.Inner.Sums.{AreSums};
ghost use Rattle.mwc_states.specs.Inner.Later.{IsTotal, is_able, is_able_any};
ghost use Rattle.mwc_states.specs.Inner.States.{fits, fits_any, misses_all};

use crate::row::{self, Row, ZERO};
use crate::sums::Sums;
use council_game::{Memory, limits};
use std::alloc::Global;

/// Returns whether a member may be in a minimal set that meets a need and this row too.
///
/// Without the member the set misses the need under some rule. There the need is above 0, and the
/// member weighs more than the row exceeds the need by.
#[inline]
#[tactic(auto, unfolding(crate::specs::Inner::Later::is_able))]
fn is_able(need: &Row, row: &Row, member: &Row) -> bool
    ensures { result ≡ is_able need.now row.now member.now }
{
    (0..limits::RULES).any(|r| need[r] > 0 && row[r].saturating_sub(need[r]) < member[r])
}

/// Returns whether a member may be in a minimal set that meets one of some needs, and this row too.
#[inline]
fn is_able_any(needs: &[Row], row: &Row, member: &Row) -> bool
    ensures { result ≡ is_able_any needs.now row.now member.now }
{
    for need in needs {
        if row::meets(row, need) && !is_able(need, row, member) {
            return false;
        }
    }
    true
}

/// The later members, and the sums of their subsets.
#[derive(Drop)]
pub(crate) struct Later<'m> {
    pub(crate) members: &'m [Row],
    total: Row,
    sums: Vec<Sums>,
    ghost is_total: { IsTotal members.now total },
    ghost are_sums: { All (λ list. AreSums list.rule members.now list.rows.items) sums.items },
}

impl<'m> Later<'m> {
    /// Lists the sums of these members' subsets under each of the first `rules` rules.
    ///
    /// Under a rule with more than `limit` sums none are listed, and no row is raised by them.
    pub(crate) fn new(
        alloc: Global,
        members: &'m [Row],
        rules: usize,
        limit: usize,
    ) -> Result<Later<'m>, Memory>
        requires rules { rules ≤ RULES }
        ensures { IfOk result (λ later. later.members.now ≡ members.now) }
    {
        let mut sums = Vec::new(alloc);
        for rule in 0..rules {
            sums.push(Sums::new(alloc, members, rule, limit)?)?;
        }
        Ok(Later {
            members,
            total: row::sum(members),
            sums,
        })
    }

    /// Returns the least weights of all subsets that meet a row, as far as the sums tell.
    pub(crate) fn raise(&self, row: &Row) -> Row
        ensures { (set : List Bool) → meets (weigh self.now.members.now set) result
            ≡ meets (weigh self.now.members.now set) row.now }
    {
        let mut raised = *row;
        for sums in &self.sums {
            raised = sums.raise(row, &raised);
        }
        raised
    }

    /// Returns whether all members together meet a need.
    ///
    /// If they do not, no subset does.
    #[tactic(auto, using(crate::proofs::Meeting::total))]
    pub(crate) fn is_reachable(&self, need: &Row) -> bool
        ensures { (set : List Bool)
            → meets (weigh self.now.members.now set) need.now ≡ true → result ≡ true }
    {
        row::is_row(need);
        row::meets(&self.total, need)
    }

    /// Returns whether each minimal set that meets a need misses a row.
    ///
    /// The answer is yes if all members that may be in such a set miss the row together. It may be
    /// no where yes is true.
    #[tactic(auto, using(crate::proofs::Able::able))]
    fn is_missed(&self, need: &Row, row: &Row) -> bool
        ensures { (set : List Bool) → fits self.now.members.now need.now set ≡ true
            → result ≡ true → meets (weigh self.now.members.now set) row.now ≡ false }
    {
        row::is_row(row);
        let mut able = ZERO;
        for member in self.members {
            if is_able(need, row, member) {
                able = row::add(&able, member);
                if row::meets(&able, row) {
                    return false;
                }
            }
        }
        !row::meets(&able, row)
    }

    /// Returns whether each minimal set that meets one of some needs misses a row.
    ///
    /// It may be no where yes is true, as for one need.
    #[tactic(auto, using(crate::proofs::Ways::able_any))]
    fn is_missed_any(&self, needs: &[Row], row: &Row) -> bool
        ensures { (set : List Bool) → fits_any self.now.members.now needs.now set ≡ true
            → result ≡ true → meets (weigh self.now.members.now set) row.now ≡ false }
    {
        row::is_row(row);
        let mut able = ZERO;
        for member in self.members {
            if is_able_any(needs, row, member) {
                able = row::add(&able, member);
                if row::meets(&able, row) {
                    return false;
                }
            }
        }
        !row::meets(&able, row)
    }

    /// Adds a row to the misses of a state with these needs, if it tells anything.
    #[tactic(auto, using(crate::proofs::Leaving::missing))]
    pub(crate) fn add_miss_any(
        &self,
        needs: &[Row],
        miss: &Row,
        misses: &mut Vec<Row>,
    ) -> Result<(), Memory>
        ensures { OnOk result ((set : List Bool) → fits_any self.now.members.now needs.now set ≡ true
            → misses_all (weigh self.now.members.now set) misses.new.items
            ≡ (misses_all (weigh self.now.members.now set) misses.old.items
            && not (meets (weigh self.now.members.now set) miss.now))) }
    {
        let miss = self.raise(miss);
        if !self.is_reachable(&miss) || row::is_implied(misses, &miss) {
            return Ok(());
        }
        if self.is_missed_any(needs, &miss) {
            return Ok(());
        }
        row::insert(misses, &miss)?;
        Ok(())
    }

    /// Returns a row that the sets that meet a need miss just if they miss another one.
    ///
    /// It is the need itself if no such set misses that one.
    fn raise_miss(&self, need: &Row, miss: &Row) -> Row
        ensures { (set : List Bool) → meets (weigh self.now.members.now set) need.now ≡ true
            → meets (weigh self.now.members.now set) result ≡ meets (weigh self.now.members.now set) miss.now }
    {
        if row::meets(need, miss) {
            *need
        } else {
            self.raise(&row::max(miss, need))
        }
    }

    /// Adds a row to the misses of a state with this need, if it tells anything.
    #[tactic(auto, using(crate::proofs::Leaving::missing))]
    pub(crate) fn add_miss(
        &self,
        need: &Row,
        miss: &Row,
        misses: &mut Vec<Row>,
    ) -> Result<(), Memory>
        ensures { OnOk result ((set : List Bool) → fits self.now.members.now need.now set ≡ true
            → misses_all (weigh self.now.members.now set) misses.new.items
            ≡ (misses_all (weigh self.now.members.now set) misses.old.items
            && not (meets (weigh self.now.members.now set) miss.now))) }
    {
        let miss = self.raise_miss(need, miss);
        if row::is_implied(misses, &miss) {
            return Ok(());
        }
        if self.is_missed(need, &miss) {
            return Ok(());
        }
        row::insert(misses, &miss)?;
        Ok(())
    }
}
