//! States.
ghost use Rattle.std.specs.Prelude.{◌≡◌, List, Bool, true, [], ◌∷◌, OnOk};
ghost use Rattle.mwc_states.specs.Inner.Sets.{meets, weigh};
ghost use Rattle.mwc_states.specs.Inner.Later.{AreLeft, alive, misses_left, misses_left_any};
ghost use Rattle.mwc_states.specs.Inner.States.{fits, fits_any, misses_all};
ghost use Rattle.mwc_states.specs.Inner.Tables.{Leads};
ghost use Rattle.mwc_states.specs.declared.state.What.TheVariants.{ByWays, Minimal};

use crate::later::Later;
use crate::row::{self, Row};
use council_game::Memory;

/// The coalitions that are counted: minimal ones of a game of one way, or of several ways, or those
/// that win.
#[derive(Clone, Copy)]
pub(crate) enum What {
    Minimal,
    ByWays,
    Winning,
}

/// Lists what the later members must miss once a member is decided: what was to be missed before,
/// and the need, if the member is taken, since a minimal set cannot spare it.
fn list_misses(
    old_need: &Row,
    old_misses: &[Row],
    member: &Row,
    taken: bool,
    later: &Later,
    need: &Row,
    misses: &mut Vec<Row>,
) -> Result<(), Memory>
    requires { misses.old.items ≡ [] }
    ensures { OnOk result ((set : List Bool) → fits later.now.members.now need.now set ≡ true
        → misses_all (weigh later.now.members.now set) misses.new.items
        ≡ misses_left later.now.members.now member.now taken old_need.now old_misses.now set) }
{
    for miss in old_misses {
        later.add_miss(need, &row::reduce(miss, member, taken), misses)?;
    }
    if taken {
        later.add_miss(need, old_need, misses)?;
    }
    Ok(())
}

/// Puts the need and the misses that a state leaves into `left`, or no row if no minimal set
/// completes it.
fn leave(
    old_need: &Row,
    old_misses: &[Row],
    member: &Row,
    taken: bool,
    later: &Later,
    need: &Row,
    left: &mut Vec<Row>,
) -> Result<(), Memory>
    requires none { left.old.items ≡ [] }
    requires alike { (set : List Bool) → meets (weigh later.now.members.now set) need.now
        ≡ meets (weigh (member.now ∷ later.now.members.now) (taken ∷ set)) old_need.now }
    ensures { OnOk result (Leads Minimal later.now.members.now member.now taken
        (old_need.now ∷ old_misses.now) left.new.items) }
{
    list_misses(old_need, old_misses, member, taken, later, need, left)?;
    if row::is_implied(left, need) {
        left.clear();
        return Ok(());
    }
    left.insert(0, *need)?;
    Ok(())
}

/// Decides a member in a state of one need, and puts what is left into `left`.
fn decide_one(
    state: &[Row],
    member: &Row,
    taken: bool,
    later: &Later,
    left: &mut Vec<Row>,
) -> Result<(), Memory>
    requires { left.old.items ≡ [] }
    ensures { OnOk result (Leads Minimal later.now.members.now member.now taken state.now left.new.items) }
{
    let Some((old_need, misses)) = state.split_first() else {
        return Ok(());
    };
    let need = later.raise(&row::reduce(old_need, member, taken));
    if !later.is_reachable(&need) {
        return Ok(());
    }
    leave(old_need, misses, member, taken, later, &need, left)
}

/// Lists the needs that some needs leave once a member is decided.
///
/// Those that the later members cannot meet are gone, and those that meet another one.
fn list_needs(
    old: &[Row],
    member: &Row,
    taken: bool,
    later: &Later,
    needs: &mut Vec<Row>,
) -> Result<(), Memory>
    requires { needs.old.items ≡ [] }
    ensures { OnOk result (AreLeft later.now.members.now member.now taken old.now needs.new.items) }
{
    for need in old {
        let need = later.raise(&row::reduce(need, member, taken));
        if later.is_reachable(&need) && !row::is_implied(needs, &need) {
            row::insert(needs, &need)?;
        }
    }
    Ok(())
}

/// Lists what the later members must miss once a member is decided: what was to be missed before,
/// and the needs, if the member is taken.
fn list_misses_any(
    old_needs: &[Row],
    old_misses: &[Row],
    member: &Row,
    taken: bool,
    later: &Later,
    needs: &[Row],
    misses: &mut Vec<Row>,
) -> Result<(), Memory>
    requires { misses.old.items ≡ [] }
    ensures { OnOk result ((set : List Bool) → fits_any later.now.members.now needs.now set ≡ true
        → misses_all (weigh later.now.members.now set) misses.new.items
        ≡ misses_left_any later.now.members.now member.now taken old_needs.now old_misses.now set) }
{
    for miss in old_misses {
        later.add_miss_any(needs, &row::reduce(miss, member, taken), misses)?;
    }
    if taken {
        for need in old_needs {
            later.add_miss_any(needs, need, misses)?;
        }
    }
    Ok(())
}

/// Drops the needs that meet a miss.
fn keep_alive(needs: &mut Vec<Row>, misses: &[Row])
    ensures { needs.new.items ≡ alive misses.now needs.old.items }
{
    needs.retain(|need| !row::is_implied(misses, need));
}

/// Decides a member in a state of several ways, and puts what is left into `left`.
fn decide_by_ways(
    state: &[Row],
    member: &Row,
    taken: bool,
    later: &Later,
    left: &mut Vec<Row>,
    misses: &mut Vec<Row>,
) -> Result<(), Memory>
    requires { left.old.items ≡ [] }
    ensures { OnOk result (Leads ByWays later.now.members.now member.now taken state.now left.new.items) }
{
    let Some((head, rows)) = state.split_first() else {
        return Ok(());
    };
    let (old_needs, old_misses) = rows.split_at((head[0] as usize).min(rows.len()));
    list_needs(old_needs, member, taken, later, left)?;
    misses.clear();
    list_misses_any(old_needs, old_misses, member, taken, later, left, misses)?;
    keep_alive(left, misses);
    if left.is_empty() {
        return Ok(());
    }
    let head = [left.len() as u64, 0, 0, 0];
    left.insert(0, head)?;
    left.extend_from_slice(misses)?;
    Ok(())
}

/// Decides a member in a state, and puts what is left into `left`: no row if no set completes it.
///
/// What `misses` has is dropped.
pub(crate) fn decide(
    what: What,
    state: &[Row],
    member: &Row,
    taken: bool,
    later: &Later,
    left: &mut Vec<Row>,
    misses: &mut Vec<Row>,
) -> Result<(), Memory>
    ensures { OnOk result (Leads what later.now.members.now member.now taken state.now left.new.items) }
{
    left.clear();
    match what {
        What::Minimal => decide_one(state, member, taken, later, left)?,
        What::ByWays => decide_by_ways(state, member, taken, later, left, misses)?,
        What::Winning => list_needs(state, member, taken, later, left)?,
    }
    Ok(())
}
