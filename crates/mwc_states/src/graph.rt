//! The graph of states, level by level.
ghost use Rattle.std.specs.Prelude.{◌≡◌, ◌+◌, ◌*◌, ◌<◌, ◌≤◌, ◌^◌, [], true, IfOk, IfSome, length, map};
ghost use Rattle.council_game.specs.declared.limits.TheConstants.{MEMBERS, RULES};
ghost use Rattle.mwc_states.specs.Inner.Graphs.{IsGraphOf};
ghost use Rattle.mwc_states.specs.Inner.Links.{link_at};
ghost use Rattle.mwc_states.specs.Inner.Tables.{AreDecided, IsLevel};

use crate::later::Later;
use crate::row::Row;
use crate::state::{What, decide};
use crate::table::Table;
use council_game::{Gate, Memory, limits};
use std::alloc::Global;

/// Where each state of a level leads without its member, and then with it.
pub(crate) type Links = Vec<u32>;

/// Returns where a row leads without the member (0) or with it (1).
#[inline]
pub(crate) fn link_at(links: &Links, row: usize, choice: usize) -> u32
    requires { 2 * row + choice < length links.now.items }
    ensures { result ≡ link_at links.now.items row choice }
{
    links[2 * row + choice]
}

/// Decides a member in each state of a table, and adds what they leave to another one.
///
/// Returns whether this has at most `rows` rows, before equal states are merged.
fn decide_states(
    what: What,
    table: &Table,
    member: &Row,
    later: &Later,
    rows: usize,
    next: &mut Table,
    left: &mut Vec<Row>,
    misses: &mut Vec<Row>,
) -> Result<bool, Memory>
    requires { next.old ≡ [] }
    ensures { IfOk result (λ whole. whole ≡ true → AreDecided what member.now later.now.members.now
        table.now next.new (length table.now)) }
{
    for place in 0..table.len() {
        if next.rows() > rows {
            return Ok(false);
        }
        let state = table.state(place);
        decide(what, state, member, false, later, left, misses)?;
        next.push(left)?;
        decide(what, state, member, true, later, left, misses)?;
        next.push(left)?;
    }
    Ok(true)
}

/// Decides a member in each state of a level, and returns the links to the next one.
///
/// The table gets the states of that one. Returns `None` if these have more than `rows` rows,
/// before equal ones are merged.
#[tactic(auto, using(crate::proofs::Building::found))]
fn decide_level(
    alloc: Global,
    what: What,
    member: &Row,
    later: &Later,
    rows: usize,
    table: &mut Table,
) -> Result<Option<Links>, Memory>
    requires { length table.old ≤ 2 ^ 27 }
    ensures { IfOk result (λ o. IfSome o (λ links. IsLevel what member.now later.now.members.now
        table.old links.items table.new)) }
{
    let mut next = Table::new(alloc);
    if !decide_states(
        what,
        table,
        member,
        later,
        rows,
        &mut next,
        &mut Vec::new(alloc),
        &mut Vec::new(alloc),
    )? {
        return Ok(None);
    }
    next.sort(alloc, table)
}

/// Returns how many sums of later members are listed under each rule, if a level has these states.
///
/// It takes longer to list them than to merge few states by them, so there are few if there is
/// little room.
fn sums_for(states: usize, rules: usize, room: usize) -> usize {
    states
        .saturating_mul(4)
        .saturating_add((room / 8).min(1 << 13))
        .min((1 << 20) / rules.max(1))
}

/// Returns how many rows the states of a level may have before equal ones are merged.
///
/// There are few if there is little room: a game of more takes long to tell.
fn rows_for(room: usize) -> usize {
    (room.saturating_mul(room) >> 12).clamp(64, room.max(64))
}

/// Builds the graph of the sets of members that complete a state.
///
/// Adds a level for each member, and the gate hears of it. Returns false if there are more than
/// `room` states, or too many rows, or if no set of all members completes the state.
pub(crate) fn build<G: Gate>(
    alloc: Global,
    what: What,
    members: &[Row],
    state: &[Row],
    rules: usize,
    room: usize,
    gate: &G,
    levels: &mut Vec<Links>,
) -> Result<bool, Memory>
    requires some { 1 ≤ length members.now }
    requires few { length members.now ≤ MEMBERS }
    requires rules { rules ≤ RULES }
    requires none { levels.old.items ≡ [] }
    ensures { IfOk result (λ whole. whole ≡ true →
        IsGraphOf what members.now state.now (map (λ links. links.items) levels.new.items)) }
{
    let mut table = Table::new(alloc);
    table.push(state)?;
    let rows = rows_for(room);
    let mut left = room.min(limits::STATES as usize);
    for level in 0..members.len() {
        if table.len() > left {
            return Ok(false);
        }
        left -= table.len();
        let sums = sums_for(table.len(), rules, room);
        let later = Later::new(alloc, &members[level + 1..], rules, sums)?;
        let Some(links) = decide_level(alloc, what, &members[level], &later, rows, &mut table)?
        else {
            return Ok(false);
        };
        levels.push(links)?;
        gate.decide(level as u8 + 1, members.len() as u8);
    }
    Ok(table.is_last(what))
}
