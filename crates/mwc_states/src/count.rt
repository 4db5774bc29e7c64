//! The counts of a game.
ghost use Rattle.std.specs.Prelude.{◌≡◌, ◌<◌, ℕ, [], IfOk, IfSome, length, slice_index, slice_index_or};
ghost use Rattle.council_game.specs.Game.{votes_of};
ghost use Rattle.council_game.specs.Votes.{rule_at};
ghost use Rattle.mwc_states.specs.Inner.Games.{AreCountsOf, AreNeedsOf, AreRowsOf, IsNeedOf, IsStart, counted_coalitions};
ghost use Rattle.mwc_states.specs.declared.state.What.TheVariants.{Minimal};
ghost use Rattle.power_index.specs.Tables.{AreCountsOfGame};
ghost use Rattle.power_index.specs.Swings.{AreWinningCounts};

use crate::graph::build;
use crate::row::{Row, ZERO};
use crate::set_counts::{SetCounts, count};
use crate::state::What;
use council_game::{Game, Gate, Memory};
use power_index::{Counts, Swings};
use std::alloc::Global;
use std::array;

/// Returns the weights of the member of a rank place.
fn weights_at(game: &Game, place: usize) -> Row
    requires { place < length game.now.names }
    ensures { (r : ℕ) → slice_index result r
        ≡ slice_index (rule_at (votes_of game.now).rules r).weights place }
{
    let (member, rules) = (game.member_at(place), game.rules());
    array::from_fn(|r| if r < rules {
        game.rule_weight(r, member)
    } else {
        0
    })
}

/// Returns the need of a way: the quotas of its rules.
fn need_of(game: &Game, way: usize) -> Row
    requires { way < length game.now.ways }
    ensures { IsNeedOf (votes_of game.now).rules (slice_index_or game.now.ways way []) result }
{
    game.was_checked();
    let mut need = ZERO;
    for rule in game.way(way) {
        need[*rule] = game.rule_quota(*rule);
    }
    need
}

/// Lists the needs of the ways of a game.
fn needs(alloc: Global, game: &Game) -> Result<Vec<Row>, Memory>
    ensures { IfOk result (λ rows. AreNeedsOf (votes_of game.now) rows.items
        (length game.now.ways)) }
{
    let mut rows = Vec::with_capacity(alloc, game.ways())?;
    for way in 0..game.ways() {
        rows.push(need_of(game, way))?;
    }
    Ok(rows)
}

/// Returns the state of the game in which no member is decided.
fn start(alloc: Global, game: &Game, what: What) -> Result<Vec<Row>, Memory>
    ensures { IfOk result (λ state. IsStart what (votes_of game.now) state.items) }
{
    let mut state = needs(alloc, game)?;
    if let What::ByWays = what {
        let head = [state.len() as u64, 0, 0, 0];
        state.insert(0, head)?;
    }
    Ok(state)
}

/// Lists the weights of the members by rank place.
fn members(alloc: Global, game: &Game) -> Result<Vec<Row>, Memory>
    ensures { IfOk result (λ rows. AreRowsOf (votes_of game.now).rules rows.items
        (length game.now.names)) }
{
    let mut rows = Vec::with_capacity(alloc, game.members())?;
    for place in 0..game.members() {
        rows.push(weights_at(game, place))?;
    }
    Ok(rows)
}

/// Counts the coalitions of a game that are minimal winning, or those that win: all by size, and
/// those that have the member of each rank place.
fn count_sets<G: Gate>(
    alloc: Global,
    game: &Game,
    what: What,
    room: usize,
    gate: &G,
) -> Result<Option<SetCounts>, Memory>
    requires { what ≡ Minimal → length game.now.ways ≡ 1 }
    ensures { IfOk result (λ o. IfSome o (λ counts.
        AreCountsOf game.now (counted_coalitions what (votes_of game.now)) counts)) }
{
    game.was_checked();
    let members = members(alloc, game)?;
    let state = start(alloc, game, what)?;
    let mut levels = Vec::new(alloc);
    if !build(
        alloc,
        what,
        &members,
        &state,
        game.rules(),
        room,
        gate,
        &mut levels,
    )? {
        return Ok(None);
    }
    Ok(Some(count(alloc, &levels)?))
}

/// Counts the minimal winning coalitions of a game by states.
///
/// The members are decided by rank place, so put those first who contribute more
/// (`Game::by_contribution`). The gate hears of each member that is decided. Returns `None` if
/// there are more than `room` states, at most 2^27, or the states of a level are too long.
///
/// # Errors
///
/// Returns `Memory` if an allocation was refused.
#[tactic(auto, unfolding(council_game::specs::Votes::minimal_coalitions))]
pub fn count_by_states<G: Gate>(
    alloc: Global,
    game: &Game,
    room: usize,
    gate: &G,
) -> Result<Option<Box<Counts>>, Memory>
    ensures { IfOk result (λ o. IfSome o (λ counts. AreCountsOfGame game.now counts.value)) }
{
    let what = if game.ways() == 1 {
        What::Minimal
    } else {
        What::ByWays
    };
    let Some(counts) = count_sets(alloc, game, what, room, gate)? else {
        return Ok(None);
    };
    Ok(Some(Box::new(alloc, Counts::of_sizes(game, counts.all, counts.each))?))
}

/// Counts the swings of a game's members by states.
///
/// It counts the winning coalitions, for the same `room` and gate as `count_by_states`.
///
/// # Errors
///
/// Returns `Memory` if an allocation was refused.
#[tactic(auto, unfolding(power_index::specs::Swings::winning_coalitions))]
pub fn count_swings<G: Gate>(
    alloc: Global,
    game: &Game,
    room: usize,
    gate: &G,
) -> Result<Option<Swings>, Memory>
    ensures { IfOk result (λ o. IfSome o (λ swings. AreWinningCounts game.now swings)) }
{
    let Some(counts) = count_sets(alloc, game, What::Winning, room, gate)? else {
        return Ok(None);
    };
    let winning = Box::new(alloc, Counts::of_sizes(game, counts.all, counts.each))?;
    Ok(Some(Swings::of(game, winning)))
}
