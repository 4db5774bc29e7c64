//! Counts without a list: at other quotas, by threads, and of swings.
ghost use Rattle.council_game.specs.declared.limits.TheConstants.{WORKERS};
ghost use Rattle.council_game.specs.Game.{total, votes_of};
ghost use Rattle.council_game.specs.Votes.{minimal_coalitions, rule_at};
ghost use Rattle.game_calls.specs.Quotas.{at_quota};
ghost use Rattle.power_index.specs.Fractions.{lowest_terms, pair_of};
ghost use Rattle.power_index.specs.Indices.{deegan_packel};
ghost use Rattle.power_index.specs.SwingIndices.{banzhaf, shapley_shubik};
ghost use Rattle.std.specs.List.{All};
ghost use Rattle.std.specs.Prelude.{◌<◌, ◌≡◌, ◌≤◌, IfOk, IfSome, length, map};

use council_game::{Game, Memory, NoGate, limits};
use game_calls::{at_quota, count_minimal};
use mwc_states::count_swings;
use mwc_tally::{TallyFault, tally};
use power_index::laws::minimal_coalitions_can_be_counted;
use power_index::{Fraction, Index, banzhaf, deegan_packel, shapley_shubik};
use std::alloc::Global;
use std::sync::Wait;
use std::thread::Threads;

/// Counts the minimal winning coalitions of a game at some quotas.
///
/// The game has one rule, and each quota is within its total.
///
/// # Errors
///
/// `Memory` if an allocation was refused.
pub fn counts_at_quotas(alloc: Global, game: &Game, quotas: &[u64]) -> Result<Vec<u64>, Memory>
    requires { All (λ q. (1 ≤ q) × (q ≤ total (rule_at game.now.rules 0))) quotas.now }
    ensures { IfOk result (λ v. v.items
        ≡ map (λ q. length (minimal_coalitions (votes_of (at_quota game.now q)))) quotas.now) }
{
    let mut counts = Vec::new(alloc);
    for quota in quotas {
        counts.push(count_minimal(&at_quota(alloc, game, *quota)?))?;
    }
    Ok(counts)
}

/// Returns the Deegan-Packel index of a member, of games of any size.
///
/// The minimal winning coalitions are counted by `workers` threads, and none is kept.
///
/// # Errors
///
/// Those of `tally`.
pub fn tally_index<R: Threads + Wait + Sync>(
    rt: &R,
    alloc: Global,
    game: &Game,
    member: usize,
    workers: u8,
) -> Result<Index, TallyFault>
    requires member { member < length game.now.names }
    requires workers { (1 ≤ workers) × (workers ≤ WORKERS) }
    ensures { IfOk result (λ index. index ≡
        lowest_terms (deegan_packel game.now (minimal_coalitions (votes_of game.now)) member)) }
{
    // as many places as possible are fixed in each slice: then there is work for all threads
    let bits = limits::BITS.min(game.members() as u8);
    minimal_coalitions_can_be_counted();
    let counts = tally(rt, alloc, game, bits, workers, &NoGate)?;
    Ok(Index::of(deegan_packel(&counts, member)))
}

/// The most states that are kept, a few hundred MB.
const ROOM: usize = 1 << 22;

/// Returns the Banzhaf and the Shapley-Shubik index of a member.
///
/// It is none if the game has too many states.
///
/// # Errors
///
/// `Memory` if an allocation was refused.
pub fn indices_by_swings(
    alloc: Global,
    game: &Game,
    member: usize,
) -> Result<Option<(Fraction, Fraction)>, Memory>
    requires { member < length game.now.names }
    ensures banzhaf { IfOk result (λ o. IfSome o
        (λ both. pair_of both.0 ≡ lowest_terms (banzhaf game.now member))) }
    ensures shapley_shubik { IfOk result (λ o. IfSome o
        (λ both. pair_of both.1 ≡ lowest_terms (shapley_shubik game.now member))) }
{
    game.was_checked();
    let Some(swings) = count_swings(alloc, game, ROOM, &NoGate)? else {
        return Ok(None);
    };
    Ok(Some((banzhaf(&swings, member), shapley_shubik(&swings, member))))
}
