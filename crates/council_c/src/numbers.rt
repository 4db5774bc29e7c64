//! The numbers of a game, computed.
ghost use Rattle.std.specs.Prelude.{◌≡◌, ◌≤◌, ◌<◌, ℕ, IfOk, IfSome, length, map, slice_index};
ghost use Rattle.std.specs.Option.{is_some};
ghost use Rattle.council_c.specs.Numbers.{IsSummary, act_number, minimal_numbers, minimal_of, numbers};
ghost use Rattle.council_game.specs.Game.{total};
ghost use Rattle.council_game.specs.Members.{members};
ghost use Rattle.council_game.specs.Votes.{rule_at};
ghost use Rattle.power_index.specs.Counting.{count_of_size};
ghost use Rattle.power_index.specs.Tables.{AreCountsOfGame};
ghost use Rattle.power_index.specs.Swings.{AreWinningCounts};

use crate::results::{CouncilFraction, CouncilMember, CouncilSummary, MEMBER_SIZE, SUMMARY_SIZE};
use council_game::{Game, Memory, limits};
use power_index::laws::minimal_coalitions_can_be_counted;
use power_index::{
    Counts, Swings, banzhaf, deegan_packel, penrose, power_to_act, power_to_initiate,
    power_to_prevent, public_good, shapley_shubik,
};
use std::alloc::Global;

/// Returns the numbers of a member that rest on the minimal winning coalitions.
fn minimal_numbers(game: &Game, counts: &Counts, member: usize) -> CouncilMember
    requires counts { AreCountsOfGame game.now counts.now }
    requires member { member < length game.now.names }
    ensures { result ≡ minimal_numbers game.now member }
{
    game.was_checked();
    minimal_coalitions_can_be_counted();
    CouncilMember {
        coalitions: counts.wide_of_member(member),
        swings: 0,
        deegan_packel: CouncilFraction::of(deegan_packel(counts, member)),
        public_good: CouncilFraction::of(public_good(counts, member)),
        banzhaf: CouncilFraction::NONE,
        penrose: CouncilFraction::NONE,
        shapley_shubik: CouncilFraction::NONE,
        prevent: CouncilFraction::NONE,
        initiate: CouncilFraction::NONE,
        reserved: [0; 6],
    }
}

/// Returns the numbers of a member, with those of its swings if there are any.
fn member_numbers(
    game: &Game,
    counts: &Counts,
    swings: Option<&Swings>,
    member: usize,
) -> CouncilMember
    requires counts { AreCountsOfGame game.now counts.now }
    requires swings { IfSome swings (λ s. AreWinningCounts game.now s.now) }
    requires member { member < length game.now.names }
    ensures { result ≡ numbers (is_some swings.entry) game.now member }
{
    game.was_checked();
    let numbers = minimal_numbers(game, counts, member);
    match swings {
        Some(swings) => CouncilMember {
            swings: swings.of_member(member),
            banzhaf: CouncilFraction::of(banzhaf(swings, member)),
            penrose: CouncilFraction::of(penrose(swings, member)),
            shapley_shubik: CouncilFraction::of(shapley_shubik(swings, member)),
            prevent: CouncilFraction::of(power_to_prevent(swings, member)),
            initiate: CouncilFraction::of(power_to_initiate(swings, member)),
            ..numbers
        },
        None => numbers,
    }
}

/// Returns the numbers of all members, in order.
///
/// # Errors
///
/// `Memory` if an allocation was refused.
#[tactic(auto, using(council_game::proofs::Shared::Lists::map_one_more))]
pub(crate) fn all_numbers(
    alloc: Global,
    game: &Game,
    counts: &Counts,
    swings: Option<&Swings>,
) -> Result<Vec<CouncilMember>, Memory>
    requires counts { AreCountsOfGame game.now counts.now }
    requires swings { IfSome swings (λ s. AreWinningCounts game.now s.now) }
    ensures { IfOk result (λ v. v.items ≡ map (numbers (is_some swings.entry) game.now) (members game.now)) }
{
    let mut all = Vec::new(alloc);
    for member in 0..game.members() {
        all.push(member_numbers(game, counts, swings, member))?;
    }
    Ok(all)
}

/// Returns how many minimal winning coalitions have each size; 0 for more members than there are.
fn sizes_of(game: &Game, counts: &Counts) -> [u64; limits::SIZES]
    requires { AreCountsOfGame game.now counts.now }
    ensures sizes { (k : ℕ) → k ≤ length game.now.names
        → slice_index result k ≡ count_of_size game.now k (minimal_of game.now) }
    ensures rest { (k : ℕ) → length game.now.names < k → slice_index result k ≡ 0 }
{
    let mut of_size = [0; limits::SIZES];
    for size in 0..game.members() + 1 {
        of_size[size] = counts.wide_of_size(size);
    }
    of_size
}

/// Returns the total of each rule; 0 after the last one.
#[tactic(auto, using(crate::proofs::Parts::zeros))]
fn totals_of(game: &Game) -> [u64; limits::RULES]
    ensures totals { (r : ℕ) → r < length game.now.rules → slice_index result r ≡ total (rule_at game.now.rules r) }
    ensures rest { (r : ℕ) → length game.now.rules ≤ r → slice_index result r ≡ 0 }
{
    let mut totals = [0; limits::RULES];
    for r in 0..game.rules() {
        totals[r] = game.rule_total(r);
    }
    totals
}

/// Returns the power of the body to act, if there are swings.
fn act_of(game: &Game, swings: Option<&Swings>) -> CouncilFraction
    requires { IfSome swings (λ s. AreWinningCounts game.now s.now) }
    ensures { result ≡ act_number (is_some swings.entry) game.now }
{
    game.was_checked();
    match swings {
        Some(swings) => CouncilFraction::of(power_to_act(swings)),
        None => CouncilFraction::NONE,
    }
}

/// Returns the numbers of the game as a whole.
pub(crate) fn summarize(game: &Game, counts: &Counts, swings: Option<&Swings>) -> CouncilSummary
    requires counts { AreCountsOfGame game.now counts.now }
    requires swings { IfSome swings (λ s. AreWinningCounts game.now s.now) }
    ensures { IsSummary (is_some swings.entry) game.now result }
{
    CouncilSummary {
        size: SUMMARY_SIZE,
        member_size: MEMBER_SIZE,
        fault: 0,
        member: 0,
        rule: 0,
        coalitions: counts.wide_total(),
        winning: match swings {
            Some(swings) => swings.winning(),
            None => 0,
        },
        of_size: sizes_of(game, counts),
        totals: totals_of(game),
        act: act_of(game, swings),
        reserved: [0; 12],
    }
}
