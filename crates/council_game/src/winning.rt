//! Whether a coalition wins, and whether it is minimal.
ghost use Rattle.std.specs.Prelude.{◌≡◌, ◌≤◌, length, sum, true, ◌^◌, IfOk};
ghost use Rattle.council_game.specs.declared.limits.TheConstants.{MEMBERS, TOTAL, PLAIN_MEMBERS};
ghost use Rattle.std.specs.List.{list_all};
ghost use Rattle.council_game.specs.Votes.{IsVotes, meets_quota, rule_at, weight, wins, minimal, minimal_coalitions};
ghost use Rattle.council_game.specs.Rules.{rule_views, way_view};
ghost use Rattle.council_game.specs.Ways.{is_way};
ghost use Rattle.council_game.specs.Inner.Held.{votes};
ghost use Rattle.council_game.specs.Game.{votes_of};

use crate::{Coalition, Game, Memory, Rule, Way};
use std::alloc::Global;

/// Returns the weight of a coalition: the last place is the lowest digit.
#[tactic(auto, unfolding(crate::specs::Votes::has))]
pub(crate) fn weight_of(weights: &[u64], coalition: Coalition) -> u64
    requires few { length weights.now ≤ MEMBERS }
    requires fits { sum weights.now ≤ TOTAL }
    ensures { result ≡ weight weights.now coalition }
{
    let members = weights.len();
    let mut sum = 0;
    for place in 0..members {
        if coalition.has(members, place) {
            sum += weights[place];
        }
    }
    sum
}

/// Returns whether a coalition meets the quota of each rule of a way.
fn meets(rules: &[Rule], ways: &[Way], way: &Way, members: usize, coalition: Coalition) -> bool
    requires votes { IsVotes (votes members rules.now ways.now) }
    requires way { is_way (length rules.now) (way_view way.now) ≡ true }
    ensures { result ≡ list_all (λ r. meets_quota coalition (rule_at (rule_views rules.now) r))
        (way_view way.now) }
{
    for rule in &way.rules {
        let rule = &rules[*rule];
        if weight_of(&rule.weights, coalition) < rule.quota {
            return false;
        }
    }
    true
}

/// Returns whether a coalition meets each rule of some way.
#[tactic(auto, using(crate::proofs::Shared::Lists::found_any), unfolding(crate::specs::Votes::wins))]
pub(crate) fn wins(rules: &[Rule], ways: &[Way], members: usize, coalition: Coalition) -> bool
    requires { IsVotes (votes members rules.now ways.now) }
    ensures { result ≡ wins (votes members rules.now ways.now) coalition }
{
    for way in ways {
        if meets(rules, ways, way, members, coalition) {
            return true;
        }
    }
    false
}

/// Returns whether a coalition wins, and loses without any of its members.
pub(crate) fn is_minimal(rules: &[Rule], ways: &[Way], members: usize, coalition: Coalition) -> bool
    requires { IsVotes (votes members rules.now ways.now) }
    ensures { result ≡ minimal (votes members rules.now ways.now) coalition }
{
    if !wins(rules, ways, members, coalition) {
        return false;
    }
    for place in 0..members {
        if coalition.has(members, place)
            && wins(rules, ways, members, coalition.without(members, place))
        {
            return false;
        }
    }
    true
}

/// Lists the minimal winning coalitions by trying each coalition.
///
/// The game has at most 20 members. The list is in listing order.
///
/// # Errors
///
/// Memory if an allocation was refused.
pub fn plain_list(alloc: Global, game: &Game) -> Result<Vec<Coalition>, Memory>
    requires { length game.now.names ≤ PLAIN_MEMBERS }
    ensures all { IfOk result (λ v. v.items ≡ minimal_coalitions (votes_of game.now)) }
    ensures some { IfOk result (λ v. 1 ≤ length v.items) }
    ensures few { IfOk result (λ v. length v.items ≤ 2 ^ PLAIN_MEMBERS) }
{
    let members = game.members();
    let mut list = Vec::new(alloc);
    for mask in (0..1 << members).rev() {
        let coalition = Coalition::of_mask(mask);
        if game.is_minimal(coalition) {
            list.push(coalition)?;
        }
    }
    Ok(list)
}
