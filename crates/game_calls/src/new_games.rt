//! Games from slices, and of the members of another one: under other rules, with other weights, at
//! another quota.
ghost use Rattle.council_game.specs.declared.limits.TheConstants.{RULES};
ghost use Rattle.council_game.specs.Fault.{Answers};
ghost use Rattle.council_game.specs.Game.{made_game, total};
ghost use Rattle.council_game.specs.Rules.{rule_view, rule_views, way_views};
ghost use Rattle.council_game.specs.Votes.{rule_at};
ghost use Rattle.council_game.specs.Ways.{one_way};
ghost use Rattle.game_calls.specs.Quotas.{at_quota, at_quota_of, rules_at, under_rules, with_quota, with_weights};
ghost use Rattle.std.specs.Prelude.{◌≡◌, ◌∷◌, ◌<◌, ◌≤◌, [], All, IfOk, None, length, map, option_map, string_bytes};

use crate::laws::{made_games_have_their_parts, quotas_can_be_changed};
use council_game::{Game, GameFault, Memory, Rule, Way, copy_title};
use std::alloc::{AllocError, Global};

/// Copies names.
fn copy_all(alloc: Global, names: &[&str]) -> Result<Vec<String>, AllocError>
    ensures { IfOk result
        (λ v. map string_bytes v.items ≡ map (λ name. name.now) names.now) }
{
    let mut copies = Vec::new(alloc);
    for name in names {
        copies.push(String::from_str(alloc, name)?)?;
    }
    Ok(copies)
}

/// Makes the game of these names and weights under one rule.
///
/// It has no title. There are as many weights as names.
///
/// # Errors
///
/// The first fault of the game, or Memory.
pub fn game_from_slices(
    alloc: Global,
    names: &[&str],
    weights: &[u64],
    quota: u64,
) -> Result<Game, GameFault>
    requires { length weights.now ≡ length names.now }
    ensures { Answers result (made_game None (map (λ name. name.now) names.now)
        (record { quota = quota; weights = weights.now } ∷ []) (one_way 1)) }
{
    let names = copy_all(alloc, names)?;
    let weights = Vec::from_slice(alloc, weights)?;
    Game::new(alloc, None, names, weights, quota)
}

/// Lists the weights of a rule.
fn weights_of(alloc: Global, game: &Game, rule: usize) -> Result<Vec<u64>, AllocError>
    requires { rule < length game.now.rules }
    ensures weights { IfOk result (λ v. v.items ≡ (rule_at game.now.rules rule).weights) }
    ensures full { IfOk result (λ v. length v.items ≡ length game.now.names) }
{
    let mut weights = Vec::new(alloc);
    for i in 0..game.members() {
        weights.push(game.rule_weight(rule, i))?;
    }
    Ok(weights)
}

/// Copies a rule, at another quota if it is `rule`.
fn copy_rule(
    alloc: Global,
    game: &Game,
    r: usize,
    rule: usize,
    quota: u64,
) -> Result<Rule, AllocError>
    requires { r < length game.now.rules }
    ensures rule { IfOk result (λ copy. rule_view copy ≡ at_quota_of game.now rule quota r) }
    ensures full { IfOk result (λ copy. length copy.weights.items ≡ length game.now.names) }
{
    let weights = weights_of(alloc, game, r)?;
    if r == rule {
        return Ok(Rule { quota, weights });
    }
    Ok(Rule {
        quota: game.rule_quota(r),
        weights,
    })
}

/// Copies the rules, one of them at another quota.
fn rules_at(alloc: Global, game: &Game, rule: usize, quota: u64) -> Result<Vec<Rule>, AllocError>
    ensures rules { IfOk result (λ v. rule_views v.items ≡ rules_at game.now rule quota) }
    ensures full { IfOk result (λ v. All (λ r. length r.weights.items ≡ length game.now.names) v.items) }
    ensures count { IfOk result (λ v. (0 < length v.items) × (length v.items ≤ RULES)) }
{
    let mut rules = Vec::new(alloc);
    for r in 0..game.rules() {
        rules.push(copy_rule(alloc, game, r, rule, quota)?)?;
    }
    Ok(rules)
}

/// Copies the ways to win.
fn copy_ways(alloc: Global, game: &Game) -> Result<Vec<Way>, AllocError>
    ensures { IfOk result (λ v. way_views v.items ≡ game.now.ways) }
{
    let mut ways = Vec::new(alloc);
    for w in 0..game.ways() {
        ways.push(Way {
            rules: Vec::from_slice(alloc, game.way(w))?,
        })?;
    }
    Ok(ways)
}

/// Returns the game of the same title and members under other rules.
///
/// A coalition wins if it meets them all. There is at least one rule and at most 4, and each has a
/// weight for each member.
///
/// # Errors
///
/// The first of the faults Weight and QuotaRange, or Memory if an allocation was refused.
pub fn under_rules(alloc: Global, game: &Game, rules: Vec<Rule>) -> Result<Game, GameFault>
    requires some { 0 < length rules.items }
    requires few { length rules.items ≤ RULES }
    requires full { All (λ r. length r.weights.items ≡ length game.now.names) rules.items }
    ensures answer { Answers result
        (made_game game.now.title game.now.names (rule_views rules.items)
        (one_way (length rules.items))) }
    ensures game { IfOk result (λ made. made ≡ under_rules game.now (rule_views rules.items)) }
{
    made_games_have_their_parts();
    let title = copy_title(alloc, game.title())?;
    let names = game.copy_names(alloc)?;
    Game::with_rules(alloc, title, names, rules)
}

/// Returns the game of the same members under one rule of other weights.
///
/// The title is the same.
///
/// Its quota is that of the first rule.
///
/// # Errors
///
/// The first of the faults Weight and QuotaRange, or Memory if an allocation was refused.
pub fn with_weights(alloc: Global, game: &Game, weights: Vec<u64>) -> Result<Game, GameFault>
    requires { length weights.items ≡ length game.now.names }
    ensures answer { Answers result (made_game game.now.title game.now.names
        (record { quota = (rule_at game.now.rules 0).quota; weights = weights.items } ∷ [])
        (one_way 1)) }
    ensures game { IfOk result (λ made. made ≡ with_weights game.now weights.items) }
{
    let mut rules = Vec::new(alloc);
    rules.push(Rule {
        quota: game.quota(),
        weights,
    })?;
    under_rules(alloc, game, rules)
}

/// Returns the game at another quota of one of its rules.
///
/// Title, members, the other rules and the ways to win are the same.
///
/// # Errors
///
/// QuotaRange if the quota is not 1 to the total of the rule's weights, or Memory if an allocation
/// was refused.
pub fn with_quota(alloc: Global, game: &Game, rule: usize, quota: u64) -> Result<Game, GameFault>
    requires { rule < length game.now.rules }
    ensures answer { Answers result (made_game game.now.title game.now.names
        (rules_at game.now rule quota) game.now.ways) }
    ensures game { IfOk result (λ made. made ≡ with_quota game.now rule quota) }
{
    made_games_have_their_parts();
    let title = copy_title(alloc, game.title())?;
    let names = game.copy_names(alloc)?;
    let rules = rules_at(alloc, game, rule, quota)?;
    let ways = copy_ways(alloc, game)?;
    Game::with_ways(alloc, title, names, rules, ways)
}

/// Returns the game under only its first rule, at another quota.
///
/// Title and members are the same. The quota is 1 to the total of the weights.
///
/// # Errors
///
/// Memory if an allocation was refused.
pub fn at_quota(alloc: Global, game: &Game, quota: u64) -> Result<Game, Memory>
    requires some { 1 ≤ quota }
    requires met { quota ≤ total (rule_at game.now.rules 0) }
    ensures { IfOk result (λ made. made ≡ at_quota game.now quota) }
{
    game.was_checked();
    quotas_can_be_changed();
    let title = copy_title(alloc, game.title())?;
    let names = game.copy_names(alloc)?;
    let weights = weights_of(alloc, game, 0)?;
    match Game::new(alloc, title, names, weights, quota) {
        Ok(made) => Ok(made),
        Err(fault) => {
            prove!(matches!(fault, GameFault::Memory));
            Err(Memory)
        }
    }
}
