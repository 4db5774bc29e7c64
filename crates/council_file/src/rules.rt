//! The rules of a game in a tree.
ghost use Rattle.council_file.specs.File.{member_list, breaks_rules, only_rule, rule_from, rules_of, elements_at, are_quotas, has_key, lacks_quota, number_or};
ghost use Rattle.council_game.specs.Rules.{rule_view, rule_views};
ghost use Rattle.std.specs.List.{list_any, range_with_len};
ghost use Rattle.std.specs.Prelude.{◌≡◌, map, is_some, [], IfOk, ◌∷◌, option_map, not, ◌&&◌, slice_get, codes};
ghost use Rattle.toml.specs.Data.{get, as_integer};
ghost use Rattle.toml.specs.View.{table_view, view};

use crate::members::{member_list, number_or, only_weight, weight_under};
use crate::tree::{elements_at, has_key, value_at};
use council_game::{Memory, Rule, limits, list_from_fn};
use std::alloc::{AllocError, Global};
use toml::{Table, Value};

/// Returns whether a value is an integer.
fn is_integer(value: &Value) -> bool
    ensures { result ≡ is_some (as_integer (view value.now)) }
{
    value.as_integer().is_some()
}

/// Returns whether they are 1 to 4 integers.
fn are_quotas(values: &[Value]) -> bool
    ensures { result ≡ are_quotas (map view values.now) }
{
    if values.len() < 1 || limits::RULES < values.len() {
        return false;
    }
    for value in values {
        if !is_integer(value) {
            return false;
        }
    }
    true
}

/// Returns whether a file has quotas that are not 1 to 4 integers.
pub(crate) fn has_bad_quotas(table: &Table) -> bool
    ensures { result ≡ (has_key (codes "quotas") (table_view table.now) &&
        not (are_quotas (elements_at (codes "quotas") (table_view table.now)))) }
{
    has_key(table, "quotas") && !are_quotas(elements_at(table, "quotas"))
}

/// Returns whether a file has no quota, or one that is no integer.
pub(crate) fn lacks_quota(table: &Table) -> bool
    ensures { result ≡ lacks_quota (table_view table.now) }
{
    match value_at(table, "quota") {
        Some(value) => !is_integer(value),
        None => !has_key(table, "quotas"),
    }
}

/// Returns the quota of a rule, or 0, which no rule may have.
fn quota_at(quotas: &[Value], r: usize) -> u64
    ensures { result ≡ number_or 0 (slice_get (map view quotas.now) r) }
{
    number_or(0, quotas.get(r))
}

/// Returns whether some member has the key.
#[tactic(auto, using(council_game::proofs::Shared::Lists::found_any))]
fn some_member_has(table: &Table, key: &str) -> bool
    ensures { result ≡ list_any (λ d. is_some (get key.now d))
        (member_list (table_view table.now)) }
{
    for member in member_list(table) {
        if member.get(key).is_some() {
            return true;
        }
    }
    false
}

/// Returns whether the keys of a file fit neither one rule nor several.
pub(crate) fn breaks_rules(table: &Table) -> bool
    ensures { result ≡ breaks_rules (table_view table.now) }
{
    let one = has_key(table, "quota");
    let several = has_key(table, "quotas");
    (one && several)
        || has_bad_quotas(table)
        || (one && some_member_has(table, "weights"))
        || (several && some_member_has(table, "weight"))
}

/// Returns one of several rules.
#[tactic(auto, unfolding(crate::specs::File::rule_from))]
fn rule_from(alloc: Global, table: &Table, n: usize, r: usize) -> Result<Rule, AllocError>
    ensures { IfOk result (λ rule. rule_view rule ≡ rule_from (table_view table.now) n r) }
{
    let quota = quota_at(elements_at(table, "quotas"), r);
    let members = member_list(table);
    let weights = list_from_fn(alloc, members.len(), |k| weight_under(&members[k], n, r))?;
    Ok(Rule { quota, weights })
}

/// Lists several rules.
#[tactic(auto, using(crate::proofs::Views::rules_more))]
fn rules_at(alloc: Global, table: &Table, n: usize) -> Result<Vec<Rule>, AllocError>
    ensures { IfOk result (λ v. rule_views v.items
        ≡ map (rule_from (table_view table.now) n) (range_with_len 0 n)) }
{
    let mut rules = Vec::new(alloc);
    for r in 0..n {
        rules.push(rule_from(alloc, table, n, r)?)?;
    }
    Ok(rules)
}

/// Returns the rule of a file with one quota, as a list.
fn lone_rule(alloc: Global, table: &Table) -> Result<Vec<Rule>, AllocError>
    ensures { IfOk result (λ v. rule_views v.items ≡ only_rule (table_view table.now) ∷ []) }
{
    let quota = number_or(0, value_at(table, "quota"));
    let members = member_list(table);
    let weights = list_from_fn(alloc, members.len(), |k| only_weight(&members[k]))?;
    let mut rules = Vec::new(alloc);
    rules.push(Rule { quota, weights })?;
    Ok(rules)
}

/// Returns the rules in the tree of a file.
///
/// A number that is missing or out of range is one that no game has.
///
/// # Errors
///
/// Memory if an allocation was refused.
#[tactic(auto, using(council_game::proofs::Shared::Lists::maps))]
pub(crate) fn rules_of(alloc: Global, table: &Table) -> Result<Vec<Rule>, Memory>
    ensures { IfOk result (λ v. rule_views v.items ≡ rules_of (table_view table.now)) }
{
    if has_key(table, "quota") {
        Ok(lone_rule(alloc, table)?)
    } else {
        Ok(rules_at(alloc, table, elements_at(table, "quotas").len())?)
    }
}
