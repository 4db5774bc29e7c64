//! The game that arrays hold.
ghost use Rattle.std.specs.Prelude.{◌≡◌, ◌+◌, ◌-◌, ◌*◌, ◌^◌, ◌<◌, ◌≤◌, All, IfOk, IfSome, filter, length, map, nat_lt, position, slice_index, string_bytes};
ghost use Rattle.std.specs.List.{list_any, range_with_len};
ghost use Rattle.std.specs.Option.{option_map_or};
ghost use Rattle.council_game.specs.declared.limits.TheConstants.{RULES, WEIGHT};
ghost use Rattle.council_c.specs.Arrays.{game_of_arrays, has_digit, masks_or_all, rule_of_fault, rules_of, rules_of_mask};
ghost use Rattle.council_file.specs.Bracket.{counted_names};
ghost use Rattle.council_game.specs.Fault.{Answers};
ghost use Rattle.council_game.specs.Game.{has_bad_quota};
ghost use Rattle.council_game.specs.Rules.{rule_view, rule_views, way_views};

use council_game::{Game, GameFault, Memory, Rule, Way, are_ways, limits};
use std::alloc::{AllocError, Global};

/// The arrays of a call, and the words of its options.
#[derive(Clone, Copy)]
pub(crate) struct Arrays<'a> {
    /// The quota of each rule.
    pub(crate) quotas: &'a [u64],
    /// The weights of the first rule, those of the second, and so on.
    pub(crate) weights: &'a [u64],
    /// How many members there are.
    pub(crate) members: usize,
    /// The words of the options.
    pub(crate) words: &'a [u64],
}

/// Lists the numbers 1 to `count`, in decimal.
#[tactic(auto, using(crate::proofs::Parts::names_more))]
fn number_names(alloc: Global, count: usize) -> Result<Vec<String>, AllocError>
    ensures names { IfOk result (λ v. map string_bytes v.items ≡ counted_names count) }
    ensures count { IfOk result (λ v. length v.items ≡ count) }
{
    let mut names = Vec::new(alloc);
    for k in 0..count {
        names.push(format!(in alloc; "{}", k + 1)?)?;
    }
    Ok(names)
}

/// Copies the rules of arrays.
#[tactic(auto, using(crate::proofs::Parts::rules_more))]
fn copy_rules(alloc: Global, arrays: &Arrays<'_>) -> Result<Vec<Rule>, AllocError>
    requires { length arrays.now.weights.now ≡ length arrays.now.quotas.now * arrays.now.members }
    ensures rules { IfOk result (λ v. rule_views v.items ≡ rules_of arrays.now.quotas.now arrays.now.weights.now arrays.now.members) }
    ensures full { IfOk result (λ v. All (λ r. length r.weights.items ≡ arrays.now.members) v.items) }
    ensures count { IfOk result (λ v. length v.items ≡ length arrays.now.quotas.now) }
{
    let mut rules = Vec::new(alloc);
    for r in 0..arrays.quotas.len() {
        let start = r * arrays.members;
        rules.push(Rule {
            quota: arrays.quotas[r],
            weights: Vec::from_slice(alloc, &arrays.weights[start..start + arrays.members])?,
        })?;
    }
    Ok(rules)
}

/// Returns whether some mask is not 0.
pub(crate) fn name_ways(masks: &[u64]) -> bool
    ensures { result ≡ list_any (nat_lt 0) masks.now }
{
    masks.iter().any(|mask| *mask > 0)
}

/// Returns whether a binary digit of a mask is 1.
#[tactic(auto, unfolding(crate::specs::Arrays::has_digit))]
fn has_digit(mask: u64, rule: usize) -> bool
    requires { rule < 64 }
    ensures { result ≡ has_digit mask rule }
{
    (mask >> rule) % 2 == 1
}

/// Lists the rules of a mask: which of its first binary digits are 1.
#[tactic(auto, using(council_game::proofs::Shared::Lists::filter_one_more))]
fn rules_of_mask(alloc: Global, mask: u64, digits: usize) -> Result<Vec<usize>, AllocError>
    requires { digits ≤ 64 }
    ensures { IfOk result (λ v. v.items ≡ filter (has_digit mask) (range_with_len 0 digits)) }
{
    let mut rules = Vec::new(alloc);
    for rule in 0..digits {
        if has_digit(mask, rule) {
            rules.push(rule)?;
        }
    }
    Ok(rules)
}

/// Makes the ways of masks, of those that are not 0.
#[tactic(auto, using(crate::proofs::Parts::ways_more))]
fn ways_of_masks(alloc: Global, masks: &[u64]) -> Result<Vec<Way>, AllocError>
    ensures { IfOk result (λ v. way_views v.items ≡ map rules_of_mask (filter (nat_lt 0) masks.now)) }
{
    let mut ways = Vec::new(alloc);
    for mask in masks {
        if *mask > 0 {
            ways.push(Way {
                rules: rules_of_mask(alloc, *mask, 64)?,
            })?;
        }
    }
    Ok(ways)
}

/// Returns the mask that has all of `rules` rules.
fn mask_of_all(rules: usize) -> u64
    requires { (1 ≤ rules) × (rules ≤ RULES) }
    ensures mask { result ≡ 2 ^ rules - 1 }
    ensures some { 0 < result }
{
    match rules {
        1 => 1,
        2 => 3,
        3 => 7,
        _ => 15,
    }
}

/// Makes the ways of `rules` rules: those of the masks, or one with all rules if each mask is 0.
fn make_ways(alloc: Global, rules: usize, masks: &[u64]) -> Result<Vec<Way>, AllocError>
    requires { (1 ≤ rules) × (rules ≤ RULES) }
    ensures { IfOk result (λ v. way_views v.items ≡ map rules_of_mask (masks_or_all rules masks.now)) }
{
    if name_ways(masks) {
        ways_of_masks(alloc, masks)
    } else {
        ways_of_masks(alloc, &[mask_of_all(rules)])
    }
}

/// Makes the game that arrays hold.
///
/// `masks` has the rules of each way, as binary digits.
///
/// # Errors
///
/// The first of these: Rules if there are not 1 to 4; the first fault of `Game::with_ways`. Or
/// Memory if an allocation was refused.
#[tactic(auto, unfolding(crate::specs::Arrays::game_of_arrays))]
pub(crate) fn game_of_arrays(
    alloc: Global,
    arrays: &Arrays<'_>,
    masks: &[u64],
) -> Result<Game, GameFault>
    requires { length arrays.now.weights.now ≡ length arrays.now.quotas.now * arrays.now.members }
    ensures { Answers result (game_of_arrays arrays.now.quotas.now arrays.now.weights.now arrays.now.members masks.now) }
{
    let count = arrays.quotas.len();
    if count < 1 || limits::RULES < count {
        return Err(GameFault::Rules);
    }
    let ways = make_ways(alloc, count, masks)?;
    if !are_ways(count, &ways) {
        return Err(GameFault::Ways);
    }
    if arrays.members < 1 || limits::MEMBERS < arrays.members {
        return Err(GameFault::Members);
    }
    let names = number_names(alloc, arrays.members)?;
    let rules = copy_rules(alloc, arrays)?;
    Game::with_ways(alloc, None, names, rules, ways)
}

/// Returns whether a rule gives a member, counted from 1, a weight above the limit.
fn is_heavy(rule: &Rule, member: u8) -> bool
    ensures { result ≡ nat_lt WEIGHT (slice_index (rule_view rule.now).weights (member - 1)) }
{
    match rule.weights.get(usize::from(member).saturating_sub(1)) {
        Some(weight) => limits::WEIGHT < *weight,
        None => false,
    }
}

/// Returns the number of a rule's place, from 1; 0 if there is none.
fn number_of_place(rules: &[Rule], place: Option<usize>) -> u64
    requires { IfSome place (λ r. r < length rules.now) }
    ensures { result ≡ option_map_or (λ r. r + 1) place 0 }
{
    match place {
        Some(r) if r < rules.len() => r as u64 + 1,
        _ => 0,
    }
}

/// Returns the place of the first rule that gives a member a weight above the limit.
fn place_of_heavy(rules: &[Rule], member: u8) -> Option<usize>
    ensures place { result ≡ position (λ rule. nat_lt WEIGHT (slice_index (rule_view rule).weights (member - 1))) rules.now }
    ensures bound { IfSome result (λ r. r < length rules.now) }
{
    rules.iter().position(|rule| is_heavy(rule, member))
}

/// Returns the place of the first rule whose quota is out of range.
fn place_of_bad_quota(rules: &[Rule]) -> Option<usize>
    ensures place { result ≡ position (λ rule. has_bad_quota (rule_view rule)) rules.now }
    ensures bound { IfSome result (λ r. r < length rules.now) }
{
    rules.iter().position(|rule| rule.has_bad_quota())
}

/// Returns the rule that a fault is of, from 1; 0 if it is of none.
///
/// # Errors
///
/// Memory if an allocation was refused.
#[tactic(auto, using(council_game::proofs::Shared::Lists::position_map))]
pub(crate) fn rule_of_fault(
    alloc: Global,
    arrays: &Arrays<'_>,
    fault: GameFault,
) -> Result<u64, Memory>
    requires { length arrays.now.weights.now ≡ length arrays.now.quotas.now * arrays.now.members }
    ensures { IfOk result (λ rule. rule ≡ rule_of_fault fault
        (rules_of arrays.now.quotas.now arrays.now.weights.now arrays.now.members)) }
{
    match fault {
        GameFault::Weight { member } => {
            let rules = copy_rules(alloc, arrays)?;
            Ok(number_of_place(&rules, place_of_heavy(&rules, member)))
        }
        GameFault::QuotaRange => {
            let rules = copy_rules(alloc, arrays)?;
            Ok(number_of_place(&rules, place_of_bad_quota(&rules)))
        }
        _ => Ok(0),
    }
}
