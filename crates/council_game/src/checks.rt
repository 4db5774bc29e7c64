//! The checks of a game, in their order.
ghost use Rattle.std.specs.Prelude.{◌≡◌, ◌≤◌, ◌<◌, length, map, not, string_bytes, position, nat_eq, IfSome};
ghost use Rattle.std.specs.List.{list_any};
ghost use Rattle.std.specs.Cmp.Lexicographic.{pointwise};
ghost use Rattle.council_game.specs.declared.limits.TheConstants.{MEMBERS, WEIGHT};
ghost use Rattle.council_game.specs.Game.{is_plain, is_title, is_name, is_repeat, is_heavy, has_bad_quota};
ghost use Rattle.council_game.specs.Inner.Checks.{check_names, check_repeats, check_weights};
ghost use Rattle.council_game.specs.Rules.{rule_view, rule_views};

use crate::{GameFault, Rule, limits};

/// Returns whether a text has no control character.
fn is_plain(text: &str) -> bool
    ensures { result ≡ is_plain text.now }
{
    text.as_bytes().iter().all(|b| *b >= 32 && *b != 127)
}

/// Returns whether a text can be a title.
///
/// It has at most 200 bytes, none below 0x20 and none 0x7F.
pub fn is_title(text: &str) -> bool
    ensures { result ≡ is_title text.now }
{
    text.len() <= limits::TITLE_BYTES && is_plain(text)
}

/// Returns whether a text may be a name.
fn is_name(text: &str) -> bool
    ensures { result ≡ is_name text.now }
{
    1 <= text.len() && text.len() <= limits::NAME_BYTES && is_plain(text)
}

/// Returns the place of the first name that is refused.
fn first_bad_name(names: &[String]) -> Option<usize>
    ensures { result ≡ position (λ name. not (is_name (string_bytes name))) names.now }
{
    names.iter().position(|name| !is_name(name.as_str()))
}

/// Returns the first member, from 1, whose name is refused.
#[tactic(auto, using(crate::proofs::Shared::Lists::position_map))]
pub(crate) fn check_names(names: &[String]) -> Result<(), GameFault>
    requires { length names.now ≤ MEMBERS }
    ensures { result ≡ check_names (map string_bytes names.now) }
{
    match first_bad_name(names) {
        Some(k) => Err(GameFault::Name {
            member: k as u8 + 1,
        }),
        None => Ok(()),
    }
}

/// Returns the place of the first name that is this one.
fn first_named(names: &[String], name: &str) -> Option<usize>
    ensures place { result
        ≡ position (λ other. pointwise nat_eq name.now (string_bytes other)) names.now }
    ensures bound { IfSome result (λ k. k < length names.now) }
{
    names.iter().position(|other| name == other.as_str())
}

/// Returns the same, over the names as bytes.
#[tactic(auto, using(crate::proofs::Shared::Lists::position_map))]
pub(crate) fn place_of_name(names: &[String], name: &str) -> Option<usize>
    ensures place { result ≡ position (pointwise nat_eq name.now) (map string_bytes names.now) }
    ensures bound { IfSome result (λ k. k < length names.now) }
{
    first_named(names, name)
}

/// Returns whether an earlier member has the name of this one.
fn is_repeat(names: &[String], k: usize) -> bool
    requires { k < length names.now }
    ensures { result ≡ is_repeat (map string_bytes names.now) k }
{
    place_of_name(&names[..k], names[k].as_str()).is_some()
}

/// Returns the first member, from 1, that repeats a name.
pub(crate) fn check_repeats(names: &[String]) -> Result<(), GameFault>
    requires { length names.now ≤ MEMBERS }
    ensures { result ≡ check_repeats (map string_bytes names.now) }
{
    for k in 0..names.len() {
        if is_repeat(names, k) {
            return Err(GameFault::SameName {
                member: k as u8 + 1,
            });
        }
    }
    Ok(())
}

/// Returns whether some rule gives this member a weight above the limit.
#[tactic(auto, using(crate::proofs::Shared::Lists::found_any))]
fn is_heavy(rules: &[Rule], k: usize) -> bool
    ensures { result ≡ is_heavy (rule_views rules.now) k }
{
    for rule in rules {
        if let Some(weight) = rule.weights.get(k)
            && limits::WEIGHT < *weight
        {
            return true;
        }
    }
    false
}

/// Returns the first member, from 1, with a weight above the limit.
pub(crate) fn check_weights(rules: &[Rule], members: usize) -> Result<(), GameFault>
    requires { members ≤ MEMBERS }
    ensures { result ≡ check_weights (rule_views rules.now) members }
{
    for k in 0..members {
        if is_heavy(rules, k) {
            return Err(GameFault::Weight {
                member: k as u8 + 1,
            });
        }
    }
    Ok(())
}

/// Returns whether some rule has a quota that is out of range.
#[tactic(auto, using(crate::proofs::Shared::Lists::found_any))]
pub(crate) fn has_quota_fault(rules: &[Rule]) -> bool
    ensures { result ≡ list_any has_bad_quota (rule_views rules.now) }
{
    for rule in rules {
        if rule.has_bad_quota() {
            return true;
        }
    }
    false
}
