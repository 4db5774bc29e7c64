//! Ways to win.
ghost use Rattle.std.specs.Prelude.{◌≡◌, ◌==◌, count_by, length, nat_le, nat_lt, ◌&&◌};
ghost use Rattle.std.specs.List.{list_all, list_any, range_with_len};
ghost use Rattle.council_game.specs.declared.limits.TheConstants.{RULES};
ghost use Rattle.council_game.specs.Rules.{way_view, way_views};
ghost use Rattle.council_game.specs.Ways.{are_ways, covers, has_rule, is_way};

use crate::limits;

/// A way to win: rules that a coalition must meet together, by their numbers from 0.
///
/// In a game it has at least one rule, and each of them once.
#[derive(Debug, Drop)]
pub struct Way {
    /// The numbers of the rules.
    pub rules: Vec<usize>,
}

impl Way {
    /// Returns whether a rule is in the way.
    #[tactic(auto, using(crate::proofs::Shared::Lists::found_any))]
    pub fn has_rule(&self, rule: usize) -> bool
        ensures { result ≡ has_rule (way_view self.now) rule }
    {
        for own in &self.rules {
            if *own == rule {
                return true;
            }
        }
        false
    }

    /// Returns whether the way has each rule of another one.
    fn covers(&self, other: &Way) -> bool
        ensures { result ≡ covers (way_view self.now) (way_view other.now) }
    {
        for rule in &other.rules {
            if !self.has_rule(*rule) {
                return false;
            }
        }
        true
    }

    /// Returns how often a rule is in the way.
    fn count(&self, rule: usize) -> usize
        ensures { result ≡ count_by (λ s. s == rule) (way_view self.now) }
    {
        let mut count = 0;
        for own in &self.rules {
            if *own == rule {
                count += 1;
            }
        }
        count
    }

    /// Returns whether the way has a rule, and each of its rules is below a number and there once.
    fn is_of(&self, rules: usize) -> bool
        ensures { result ≡ is_way rules (way_view self.now) }
    {
        if self.rules.is_empty() {
            return false;
        }
        for rule in &self.rules {
            if *rule >= rules || self.count(*rule) != 1 {
                return false;
            }
        }
        true
    }
}

/// Returns whether each of these is a way of `rules` rules.
#[tactic(auto, using(crate::proofs::Shared::Lists::failed_all))]
fn are_each_of(rules: usize, ways: &[Way]) -> bool
    ensures { result ≡ list_all (is_way rules) (way_views ways.now) }
{
    for way in ways {
        if !way.is_of(rules) {
            return false;
        }
    }
    true
}

/// Returns how many ways have only rules of one way.
fn count_covered(ways: &[Way], way: &Way) -> usize
    ensures { result ≡ count_by (covers (way_view way.now)) (way_views ways.now) }
{
    let mut count = 0;
    for other in ways {
        if way.covers(other) {
            count += 1;
        }
    }
    count
}

/// Returns whether no way has all rules of another one.
#[tactic(auto, using(crate::proofs::Shared::Lists::failed_all))]
fn are_apart(ways: &[Way]) -> bool
    ensures { result ≡ list_all (λ way. count_by (covers way) (way_views ways.now) == 1)
        (way_views ways.now) }
{
    for way in ways {
        if count_covered(ways, way) != 1 {
            return false;
        }
    }
    true
}

/// Returns whether a rule is in some way.
#[tactic(auto, using(crate::proofs::Shared::Lists::found_any))]
fn is_used(ways: &[Way], rule: usize) -> bool
    ensures { result ≡ list_any (λ way. has_rule way rule) (way_views ways.now) }
{
    for way in ways {
        if way.has_rule(rule) {
            return true;
        }
    }
    false
}

/// Returns whether each of `rules` rules is in some way.
fn are_all_used(rules: usize, ways: &[Way]) -> bool
    ensures { result ≡ list_all (λ r. list_any (λ way. has_rule way r) (way_views ways.now))
        (range_with_len 0 rules) }
{
    for rule in 0..rules {
        if !is_used(ways, rule) {
            return false;
        }
    }
    true
}

/// Returns whether these are ways to win by `rules` rules.
///
/// There are 1 to 6. Each has a rule, and each of its rules once; no way has all rules of another
/// one, and each rule is in some way.
pub fn are_ways(rules: usize, ways: &[Way]) -> bool
    ensures { result ≡ are_ways rules (way_views ways.now) }
{
    !ways.is_empty()
        && ways.len() <= limits::WAYS
        && are_each_of(rules, ways)
        && are_apart(ways)
        && are_all_used(rules, ways)
}
