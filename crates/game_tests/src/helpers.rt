//! Helpers for the tests of this crate.
use council_game::{Coalition, Game, Rule};
use std::alloc::Global;
use std::fmt::Debug;
use std::io::Print;
use std::process::Abort;

/// Fails with the label if what was found is not what was wanted.
pub(crate) fn assert_same<T: PartialEq + Debug + Drop, L: Debug + Drop>(
    rt: &impl Abort,
    found: T,
    wanted: T,
    label: L,
) {
    assert_eq!(rt; found, wanted, "{label:?}");
}

/// Prints a line, for `tests/call_allocations.sh`.
pub(crate) fn print_line<R: Abort + Print>(rt: &R, line: &str) {
    rt.println(line).expect(rt, "the line is printed");
}

/// Fails with the label if the coalitions are not those of these masks, in that order.
pub(crate) fn are_masks(rt: &impl Abort, list: &[Coalition], masks: &[u64], label: &str) {
    assert_same(rt, list.len(), masks.len(), label);
    for (coalition, mask) in list.iter().zip(masks) {
        assert_same(rt, coalition.mask(), *mask, label);
    }
}

/// Returns the game of these rules, its members named M0, M1, ..
pub(crate) fn game_of(rt: &impl Abort, alloc: Global, rules: Vec<Rule>) -> Game {
    assert!(rt; 1 <= rules.len() && rules.len() <= 4);
    let mut names = Vec::new(alloc);
    for member in 0..rules[0].weights.len() {
        let name = format!(in alloc; "M{member}").expect(rt, "a name");
        names.push(name).expect(rt, "room");
    }
    assert!(rt; rules.iter().all(|rule| rule.weights.len() == names.len()));
    Game::with_rules(alloc, None, names, rules).expect(rt, "a game")
}

/// Returns the game of rules that have these quotas and weights.
pub(crate) fn game_of_rules(rt: &impl Abort, alloc: Global, rules: &[(u64, &[u64])]) -> Game {
    let mut own = Vec::new(alloc);
    for (quota, weights) in rules {
        let weights = weights.to_vec(alloc).expect(rt, "weights");
        let quota = *quota;
        own.push(Rule { quota, weights }).expect(rt, "room");
    }
    game_of(rt, alloc, own)
}

/// Returns the game of one rule.
pub(crate) fn game(rt: &impl Abort, alloc: Global, quota: u64, weights: &[u64]) -> Game {
    game_of_rules(rt, alloc, &[(quota, weights)])
}
