//! Helpers for the tests of this crate.
use council_game::{Game, Rule};
use std::alloc::Global;
use std::fmt::Debug;
use std::io::Print;
use std::process::Abort;

/// Fails with the label if what was found is not what was wanted.
pub(crate) fn assert_same<T: PartialEq + Debug + Drop, L: Debug + Drop>(
    rt: &impl Abort,
    found: T,
    wanted: T,
    label: L,
) {
    assert_eq!(rt; found, wanted, "{label:?}");
}

/// Prints a line, for `tests/call_allocations.sh`.
pub(crate) fn print_line<R: Abort + Print>(rt: &R, line: &str) {
    rt.println(line).expect(rt, "the line is printed");
}

/// Prints whether a call that takes memory worked.
pub(crate) fn print_memory<R: Abort + Print>(rt: &R, worked: bool) {
    print_line(rt, if worked { "worked" } else { "out of memory" });
}

/// Returns the game of rules that have these quotas and weights, its members named M0, M1, ..
pub(crate) fn game_of_rules(rt: &impl Abort, alloc: Global, rules: &[(u64, &[u64])]) -> Game {
    let mut own = Vec::new(alloc);
    for (quota, weights) in rules {
        let weights = weights.to_vec(alloc).expect(rt, "weights");
        let quota = *quota;
        own.push(Rule { quota, weights }).expect(rt, "room");
    }
    assert!(rt; 1 <= own.len() && own.len() <= 4);
    let mut names = Vec::new(alloc);
    for member in 0..own[0].weights.len() {
        let name = format!(in alloc; "M{member}").expect(rt, "a name");
        names.push(name).expect(rt, "room");
    }
    assert!(rt; own.iter().all(|rule| rule.weights.len() == names.len()));
    Game::with_rules(alloc, None, names, own).expect(rt, "a game")
}

/// Returns the game of one rule.
pub(crate) fn game(rt: &impl Abort, alloc: Global, quota: u64, weights: &[u64]) -> Game {
    game_of_rules(rt, alloc, &[(quota, weights)])
}
