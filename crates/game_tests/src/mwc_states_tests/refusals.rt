//! The call that takes memory. `tests/call_allocations.sh` refuses the allocations between the line
//! `call` and the line of the answer.
use crate::helpers::{assert_same, game_of_rules, print_line};
use council_game::NoGate;
use mwc_states::{count_by_states, count_swings};
use std::alloc::Global;
use std::io::Print;
use std::process::Abort;

/// Counts the coalitions of a game, and prints the answer.
fn counts<R: Abort + Print>(rt: &R, alloc: Global, rules: &[(u64, &[u64])], wanted: u64) {
    let game = game_of_rules(rt, alloc, rules);
    print_line(rt, "call");
    match count_by_states(alloc, &game, 1 << 20, &NoGate) {
        Ok(Some(counts)) => {
            print_line(rt, "worked");
            assert_same(rt, counts.wide_total(), wanted, "coalitions");
        }
        Ok(None) => print_line(rt, "not taken"),
        Err(_) => print_line(rt, "out of memory"),
    }
}

/// Ten members, of whom some weigh alike and one nothing.
#[test]
fn counts_under_one_rule(rt: HostRuntime) {
    counts(
        &rt,
        rt.alloc(),
        &[(90, &[50, 7, 7, 31, 0, 24, 18, 18, 18, 3])],
        27,
    );
}

/// Three rules that contradict each other: their states have misses.
#[test]
fn counts_under_three_rules(rt: HostRuntime) {
    let first = [4, 1, 0, 4, 1, 0, 4, 1, 2, 4, 1, 0];
    let second = [1, 3, 0, 1, 3, 5, 1, 3, 0, 1, 3, 0];
    let third = [2, 2, 3, 0, 1, 4, 1, 0, 2, 1, 2, 5];
    let rules: [(u64, &[u64]); 3] = [(11, &first), (10, &second), (9, &third)];
    counts(&rt, rt.alloc(), &rules, 154);
}

/// The swings of this game take 1,608 states, by a plain program that tells two prefixes apart if
/// not the same later sets complete them. There are 232,902 winning coalitions.
#[test]
fn games_that_fit_the_room_are_counted(rt: HostRuntime) {
    let weights: &[u64] = &[
        599, 44999, 32612, 21105, 10061, 33742, 40318, 9222, 36354, 39607, 21434, 34736, 49331,
        29827, 8841, 7779, 59203, 49320, 29002, 12503,
    ];
    let game = game_of_rules(&rt, rt.alloc(), &[(342_357, weights)]);
    for (room, wanted) in [
        (0, None),
        (1_607, None),
        (2_000, Some(232_902)),
        (4_000, Some(232_902)),
        (8_000, Some(232_902)),
    ] {
        let swings = count_swings(rt.alloc(), &game, room, &NoGate).expect(&rt, "memory");
        let winning = swings.map(|swings| swings.winning());
        assert_same(&rt, winning, wanted, room);
    }
}
