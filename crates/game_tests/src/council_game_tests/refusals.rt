//! The calls that take memory. `tests/call_allocations.sh` refuses the allocations between the line
//! `call` and the line of the answer, one after the other.
use crate::helpers::{are_masks, assert_same, game, game_of_rules, print_line};
use council_game::{Coalition, Game, GameFault, Memory, Rule, plain_list};
use std::alloc::Global;
use std::io::Print;
use std::process::Abort;

/// Returns three members.
fn names(rt: &impl Abort, alloc: Global) -> Vec<String> {
    let mut names = Vec::new(alloc);
    for name in ["A", "B", "C"] {
        let name = String::from_str(alloc, name).expect(rt, "a name");
        names.push(name).expect(rt, "room");
    }
    names
}

/// Returns their votes.
fn votes(rt: &impl Abort, alloc: Global) -> Vec<u64> {
    [50, 49, 1].to_vec(alloc).expect(rt, "weights")
}

/// Prints the answer of a call that lists coalitions.
fn print_list<R: Abort + Print>(rt: &R, answer: Result<Vec<Coalition>, Memory>, wanted: &[u64]) {
    match answer {
        Ok(list) => {
            print_line(rt, "worked");
            are_masks(rt, &list, wanted, "coalitions");
        }
        Err(_) => print_line(rt, "out of memory"),
    }
}

/// Prints the answer of a call that makes the game of three members.
fn print_game<R: Abort + Print>(rt: &R, alloc: Global, answer: Result<Game, GameFault>) {
    match answer {
        Ok(game) => {
            assert!(rt; game.members() <= 20);
            print_list(rt, plain_list(alloc, &game), &[6, 5]);
        }
        Err(fault) => {
            print_line(rt, "out of memory");
            assert_same(rt, fault, GameFault::Memory, "fault");
        }
    }
}

#[test]
fn makes_a_game(rt: HostRuntime) {
    let alloc = rt.alloc();
    let (names, weights) = (names(&rt, alloc), votes(&rt, alloc));
    assert!(rt; weights.len() == names.len());
    print_line(&rt, "call");
    let answer = Game::new(alloc, None, names, weights, 51);
    print_game(&rt, alloc, answer);
}

#[test]
fn makes_a_game_of_two_rules(rt: HostRuntime) {
    let alloc = rt.alloc();
    let (names, first, second) = (names(&rt, alloc), votes(&rt, alloc), votes(&rt, alloc));
    assert!(rt; first.len() == names.len() && second.len() == names.len());
    let mut rules = Vec::new(alloc);
    rules
        .push(Rule {
            quota: 51,
            weights: first,
        })
        .expect(&rt, "room");
    rules
        .push(Rule {
            quota: 51,
            weights: second,
        })
        .expect(&rt, "room");
    print_line(&rt, "call");
    let answer = Game::with_rules(alloc, None, names, rules);
    print_game(&rt, alloc, answer);
}

#[test]
fn lists_plainly(rt: HostRuntime) {
    let five = game(&rt, rt.alloc(), 51, &[35, 20, 15, 15, 15]);
    assert!(rt; five.members() <= 20);
    print_line(&rt, "call");
    print_list(&rt, plain_list(rt.alloc(), &five), &[24, 22, 21, 19, 15]);
}

#[test]
fn lists_members(rt: HostRuntime) {
    let all = game(&rt, rt.alloc(), 5, &[1; 26]);
    print_line(&rt, "call");
    match all.members_of(rt.alloc(), Coalition::of_mask((1 << 25) + 1)) {
        Ok(members) => {
            print_line(&rt, "worked");
            assert_same(&rt, members.as_slice(), &[0, 25], "members");
        }
        Err(_) => print_line(&rt, "out of memory"),
    }
}

/// Of three members with one vote each and one, two and three shares, the last contributes most: so
/// it gets the first place, and the coalitions get other numbers.
#[test]
fn orders_by_contribution(rt: HostRuntime) {
    let alloc = rt.alloc();
    let game = game_of_rules(&rt, alloc, &[(2, &[1, 1, 1]), (4, &[1, 2, 3])]);
    print_line(&rt, "call");
    match game.by_contribution(alloc) {
        Ok(Some(other)) => {
            print_line(&rt, "worked");
            assert!(rt; other.members() <= 20);
            let list = plain_list(alloc, &other).expect(&rt, "a list");
            are_masks(&rt, &list, &[6, 5], "coalitions");
        }
        Ok(None) => print_line(&rt, "the places are in this order"),
        Err(_) => print_line(&rt, "out of memory"),
    }
}
