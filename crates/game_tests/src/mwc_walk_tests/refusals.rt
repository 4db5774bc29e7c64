//! The calls that take memory, and those that take none. `tests/call_allocations.sh` refuses the
//! allocations between the line `call` and the line of the answer.
use super::*;
use crate::helpers::print_line;
use council_game::Memory;
use std::io::Print;

/// Prints the answer of a call that lists the worked game.
fn print_answer<R: Abort + Print>(rt: &R, answer: Result<Vec<Coalition>, Memory>) {
    match answer {
        Ok(list) => {
            print_line(rt, "worked");
            are_masks(rt, &list, &[24, 22, 21, 19, 15], "coalitions");
        }
        Err(_) => print_line(rt, "out of memory"),
    }
}

#[test]
fn lists_a_slice(rt: HostRuntime) {
    let game = worked_game(&rt, rt.alloc());
    print_line(&rt, "call");
    print_answer(&rt, list_slice(rt.alloc(), &game, 0, 0, u32::MAX));
}

#[test]
fn lists_all(rt: HostRuntime) {
    let game = worked_game(&rt, rt.alloc());
    print_line(&rt, "call");
    let answer = list_all(rt.alloc(), &game, 9);
    print_answer(&rt, answer.map(|all| all.expect(&rt, "at most nine")));
}

#[test]
fn walks_without_memory(rt: HostRuntime) {
    let game = worked_game(&rt, rt.alloc());
    assert!(rt; game.members() == 5);
    print_line(&rt, "call");
    check(&rt, &mut Walk::new(&game, 2, 1), 3, 7);
    print_line(&rt, "worked");
}

#[test]
fn walks_under_four_rules_without_memory(rt: HostRuntime) {
    let game = game_by_groups(&rt, rt.alloc(), &[0, 1, 2, 3], &FOUR_GROUPS);
    print_line(&rt, "call");
    check(&rt, &mut Walk::new(&game, 0, 0), 81, 159);
    print_line(&rt, "worked");
}
