//! The calls that take memory, and the one that takes none. `tests/call_allocations.sh` refuses the
//! allocations between the line `call` and the line of the answer.
use super::*;
use crate::helpers::print_line;
use mwc_tally::TallyFault;
use std::io::Print;

/// Prints what a tally answers.
fn print_answer<R: Abort + Print>(rt: &R, answer: Result<Box<Counts>, TallyFault>) {
    match answer {
        Ok(counts) => {
            print_line(rt, "worked");
            assert_same(rt, counts.wide_total(), 5, "coalitions");
        }
        Err(TallyFault::Memory) => print_line(rt, "out of memory"),
        Err(TallyFault::Start) => print_line(rt, "not started"),
    }
}

#[test]
fn tallies(rt: HostRuntime) {
    let game = five(&rt, rt.alloc());
    let watch = Watch::new();
    print_line(&rt, "call");
    print_answer(&rt, tally(&rt, rt.alloc(), &game, 2, 3, &watch));
}

/// If no worker starts before the last one has ended, the first takes all slices, or stops the
/// others as it runs out of memory.
#[test]
fn tallies_in_turn(rt: HostRuntime) {
    let game = five(&rt, rt.alloc());
    let watch = Watch::new();
    print_line(&rt, "call");
    let answer = tally(&rt, rt.alloc(), &game, 2, 3, &watch);
    if watch.workers() > 1 {
        print_line(&rt, "another worker passed");
    }
    print_answer(&rt, answer);
}

#[test]
fn tallies_a_slice_without_memory(rt: HostRuntime) {
    let game = five(&rt, rt.alloc());
    print_line(&rt, "call");
    let counts = tally_slice(&game, 0, 0);
    assert_same(&rt, counts.wide_total(), 5, "coalitions");
    print_line(&rt, "worked");
}
