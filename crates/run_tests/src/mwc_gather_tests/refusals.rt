//! The calls that take memory, and one that takes none. `tests/call_allocations.sh` refuses the
//! allocations between the line `call` and the line of the answer.
use super::*;
use crate::helpers::{print_line, print_memory};

/// A refused gathering leaves no worker that passes the gate later, and another one works.
#[test]
fn gathers(rt: HostRuntime) {
    let game = five(&rt, rt.alloc());
    let watch = Watch::new();
    print_line(&rt, "call");
    match gather_behind(&rt, rt.alloc(), &game, &watch, 2, 3, 5) {
        Ok(_) => {
            print_line(&rt, "worked");
            assert!(rt; watch.has_each_once(4));
        }
        Err(GatherFault::Memory) => print_line(&rt, "out of memory"),
        Err(fault) => {
            print_line(&rt, "not started");
            assert_same(&rt, fault, GatherFault::Start, "fault");
        }
    }
    let passes = watch.passes();
    for _ in 0..1000 {
        thread::yield_now();
    }
    assert_same(&rt, watch.passes(), passes, "passes");
    let again = gather_behind(&rt, rt.alloc(), &game, &NoGate, 2, 3, 5);
    assert!(rt; again.is_ok());
}

/// If the list is too long and something is refused, the refusal is reported.
#[test]
fn gathers_too_many(rt: HostRuntime) {
    let game = five(&rt, rt.alloc());
    print_line(&rt, "call");
    match gather_behind(&rt, rt.alloc(), &game, &NoGate, 2, 3, 4) {
        Err(GatherFault::TooMany) => print_line(&rt, "worked"),
        Err(GatherFault::Memory) => print_line(&rt, "out of memory"),
        Err(GatherFault::Start) => print_line(&rt, "not started"),
        _ => print_line(&rt, "another answer"),
    }
}

#[test]
fn puts_parts_in_order(rt: HostRuntime) {
    let game = five(&rt, rt.alloc());
    let gathered = gather_behind(&rt, rt.alloc(), &game, &NoGate, 2, 3, 5).expect(&rt, "parts");
    print_line(&rt, "call");
    let answer = gathered.in_order(rt.alloc());
    print_memory(&rt, answer.is_ok());
    let list = gathered.in_order(rt.alloc()).expect(&rt, "a list");
    assert_same(&rt, list.len(), 5, "coalitions");
}

#[test]
fn finds_the_pieces(rt: HostRuntime) {
    let game = five(&rt, rt.alloc());
    let gathered = gather_behind(&rt, rt.alloc(), &game, &NoGate, 2, 3, 5).expect(&rt, "parts");
    print_line(&rt, "call");
    let worked = gathered.pieces(rt.alloc()).is_ok();
    print_memory(&rt, worked);
    let pieces = gathered.pieces(rt.alloc()).expect(&rt, "pieces");
    assert_same(&rt, pieces.len(), 4, "pieces");
}

/// If memory runs out, the batch keeps the beginning of what was sent.
#[test]
fn sends_into_a_batch(rt: HostRuntime) {
    let game = five(&rt, rt.alloc());
    let guarded = Guarded::new(&game, &NoGate);
    let mut batch = Batch::new(rt.alloc(), 16);
    print_line(&rt, "call");
    let sent = send_slice(&rt, &guarded, 2, 1, 1, 6, &mut batch);
    print_memory(&rt, sent != Sent::Refused);
    let is_whole = batch.close().len() == 5;
    assert_same(&rt, is_whole, sent != Sent::Refused, "all five words");
}

#[test]
fn marks_without_memory(rt: HostRuntime) {
    print_line(&rt, "call");
    let mut marks = Marks::new(2);
    assert!(rt; marks.give(0, 3));
    assert_same(&rt, marks.holder(0), Some(3), "holder");
    assert!(rt; !marks.all_given());
    print_line(&rt, "worked");
}
