//! Long rows of items, and two threads that move words through a ring.
mod refusals;
mod rings;

use crate::helpers::assert_same;
use mwc_pipe::{Batch, Pipe, PipeIn, Refused, Step, Word, replay, ring};

/// How many items the pure pipes below are given.
const ITEMS: u32 = 20_000;

#[test]
fn holds_thousands_of_items(rt: HostRuntime) {
    for capacity in [20_000u32, 8_388_608] {
        assert!(rt; 1 <= capacity && capacity <= 8_388_608);
        let mut pipe = Pipe::new(rt.alloc(), capacity);
        for item in 0..ITEMS {
            assert_same(&rt, pipe.put(item), Ok(()), capacity);
        }
    }
}

#[test]
fn replays_thousands_of_steps(rt: HostRuntime) {
    let mut steps = Vec::new(rt.alloc());
    for item in 0..ITEMS {
        steps.push(Step::Put(item)).expect(&rt, "room");
    }
    let trace = replay(rt.alloc(), ITEMS, &steps).expect(&rt, "a trace");
    assert_same(&rt, trace.came.len(), ITEMS as usize, "items");
}
