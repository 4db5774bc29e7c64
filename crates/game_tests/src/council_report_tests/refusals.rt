//! The calls that take memory. `tests/call_allocations.sh` refuses the allocations between the line
//! `call` and the line of the answer, one after the other.
use crate::helpers::{assert_same, game, print_line};
use council_game::plain_list;
use council_report::{ReportFault, ReportLines, write_report};
use power_index::laws::minimal_coalitions_can_be_counted;
use std::io::{self, Print, Write};
use std::process::Abort;

/// A writer that takes all, and counts the bytes.
#[derive(Drop)]
struct Counter {
    bytes: u64,
}

impl Write for Counter {
    fn write(&mut self, bytes: &[u8]) -> io::Result<usize> {
        self.bytes = self.bytes.saturating_add(bytes.len() as u64);
        Ok(bytes.len())
    }

    fn flush(&mut self) -> io::Result<()> {
        Ok(())
    }
}

/// Prints the answer of a report: worked, or out of memory and nothing taken.
fn print_answer<R: Abort + Print>(rt: &R, answer: Result<u64, ReportFault>, writer: &Counter) {
    let taken = writer.bytes;
    if answer == Err(ReportFault::Memory) {
        print_line(rt, "out of memory");
        assert_same(rt, taken, 0, "nothing is written");
        return;
    }
    print_line(rt, "worked");
    assert_same(rt, answer, Ok(taken), "the bytes of the report");
}

#[test]
fn writes_a_report(rt: HostRuntime) {
    let alloc = rt.alloc();
    let game = game(&rt, alloc, 7, &[1; 14]);
    assert!(rt; game.members() <= 20);
    let list = plain_list(alloc, &game).expect(&rt, "a list");
    assert!(rt; list.len() == 3_432);
    minimal_coalitions_can_be_counted();
    let lines = ReportLines {
        list: true,
        sizes: false,
        notation: false,
    };
    let mut writer = Counter { bytes: 0 };
    print_line(&rt, "call");
    let answer = write_report(alloc, &game, &list, lines, &mut writer);
    print_answer(&rt, answer, &writer);
}
