//! What those faults say whose text no contract gives, and no case of `tests/cases` brings about.
use super::*;
use council_game::Memory;
use council_report::ReportFault;
use mwc_pipe::{Refused, Unfinished};
use mwc_tally::TallyFault;
use std::fmt::Display;

/// Checks what a fault says.
fn says<T: Display + Drop>(rt: &impl Abort, alloc: Global, fault: T, wanted: &str) {
    let text = format!(in alloc; "{fault}").expect(rt, "a text");
    assert_same(rt, text.as_str(), wanted, "what a fault says");
}

#[test]
fn texts(rt: HostRuntime) {
    let alloc = rt.alloc();
    let (memory, start) = ("out of memory", "a worker could not be started");
    says(&rt, alloc, Memory, memory);
    says(&rt, alloc, Refused::Closed(1u8), "the pipe is closed");
    says(&rt, alloc, Refused::Full(1u8), "the pipe is full");
    says(&rt, alloc, Refused::Memory(1u8), memory);
    says(&rt, alloc, TallyFault::Memory, memory);
    says(&rt, alloc, TallyFault::Start, start);
    says(&rt, alloc, ReportFault::Memory, memory);
    says(
        &rt,
        alloc,
        ReportFault::Write { written: 7 },
        "output failed",
    );
    says(&rt, alloc, Unfinished, "a ring could not be finished");
}
