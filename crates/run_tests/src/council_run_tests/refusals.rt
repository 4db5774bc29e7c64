//! Whole runs. `tests/call_allocations.sh` refuses the allocations between the line `call` and the
//! line of the answer, one after the other.
use super::*;
use crate::helpers::print_line;
use mwc_gather::NoGate;
use std::io::Print;

/// Returns where a run that was refused something found no room.
fn place_of(cause: Cause) -> &'static str {
    match cause {
        Cause::Game(GameFault::Memory) => "no memory for the game",
        Cause::Gather(GatherFault::Memory) => "no memory to gather",
        Cause::Gather(GatherFault::Start) => "not started",
        Cause::Memory => "out of memory",
        _ => "another answer",
    }
}

/// Prints an answer: the report was written, or there was a refusal before the first byte.
fn print_answer<R: Abort + Print>(rt: &R, answer: Result<u64, RunFault>, writer: &Stream) {
    match answer {
        Ok(count) => {
            print_line(rt, "worked");
            assert_same(rt, count, writer.written, "bytes");
        }
        Err(fault) => {
            print_line(rt, place_of(fault.cause));
            assert_same(rt, (fault.written, writer.calls), (0, 0), "bytes and calls");
        }
    }
}

/// Runs on the file, and prints the answer.
///
/// With this limit states are tried, however short the walk is.
fn runs<R: Abort + Print + Threads + Wait + Sync>(rt: &R, alloc: Global, file: &[u8]) {
    let mut reader = file;
    let mut options = options(3, 2);
    options.most = 1_000;
    let mut writer = Stream::failing(b"", 0);
    print_line(rt, "call");
    let answer = run(rt, alloc, &mut reader, &options, &NoGate, &mut writer);
    print_answer(rt, answer, &writer);
}

#[test]
fn runs_on_brackets(rt: HostRuntime) {
    runs(&rt, rt.alloc(), b"[51; 35, 20, 15, 15, 15]");
}

const TWO_RULES: &[u8] = b"title = \"Two\"\n\
    quotas = [5, 3]\n\
    member = [{name = \"A\", weights = [3, 1]},\
    {name = \"B\", weights = [2, 1]},\
    {name = \"C\", weights = [2, 1]},\
    {name = \"D\", weights = [1, 1]}]";

#[test]
fn runs_on_toml(rt: HostRuntime) {
    runs(&rt, rt.alloc(), TWO_RULES);
}

/// Two of three members must sign, and have two thirds of the shares, most of which the last one
/// has: the members are walked over in the opposite order.
#[test]
fn runs_on_turned_rules(rt: HostRuntime) {
    let file = b"quotas = [2, 4]\n\
        member = [{name = \"A\", weights = [1, 1]},\
        {name = \"B\", weights = [1, 2]},\
        {name = \"C\", weights = [1, 3]}]";
    runs(&rt, rt.alloc(), file);
}

#[test]
fn tallies_by_states(rt: HostRuntime) {
    let alloc = rt.alloc();
    let mut reader = TWO_RULES;
    let options = options(3, 2);
    let mut writer = Stream::failing(b"", 0);
    print_line(&rt, "call");
    let answer = tally(&rt, alloc, &mut reader, &options, &NoGate, &mut writer);
    print_answer(&rt, answer, &writer);
}
