//! A reader or a writer that fails once: no call follows.
use super::*;
use mwc_gather::NoGate;

/// Runs with a read and a write or flush that fail, and returns the cause and the calls of each.
fn runs<R: Threads + Wait + Sync>(
    rt: &R,
    alloc: Global,
    read: u64,
    write: u64,
) -> (Option<Cause>, u64, u64) {
    let mut reader = Stream::failing(b"[51; 35, 20, 15, 15, 15]", read);
    let mut writer = Stream::failing(b"", write);
    let options = options(1, 0);
    let answer = run(rt, alloc, &mut reader, &options, &NoGate, &mut writer);
    let cause = answer.err().map(|fault| fault.cause);
    (cause, reader.calls, writer.calls)
}

/// The 24 bytes come by four reads, and the fifth finds the end. The 411 bytes of the report take
/// five writes, before a flush.
#[test]
fn no_call_follows_one_that_failed(rt: HostRuntime) {
    let alloc = rt.alloc();
    assert_same(&rt, runs(&rt, alloc, 0, 0), (None, 5, 6), "no call fails");
    for call in 1..=5 {
        let wanted = (Some(Cause::Game(GameFault::Read)), call, 0);
        assert_same(&rt, runs(&rt, alloc, call, 0), wanted, "a read fails");
    }
    for call in 1..=6 {
        let wanted = (Some(Cause::Write), 5, call);
        assert_same(&rt, runs(&rt, alloc, 0, call), wanted, "a write fails");
    }
}
