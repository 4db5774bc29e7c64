//! The slices and workers of runs and tallies.
ghost use Rattle.std.specs.Prelude.{◌≤◌};
ghost use Rattle.council_game.specs.declared.limits.TheConstants.{BITS, WORKERS};

use super::*;
use crate::helpers::game_of_rules;
use crate::watch::Watch;
use council_game::Plan;
use council_run::{Columns, count_by_threads, report_game};

/// Runs on the file, and looks whether each of `slices` slices passed once, no other did, and each
/// worker passed the slice of its own number, as far as there are slices.
fn check<R: Abort + Threads + Wait + Sync>(
    rt: &R,
    alloc: Global,
    file: &[u8],
    workers: u8,
    bits: u8,
    slices: u16,
)
    requires workers { (1 ≤ workers) × (workers ≤ WORKERS) }
    requires bits { bits ≤ BITS }
{
    let watch = Watch::new();
    let mut reader = file;
    let mut written = Vec::new(alloc);
    let options = options(workers, bits);
    let answer = run(rt, alloc, &mut reader, &options, &watch, &mut written);
    assert!(rt; answer.is_ok());
    assert_same(rt, watch.has_each_once(slices), true, (workers, bits));
    for worker in 0..u16::from(workers).min(slices) {
        let is_own = watch.is_passed_by(worker, worker as usize);
        assert_same(rt, is_own, true, (worker, workers));
    }
}

const TWELVE: &[u8] = b"[7; 1, 1, 1, 1, 1, 1, 1, 1, 1, 1, 1, 1]";

/// There are no more bits than members; no bits are one slice, and ten are 1024.
#[test]
fn each_slice_passes_once(rt: HostRuntime) {
    check(&rt, rt.alloc(), b"[51; 50, 49, 1]", 16, 10, 8);
    check(&rt, rt.alloc(), TWELVE, 2, 0, 1);
    check(&rt, rt.alloc(), TWELVE, 16, 10, 1024);
    for workers in 1..17 {
        check(&rt, rt.alloc(), TWELVE, workers, 6, 64);
    }
}

/// A tally has as many threads as the options say, here 16, and 256 slices though the options say
/// 1: each slice is passed once.
#[test]
fn a_tally_has_its_threads_and_slices(rt: HostRuntime) {
    let votes: &[u64] = &[1; 9];
    let game = game_of_rules(&rt, rt.alloc(), &[(4, votes), (4, votes), (4, votes)]);
    let watch = Watch::holding(16, 16);
    let counts = count_by_threads(&rt, rt.alloc(), &game, &options(16, 0), &watch);
    assert!(rt; counts.is_ok());
    let found = (watch.has_each_once(256), watch.workers());
    assert_same(&rt, found, (true, 65_535), "slices, workers");
}

/// A count by states decides each of 12 members once; a list has two slices.
#[test]
fn only_what_is_shown_is_begun(rt: HostRuntime) {
    let (alloc, options) = (rt.alloc(), options(2, 1));
    let game = game_of_rules(&rt, alloc, &[(7, &[1; 12])]);
    for (plan, columns, wanted) in [
        (Plan::List, Columns::Minimal, (0, 2)),
        (Plan::Count, Columns::Minimal, (12, 0)),
        (Plan::List, Columns::Both, (12, 2)),
        (Plan::Count, Columns::Both, (24, 0)),
        (Plan::Either, Columns::Swings, (12, 0)),
    ] {
        let (watch, mut text) = (Watch::new(), Vec::new(alloc));
        let answer = report_game(
            &rt, alloc, &game, &options, &watch, &mut text, plan, columns,
        );
        assert!(rt; answer.is_ok());
        let found = (watch.decided(), watch.passes());
        assert_same(&rt, found, wanted, "members, slices");
    }
}
