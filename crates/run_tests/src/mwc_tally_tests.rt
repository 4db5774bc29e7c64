//! Threads of tallies, and what they inform a gate of.
mod refusals;

ghost use Rattle.std.specs.Prelude.{◌≡◌, ◌<◌, ◌≤◌, length};

use crate::helpers::{assert_same, game, game_of_rules};
use crate::watch::Watch;
use council_game::Game;
use mwc_tally::{tally, tally_slice};
use mwc_walk::Walk;
use power_index::Counts;
use std::alloc::Global;
use std::process::Abort;

/// Returns the game [51; 35, 20, 15, 15, 15].
fn five(rt: &impl Abort, alloc: Global) -> Game
    ensures { length result.names ≡ 5 }
{
    let game = game(rt, alloc, 51, &[35, 20, 15, 15, 15]);
    assert!(rt; game.members() == 5);
    game
}

/// The workers pass each slice once, so nothing is left to be counted anew at the end. A single
/// worker takes the last slice first.
#[test]
fn each_slice_is_passed_once(rt: HostRuntime) {
    let game = five(&rt, rt.alloc());
    for (bits, slices) in [(0, 1), (5, 32)] {
        for workers in 1..17u8 {
            let watch = Watch::new();
            let counts = tally(&rt, rt.alloc(), &game, bits, workers, &watch);
            assert!(rt; counts.is_ok());
            let once = watch.has_each_once(slices);
            let in_order = workers > 1 || watch.is_descending();
            assert_same(&rt, (once, in_order), (true, true), (bits, workers));
        }
    }
}

/// A slice that nobody took yet goes to whichever worker is free: a fixed assignment of slices
/// fails. And as many workers count as were asked for, each with a number of its own: 16 are held
/// at their first slice until all are there.
#[test]
fn a_held_worker_holds_no_slice(rt: HostRuntime) {
    let game = five(&rt, rt.alloc());
    for (workers, held, until, numbers) in [(2, 1, 32, 3), (16, 16, 16, 65_535)] {
        let watch = Watch::holding(held, until);
        let counts = tally(&rt, rt.alloc(), &game, 5, workers, &watch);
        assert!(rt; counts.is_ok());
        let found = (watch.passes(), watch.workers());
        assert_same(&rt, found, (32, numbers), workers);
    }
}

/// Counts the prefixes that the walk over a slice of two examines.
fn prefixes_of(game: &Game, slice: u16) -> u64
    requires game { 1 ≤ length game.now.names }
    requires slice { slice < 2 }
{
    let mut walk = Walk::new(game, 1, slice);
    for _ in 0..4_000_000u32 {
        if walk.next().is_none() {
            break;
        }
    }
    walk.visits()
}

/// The gate is informed after each 1,048,576 prefixes, and once before, at the end of each of two
/// slices; of all 3,838,380 coalitions and of all prefixes.
#[test]
fn informs_add_up(rt: HostRuntime) {
    let game = game(&rt, rt.alloc(), 6, &[1; 40]);
    assert!(rt; game.members() == 40);
    let watch = Watch::new();
    let counts = tally(&rt, rt.alloc(), &game, 1, 1, &watch).expect(&rt, "counts");
    assert_same(&rt, counts.wide_total(), 3_838_380, "coalitions");
    let prefixes = prefixes_of(&game, 0).saturating_add(prefixes_of(&game, 1));
    assert_same(&rt, watch.sums(), (3_838_380, prefixes, 2), "informed");
}

/// The first of six members is in no coalition: three of the others must agree, and these suffice.
/// The gate is informed of the prefixes of its slice too, and of no slice before it was passed.
#[test]
fn a_slice_of_no_coalition_is_informed_of(rt: HostRuntime) {
    let rules: [(u64, &[u64]); 2] = [(3, &[1; 6]), (3, &[0, 1, 1, 1, 1, 1])];
    let game = game_of_rules(&rt, rt.alloc(), &rules);
    assert!(rt; game.members() == 6);
    let watch = Watch::new();
    let counts = tally(&rt, rt.alloc(), &game, 1, 1, &watch);
    assert!(rt; counts.is_ok());
    let barren = prefixes_of(&game, 0);
    assert!(rt; barren > 1);
    let prefixes = barren.saturating_add(prefixes_of(&game, 1));
    assert_same(&rt, watch.sums(), (10, prefixes, 2), "informed");
}
