//! Workers and their gates.
mod refusals;

ghost use Rattle.std.specs.Prelude.{◌≡◌, ℕ, length};

use crate::helpers::{assert_same, game};
use crate::watch::Watch;
use council_game::{Coalition, Game};
use mwc_gather::{
    Gate, GatherFault, Gathered, Guarded, Marks, NoGate, Sent, gather, send_slice, work,
};
use mwc_pipe::{Batch, PipeIn, Refused, Word, ring};
use std::alloc::Global;
use std::process::Abort;
use std::sync::Wait;
use std::sync::atomic::{AtomicU64, Ordering};
use std::thread;
use std::thread::Threads;

/// Returns the game [51; 35, 20, 15, 15, 15].
fn five(rt: &impl Abort, alloc: Global) -> Game
    ensures { length result.names ≡ 5 }
{
    let game = game(rt, alloc, 51, &[35, 20, 15, 15, 15]);
    assert!(rt; game.members() == 5);
    game
}

/// Gathers the coalitions of a game behind a gate.
fn gather_behind<R: Threads + Wait + Abort + Sync, G: Gate + Sync>(
    rt: &R,
    alloc: Global,
    game: &Game,
    gate: &G,
    bits: u8,
    workers: u8,
    most: u32,
) -> Result<Gathered, GatherFault> {
    assert!(rt; bits <= 10 && bits as usize <= game.members());
    assert!(rt; 1 <= workers && workers <= 16);
    assert!(rt; 1 <= most && most <= 4_000_000);
    gather(rt, alloc, &Guarded::new(game, gate), bits, workers, most)
}

/// What each gate saw are the slices of the parts, and each worker began with that of its own
/// number.
#[test]
fn each_slice_passes_once(rt: HostRuntime) {
    let game = game(&rt, rt.alloc(), 7, &[1; 12]);
    for workers in 1..17u8 {
        let watch = Watch::new();
        let gathered = gather_behind(&rt, rt.alloc(), &game, &watch, 6, workers, 792).expect(
            &rt, "parts",
        );
        assert!(rt; gathered.parts.len() == usize::from(workers));
        for (worker, part) in gathered.parts.iter().enumerate() {
            for slice in &part.slices {
                assert_same(
                    &rt,
                    watch.is_passed_by(*slice, worker),
                    true,
                    (*slice, workers),
                );
            }
            assert_same(&rt, part.slices.first(), Some(&(worker as u16)), workers);
        }
        let found = (watch.has_each_once(64), watch.sums().0);
        assert_same(&rt, found, (true, 792), workers);
    }
}

/// Two workers are both at work, and one that is held at its first slice gets no other.
#[test]
fn a_held_worker_holds_no_slice(rt: HostRuntime) {
    let game = five(&rt, rt.alloc());
    for (bits, held, until) in [(1, 2, 2), (2, 1, 4)] {
        let watch = Watch::holding(held, until);
        let gathered = gather_behind(&rt, rt.alloc(), &game, &watch, bits, 2, 5);
        assert!(rt; gathered.is_ok());
        let found = (watch.has_each_once(1 << bits), watch.workers());
        assert_same(&rt, found, (true, 3), bits);
    }
}

/// What all calls of `inform` tell of adds up to all that was found, about 1,048,576 prefixes a
/// call.
#[test]
fn informs_add_up(rt: HostRuntime) {
    let game = game(&rt, rt.alloc(), 11, &[1; 22]);
    let watch = Watch::new();
    let gathered = gather_behind(&rt, rt.alloc(), &game, &watch, 0, 1, 1_000_000);
    assert!(rt; gathered.is_ok());
    let (found, prefixes, short) = watch.sums();
    let is_more = prefixes > 1_048_576;
    assert_same(&rt, (found, is_more, short), (705_432, true, 1), prefixes);
}

/// A slice whose sending is cut has passed once, and those after it, which nobody was given, never.
#[test]
fn a_cut_slice_passes_once(rt: HostRuntime) {
    let game = five(&rt, rt.alloc());
    for (workers, most, passed) in [(1, 1, 2), (1, 3, 2), (1, 4, 3), (4, 1, 4), (4, 4, 4)] {
        let watch = Watch::new();
        let refused = gather_behind(&rt, rt.alloc(), &game, &watch, 2, workers, most).err();
        let found = (refused, watch.has_each_once(passed));
        assert_same(
            &rt,
            found,
            (Some(GatherFault::TooMany), true),
            (workers, most),
        );
    }
}

/// A gate that is slow, and counts who comes and who goes.
#[derive(Drop)]
struct Slow {
    came: AtomicU64,
    went: AtomicU64,
}

impl Gate for Slow {
    fn pass(&self, _worker: u8, _slice: u16) {
        self.came.fetch_add(1, Ordering::SeqCst);
        for _ in 0..2000 {
            thread::yield_now();
        }
        self.went.fetch_add(1, Ordering::SeqCst);
    }
}

#[test]
fn workers_have_ended_after_a_refusal(rt: HostRuntime) {
    let game = five(&rt, rt.alloc());
    for workers in 1..17 {
        let slow = Slow {
            came: AtomicU64::new(0),
            went: AtomicU64::new(0),
        };
        let refused = gather_behind(&rt, rt.alloc(), &game, &slow, 2, workers, 1).err();
        let went = slow.went.load(Ordering::SeqCst);
        assert_same(&rt, refused, Some(GatherFault::TooMany), workers);
        for _ in 0..1000 {
            thread::yield_now();
        }
        let came = slow.came.load(Ordering::SeqCst);
        assert_same(&rt, (0 < came, came), (true, went), workers);
    }
}

/// A batch that notes whether a word came before slice 1 had passed the gate.
#[derive(Drop)]
struct Behind<'a> {
    batch: Batch,
    gate: &'a Watch,
    early: bool,
}

impl<'a> Behind<'a> {
    /// Notes a look.
    fn note(&mut self)
        ensures { self.new.batch ≡ self.old.batch }
    {
        self.early |= self.gate.count(1) == 0;
    }
}

impl<'a> PipeIn<Word> for Behind<'a> {
    ghost Identity = { ℕ };

    ghost identity = { λ b. b.batch.capacity };

    ghost accepted = { λ b. b.batch.accepted };

    ghost broken = { λ b. b.batch.broken };

    fn put(&mut self, item: Word) -> Result<(), Refused<Word>> {
        self.note();
        self.batch.put(item)
    }
}

#[test]
fn a_slice_passes_before_its_first_word(rt: HostRuntime) {
    let game = five(&rt, rt.alloc());
    for (left, found) in [(6, 3), (3, 3), (1, 1)] {
        assert!(rt; 0 < left && left < 7);
        let watch = Watch::new();
        let guarded = Guarded::new(&game, &watch);
        let mut pipe = Behind {
            batch: Batch::new(rt.alloc(), 16),
            gate: &watch,
            early: false,
        };
        let sent = send_slice(&rt, &guarded, 2, 1, 1, left, &mut pipe);
        assert_same(&rt, sent == Sent::Refused, false, left);
        let told = (
            pipe.early,
            watch.is_passed_by(1, 1),
            watch.passes(),
            watch.sums().0,
        );
        assert_same(&rt, told, (false, true, 1, found), left);
    }
}

/// Each pass of a guarded game passes the gate once, by its own worker and slice.
#[test]
fn a_guarded_game_passes_its_gate(rt: HostRuntime) {
    let game = five(&rt, rt.alloc());
    let watch = Watch::new();
    let guarded = Guarded::new(&game, &watch);
    assert_same(&rt, watch.passes(), 0, "no pass");
    guarded.pass(1, 3);
    guarded.pass(0, 2);
    let passed = (
        watch.is_passed_by(3, 1),
        watch.is_passed_by(2, 0),
        watch.passes(),
    );
    assert_same(&rt, passed, (true, true, 2), "two passes");
}

#[test]
fn works_on_its_tasks(rt: HostRuntime) {
    let game = five(&rt, rt.alloc());
    let guarded = Guarded::new(&game, &NoGate);
    let (out, words) = ring(rt.alloc(), 8).expect(&rt, "a ring");
    let (mut tasks, list) = ring(rt.alloc(), 2).expect(&rt, "a ring");
    assert!(rt; tasks.put(Word::Open(1)).is_ok());
    assert!(rt; tasks.put(Word::End { cut: false }).is_ok());
    let (closed, _list) = work(&rt, &guarded, 2, 1, 5, out, list);
    let mut rest = words.end(closed.expect(&rt, "a closed end"));
    for word in [
        Word::Open(1),
        Word::One(Coalition::of_mask(22)),
        Word::One(Coalition::of_mask(21)),
        Word::One(Coalition::of_mask(19)),
        Word::Done(1),
        Word::End { cut: false },
    ] {
        assert_same(&rt, rest.next(), Some(word), "a word");
    }
    assert_same(&rt, rest.next(), None, "the end");
}
