//! Rings filled and emptied in one thread, and two threads that move words through a ring.
ghost use Rattle.std.specs.Prelude.{◌≡◌, ◌≤◌, IfOk};

use crate::helpers::assert_same;
use council_game::Coalition;
use mwc_pipe::{Closed, RingIn, RingOut, Unfinished, Word, ring};
use std::snapshot::Snapshot;
use std::thread;
use std::thread::Promise;

const END: Word = Word::End { cut: false };

/// Each ring takes as many words as it has room for, gives them, and takes as many again.
#[test]
fn fills_rings_of_many_capacities(rt: HostRuntime) {
    for room in [1usize, 2, 3, 63, 64, 65, 1000, 4096, 4097, 65_535, 65_536] {
        assert!(rt; 1 <= room && room <= 65_536);
        let (mut to, mut from) = ring(rt.alloc(), room).expect(&rt, "a ring");
        for _ in 0..2 {
            for _ in 0..room {
                assert_same(&rt, to.put(END), Ok(()), room);
            }
            assert_same(&rt, to.put(END), Err(END), room);
            for _ in 0..room {
                assert_same(&rt, from.take(), Some(END), room);
            }
            assert_same(&rt, from.take(), None, room);
        }
    }
}

/// How many words go from one thread to the other.
const WORDS: u32 = 100_000;

/// Returns the word of this number.
fn word_of(number: u32) -> Word {
    Word::One(Coalition::of_mask(u64::from(number)))
}

/// What a thread that fills a ring promises: the closed end is of that ring.
#[derive(Drop)]
struct Fills(Snapshot<RingIn>);

impl Promise<Result<Closed, Unfinished>> for Fills {
    ghost kept_by = { λ p r. IfOk r (λ c. c.ring ≡ p.0.value.ring) };
}

/// How often a thread looks for room or for a word before it gives up.
const TURNS: u32 = 20_000_000;

/// Puts all words in, in order, by rows of at most `most`, and closes the ring; it gives up if
/// it found no room too often.
fn put_all_rows(to: RingIn, most: u32) -> Result<Closed, Unfinished>
    requires { most ≤ 64 }
    ensures { IfOk result (λ c. c.ring ≡ to.ring) }
{
    let mut to = to;
    let mut row = [END; 64];
    let mut number = 0;
    for _ in 0..TURNS {
        if number >= WORDS {
            return to.close();
        }
        let count = (WORDS - number).min(most) as usize;
        for at in 0..count {
            row[at] = word_of(number + at as u32);
        }
        let put = to.put_some(&row[..count]);
        number += put as u32;
        if put == 0 {
            thread::yield_now();
        }
    }
    to.close()
}

/// Takes the first words by rows of at most `most`, and says how many came in their order.
fn take_first_rows(from: &mut RingOut, count: u32, most: u32) -> u32
    requires { most ≤ 64 }
    ensures { from.new.ring ≡ from.old.ring }
{
    let mut row = [END; 64];
    let mut number = 0;
    for _ in 0..TURNS {
        if number >= count {
            return count;
        }
        let room = (count - number).min(most) as usize;
        let taken = from.take_some(&mut row[..room]);
        for word in &row[..taken] {
            if *word != word_of(number) {
                return number;
            }
            number += 1;
        }
        if taken == 0 {
            thread::yield_now();
        }
    }
    number
}

#[test]
fn moves_rows_between_threads(rt: HostRuntime) {
    for (room, put, take) in [
        (1, 1, 64),
        (3, 2, 2),
        (64, 64, 5),
        (65, 64, 64),
        (1000, 7, 64),
    ] {
        assert!(rt; 1 <= room && room <= 1000 && put <= 64 && take <= 64);
        let (to, mut from) = ring(rt.alloc(), room).expect(&rt, "a ring");
        let fills = Fills(Snapshot::of(&to));
        let filling = move || -> Result<Closed, Unfinished>
            requires { put ≤ 64 }
            ensures { IfOk result (λ c. c.ring ≡ to.ring) }
        { put_all_rows(to, put) };
        let filler = thread::spawn_with(&rt, fills, filling).expect(&rt, "a thread");
        let before = WORDS - room as u32;
        assert_same(&rt, take_first_rows(&mut from, before, take), before, room);
        let mut rest = from.end(filler.join(&rt).expect(&rt, "a closed end"));
        for number in before..WORDS {
            assert_same(&rt, rest.next(), Some(word_of(number)), room);
        }
        assert_same(&rt, rest.next(), None, room);
    }
}
