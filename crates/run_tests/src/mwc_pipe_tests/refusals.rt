//! The calls that take memory. `tests/call_allocations.sh` refuses the allocations
//! between the line `call` and the line of the answer.
use super::*;
use crate::helpers::{print_line, print_memory};

/// The items that were put in are kept, and another one is taken later.
#[test]
fn puts_into_a_pipe(rt: HostRuntime) {
    let mut pipe = Pipe::new(rt.alloc(), 100);
    print_line(&rt, "call");
    let mut refused = None;
    for item in 0..12u8 {
        if let Err(refusal) = pipe.put(item) {
            refused = Some(refusal);
            break;
        }
    }
    print_memory(&rt, refused.is_none());
    let count = pipe.len();
    if count < 12 {
        assert_same(&rt, refused, Some(Refused::Memory(count as u8)), "refused");
    }
    assert_same(&rt, pipe.put(12), Ok(()), "another item");
}

/// Puts words in, up to one that is refused.
fn put_words<P: PipeIn<Word>>(pipe: &mut P) -> Result<(), Refused<Word>> {
    for slice in 0..6 {
        pipe.put(Word::Open(slice))?;
    }
    Ok(())
}

#[test]
fn puts_into_a_batch(rt: HostRuntime) {
    let mut batch = Batch::new(rt.alloc(), 100);
    print_line(&rt, "call");
    let answer = put_words(&mut batch);
    print_memory(&rt, answer.is_ok());
    let is_whole = batch.close().len() == 6;
    assert_same(&rt, is_whole, answer.is_ok(), "all six words");
}

#[test]
fn replays(rt: HostRuntime) {
    let steps = [Step::Put('a'), Step::Put('b'), Step::Take, Step::Close];
    print_line(&rt, "call");
    print_memory(&rt, replay(rt.alloc(), 2, &steps).is_ok());
}

#[test]
fn makes_a_ring(rt: HostRuntime) {
    print_line(&rt, "call");
    match ring(rt.alloc(), 3) {
        Ok((mut to, mut from)) => {
            print_line(&rt, "worked");
            assert_same(&rt, to.put(Word::Open(0)), Ok(()), "put");
            assert_same(&rt, from.take(), Some(Word::Open(0)), "taken");
        }
        Err(_) => print_line(&rt, "out of memory"),
    }
}

#[test]
fn moves_words_without_memory(rt: HostRuntime) {
    let (mut to, mut from) = ring(rt.alloc(), 2).expect(&rt, "a ring");
    print_line(&rt, "call");
    assert_same(&rt, to.put(Word::Open(0)), Ok(()), "put");
    assert_same(&rt, to.put_some(&[Word::Open(1); 2]), 1, "put in a row");
    assert_same(&rt, from.take(), Some(Word::Open(0)), "taken");
    let mut row = [Word::Done(0); 2];
    assert_same(&rt, from.take_some(&mut row), 1, "taken in a row");
    let mut rest = from.end(to.close().expect(&rt, "a closed end"));
    assert_same(&rt, rest.next(), None, "the end");
    print_line(&rt, "worked");
}
