//! Sending the words of a slice.
ghost use Rattle.std.specs.Prelude.{◌≡◌, ◌<◌, ◌≤◌, ◌^◌, ◌++◌, ◌∷◌, [], IsTrue, IsFalse, true, length, ◌+◌};
ghost use Rattle.council_game.specs.declared.limits.TheConstants.{BITS, WORKERS, COALITIONS};
ghost use Rattle.mwc_gather.specs.Slicing.{slicing};
ghost use Rattle.mwc_gather.specs.Sending.{Sends, BreaksOnlyIfRefused};
ghost use Rattle.mwc_gather.specs.Inner.Sending.{SendsFirst, SendsSome};

use crate::guarded::Guarded;
use crate::observer::SliceObserver;
use crate::putting::{PutsRows, RowByRow, WordByWord};
use crate::sent::Sent;
use crate::waiting::{Backoff, Waker, WakerPair};
use crate::word_buffer::{SHORT_ROW, WordBuffer};
use council_game::Gate;
use mwc_pipe::{PipeIn, RingIn, Word};
use mwc_walk::{SliceProgress, Walk};
use std::sync::Wait;

/// Puts all words into a pipe, and waits while it is full.
///
/// Returns false if the pipe refuses a word for good. Before it waits it wakes the other side, and
/// then it sleeps until its own waker wakes it.
pub(crate) fn send<W: PutsRows<P>, R: Wait, P: PipeIn<Word>>(
    rt: &R,
    words: &[Word],
    out: &mut P,
    pair: WakerPair<'_>,
) -> bool
    ensures identity { P.identity out.new ≡ P.identity out.old }
    ensures sent { IsTrue result → (P.accepted out.new ≡ P.accepted out.old ++ words.now)
        × (P.broken out.new ≡ P.broken out.old) }
    ensures refused { IsFalse result → SendsSome (P.accepted out.old) words.now (P.accepted out.new)
        × (P.broken out.new ≡ true) }
{
    let mut backoff = Backoff::new();
    let mut rest = words;
    for _ in rt.forever() {
        let outcome = W::put_row(out, rest);
        if outcome.refused {
            return false;
        }
        rest = rest.split_at(outcome.accepted).1;
        if outcome.accepted > 0 {
            backoff.renew(pair.own);
        }
        if rest.is_empty() {
            return true;
        }
        pair.other.wake();
        backoff.wait(rt, pair.own);
    }
    unreachable!()
}

/// Puts a word into a ring, and waits while it is full; then wakes the other side.
pub(crate) fn put<R: Wait>(rt: &R, out: &mut RingIn, word: Word, pair: WakerPair<'_>)
    ensures ring { out.new.ring ≡ out.old.ring }
    ensures accepted { out.new.accepted ≡ out.old.accepted ++ word ∷ [] }
{
    if !send::<RowByRow, _, _>(rt, [word].as_slice(), out, pair) {
        unreachable!()
    }
    pair.other.wake();
}

/// Adds a word to the buffer, which is sent first if it is full.
///
/// Returns false if the pipe refuses a word for good.
#[tactic(auto, using(std::proofs::lemmas::Grind::common_steps))]
fn add<W: PutsRows<P>, R: Wait, P: PipeIn<Word>>(
    rt: &R,
    buffer: &mut WordBuffer<'_>,
    word: Word,
    out: &mut P,
    pair: WakerPair<'_>,
) -> bool
    ensures identity { P.identity out.new ≡ P.identity out.old }
    ensures added { IsTrue result → SendsFirst (P.accepted out.old) (buffer.old ++ word ∷ [])
        (P.accepted out.new) buffer.new × (P.broken out.new ≡ P.broken out.old) }
    ensures refused { IsFalse result → SendsSome (P.accepted out.old) buffer.old (P.accepted out.new)
        × (P.broken out.new ≡ true) }
{
    if buffer.push(&word) {
        return true;
    }
    if !send::<W, _, _>(rt, buffer.words(), out, pair) {
        return false;
    }
    pair.other.nudge();
    buffer.restart(word);
    true
}

/// Adds the last word to the buffer, sends all of it, and wakes the other side.
///
/// Returns false if the pipe refuses a word for good.
fn send_last<W: PutsRows<P>, R: Wait, P: PipeIn<Word>>(
    rt: &R,
    buffer: &mut WordBuffer<'_>,
    word: Word,
    out: &mut P,
    pair: WakerPair<'_>,
) -> bool
    ensures identity { P.identity out.new ≡ P.identity out.old }
    ensures sent { IsTrue result → (P.accepted out.new ≡ P.accepted out.old ++ (buffer.old ++ word ∷ []))
        × (P.broken out.new ≡ P.broken out.old) }
    ensures refused { IsFalse result → SendsSome (P.accepted out.old) (buffer.old ++ word ∷ [])
        (P.accepted out.new) × (P.broken out.new ≡ true) }
{
    if !add::<W, _, _>(rt, buffer, word, out, pair) {
        return false;
    }
    let sent = send::<W, _, _>(rt, buffer.words(), out, pair);
    pair.other.wake();
    sent
}

/// Passes the gate, and sends a slice up to its coalition number `left`.
///
/// `left` is 1 to 4,000,001. It waits while the pipe is full, and takes no memory.
///
/// There are at most 10 bits, and no more than members; `slice` is below 2^bits, `worker` below 16.
pub fn send_slice<R: Wait, P: PipeIn<Word>, G: Gate>(
    rt: &R,
    guarded: &Guarded<'_, G>,
    bits: u8,
    slice: u16,
    worker: u8,
    left: u32,
    out: &mut P,
) -> Sent
    requires bits { (bits ≤ BITS) × (bits ≤ length guarded.now.names) }
    requires slice { slice < 2 ^ bits }
    requires worker { worker < WORKERS }
    requires left { (0 < left) × (left ≤ COALITIONS + 1) }
    ensures identity { P.identity out.new ≡ P.identity out.old }
    ensures sends { Sends (slicing guarded.now bits) slice left (P.accepted out.old)
        (P.accepted out.new) (P.broken out.new) result }
    ensures unbroken { BreaksOnlyIfRefused (P.broken out.old) (P.broken out.new) result }
{
    // no other thread waits for it: one waker serves both sides
    let waker = Waker::new();
    let pair = WakerPair {
        own: &waker,
        other: &waker,
    };
    let mut row = [Word::Open(slice); SHORT_ROW];
    let buffer = &mut WordBuffer::new(&mut row);
    send_slice_in_rows::<WordByWord, _, _, _>(
        rt, guarded, bits, slice, worker, left, buffer, out, pair,
    )
}

/// Sends a slice as `send_slice` does, in rows, and informs the gate of progress.
///
/// This is the only function that passes a gate. After words went in it wakes the other side.
pub(crate) fn send_slice_in_rows<W: PutsRows<P>, R: Wait, P: PipeIn<Word>, G: SliceObserver>(
    rt: &R,
    guarded: &Guarded<'_, G>,
    bits: u8,
    slice: u16,
    worker: u8,
    mut left: u32,
    buffer: &mut WordBuffer<'_>,
    out: &mut P,
    pair: WakerPair<'_>,
) -> Sent
    requires bits { (bits ≤ BITS) × (bits ≤ length guarded.now.names) }
    requires slice { slice < 2 ^ bits }
    requires left { (0 < left) × (left ≤ COALITIONS + 1) }
    requires gate { G.takes worker slice }
    ensures identity { P.identity out.new ≡ P.identity out.old }
    ensures sends { Sends (slicing guarded.now bits) slice left (P.accepted out.old)
        (P.accepted out.new) (P.broken out.new) result }
    ensures unbroken { BreaksOnlyIfRefused (P.broken out.old) (P.broken out.new) result }
{
    let mut walk = Walk::new(guarded.admit(worker, slice), bits, slice);
    buffer.restart(Word::Open(slice));
    let mut progress = SliceProgress::new();
    while let Some(coalition) = progress.next(guarded, &mut walk) {
        let word = Word::One(coalition);
        if left == 1 {
            progress.inform(guarded, &walk);
            if !send_last::<W, _, _>(rt, buffer, word, out, pair) {
                return Sent::Refused;
            }
            return Sent::Cut;
        }
        if !add::<W, _, _>(rt, buffer, word, out, pair) {
            return Sent::Refused;
        }
        left -= 1;
    }
    progress.inform(guarded, &walk);
    if !send_last::<W, _, _>(rt, buffer, Word::Done(slice), out, pair) {
        return Sent::Refused;
    }
    Sent::Whole { left }
}
