//! The options of a call.
ghost use Rattle.std.specs.Prelude.{◌≡◌, ◌≤◌, ◌==◌, IfErr, IfOk, if◌then◌else◌};
ghost use Rattle.council_c.specs.Asked.{ask_both, ask_much, columns_of, has_size, have_other_answer, have_unknown, visits_of, ways_of, word};
ghost use Rattle.council_c.specs.Inner.Calls.{IsCall, Refuses};

use crate::fault::Fault;
use council_game::{Options, limits};
use council_run::{Columns, ROOM};

/// How many coalitions a call keeps by default.
const MOST: u32 = 1_000_000;

/// What a call is asked for.
#[derive(Clone, Copy)]
pub(crate) struct Call {
    /// The options of a run in one thread.
    pub(crate) options: Options,
    /// Count the coalitions, any number, and keep none.
    pub(crate) tally: bool,
    /// Which numbers are asked for.
    pub(crate) columns: Columns,
    /// Whether swings are asked for.
    pub(crate) swings: bool,
    /// The most visits of a walk.
    pub(crate) visits: u64,
    /// The rules of each way of arrays, as binary digits; 0 for no way.
    pub(crate) ways: [u64; limits::WAYS],
}

/// Returns word `k`; 0 if it is missing.
fn word(words: &[u64], k: usize) -> u64
    ensures { result ≡ word words.now k }
{
    words.get(k).copied().unwrap_or(0)
}

/// Returns whether the first word is the size of all in bytes.
pub(crate) fn has_size(words: &[u64]) -> bool
    ensures { result ≡ has_size words.now }
{
    (words.len() as u64).checked_mul(8) == Some(word(words, 0))
}

/// Returns whether a word answers a question with neither yes nor no.
fn have_other_answer(words: &[u64]) -> bool
    ensures { result ≡ have_other_answer words.now }
{
    words.iter().skip(4).take(6).any(|word| *word > 1)
}

/// Returns whether there is a word that this version does not know.
fn have_unknown(words: &[u64]) -> bool
    ensures { result ≡ have_unknown words.now }
{
    words.iter().skip(17).any(|word| *word > 0)
}

/// Returns whether the options ask for more than can be kept.
fn ask_much(words: &[u64]) -> bool
    ensures { result ≡ ask_much words.now }
{
    word(words, 1) > u64::from(limits::COALITIONS) || word(words, 3) > u64::from(limits::STATES)
}

/// Returns whether the options ask for a tally to list or to keep some.
fn ask_both(words: &[u64]) -> bool
    ensures { result ≡ ask_both words.now }
{
    word(words, 4) == 1 && (word(words, 5) == 1 || word(words, 1) > 0)
}

/// Returns which numbers are asked for.
fn columns_of(words: &[u64]) -> Columns
    ensures { result ≡ columns_of words.now }
{
    if word(words, 9) == 1 {
        Columns::Swings
    } else if word(words, 8) == 1 {
        Columns::Both
    } else {
        Columns::Minimal
    }
}

/// Returns the rules of each way.
fn ways_of(words: &[u64]) -> [u64; limits::WAYS]
    ensures { result ≡ ways_of words.now }
{
    [
        word(words, 10),
        word(words, 11),
        word(words, 12),
        word(words, 13),
        word(words, 14),
        word(words, 15),
    ]
}

/// Returns how many are kept: a number, or if it is 0 the usual one.
fn most_or(number: u64, usual: u32, most: u32) -> u32
    requires number { number ≤ most }
    requires usual { (1 ≤ usual) × (usual ≤ most) }
    ensures most { result ≡ (if number == 0 then usual else number) }
    ensures range { (1 ≤ result) × (result ≤ most) }
{
    if number == 0 { usual } else { number as u32 }
}

/// Returns how many visits a walk may make.
fn visits_of(words: &[u64]) -> u64
    ensures { result ≡ visits_of words.now }
{
    match word(words, 2) {
        0 => u64::MAX,
        visits => visits,
    }
}

/// Reads the words of a caller.
///
/// # Errors
///
/// Size if the first word is not the size of all; Options if no call takes them.
pub(crate) fn read_options(words: &[u64]) -> Result<Call, Fault>
    ensures ok { IfOk result (IsCall words.now) }
    ensures err { IfErr result (Refuses words.now) }
{
    if !has_size(words) {
        return Err(Fault::Size);
    }
    if have_other_answer(words) || have_unknown(words) || ask_much(words) || ask_both(words) {
        return Err(Fault::Options);
    }
    let most = most_or(word(words, 1), MOST, limits::COALITIONS);
    let room = most_or(word(words, 3), ROOM, limits::STATES);
    Ok(Call {
        options: Options {
            workers: 1,
            bits: 0,
            most,
            room,
            list: word(words, 5) == 1,
            sizes: word(words, 6) == 1,
            notation: word(words, 7) == 1,
        },
        tally: word(words, 4) == 1,
        columns: columns_of(words),
        swings: word(words, 8) == 1 || word(words, 9) == 1,
        visits: visits_of(words),
        ways: ways_of(words),
    })
}
