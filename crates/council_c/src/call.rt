//! The calls.
ghost use Rattle.std.specs.Prelude.{◌≡◌, length};
ghost use Rattle.council_c.specs.Answer.{Answers};
ghost use Rattle.council_c.specs.Explain.{Explains};
ghost use Rattle.council_c.specs.Indices.{AnswersArrays};
ghost use Rattle.council_c.specs.Masks.{AnswersMasks};

use crate::arrays::Arrays;
use crate::explain::fault_of;
use crate::fill::fill;
use crate::indices::{find_numbers, note};
use crate::masks::list_masks;
use crate::results::{CouncilMember, CouncilSummary};
use std::alloc::Global;

/// Reads the bytes of a game, and puts its report into `text`.
///
/// If there is none, it puts in the text of the fault. Either is cut off if it does not fit, and
/// has no byte after it. `length` becomes the length of the whole text: if that is more than `text`
/// has room for, call again with a longer one. `options` are the words of a `council_options`.
///
/// The result is the status that the program would end with: 0 for a report, 2 for options that no
/// call takes, 3 for a fault of the game, 4 for too many coalitions, 5 for out of memory and 6 if
/// the swings take too many states; or 7 if a walk made all its visits, and 8 if the options have
/// not the size that they name.
///
/// It starts no thread, keeps nothing from one call to the next, and gives out no memory. Calls may
/// run at the same time, each on its own buffers.
#[unsafe(no_mangle)]
pub extern "C" fn council_report_raw(
    alloc: Global,
    game: &[u8],
    options: &[u64],
    text: &mut [u8],
    length: &mut u64,
) -> u32
    ensures { Answers options.now game.now text.old text.new length.new result }
{
    match fill(alloc, game, options, text) {
        Ok(whole) => {
            *length = whole;
            0
        }
        Err(fault) => {
            *length = fault.put_words(text);
            fault.status()
        }
    }
}

/// Puts the numbers of the members of a game into `results`, and those of the game into `summary`.
///
/// `weights` has the weights of the first rule, those of the second, and so on, and `results` has
/// room for each member. Of the options, swings, visits, states and ways have an effect. The
/// coalitions are counted by states, or if these are too many by a walk.
///
/// The result is a status: 0; 2 for options that no call takes; 3 for a fault of the game, whose
/// number, member and rule are then in the summary; 5 for out of memory; 6 if the swings take too
/// many states; 7 if the walk did not end; 8 if the lengths do not fit each other, or the summary
/// or the options have not the sizes of their structs. With any but 0 the results are unchanged.
/// With 2 and 8 the summary is too.
#[unsafe(no_mangle)]
pub extern "C" fn council_indices_raw(
    alloc: Global,
    quotas: &[u64],
    weights: &[u64],
    options: &[u64],
    results: &mut [CouncilMember],
    summary: &mut CouncilSummary,
) -> u32
    ensures { AnswersArrays (record {
      quotas = quotas.now;
      weights = weights.now;
      members = length results.old;
      words = options.now;
    }) results.old results.new summary.old summary.new result }
{
    let arrays = Arrays {
        quotas,
        weights,
        members: results.len(),
        words: options,
    };
    match find_numbers(alloc, &arrays, summary) {
        Ok(found) => {
            results.copy_from_slice(&found.members);
            *summary = found.summary;
            0
        }
        Err(stop) => {
            note(stop, summary);
            stop.fault.status()
        }
    }
}

/// Puts the minimal winning coalitions of a game into `masks`, in listing order, and their number
/// into the summary.
///
/// Binary digit i of a mask is 1 if member i is in. Arrays are as for `council_indices_raw`;
/// `members` is how many there are. Of the options, visits, states and ways have an effect.
///
/// The result is a status as there, and 4 if there are more coalitions than `masks` has room for,
/// or than 4,000,000. With any but 0 the masks are unchanged. With 2 and 8 the summary is too.
#[unsafe(no_mangle)]
pub extern "C" fn council_list_raw(
    alloc: Global,
    quotas: &[u64],
    weights: &[u64],
    options: &[u64],
    members: usize,
    masks: &mut [u64],
    summary: &mut CouncilSummary,
) -> u32
    ensures { AnswersMasks (record {
      quotas = quotas.now;
      weights = weights.now;
      members = members;
      words = options.now;
    }) masks.old masks.new summary.old summary.new result }
{
    let arrays = Arrays {
        quotas,
        weights,
        members,
        words: options,
    };
    match list_masks(alloc, &arrays, summary, masks.len()) {
        Ok(list) => {
            masks[..list.len()].copy_from_slice(&list);
            *summary = CouncilSummary {
                fault: 0,
                member: 0,
                rule: 0,
                coalitions: list.len() as u64,
                ..*summary
            };
            0
        }
        Err(stop) => {
            note(stop, summary);
            stop.fault.status()
        }
    }
}

/// Puts the words of a status into `text`, as much as fits, without a byte 0 after them.
///
/// The status is that of a call, and the summary the one that it wrote. `length` becomes the length
/// of the words; it is 0 for status 0, and for a status or a fault that no call gives.
#[unsafe(no_mangle)]
pub extern "C" fn council_explain(
    status: u32,
    summary: &CouncilSummary,
    text: &mut [u8],
    length: &mut u64,
)
    ensures { Explains status summary.now text.old text.new length.new }
{
    *length = match fault_of(status, summary) {
        Some(fault) => fault.put_words(text),
        None => 0,
    };
}

/// The version of this library, as 10,000 for the first number, 100 for the second and 1 for the
/// third.
const VERSION: u32 = 10_200;

/// Returns the version of this library: 10,200 is 1.2.0.
#[unsafe(no_mangle)]
pub extern "C" fn council_version() -> u32
    ensures { result ≡ 10200 }
{
    VERSION
}
