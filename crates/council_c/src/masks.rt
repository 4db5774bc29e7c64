//! The minimal winning coalitions of the game that arrays hold, as masks.
ghost use Rattle.std.specs.Prelude.{◌≡◌, ◌≤◌, ◌^◌, ◌<◌, IfErr, IfOk, length, map};
ghost use Rattle.council_c.specs.Asked.{visits_of};
ghost use Rattle.council_c.specs.Inner.Calls.{AreMasksOf, request_of};
ghost use Rattle.council_c.specs.Indices.{StopsArrays};
ghost use Rattle.council_c.specs.Masks.{StopsList, digit_of, mask_of};
ghost use Rattle.council_c.specs.Numbers.{minimal_of};

use crate::arrays::Arrays;
use crate::bounded::{Listed, list_within};
use crate::fault::Fault;
use crate::indices::{Stop, read};
use crate::options::Call;
use crate::results::CouncilSummary;
use council_game::{Coalition, Game, Memory, limits};
use council_run::{Cause, choose_game, count_few};
use mwc_gather::GatherFault;
use std::alloc::Global;

/// Returns the binary digit of a member in the mask of a coalition, or 0 if the member is not in.
fn digit_of(game: &Game, coalition: Coalition, member: usize) -> u64
    requires { member < length game.now.names }
    ensures { result ≡ digit_of game.now coalition member }
{
    let members = game.members();
    if coalition.has(members, game.place_of(member)) {
        1 << member
    } else {
        0
    }
}

/// Returns the mask of a coalition, by member.
fn mask_of(game: &Game, coalition: Coalition) -> u64
    ensures { result ≡ mask_of game.now coalition }
{
    let mut mask = 0;
    for member in 0..game.members() {
        mask += digit_of(game, coalition, member);
    }
    mask
}

/// Returns the masks of coalitions, in their order.
fn masks_of(alloc: Global, game: &Game, list: &[Coalition]) -> Result<Vec<u64>, Memory>
    ensures { IfOk result (λ v. v.items ≡ map (mask_of game.now) list.now) }
{
    let mut masks = Vec::with_capacity(alloc, list.len())?;
    for coalition in list {
        masks.push(mask_of(game, *coalition))?;
    }
    Ok(masks)
}

/// Lists the minimal winning coalitions of a game, in listing order.
///
/// # Errors
///
/// TooMany if there are more than `room`, or than a list may have; TooLong; or out of memory.
fn list(alloc: Global, game: &Game, room: usize, call: &Call) -> Result<Vec<Coalition>, Fault>
    ensures ok { IfOk result (λ v. v.items ≡ minimal_of game.now) }
    ensures few { IfOk result (λ v. length v.items ≤ room) }
    ensures err { IfErr result (StopsList room call.now.visits game.now) }
{
    let most = room.min(limits::COALITIONS as usize) as u32;
    let ordered = game.by_contribution(alloc)?;
    let walked = choose_game(game, &ordered);
    count_few(alloc, walked, most, call.options.room)?;
    match list_within(alloc, walked, most, call.visits)? {
        Listed::All(mut all) => {
            if let Some(ordered) = &ordered {
                ordered.renumber_all(&mut all, game);
            }
            Ok(all)
        }
        Listed::TooMany => Err(Fault::Run(Cause::Gather(GatherFault::TooMany))),
        Listed::TooLong => Err(Fault::TooLong),
    }
}

/// Lists the masks of the game that arrays hold.
///
/// # Errors
///
/// The first of these: as for `read`; as for `list`.
pub(crate) fn list_masks(
    alloc: Global,
    arrays: &Arrays<'_>,
    summary: &CouncilSummary,
    room: usize,
) -> Result<Vec<u64>, Stop>
    ensures ok { IfOk result (λ v. AreMasksOf (request_of arrays.now) summary.now v.items) }
    ensures few { IfOk result (λ v. length v.items ≤ room) }
    ensures err { IfErr result (λ why. StopsArrays (StopsList room (visits_of arrays.now.words.now))
        (request_of arrays.now) summary.now why.fault why.rule) }
{
    let ready = read(alloc, arrays, summary)?;
    let list = list(alloc, &ready.game, room, &ready.call)?;
    Ok(masks_of(alloc, &ready.game, &list)?)
}
