//! One walk over a game in the caller's thread, whose visits are limited.
ghost use Rattle.std.specs.Prelude.{◌≡◌, ◌<◌, ◌≤◌, IfNone, IfOk, IfSome, [], length};
ghost use Rattle.council_game.specs.declared.limits.TheConstants.{PLAIN_MEMBERS};
ghost use Rattle.council_game.specs.Game.{votes_of};
ghost use Rattle.council_c.specs.Bounded.{IsTooLong};
ghost use Rattle.council_c.specs.Inner.Calls.{IsListed};
ghost use Rattle.mwc_walk.specs.WalkView.{given};
ghost use Rattle.power_index.specs.Tables.{AreCountsOfGame};

use council_game::{Coalition, Game, Memory, NoGate};
use council_run::{count_states, on_heap};
use mwc_walk::laws::one_slice_is_the_whole;
use mwc_walk::{Seek, Walk};
use power_index::Counts;
use std::alloc::Global;

/// How many visits a walk makes until it asks for memory: a heap that refuses it ends the call.
const ASK_EVERY: u64 = 1 << 20;

/// What a walk lists.
#[derive(Drop)]
pub(crate) enum Listed {
    /// All coalitions, in the order of the walk.
    All(Vec<Coalition>),
    /// There are more than may be listed.
    TooMany,
    /// The walk made all its visits before its end.
    TooLong,
}

/// Asks for memory, and gives it back.
///
/// # Errors
///
/// `Memory` if it was refused.
fn ask(alloc: Global) -> Result<(), Memory> {
    // memory: only to hear whether the call is to go on
    let _asked = Box::new(alloc, 0u8)?;
    Ok(())
}

/// Counts the coalitions that a walk over a whole game gives, or returns none if it has made
/// `visits` visits before its end.
fn count_walked(
    alloc: Global,
    game: &Game,
    walk: &mut Walk<'_>,
    visits: u64,
) -> Result<Option<Counts>, Memory>
    requires votes { walk.old.votes ≡ votes_of game.now }
    requires whole { (walk.old.bits ≡ 0) × (walk.old.number ≡ 0) }
    requires start { given walk.old ≡ [] }
    ensures counts { IfOk result (λ o. IfSome o (AreCountsOfGame game.now)) }
    ensures long { IfOk result (λ o. IfNone o (visits ≤ walk.new.visits)) }
    ensures same { (walk.new.votes ≡ walk.old.votes) × (walk.new.bits ≡ 0) × (walk.new.number ≡ 0) }
{
    game.was_checked();
    one_slice_is_the_whole();
    let mut counts = Counts::none(game);
    let mut next = ASK_EVERY;
    while walk.visits() < visits {
        if walk.visits() >= next {
            ask(alloc)?;
            next = walk.visits().saturating_add(ASK_EVERY);
        }
        match walk.seek(ASK_EVERY.min(visits - walk.visits())) {
            Seek::Found(coalition) => counts.count(coalition),
            Seek::End => return Ok(Some(counts)),
            Seek::NotYet => {}
        }
    }
    Ok(None)
}

/// Lists the coalitions that a walk over a whole game gives, at most `most`.
fn list_walked(
    alloc: Global,
    game: &Game,
    walk: &mut Walk<'_>,
    most: u32,
    visits: u64,
) -> Result<Listed, Memory>
    requires votes { walk.old.votes ≡ votes_of game.now }
    requires whole { (walk.old.bits ≡ 0) × (walk.old.number ≡ 0) }
    requires start { given walk.old ≡ [] }
    ensures list { IfOk result (IsListed game.now most (visits ≤ walk.new.visits)) }
    ensures same { (walk.new.votes ≡ walk.old.votes) × (walk.new.bits ≡ 0) × (walk.new.number ≡ 0) }
{
    game.was_checked();
    one_slice_is_the_whole();
    let mut list = Vec::new(alloc);
    let mut next = ASK_EVERY;
    while walk.visits() < visits {
        if walk.visits() >= next {
            ask(alloc)?;
            next = walk.visits().saturating_add(ASK_EVERY);
        }
        match walk.seek(ASK_EVERY.min(visits - walk.visits())) {
            Seek::Found(coalition) => {
                if list.len() == most as usize {
                    return Ok(Listed::TooMany);
                }
                list.push(coalition)?;
            }
            Seek::End => return Ok(Listed::All(list)),
            Seek::NotYet => {}
        }
    }
    Ok(Listed::TooLong)
}

/// Lists the coalitions of a game, at most `most`, by a walk of at most `visits` visits.
pub(crate) fn list_within(
    alloc: Global,
    game: &Game,
    most: u32,
    visits: u64,
) -> Result<Listed, Memory>
    ensures { IfOk result (IsListed game.now most (IsTooLong visits game.now)) }
{
    one_slice_is_the_whole();
    game.was_checked();
    let mut walk = Walk::new(game, 0, 0);
    let listed = list_walked(alloc, game, &mut walk, most, visits)?;
    // For the prover: there are no more visits than a walk can make
    let _visits = walk.visits();
    Ok(listed)
}

/// Counts the coalitions of a game by a walk of at most `visits` visits.
#[inline(never)] // states do not take the stack that counts want
fn count_within(alloc: Global, game: &Game, visits: u64) -> Result<Option<Box<Counts>>, Memory>
    ensures counts { IfOk result (λ o. IfSome o (λ counts. AreCountsOfGame game.now counts.value)) }
    ensures long { IfOk result (λ o. IfNone o (IsTooLong visits game.now)) }
{
    one_slice_is_the_whole();
    game.was_checked();
    let mut walk = Walk::new(game, 0, 0);
    let counted = count_walked(alloc, game, &mut walk, visits)?;
    // For the prover: there are no more visits than a walk can make
    let _visits = walk.visits();
    match counted {
        Some(counts) => Ok(Some(on_heap(alloc, counts)?)),
        None => Ok(None),
    }
}

/// Counts the coalitions of a game by at most `room` states, or if these are too many by a walk.
///
/// The walk makes at most `visits` visits; the result is `None` if it has not ended by then.
///
/// # Errors
///
/// `Memory` if an allocation was refused.
pub(crate) fn count_or_stop(
    alloc: Global,
    game: &Game,
    room: u32,
    visits: u64,
) -> Result<Option<Box<Counts>>, Memory>
    ensures counts { IfOk result (λ o. IfSome o (λ counts. AreCountsOfGame game.now counts.value)) }
    ensures long { IfOk result (λ o. IfNone o ((PLAIN_MEMBERS < length game.now.names) × IsTooLong visits game.now)) }
{
    match count_states(alloc, game, room, &NoGate)? {
        Some(counts) => Ok(Some(counts)),
        None => count_within(alloc, game, visits),
    }
}
