//! Counting the coalitions of a game, and keeping none: by states, or if these are too many, by
//! worker threads.
ghost use Rattle.std.specs.Prelude.{◌≡◌, ◌<◌, ◌⊎◌, IfErr, IfNone, IfOk, IfSome, None, false, length, unwrap_or};
ghost use Rattle.council_game.specs.declared.limits.TheConstants.{PLAIN_MEMBERS};
ghost use Rattle.council_game.specs.declared.report_lines.ReportLines.{ReportLines};
ghost use Rattle.council_run.specs.Run.{count_of};
ghost use Rattle.council_run.specs.Found.{Finds, IsWorkersFault};
ghost use Rattle.council_run.specs.declared.fault.Cause.TheVariants as cause;
ghost use Rattle.power_index.specs.Tables.{AreCountsOfGame, Tables};
ghost use Rattle.power_index.specs.Swings.{AreWinningCounts};
ghost use Rattle.council_game.specs.Contribution.{by_contribution};
ghost use Rattle.council_game.specs.Game.{IsGame};

use crate::fault::{Cause, RunFault};
use crate::found::{Coalitions, Found};
use crate::plain::{plain_counts, plain_swings};
use council_game::laws::places_do_not_matter;
use council_game::{Game, Gate, Memory, NoGate, Options, limits};
use mwc_states::{count_by_states, count_swings};
use mwc_tally::{TallyFault, tally};
use power_index::laws::{places_change_no_count, places_change_no_swing};
use power_index::{Counts, Swings};
use std::alloc::Global;
use std::sync::Wait;
use std::thread::Threads;

/// The most states by which a game is counted, if the options do not say how many.
pub const ROOM: u32 = 1 << 24;

/// A tally has at least 2^8 slices if there are 8 members: the last of them are the longest, and
/// with fewer one thread would still count when the others have ended.
pub const LEAST_BITS: u8 = 8;

/// Counts the minimal winning coalitions of a game by states.
///
/// It decides the members by rank place, so hand it the game that `choose_game` returns. The gate
/// hears of each member that is decided. Returns `None` if there are more than `room` states, and
/// more than 20 members.
///
/// # Errors
///
/// Returns `Memory` if an allocation was refused.
pub fn count_states<G: Gate>(
    alloc: Global,
    game: &Game,
    room: u32,
    gate: &G,
) -> Result<Option<Box<Counts>>, Memory>
    ensures counts { IfOk result (λ o. IfSome o (λ counts. AreCountsOfGame game.now counts.value)) }
    ensures none { IfOk result (λ o. IfNone o (PLAIN_MEMBERS < length game.now.names)) }
{
    match count_by_states(alloc, game, room as usize, gate)? {
        Some(counts) => Ok(Some(counts)),
        None if game.members() <= limits::PLAIN_MEMBERS => Ok(Some(plain_counts(alloc, game)?)),
        None => Ok(None),
    }
}

/// Returns how many minimal winning coalitions a game has.
///
/// It is `None` if that takes more than `room` states, and there are more than 20 members.
///
/// # Errors
///
/// Returns `Memory` if an allocation was refused.
pub fn number_by_states(alloc: Global, game: &Game, room: u32) -> Result<Option<u64>, Memory>
    ensures number { IfOk result (λ number. IfSome number (λ n. n ≡ count_of game.now)) }
    ensures none { IfOk result (λ number. IfNone number (PLAIN_MEMBERS < length game.now.names)) }
{
    let ordered = game.by_contribution(alloc)?;
    match count_states(alloc, choose_game(game, &ordered), room, &NoGate)? {
        Some(counts) => Ok(Some(counts.wide_total())),
        None => Ok(None),
    }
}

/// Counts the swings of a game's members by states.
///
/// It decides the members by rank place, as `count_states` does. The gate hears of each member that
/// is decided.
///
/// # Errors
///
/// Out of memory; or States if there are more than 20 members and `room` states.
pub fn find_swings<G: Gate>(
    alloc: Global,
    game: &Game,
    room: u32,
    gate: &G,
) -> Result<Swings, RunFault>
    ensures counts { IfOk result (λ swings. AreWinningCounts game.now swings) }
    ensures fails { IfErr result (λ fault. ((fault.cause ≡ cause.Memory)
        ⊎ (fault.cause ≡ cause.States) × (PLAIN_MEMBERS < length game.now.names)) × (fault.written ≡ 0)) }
{
    match count_swings(alloc, game, room as usize, gate)? {
        Some(swings) => Ok(swings),
        None if game.members() <= limits::PLAIN_MEMBERS => Ok(plain_swings(alloc, game)?),
        None => Err(RunFault::early(Cause::States)),
    }
}

/// Counts all coalitions of a game by worker threads behind a gate.
///
/// They walk over the members by rank place, so hand it the game that `choose_game` returns.
///
/// # Errors
///
/// Returns `Start` if a thread could not be started, and else `Memory` if an allocation was
/// refused.
#[inline(never)] // states do not take the stack that threads want
pub fn count_by_threads<T: Threads + Wait + Sync, G: Gate + Sync>(
    rt: &T,
    alloc: Global,
    game: &Game,
    options: &Options,
    gate: &G,
) -> Result<Box<Counts>, TallyFault>
    ensures { IfOk result (λ counts. AreCountsOfGame game.now counts.value) }
{
    let bits = options.bits.max(LEAST_BITS).min(game.members() as u8);
    tally(rt, alloc, game, bits, options.workers, gate)
}

/// Counts all coalitions of a game by states, or if these are too many by worker threads.
fn count_all<T: Threads + Wait + Sync, G: Gate + Sync>(
    rt: &T,
    alloc: Global,
    game: &Game,
    options: &Options,
    gate: &G,
) -> Result<Box<Counts>, TallyFault>
    ensures { IfOk result (λ counts. AreCountsOfGame game.now counts.value) }
{
    match count_states(alloc, game, options.room, gate)? {
        Some(counts) => Ok(counts),
        None => count_by_threads(rt, alloc, game, options, gate),
    }
}

/// Counts the coalitions of a game by states, or else by worker threads.
///
/// If there are too many states, threads work behind a gate. The game may have any number of
/// coalitions; none is kept. `ordered` is what `Game::by_contribution` returned.
///
/// # Errors
///
/// Out of memory, or Start if a thread could not be started.
pub fn count_by_workers<T: Threads + Wait + Sync, G: Gate + Sync>(
    rt: &T,
    alloc: Global,
    game: &Game,
    ordered: &Option<Game>,
    options: &Options,
    gate: &G,
) -> Result<Found, RunFault>
    requires { IfSome ordered.now (λ h. h ≡ by_contribution game.now) }
    ensures finds { (lines : ReportLines) → lines.list ≡ false → Finds None lines game.now result }
    ensures fails { IfErr result IsWorkersFault }
{
    let counts = count_all(rt, alloc, choose_game(game, ordered), options, gate)?;
    Ok(Found {
        counts,
        coalitions: Coalitions::Counted,
    })
}

/// Returns the game to walk over.
///
/// That is the one in the order of contribution, if there is one. It has as many minimal winning
/// coalitions as the game itself, and its counts are those of the game.
pub fn choose_game<'a>(game: &'a Game, ordered: &'a Option<Game>) -> &'a Game
    requires { IfSome ordered.now (λ h. h ≡ by_contribution game.now) }
    ensures game { result.now ≡ unwrap_or ordered.now game.now }
    ensures names { result.now.names ≡ game.now.names }
    ensures as_many { count_of result.now ≡ count_of game.now }
    ensures counts { (t : Tables) → AreCountsOfGame result.now t → AreCountsOfGame game.now t }
    ensures winning { (t : Tables) → AreWinningCounts result.now t → AreWinningCounts game.now t }
{
    places_do_not_matter();
    places_change_no_count();
    places_change_no_swing();
    game.was_checked();
    match ordered {
        Some(ordered) => {
            ordered.was_checked();
            ordered
        }
        None => game,
    }
}
