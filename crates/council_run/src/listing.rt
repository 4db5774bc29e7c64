//! Listing the coalitions of a game by worker threads.
ghost use Rattle.std.specs.Prelude.{◌≡◌, ◌≤◌, Err, IfErr, IfOk, IfSome, IsSome, Some, length, true, unwrap_or, ◌<◌};
ghost use Rattle.council_game.specs.declared.limits.TheConstants.{WORKERS};
ghost use Rattle.council_game.specs.declared.report_lines.ReportLines.{ReportLines};
ghost use Rattle.council_game.specs.Contribution.{by_contribution};
ghost use Rattle.council_game.specs.Game.{GameView};
ghost use Rattle.council_run.specs.Found.{AreListed, Finds, GatherFaultIs, HoldAll, IsNotFound};
ghost use Rattle.council_run.specs.Run.{IsWithin};
ghost use Rattle.power_index.specs.Tables.{AreCountsOfGame, Tables, table_total};

use crate::counting::choose_game;
use crate::fault::RunFault;
use crate::found::{Coalitions, Found, on_heap};
use council_game::{Game, Gate, Memory, NoGate, Options};
use mwc_gather::{GatherFault, Gathered, Guarded, gather};
use mwc_states::count_by_states;
use mwc_walk::{Seek, Walk};
use power_index::Counts;
use power_index::laws::minimal_coalitions_can_be_counted;
use std::alloc::Global;
use std::sync::Wait;
use std::thread::Threads;

/// How many coalitions a long list has: one pass over them takes some ten milliseconds.
const LONG: usize = 1 << 19;

/// A walk that may take much longer stops after each of these numbers of visits, for a count by the
/// states beside it. That takes at most as long as these visits; the first takes some milliseconds.
const STAGES: [(u32, u32); 3] = [(1 << 10, 1 << 11), (1 << 18, 1 << 16), (1 << 22, 1 << 20)];

/// Some states: it takes a few milliseconds to count by them, or to see that there are more.
pub const FEW_STATES: u32 = 1 << 13;

/// The visits of a walk that take longer than a count by `FEW_STATES`.
const MANY_VISITS: u64 = 1 << 20;

/// The most members of a game that is walked over within seconds, whatever its rules are.
const FEW_MEMBERS: usize = 26;

/// Gathers the minimal winning coalitions of a game.
fn gather_all<T: Threads + Wait + Sync, G: Gate + Sync>(
    rt: &T,
    alloc: Global,
    game: &Game,
    options: &Options,
    gate: &G,
) -> Result<Gathered, GatherFault>
    ensures whole { IfOk result (HoldAll game.now) }
    ensures a_part_each { IfOk result (λ gathered. length gathered.parts.items ≡ options.now.workers) }
    ensures few { IfOk result (λ _. IsWithin (Some options.now.most) game.now) }
    ensures many { result ≡ Err GatherFault.TooMany → IsWithin (Some options.now.most) game.now → ⊥ }
{
    let bits = options.bits.min(game.members() as u8);
    let guarded = Guarded::new(game, gate);
    gather(rt, alloc, &guarded, bits, options.workers, options.most)
}

/// Returns whether the workers listed `LONG` coalitions or more.
fn is_long(gathered: &Gathered) -> bool {
    let mut count: usize = 0;
    for part in &gathered.parts {
        count = count.saturating_add(part.got.len());
    }
    count >= LONG
}

/// Counts the coalitions that the workers listed, unless they were counted before: those of a long
/// list by states, if they are few, and else in one pass over a copy of the list.
fn count_gathered(
    alloc: Global,
    game: &Game,
    gathered: &Gathered,
    counted: Option<Box<Counts>>,
    room: u32,
) -> Result<Box<Counts>, Memory>
    requires whole { HoldAll game.now gathered.now }
    requires counted { IfSome counted (λ counts. AreCountsOfGame game.now counts.value) }
    ensures { IfOk result (λ counts. AreCountsOfGame game.now counts.value) }
{
    if let Some(counts) = counted {
        return Ok(counts);
    }
    if is_long(gathered) {
        if let Some(counts) = count_by_states(
            alloc,
            game,
            room.min(FEW_STATES) as usize,
            &NoGate,
        )? {
            return Ok(counts);
        }
    }
    game.was_checked();
    minimal_coalitions_can_be_counted();
    let all = gathered.in_order(alloc)?;
    on_heap(alloc, Counts::of(game, &all))
}

/// Returns whether the counts of a game show more coalitions than `most`.
pub(crate) fn has_more(counted: &Option<Box<Counts>>, most: u32) -> bool
    ensures { result ≡ true → IfSome counted.now (λ counts. most < table_total counts.value) × IsSome counted.now }
{
    match counted {
        Some(counts) => counts.wide_total() > u64::from(most),
        None => false,
    }
}

/// Takes a walk to `visits` visits; returns how many it takes on the whole if it ends soon.
///
/// That is if it has ended, or finds more than `most` coalitions within some 2^26 visits if it goes
/// on as it began. It takes 2^12 visits to tell.
fn foresee_end(walk: &mut Walk<'_>, visits: u64, most: u32, found: &mut u64) -> Option<u64> {
    while walk.visits() < visits {
        match walk.seek(visits - walk.visits()) {
            Seek::Found(_) => *found = found.saturating_add(1),
            Seek::End => return Some(0),
            Seek::NotYet => {}
        }
        let done = walk.visits();
        let wanted = done.saturating_mul(u64::from(most));
        if done >= 1 << 12 && found.saturating_mul(1 << 26) >= wanted {
            return Some(wanted / (*found).max(1));
        }
    }
    None
}

/// Counts the coalitions of a game by states, as long as a walk over it may take longer than that.
///
/// Returns `None` if the walk ends soon, or there are more states.
pub(crate) fn count_first(
    alloc: Global,
    game: &Game,
    most: u32,
    room: u32,
) -> Result<Option<Box<Counts>>, Memory>
    ensures { IfOk result (λ o. IfSome o (λ counts. AreCountsOfGame game.now counts.value)) }
{
    let is_small = game.members() <= FEW_MEMBERS;
    if is_small && most >= STAGES[0].0 {
        return Ok(None);
    }
    let mut walk = Walk::new(game, 0, 0);
    let mut found = 0;
    for (visits, states) in &STAGES {
        if let Some(whole) = foresee_end(&mut walk, u64::from(*visits), most, &mut found) {
            if whole < MANY_VISITS {
                return Ok(None);
            }
            return count_by_states(alloc, game, room.min(FEW_STATES) as usize, &NoGate);
        }
        let states = room.min(*states) as usize;
        if let Some(counts) = count_by_states(alloc, game, states, &NoGate)? {
            return Ok(Some(counts));
        }
        if is_small || game.rules() == 1 {
            return Ok(None);
        }
    }
    Ok(None)
}

/// Counts the coalitions of a game by states if a walk may take longer than that.
///
/// The walk goes by rank place, so hand it the game that `choose_game` returns. There are at most
/// `room` states.
///
/// # Errors
///
/// Out of memory; or TooMany if there are more than `most`.
pub fn count_few(
    alloc: Global,
    game: &Game,
    most: u32,
    room: u32,
) -> Result<Option<Box<Counts>>, RunFault>
    ensures counts { IfOk result (λ o. IfSome o (λ counts. AreCountsOfGame game.now counts.value)) }
    ensures fails { IfErr result (λ fault. IsNotFound (Some most) game.now fault.cause × (fault.written ≡ 0)) }
    ensures many { GatherFaultIs GatherFault.TooMany result }
{
    let counted = count_first(alloc, game, most, room)?;
    if has_more(&counted, most) {
        return Err(RunFault::from(GatherFault::TooMany));
    }
    Ok(counted)
}

/// Keeps the coalitions that workers listed: as they lie, if the game itself was walked over; else
/// renumbered and sorted, if they are to be shown.
fn keep(
    alloc: Global,
    game: &Game,
    ordered: &Option<Game>,
    gathered: Gathered,
    list: bool,
) -> Result<Coalitions, Memory>
    requires ordered { IfSome ordered.now (λ h. h ≡ by_contribution game.now) }
    requires whole { HoldAll (unwrap_or ordered.now game.now) gathered }
    ensures { IfOk result (λ kept. (lines : ReportLines) → lines.list ≡ list → AreListed game.now lines kept) }
{
    let Some(ordered) = ordered else {
        return Ok(Coalitions::Parts(gathered));
    };
    if !list {
        return Ok(Coalitions::Counted);
    }
    let mut all = gathered.in_order(alloc)?;
    ordered.renumber_all(&mut all, game);
    Ok(Coalitions::Whole(all))
}

/// Lists the coalitions of a game by worker threads behind a gate, and counts them if they were not
/// counted before.
pub(crate) fn list_counted<T: Threads + Wait + Sync, G: Gate + Sync>(
    rt: &T,
    alloc: Global,
    game: &Game,
    ordered: &Option<Game>,
    options: &Options,
    gate: &G,
    counted: Option<Box<Counts>>,
) -> Result<Found, RunFault>
    requires ordered { IfSome ordered.now (λ h. h ≡ by_contribution game.now) }
    requires counted { IfSome counted (λ counts. AreCountsOfGame (unwrap_or ordered.now game.now) counts.value) }
    ensures { (lines : ReportLines) → lines.list ≡ options.now.list
        → Finds (Some options.now.most) lines game.now result }
{
    let walked = choose_game(game, ordered);
    let gathered = gather_all(rt, alloc, walked, options, gate)?;
    let counts = count_gathered(alloc, walked, &gathered, counted, options.room)?;
    let coalitions = keep(alloc, game, ordered, gathered, options.list)?;
    Ok(Found { counts, coalitions })
}

/// Lists the coalitions of a game by worker threads behind a gate, and counts them.
///
/// With several rules the workers walk over the members in the order of what they contribute:
/// `ordered` is what `Game::by_contribution` returned. The coalitions are put back in listing order
/// if the options ask for a list, and else only counted.
///
/// # Errors
///
/// The first of these: out of memory for its states; TooMany if these show it; a fault of the
/// gathering; out of memory for the row of its pieces, for their counts or for their list.
pub fn list_by_workers<T: Threads + Wait + Sync, G: Gate + Sync>(
    rt: &T,
    alloc: Global,
    game: &Game,
    ordered: &Option<Game>,
    options: &Options,
    gate: &G,
) -> Result<Found, RunFault>
    requires { IfSome ordered.now (λ h. h ≡ by_contribution game.now) }
    ensures { (lines : ReportLines) → lines.list ≡ options.now.list
        → Finds (Some options.now.most) lines game.now result }
{
    let walked = choose_game(game, ordered);
    let counted = count_few(alloc, walked, options.most, options.room)?;
    list_counted(rt, alloc, game, ordered, options, gate, counted)
}
