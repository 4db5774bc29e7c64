//! Finding what a report shows in the caller's thread: by states, or by one walk.
ghost use Rattle.std.specs.Prelude.{◌≡◌, IfSome, None, Some, false, true};
ghost use Rattle.council_game.specs.Contribution.{by_contribution};
ghost use Rattle.council_game.specs.declared.report_lines.ReportLines.{ReportLines};
ghost use Rattle.council_run.specs.Found.{GatherFaultIs};
ghost use Rattle.std.specs.Option.{option_map};
ghost use Rattle.council_c.specs.Asked.{limit_in};
ghost use Rattle.council_c.specs.Inner.Calls.{MayFind, MayFindAll};
ghost use Rattle.council_run.specs.declared.columns.Columns.TheVariants as columns;
ghost use Rattle.council_run.specs.declared.findings.Findings.TheVariants as findings;
ghost use Rattle.mwc_gather.specs.declared.fault.GatherFault.TheVariants as gather;

use crate::bounded::{Listed, count_or_stop, list_within};
use crate::options::Call;
use council_game::{Game, NoGate};
use council_run::{
    Coalitions, Columns, Findings, Found, RunFault, choose_game, count_few, find_swings, on_heap,
};
use mwc_gather::GatherFault;
use power_index::laws::minimal_coalitions_can_be_counted;
use power_index::{Counts, Swings};
use std::alloc::Global;

/// Counts the coalitions of a game by states, or if these are too many by one walk.
///
/// # Errors
///
/// Out of memory.
fn count_by_walk(
    alloc: Global,
    game: &Game,
    ordered: &Option<Game>,
    call: &Call,
) -> Result<Option<Found>, RunFault>
    requires { IfSome ordered.now (λ h. h ≡ by_contribution game.now) }
    ensures finds { (lines : ReportLines) → lines.list ≡ false → MayFind None lines call.now.visits game.now result }
    ensures many { GatherFaultIs gather.TooMany result }
{
    let walked = choose_game(game, ordered);
    let Some(counts) = count_or_stop(alloc, walked, call.options.room, call.visits)? else {
        return Ok(None);
    };
    Ok(Some(Found {
        counts,
        coalitions: Coalitions::Counted,
    }))
}

/// Lists the coalitions of a game by one walk, and counts them.
///
/// They are kept only if they are to be shown in a list.
///
/// # Errors
///
/// Too many coalitions, or out of memory.
fn list_by_walk(
    alloc: Global,
    game: &Game,
    ordered: &Option<Game>,
    call: &Call,
) -> Result<Option<Found>, RunFault>
    requires { IfSome ordered.now (λ h. h ≡ by_contribution game.now) }
    ensures finds { (lines : ReportLines) → lines.list ≡ call.now.options.list
        → MayFind (Some call.now.options.most) lines call.now.visits game.now result }
    ensures many { GatherFaultIs gather.TooMany result }
{
    minimal_coalitions_can_be_counted();
    let walked = choose_game(game, ordered);
    let most = call.options.most;
    count_few(alloc, walked, most, call.options.room)?;
    let mut all = match list_within(alloc, walked, most, call.visits)? {
        Listed::All(all) => all,
        Listed::TooMany => return Err(RunFault::from(GatherFault::TooMany)),
        Listed::TooLong => return Ok(None),
    };
    let counts = on_heap(alloc, Counts::of(walked, &all))?;
    if !call.options.list {
        return Ok(Some(Found {
            counts,
            coalitions: Coalitions::Counted,
        }));
    }
    if let Some(ordered) = ordered {
        ordered.renumber_all(&mut all, game);
    }
    Ok(Some(Found {
        counts,
        coalitions: Coalitions::Whole(all),
    }))
}

/// Finds the coalitions of a game, by states or by one walk.
fn find_by_walk(
    alloc: Global,
    game: &Game,
    ordered: &Option<Game>,
    call: &Call,
) -> Result<Option<Found>, RunFault>
    requires order { IfSome ordered.now (λ h. h ≡ by_contribution game.now) }
    requires bare { call.now.tally ≡ true → call.now.options.list ≡ false }
    ensures finds { (lines : ReportLines) → lines.list ≡ call.now.options.list
        → MayFind (limit_in columns.Minimal call.now.tally call.now.options.most) lines call.now.visits game.now result }
    ensures many { GatherFaultIs gather.TooMany result }
{
    if call.tally {
        count_by_walk(alloc, game, ordered, call)
    } else {
        list_by_walk(alloc, game, ordered, call)
    }
}

/// Returns what a report shows of coalitions.
fn minimal_of(found: Option<Found>) -> Option<Findings>
    ensures { result ≡ option_map findings.Minimal found }
{
    match found {
        Some(found) => Some(Findings::Minimal(found)),
        None => None,
    }
}

/// Returns what a report shows of coalitions and swings.
fn both_of(found: Option<Found>, swings: Swings) -> Option<Findings>
    ensures { result ≡ option_map (λ found. findings.Both found swings) found }
{
    match found {
        Some(found) => Some(Findings::Both(found, swings)),
        None => None,
    }
}

/// Finds all that the report of a game shows, and starts no thread.
///
/// Swings come first. There is nothing if a walk made all its visits before its end.
///
/// # Errors
///
/// The first of these: if swings are shown, out of memory for them, or States; too many coalitions,
/// or out of memory.
fn find_in_order(
    alloc: Global,
    game: &Game,
    ordered: &Option<Game>,
    call: &Call,
) -> Result<Option<Findings>, RunFault>
    requires order { IfSome ordered.now (λ h. h ≡ by_contribution game.now) }
    requires bare { call.now.tally ≡ true → call.now.options.list ≡ false }
    ensures finds { (lines : ReportLines) → lines.list ≡ call.now.options.list
        → MayFindAll call.now.columns (limit_in call.now.columns call.now.tally call.now.options.most)
        lines call.now.visits game.now result }
    ensures many { GatherFaultIs gather.TooMany result }
{
    let room = call.options.room;
    match call.columns {
        Columns::Minimal => {
            let found = find_by_walk(alloc, game, ordered, call)?;
            Ok(minimal_of(found))
        }
        Columns::Both => {
            let swings = find_swings(alloc, choose_game(game, ordered), room, &NoGate)?;
            let found = find_by_walk(alloc, game, ordered, call)?;
            Ok(both_of(found, swings))
        }
        Columns::Swings => {
            let swings = find_swings(alloc, choose_game(game, ordered), room, &NoGate)?;
            Ok(Some(Findings::Swings(swings)))
        }
    }
}

/// Finds all that the report of a game shows, as `find_in_order` does.
pub(crate) fn find_in_one_thread(
    alloc: Global,
    game: &Game,
    call: &Call,
) -> Result<Option<Findings>, RunFault>
    requires { call.now.tally ≡ true → call.now.options.list ≡ false }
    ensures finds { (lines : ReportLines) → lines.list ≡ call.now.options.list
        → MayFindAll call.now.columns (limit_in call.now.columns call.now.tally call.now.options.most)
        lines call.now.visits game.now result }
    ensures many { GatherFaultIs gather.TooMany result }
{
    let ordered = game.by_contribution(alloc)?;
    find_in_order(alloc, game, &ordered, call)
}
