//! Runs: from the bytes of a game to its report.
ghost use Rattle.std.specs.Prelude.{◌≡◌, ◌≢◌, IfErr, IfSome, None, Ok, Some};
ghost use Rattle.council_game.specs.Contribution.{by_contribution};
ghost use Rattle.council_game.specs.Options.{lines_of, without_list};
ghost use Rattle.council_game.specs.declared.report_lines.ReportLines.{ReportLines};
ghost use Rattle.council_file.specs.Reads.{Reads};
ghost use Rattle.council_report.specs.Outcome.{Writes};
ghost use Rattle.council_report.specs.Report.{report};
ghost use Rattle.council_run.specs.Columns.{MayHaveManyStates, limit_with, report_of};
ghost use Rattle.council_run.specs.Shared.Finding.{FindsAll};
ghost use Rattle.council_run.specs.Found.{Finds, GatherFaultIs, IsWorkersFault};
ghost use Rattle.council_run.specs.Plans.{is_too_many, limit_of, lines_of_plan};
ghost use Rattle.council_run.specs.Run.{IsOutcome};
ghost use Rattle.council_run.specs.declared.fault.Cause.TheVariants as cause;
ghost use Rattle.council_run.specs.declared.found.Coalitions.TheVariants as coalitions;
ghost use Rattle.council_game.specs.declared.plan.Plan.TheVariants as plans;
ghost use Rattle.mwc_gather.specs.declared.fault.GatherFault.TheVariants as gather;

use crate::columns::Columns;
use crate::counting::{choose_game, count_by_workers, count_states, find_swings};
use crate::fault::RunFault;
use crate::findings::Findings;
use crate::found::{Coalitions, Found};
use crate::listing::{count_first, has_more, list_by_workers, list_counted};
use council_file::read_game;
use council_game::{Game, Gate, Options, Plan, ReportLines, Sink, Source};
use power_index::Counts;
use std::alloc::Global;
use std::sync::Wait;
use std::thread::Threads;

/// Returns what a report without a list is made from.
fn only(counts: Box<Counts>) -> Found
    ensures { result ≡ record { counts = counts; coalitions = coalitions.Counted } }
{
    Found {
        counts,
        coalitions: Coalitions::Counted,
    }
}

/// Lists the coalitions of a game, or counts them by states if they are too many and not shown.
fn list_or_count<T: Threads + Wait + Sync, G: Gate + Sync>(
    rt: &T,
    alloc: Global,
    game: &Game,
    ordered: &Option<Game>,
    options: &Options,
    gate: &G,
) -> Result<Found, RunFault>
    requires { IfSome ordered.now (λ h. h ≡ by_contribution game.now) }
    ensures { (lines : ReportLines) → lines.list ≡ options.now.list
        → Finds (limit_of plans.Either options.now.most (is_too_many result)) lines game.now result }
{
    if options.list {
        return list_by_workers(rt, alloc, game, ordered, options, gate);
    }
    let walked = choose_game(game, ordered);
    let counted = count_first(alloc, walked, options.most, options.room)?;
    if has_more(&counted, options.most)
        && let Some(counts) = counted
    {
        return Ok(only(counts));
    }
    match list_counted(rt, alloc, game, ordered, options, gate, counted) {
        Err(fault) if fault.is_too_many() => {
            match count_states(alloc, walked, options.room, gate)? {
                Some(counts) => Ok(only(counts)),
                None => Err(fault),
            }
        }
        found => found,
    }
}

/// Finds the coalitions of a game as a plan says.
fn find<T: Threads + Wait + Sync, G: Gate + Sync>(
    rt: &T,
    alloc: Global,
    game: &Game,
    ordered: &Option<Game>,
    options: &Options,
    gate: &G,
    plan: Plan,
) -> Result<Found, RunFault>
    requires { IfSome ordered.now (λ h. h ≡ by_contribution game.now) }
    ensures finds { (lines : ReportLines) → lines.list ≡ (lines_of_plan plan options.now).list
        → Finds (limit_of plan options.now.most (is_too_many result)) lines game.now result }
    ensures fails { plan ≡ plans.Count → IfErr result IsWorkersFault }
{
    match plan {
        Plan::List => list_by_workers(rt, alloc, game, ordered, options, gate),
        Plan::Count => count_by_workers(rt, alloc, game, ordered, options, gate),
        Plan::Either => list_or_count(rt, alloc, game, ordered, options, gate),
    }
}

/// Finds all that the report of a game shows.
///
/// Swings come first: if there are too many states, no coalition is looked for.
fn find_all<T: Threads + Wait + Sync, G: Gate + Sync>(
    rt: &T,
    alloc: Global,
    game: &Game,
    options: &Options,
    gate: &G,
    plan: Plan,
    columns: Columns,
) -> Result<Findings, RunFault>
    ensures finds { (lines : ReportLines) → lines.list ≡ (lines_of_plan plan options.now).list
        → FindsAll columns (limit_with columns plan options.now.most (is_too_many result)) lines game.now result }
    ensures threads { plan ≡ plans.Count → GatherFaultIs gather.Start result }
{
    let ordered = game.by_contribution(alloc)?;
    let walked = choose_game(game, &ordered);
    match columns {
        Columns::Minimal => {
            let found = find(rt, alloc, game, &ordered, options, gate, plan)?;
            Ok(Findings::Minimal(found))
        }
        Columns::Both => {
            let swings = find_swings(alloc, walked, options.room, gate)?;
            let found = find(rt, alloc, game, &ordered, options, gate, plan)?;
            Ok(Findings::Both(found, swings))
        }
        Columns::Swings => {
            let swings = find_swings(alloc, walked, options.room, gate)?;
            Ok(Findings::Swings(swings))
        }
    }
}

/// Returns the optional lines of the report by a plan.
fn lines_of(plan: Plan, options: &Options) -> ReportLines
    ensures { result ≡ lines_of_plan plan options.now }
{
    match plan {
        Plan::List | Plan::Either => options.lines(),
        Plan::Count => options.lines().without_list(),
    }
}

/// Finds what the report of a game shows, and writes the report.
///
/// The coalitions are found as the plan says. It may wait for its workers. It writes nothing else,
/// and returns the number of bytes written. The gate hears when all is found.
///
/// The contract says which calls the writer got, whatever it is: each write gets what is left of a
/// block of the report, and blocks are large; one flush, after the last byte, and no call after one
/// that failed.
///
/// # Errors
///
/// The first fault that is met, in this order: out of memory for the game in the order of
/// contribution; if swings are shown, out of memory for them, or States; out of memory for states;
/// TooMany if these show it; of the gathering, its Start before its Memory, Ring and TooMany; out
/// of memory for the row of its pieces, for their counts or for the report; of the writer. No byte
/// goes out before all memory is there: after each fault but `Write` the writer took nothing, and
/// after `Write` it has the first bytes of the report. A write that takes no byte or fails,
/// whatever the cause, is `Write`, and so is a flush that fails.
pub fn report_game<T: Threads + Wait + Sync, W: Sink, G: Gate + Sync>(
    rt: &T,
    alloc: Global,
    game: &Game,
    options: &Options,
    gate: &G,
    writer: &mut W,
    plan: Plan,
    columns: Columns,
) -> Result<u64, RunFault>
    ensures outcome { IsOutcome (report_of columns (lines_of_plan plan options.now))
        (limit_with columns plan options.now.most (is_too_many result))
        (λ answer. answer ≡ Ok game.now)
        (λ text. Writes W.held W.is_write W.is_flush text writer.old writer.new)
        (writer.new ≡ writer.old) result }
    ensures threads { plan ≡ plans.Count → GatherFaultIs gather.Start result }
    ensures states { IfErr result (λ fault. fault.cause ≡ cause.States → MayHaveManyStates columns game.now) }
{
    let found = find_all(rt, alloc, game, options, gate, plan, columns)?;
    gate.finish();
    Ok(found.write(alloc, game, lines_of(plan, options), writer)?)
}

/// Reads a game, and reports on it as a plan says.
fn run_by<T: Threads + Wait + Sync, R: Source, W: Sink, G: Gate + Sync>(
    rt: &T,
    alloc: Global,
    reader: &mut R,
    options: &Options,
    gate: &G,
    writer: &mut W,
    plan: Plan,
) -> Result<u64, RunFault>
    ensures outcome { IsOutcome (report (lines_of_plan plan options.now))
        (limit_of plan options.now.most (is_too_many result))
        (Reads R.left R.is_read reader.old reader.new)
        (λ text. Writes W.held W.is_write W.is_flush text writer.old writer.new)
        (writer.new ≡ writer.old) result }
    ensures threads { plan ≡ plans.Count → GatherFaultIs gather.Start result }
    ensures states { IfErr result (λ fault. fault.cause ≢ cause.States) }
{
    let game = read_game(alloc, reader)?;
    report_game(
        rt,
        alloc,
        &game,
        options,
        gate,
        writer,
        plan,
        Columns::Minimal,
    )
}

/// Reads a game, lists its minimal winning coalitions and writes its report.
///
/// Worker threads list them. There may be at most `most`.
///
/// The contract says which calls the reader and the writer got, whatever they are; there is no read
/// after one that failed or gave nothing.
///
/// # Errors
///
/// The first fault of the game file, or else as for `report_game`.
pub fn run<T: Threads + Wait + Sync, R: Source, W: Sink, G: Gate + Sync>(
    rt: &T,
    alloc: Global,
    reader: &mut R,
    options: &Options,
    gate: &G,
    writer: &mut W,
) -> Result<u64, RunFault>
    ensures outcome { IsOutcome (report (lines_of options.now)) (Some options.now.most)
        (Reads R.left R.is_read reader.old reader.new)
        (λ text. Writes W.held W.is_write W.is_flush text writer.old writer.new)
        (writer.new ≡ writer.old) result }
    ensures states { IfErr result (λ fault. fault.cause ≢ cause.States) }
{
    run_by(rt, alloc, reader, options, gate, writer, Plan::List)
}

/// Reads a game, counts its minimal winning coalitions and writes its report.
///
/// There may be any number of them; the report has no line for a coalition. They are counted by
/// states. If these are too many, worker threads walk over the coalitions, and fix at least 8 of
/// the first members in each slice, if there are 8. No coalition is kept, so the memory does not
/// grow with their number, and `most` and `list` of the options have no effect.
///
/// # Errors
///
/// As for `run`, but there are never too many coalitions, and of the gathering only Start can come.
pub fn tally<T: Threads + Wait + Sync, R: Source, W: Sink, G: Gate + Sync>(
    rt: &T,
    alloc: Global,
    reader: &mut R,
    options: &Options,
    gate: &G,
    writer: &mut W,
) -> Result<u64, RunFault>
    ensures outcome { IsOutcome (report (without_list (lines_of options.now))) None
        (Reads R.left R.is_read reader.old reader.new)
        (λ text. Writes W.held W.is_write W.is_flush text writer.old writer.new)
        (writer.new ≡ writer.old) result }
    ensures threads { GatherFaultIs gather.Start result }
    ensures states { IfErr result (λ fault. fault.cause ≢ cause.States) }
{
    run_by(rt, alloc, reader, options, gate, writer, Plan::Count)
}
