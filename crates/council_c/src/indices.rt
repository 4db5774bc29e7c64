//! The numbers of the game that arrays hold.
ghost use Rattle.std.specs.Prelude.{◌≡◌, ◌<◌, ◌⊎◌, IfErr, IfOk, IfSome, false, length, map, true};
ghost use Rattle.std.specs.Option.{is_some};
ghost use Rattle.council_c.specs.Arrays.{member_of_fault};
ghost use Rattle.council_c.specs.Inner.Calls.{IsReady, request_of};
ghost use Rattle.council_c.specs.Indices.{AreNumbers, HasNoGame, IsRight, StopsArrays, StopsCounts, StopsNumbers, fits, with_fault};
ghost use Rattle.council_c.specs.Numbers.{IsSummary, numbers};
ghost use Rattle.council_c.specs.declared.fault.Fault.TheVariants as fault;
ghost use Rattle.council_game.specs.Members.{members};
ghost use Rattle.council_game.specs.declared.limits.TheConstants.{PLAIN_MEMBERS};
ghost use Rattle.council_run.specs.declared.fault.Cause.TheVariants as cause;
ghost use Rattle.power_index.specs.Swings.{AreWinningCounts};

use crate::arrays::{Arrays, game_of_arrays, rule_of_fault};
use crate::bounded::count_or_stop;
use crate::fault::Fault;
use crate::numbers::{all_numbers, summarize};
use crate::options::{Call, has_size, read_options};
use crate::results::{CouncilMember, CouncilSummary, MEMBER_SIZE, SUMMARY_SIZE};
use council_game::{Game, GameFault, Memory, NoGate};
use council_run::{Cause, RunFault, choose_game, find_swings};
use power_index::Swings;
use std::alloc::Global;

/// A game, and what is asked of it.
#[derive(Drop)]
pub(crate) struct Ready {
    pub(crate) game: Game,
    pub(crate) call: Call,
}

/// The numbers of a game and its members.
#[derive(Drop)]
pub(crate) struct Numbers {
    pub(crate) members: Vec<CouncilMember>,
    pub(crate) summary: CouncilSummary,
}

/// Why there are no numbers, and the rule that the fault is of, from 1; 0 if of none.
#[derive(Clone, Copy)]
pub(crate) struct Stop {
    pub(crate) fault: Fault,
    pub(crate) rule: u64,
}

impl From<Fault> for Stop {
    ghost from_gives = { λ why e. e ≡ record { fault = why; rule = 0 } };

    fn from(fault: Fault) -> Stop {
        Stop { fault, rule: 0 }
    }
}

impl From<Memory> for Stop {
    ghost from_gives = { λ _ e. e ≡ record { fault = fault.Run cause.Memory; rule = 0 } };

    fn from(_e: Memory) -> Stop {
        Stop::from(Fault::Run(Cause::Memory))
    }
}

/// Counts the swings of a game, if they are asked for.
fn find(alloc: Global, game: &Game, call: &Call) -> Result<Option<Swings>, RunFault>
    ensures ok { IfOk result (λ o. (is_some o ≡ call.now.swings) × IfSome o (AreWinningCounts game.now)) }
    ensures err { IfErr result (λ why. (why.cause ≡ cause.Memory) ⊎ ((why.cause ≡ cause.States)
        × (call.now.swings ≡ true) × (PLAIN_MEMBERS < length game.now.names))) }
{
    if !call.swings {
        return Ok(None);
    }
    Ok(Some(find_swings(alloc, game, call.options.room, &NoGate)?))
}

/// Computes the numbers of a game and its members.
///
/// # Errors
///
/// The first of these: out of memory for the swings, or States; out of memory, or TooLong.
fn compute(alloc: Global, game: &Game, call: &Call) -> Result<Numbers, Fault>
    ensures ok { IfOk result (λ found. (found.members.items ≡ map (numbers call.now.swings game.now) (members game.now))
        × IsSummary call.now.swings game.now found.summary) }
    ensures err { IfErr result (StopsCounts call.now.swings call.now.visits game.now) }
{
    let ordered = game.by_contribution(alloc)?;
    let walked = choose_game(game, &ordered);
    let swings = find(alloc, walked, call)?;
    let Some(counts) = count_or_stop(alloc, walked, call.options.room, call.visits)? else {
        return Err(Fault::TooLong);
    };
    let members = all_numbers(alloc, game, &counts, swings.as_ref())?;
    let summary = summarize(game, &counts, swings.as_ref());
    Ok(Numbers { members, summary })
}

/// Returns whether the options have their size, each rule has a weight for each member, and the
/// structs have the sizes of this version.
fn fits(arrays: &Arrays<'_>, summary: &CouncilSummary) -> bool
    ensures { result ≡ fits (request_of arrays.now) summary.now }
{
    has_size(arrays.words)
        && arrays.quotas.len().checked_mul(arrays.members) == Some(arrays.weights.len())
        && summary.size == SUMMARY_SIZE
        && summary.member_size == MEMBER_SIZE
}

/// Reads the options, and makes the game of arrays.
///
/// # Errors
///
/// The first of these: Size; Options; the first fault of the game, and the rule that it is of, or
/// out of memory.
pub(crate) fn read(
    alloc: Global,
    arrays: &Arrays<'_>,
    summary: &CouncilSummary,
) -> Result<Ready, Stop>
    ensures ok { IfOk result (IsReady (request_of arrays.now) summary.now) }
    ensures err { IfErr result (λ why. HasNoGame (request_of arrays.now) summary.now why.fault why.rule) }
{
    if !fits(arrays, summary) {
        return Err(Stop::from(Fault::Size));
    }
    let call = read_options(arrays.words)?;
    match game_of_arrays(alloc, arrays, &call.ways) {
        Ok(game) => Ok(Ready { game, call }),
        Err(GameFault::Memory) => Err(Stop::from(Fault::Run(Cause::Memory))),
        Err(fault) => Err(Stop {
            fault: Fault::Run(Cause::Game(fault)),
            rule: rule_of_fault(alloc, arrays, fault)?,
        }),
    }
}

/// Returns the member that a fault is of, from 1; 0 if it is of none.
fn member_of(fault: GameFault) -> u64
    ensures { result ≡ member_of_fault fault }
{
    match fault {
        GameFault::Name { member }
        | GameFault::SameName { member }
        | GameFault::Weight { member } => u64::from(member),
        _ => 0,
    }
}

/// Finds the numbers of the game that arrays hold.
///
/// # Errors
///
/// The first of these: as for `read`; as for `compute`.
pub(crate) fn find_numbers(
    alloc: Global,
    arrays: &Arrays<'_>,
    summary: &CouncilSummary,
) -> Result<Numbers, Stop>
    ensures ok { IfOk result (λ found. IsRight (request_of arrays.now) summary.now
        × AreNumbers (request_of arrays.now) found.members.items found.summary) }
    ensures err { IfErr result (λ why. StopsArrays (StopsNumbers arrays.now.words.now)
        (request_of arrays.now) summary.now why.fault why.rule) }
{
    let ready = read(alloc, arrays, summary)?;
    Ok(compute(alloc, &ready.game, &ready.call)?)
}

/// Puts the numbers of a fault into the summary, unless what was asked is wrong.
pub(crate) fn note(stop: Stop, summary: &mut CouncilSummary)
    ensures { summary.new ≡ with_fault stop.fault stop.rule summary.old }
{
    let (number, member, rule) = match stop.fault {
        Fault::Size | Fault::Options => return,
        Fault::Run(Cause::Game(fault)) => (u64::from(fault.number()), member_of(fault), stop.rule),
        _ => (0, 0, 0),
    };
    summary.fault = number;
    summary.member = member;
    summary.rule = rule;
}
