//! `council` reads a weighted voting game and prints its minimal winning coalitions and the power
//! indices that rest on them.
#![tactic(auto)]

ghost use Rattle.std.specs.Prelude.{◌≡◌, ◌⊎◌, Err, MatchResult, Ok, ⊤};
ghost use Rattle.std.specs.Process.{exit_status};
ghost use Rattle.council.specs.Program.{Ends, IsOutcomeOf, columns_of};
ghost use Rattle.council_file.specs.Reads.{Reads};
ghost use Rattle.council_report.specs.Outcome.{Writes};

use council_explain::explain;
use council_file::{parse_game, read_bytes};
use council_game::{Game, GameFault, Gate, Plan, Sink, Source};
use council_run::{
    Cause, Columns, FEW_STATES, LEAST_BITS, NoGate, RunFault, choose_game, find_swings,
    number_by_states, report_game, status,
};
use council_words::{
    Arguments, Progress, collect_words, parse_arguments, remark_on_columns, remark_on_names,
    remark_on_quotas, remark_on_thousands, report_unopened, say, say_more,
};
use mwc_gather::GatherFault;
use mwc_walk::slice_count;
use std::alloc::Global;
use std::io::IsTerminal;
use std::process::ExitCode;
use std::rt::Files;
use std::sync::Wait;
use std::thread::Threads;
use std::time::Clock;
use std::{fs, io};

/// Returns what helps against a fault, or what `--explain` says of it.
///
/// If the coalitions may be counted instead of listed, there are also too many states.
fn advice(cause: Cause, plan: Plan, is_explained: bool) -> Option<&'static str> {
    match (cause, plan, is_explained) {
        (Cause::Game(GameFault::Memory), _, _) => None,
        (Cause::Game(_), _, false) => Some("--explain says where, and what is allowed"),
        (Cause::Gather(GatherFault::TooMany), Plan::Either, false) => {
            Some("--room allows more states to count them, and --tally may take very long")
        }
        (Cause::Gather(GatherFault::TooMany), Plan::Either, true) => Some(
            "--room takes up to 134217728 of 60 bytes, --most up to 4000000; --tally may take very long",
        ),
        (Cause::Gather(GatherFault::TooMany), _, false) => {
            Some("--tally counts any number of them")
        }
        (Cause::Gather(GatherFault::TooMany), _, true) => {
            Some("--tally counts any number of them, and --most takes up to 4000000")
        }
        (Cause::States, _, false) => {
            Some("--room allows more, and --tally may count the minimal winning coalitions")
        }
        (Cause::States, _, true) => Some(
            "--room takes up to 134217728 of 60 bytes; --tally may count the minimal winning coalitions",
        ),
        _ => None,
    }
}

/// Says with `--explain` or on a terminal what helps against a fault.
fn advise(rt: &impl Eprint, arguments: &Arguments<'_>, is_terminal: bool, cause: Cause) {
    if (arguments.explain || is_terminal)
        && let Some(line) = advice(cause, arguments.plan, arguments.explain)
    {
        say_more(rt, line);
    }
}

/// Prints a line on standard error, if there is one.
fn remark(rt: &impl Eprint, line: Option<&'static str>) {
    if let Some(line) = line {
        say(rt, line);
    }
}

/// Returns which numbers the arguments ask for.
fn columns_of(arguments: &Arguments<'_>) -> Columns
    ensures { result ≡ columns_of arguments.now.swings arguments.now.only_swings }
{
    if arguments.only_swings {
        Columns::Swings
    } else if arguments.swings {
        Columns::Both
    } else {
        Columns::Minimal
    }
}

/// Returns how many slices there are, unless the game has very few members.
fn slices_of(arguments: &Arguments<'_>) -> u16 {
    let bits = arguments.options.bits;
    match arguments.plan {
        Plan::Count => slice_count(bits.max(LEAST_BITS)),
        Plan::List | Plan::Either => slice_count(bits),
    }
}

/// Writes the report of a game, as the arguments ask, and shows the progress on a terminal.
fn write_report<R: AllocGlobal + Eprint + Clock + Threads + Wait + Sync, W: Sink>(
    rt: &R,
    arguments: &Arguments<'_>,
    is_terminal: bool,
    game: &Game,
    writer: &mut W,
) -> Result<u64, RunFault>
    ensures { IsOutcomeOf arguments.now (λ answer. answer ≡ Ok game.now)
        (λ text. Writes W.held W.is_write W.is_flush text writer.old writer.new)
        (writer.new ≡ writer.old) result }
{
    let progress = Progress::new(rt, is_terminal, slices_of(arguments));
    let outcome = report_game(
        rt,
        rt.alloc(),
        game,
        &arguments.options,
        &progress,
        writer,
        arguments.plan,
        columns_of(arguments),
    );
    progress.wipe();
    outcome
}

/// Returns whether a report was refused because states have no room.
fn is_for_room(arguments: &Arguments<'_>, fault: &RunFault) -> bool {
    match fault.cause {
        Cause::States => true,
        _ => fault.is_too_many() && matches!(arguments.plan, Plan::Either),
    }
}

/// Returns whether few states count the swings of a game.
fn has_few_swings(rt: &impl AllocGlobal, game: &Game) -> bool {
    match game.by_contribution(rt.alloc()) {
        Ok(ordered) => {
            let game = choose_game(game, &ordered);
            // memory: a remark is left out
            find_swings(rt.alloc(), game, FEW_STATES, &NoGate).is_ok()
        }
        Err(_) => false, // memory: a remark is left out
    }
}

/// Says with `--explain` what is known of a game that has no report: how many coalitions it has, if
/// few states tell, or that states have no room.
fn explain_game(
    rt: &(impl Eprint + AllocGlobal),
    arguments: &Arguments<'_>,
    fault: &RunFault,
    game: &Game,
) {
    let room = arguments.options.room;
    if is_for_room(arguments, fault) {
        say_more(
            rt,
            format_args!("a count of them has no room with {room} states"),
        );
    } else if fault.is_too_many()
        && let Ok(Some(number)) = number_by_states(rt.alloc(), game, FEW_STATES.min(room))
    {
        say_more(rt, format_args!("there are {number} of them"));
    }
}

/// Says why a game has no report.
fn refuse_game(
    rt: &(impl Eprint + AllocGlobal),
    arguments: &Arguments<'_>,
    is_terminal: bool,
    fault: RunFault,
    game: &Game,
) {
    say(rt, fault.cause);
    if arguments.explain {
        explain_game(rt, arguments, &fault, game);
    }
    advise(rt, arguments, is_terminal, fault.cause);
    if (arguments.explain || is_terminal)
        && fault.is_too_many()
        && (arguments.swings || is_for_room(arguments, &fault) && has_few_swings(rt, game))
    {
        say_more(rt, "--only-swings has room, and shows the swings");
    }
}

/// Reports on a game, whose file has these bytes.
///
/// On a terminal it remarks on what may not be meant: in names first, and in numbers after the
/// report. If that is on a terminal too, it first names the columns.
fn report_on<R: AllocGlobal + Eprint + Clock + Threads + Wait + Sync, W: Sink>(
    rt: &R,
    arguments: &Arguments<'_>,
    is_terminal: bool,
    game: &Game,
    bytes: &[u8],
    writer: &mut W,
) -> Result<u64, RunFault>
    ensures { IsOutcomeOf arguments.now (λ answer. answer ≡ Ok game.now)
        (λ text. Writes W.held W.is_write W.is_flush text writer.old writer.new)
        (writer.new ≡ writer.old) result }
{
    if is_terminal {
        remark_on_names(rt, game);
    }
    let outcome = write_report(rt, arguments, is_terminal, game, writer);
    if let Err(fault) = outcome {
        refuse_game(rt, arguments, is_terminal, fault, game);
    } else if is_terminal {
        remark(rt, remark_on_columns(arguments));
        remark(rt, remark_on_thousands(bytes));
        remark(rt, remark_on_quotas(game));
    }
    outcome
}

/// Says why a file has no game; the bytes are those that were read.
fn refuse_file(
    rt: &(impl Eprint + AllocGlobal),
    arguments: &Arguments<'_>,
    is_terminal: bool,
    fault: GameFault,
    bytes: &[u8],
) {
    say(rt, fault);
    advise(rt, arguments, is_terminal, Cause::Game(fault));
    if arguments.explain
        && let Ok(lines) = explain(rt.alloc(), bytes, fault)
    {
        let _ = eprint!(rt; "{lines}");
    }
}

/// Reads a game, and keeps its bytes.
fn read_game<I: Source>(
    alloc: Global,
    reader: &mut I,
    bytes: &mut Vec<u8>,
) -> Result<Game, GameFault>
    ensures { MatchResult result
        (λ game. Reads I.left I.is_read reader.old reader.new (Ok game))
        (λ fault. Reads I.left I.is_read reader.old reader.new (Err fault)) }
{
    match read_bytes(alloc, reader) {
        Ok(read) => {
            *bytes = read;
            parse_game(alloc, bytes)
        }
        Err(fault) => Err(fault),
    }
}

/// Reads a game and writes its report.
///
/// It cannot print: whatever the reader and the writer are, the contract says which calls they got.
fn run_on<R: AllocGlobal + Eprint + Clock + Threads + Wait + Sync, I: Source, W: Sink>(
    rt: &R,
    arguments: &Arguments<'_>,
    is_terminal: bool,
    reader: &mut I,
    writer: &mut W,
) -> Result<u64, RunFault>
    ensures { IsOutcomeOf arguments.now (Reads I.left I.is_read reader.old reader.new)
        (λ text. Writes W.held W.is_write W.is_flush text writer.old writer.new)
        (writer.new ≡ writer.old) result }
{
    let mut bytes = Vec::new(rt.alloc());
    match read_game(rt.alloc(), reader, &mut bytes) {
        Ok(game) => report_on(rt, arguments, is_terminal, &game, &bytes, writer),
        Err(fault) => {
            refuse_file(rt, arguments, is_terminal, fault, &bytes);
            Err(RunFault::from(fault))
        }
    }
}

/// Runs on a reader and a writer, and returns the status.
fn end_on<R: AllocGlobal + Eprint + Clock + Threads + Wait + Sync, I: Source, W: Sink>(
    rt: &R,
    arguments: &Arguments<'_>,
    is_terminal: bool,
    reader: &mut I,
    writer: &mut W,
) -> ExitCode
    ensures { Ends arguments.now (Reads I.left I.is_read reader.old reader.new)
        (λ text. Writes W.held W.is_write W.is_flush text writer.old writer.new)
        (writer.new ≡ writer.old) result }
{
    match run_on(rt, arguments, is_terminal, reader, writer) {
        Ok(_) => ExitCode::from(0),
        Err(fault) => ExitCode::from(status(&fault)),
    }
}

/// Runs on the file that the arguments name, or on standard input, and returns the status.
///
/// The writer gets one report or nothing.
fn run_on_file<R: AllocGlobal + Files + Input + Eprint + Clock + Threads + Wait + Sync, W: Sink>(
    rt: &R,
    arguments: &Arguments<'_>,
    is_terminal: bool,
    writer: &mut W,
) -> ExitCode
    ensures { (exit_status result ≡ 1) × (writer.new ≡ writer.old)
        ⊎ Ends arguments.now (λ _. ⊤)
        (λ text. Writes W.held W.is_write W.is_flush text writer.old writer.new)
        (writer.new ≡ writer.old) result }
{
    match arguments.file {
        None => end_on(rt, arguments, is_terminal, &mut rt.reader(), writer),
        Some(path) => match fs::open(rt, path) {
            Ok(mut file) => end_on(rt, arguments, is_terminal, &mut file, writer),
            Err(error) => report_unopened(rt, arguments, is_terminal, error),
        },
    }
}

/// Runs as the words of the command line ask.
///
/// `is_typed` tells whether standard input is a terminal, `is_terminal` whether standard error is
/// one, and `is_shown` whether standard output is one.
fn run<R: AllocGlobal + Files + Input + Print + Eprint + Clock + Threads + Wait + Sync>(
    rt: &R,
    words: &[String],
    is_typed: bool,
    is_terminal: bool,
    is_shown: bool,
) -> ExitCode {
    match parse_arguments(rt, words) {
        Ok(mut arguments) => {
            arguments.is_shown = is_shown;
            if is_typed && arguments.file.is_none() {
                say(rt, "a game is read from standard input, up to its end");
            }
            run_on_file(rt, &arguments, is_terminal, &mut io::writer(rt))
        }
        Err(status) => status,
    }
}

fn main(rt: HostRuntime) -> ExitCode {
    match collect_words(&rt) {
        Ok(words) => {
            let (is_typed, is_terminal) = (rt.stdin().is_terminal(), rt.stderr().is_terminal());
            let is_shown = rt.stdout().is_terminal();
            run(&rt, words.as_slice(), is_typed, is_terminal, is_shown)
        }
        Err(status) => status,
    }
}
