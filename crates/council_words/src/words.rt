//! The words of the command line.
use clap::builder::ValueParser;
use clap::error::ErrorKind;
use clap::parser::ValueSource;
use clap::{Arg, ArgAction, ArgMatches, Command, Error};
use council_game::{Options, Plan, limits};
use std::alloc::{AllocError, Global};

/// What a command line asks for.
#[derive(Drop)]
pub struct Arguments<'a> {
    /// The game file, or `None` if standard input is read.
    pub file: Option<&'a str>,
    /// The options of a run. A tally lists no coalition, and takes any number of them.
    pub options: Options,
    /// How the coalitions are found.
    pub plan: Plan,
    /// Show the swings too.
    pub swings: bool,
    /// Show only the swings.
    pub only_swings: bool,
    /// Explain on standard error why a game is refused.
    pub explain: bool,
    /// Whether the report goes to a terminal. The words do not say it: the caller does.
    pub is_shown: bool,
}

const ABOUT: &str = "Lists the minimal winning coalitions of a weighted voting game, and computes
power indices, as exact fractions and with six decimals that are cut off. Two
rest on these coalitions: the Deegan-Packel index (Deegan and Packel 1978) and
the public good index (Holler 1982; Holler and Packel 1983). If asked, three
rest on swings: the Banzhaf index (Banzhaf 1965), Penrose's measure (Penrose
1946), and the Shapley-Shubik index (Shapley and Shubik 1954).";

/// The version, and the kit with which it was proved.
const VERSION: &str = "1.2.0\nproved with rattle-kit-13f logic dac8208d650f15bf";

const FORMS: &str = "A game file has one of two forms:

  quota = 51                       [51; 50, 49, 1]
  [[member]]
  name = \"A\"
  weight = 50
  [[member]]
  name = \"B\"
  weight = 49
  [[member]]
  name = \"C\"
  weight = 1

A coalition wins if it reaches or passes the quota: more than half of 100 is 51.
The first form is TOML. It may have a title, and up to 4 rules by quotas and
weights; then a coalition wins if it meets each quota, or each of some way: with
ways = [[1, 2], [3]] those of rules 1 and 2, or that of rule 3. The second form
names the members 1, 2, 3. There are 1 to 40 members, and weights from 0 to
1000000000000.

The report has these lines, whose fields are separated by one TAB. Under several
rules a quota, a total or a weight has one value for each rule, with / between.

  title      the title, if the file has one
  members    the number of members
  quota      the quota
  total      the total of the weights
  ways       the rules of each way, if there are several
  notation   [q; w1, .., wn], a line for each rule (--notation)
  minimal    the number of minimal winning coalitions
  winning    the number of winning coalitions (--swings, --only-swings)
  act        Coleman's power of the body to act (--swings, --only-swings)
  coalition  its size, its weight, and its members' names, the heaviest first
             (--list)
  size       a size, how many coalitions have it, and how many of those contain
             each member (--sizes)
  member     a name, its weight, how many coalitions contain the member, the
             Deegan-Packel index as a fraction and as decimals, and the public
             good index likewise; with --swings then how many swings the member
             has, and likewise its Banzhaf index, Penrose's measure, its
             Shapley-Shubik index, and Coleman's powers to prevent and to
             initiate action

A swing of a member is a winning coalition with it that loses without it. With
--only-swings there are no numbers of minimal winning coalitions: a member has
its name, its weight, and what rests on swings.

With --tally a game may have any number of coalitions: they are counted, and
none is kept. Most games are counted by states, in up to a few seconds; others
by worker threads, and only for these --workers and --bits have an effect.

With --explain the line that says why a game is refused is followed by others:
the line of the file, what it has, and what is allowed. They begin with blanks.

The status is 0 if the report was written, 1 if the game file cannot be opened
or read, 2 if the command line is wrong, 3 if the file has no game, 4 if the
game has more than --most coalitions, 5 if memory ran out, a thread could not be
started, or the output failed, 6 if swings take more states than --room.";

/// What an argument of the command line takes.
#[derive(Clone, Copy)]
enum Takes {
    /// It is the game file.
    File,
    /// A number: how `--help` writes it, its default, and its range.
    Number(&'static str, &'static str, u32, u32),
    /// Nothing; these do not go with it.
    Nothing(&'static [&'static str]),
}

/// The arguments in the order of `--help`: what each takes, its name and its help.
const ARGUMENTS: &[(Takes, &str, &str)] = &[
    (
        Takes::File,
        "FILE",
        "The game file; none, or -, is standard input",
    ),
    (
        Takes::Number("N", "4", 1, limits::WORKERS as u32),
        "workers",
        "Worker threads, 1 to 16",
    ),
    (
        Takes::Number("K", "6", 0, limits::BITS as u32),
        "bits",
        "Tuning only: how the work is cut, 0 to 10",
    ),
    (
        Takes::Number("N", "1000000", 1, limits::COALITIONS),
        "most",
        "Refuses a game with more coalitions, 1 to 4000000;
without it and --list, a game with more is counted
if it has few states",
    ),
    (
        Takes::Number("N", "16777216", 1, limits::STATES),
        "room",
        "The most states that a count keeps, 1 to 134217728;
each takes some 60 bytes",
    ),
    (
        Takes::Nothing(&[]),
        "list",
        "A line for each minimal winning coalition",
    ),
    (
        Takes::Nothing(&[]),
        "sizes",
        "A line for each size of a coalition",
    ),
    (
        Takes::Nothing(&[]),
        "notation",
        "A line [q; w1, .., wn] for each rule",
    ),
    (
        Takes::Nothing(&["list", "most"]),
        "tally",
        "Counts the coalitions, any number of them, and keeps none",
    ),
    (
        Takes::Nothing(&["only-swings"]),
        "swings",
        "Adds swings and the indices that rest on them",
    ),
    (
        Takes::Nothing(&["list", "sizes", "tally", "most"]),
        "only-swings",
        "Shows only these, and finds no minimal winning coalition",
    ),
    (
        Takes::Nothing(&[]),
        "explain",
        "If a game is refused, says where and why",
    ),
];

/// Makes an option that takes a number.
fn number_option<'a>(
    argument: Arg<'a>,
    name: &'a str,
    value: &'a str,
    default: &'a str,
    least: u32,
    greatest: u32,
) -> Arg<'a> {
    argument
        .long(name)
        .value_name(value)
        .default_value(default)
        .value_parser(ValueParser::Signed(i64::from(least), i64::from(greatest)))
}

/// Makes an option that takes nothing.
fn flag<'a>(
    argument: Arg<'a>,
    name: &'a str,
    others: &'a [&'a str],
) -> Result<Arg<'a>, AllocError> {
    argument
        .long(name)
        .action(ArgAction::SetTrue)
        .conflicts_with_all(others)
}

/// Makes an argument of the command.
fn make_argument<'a>(
    alloc: Global,
    takes: Takes,
    name: &'a str,
    help: &'a str,
) -> Result<Arg<'a>, AllocError> {
    let argument = Arg::new(alloc, name).help(help);
    match takes {
        Takes::File => Ok(argument),
        Takes::Number(value, default, least, greatest) => {
            Ok(number_option(argument, name, value, default, least, greatest))
        }
        Takes::Nothing(others) => flag(argument, name, others),
    }
}

/// Makes the arguments of the command.
fn make_arguments<'a>(alloc: Global) -> Result<Vec<Arg<'a>>, AllocError> {
    let mut arguments = Vec::new(alloc);
    for (takes, name, help) in ARGUMENTS {
        arguments.push(make_argument(alloc, *takes, name, help)?)?;
    }
    Ok(arguments)
}

/// Parses the words, of which the first is the name of the program.
pub(crate) fn parse<'a>(alloc: Global, words: &'a [String]) -> Result<ArgMatches<'a>, Error> {
    let arguments = make_arguments(alloc)?;
    Command::new(alloc, "council")
        .version(VERSION)
        .about(ABOUT)
        .after_help(FORMS)
        .args(arguments)?
        .try_get_matches_from(words)
}

/// Returns the options of a run. The parser has checked the ranges of the numbers.
fn options_of(matches: &ArgMatches<'_>) -> Options {
    Options {
        workers: matches
            .get_one::<u8>("workers")
            .unwrap_or(1)
            .clamp(1, limits::WORKERS),
        bits: matches
            .get_one::<u8>("bits")
            .unwrap_or(0)
            .clamp(0, limits::BITS),
        most: matches
            .get_one::<u32>("most")
            .unwrap_or(1)
            .clamp(1, limits::COALITIONS),
        room: matches
            .get_one::<u32>("room")
            .unwrap_or(1)
            .clamp(1, limits::STATES),
        list: matches.get_flag("list"),
        sizes: matches.get_flag("sizes"),
        notation: matches.get_flag("notation"),
    }
}

/// Returns how the coalitions are found: only a list and `--most` refuse those that are more.
fn plan_of(matches: &ArgMatches<'_>) -> Plan {
    let is_limited = matches!(matches.value_source("most"), Some(ValueSource::CommandLine));
    if matches.get_flag("tally") {
        Plan::Count
    } else if is_limited || matches.get_flag("list") {
        Plan::List
    } else {
        Plan::Either
    }
}

/// Returns what the matches of a command line ask for.
fn arguments_of<'a>(matches: &ArgMatches<'a>) -> Arguments<'a> {
    let file = matches.get_str("FILE").unwrap_or("-");
    Arguments {
        file: if file == "-" { None } else { Some(file) },
        options: options_of(matches),
        plan: plan_of(matches),
        swings: matches.get_flag("swings"),
        only_swings: matches.get_flag("only-swings"),
        explain: matches.get_flag("explain"),
        is_shown: false,
    }
}

/// Reads a command line, its first word the name of the program.
///
/// # Errors
///
/// The kind of the parser's error if it refuses them, or answers `--help` or `--version`.
pub fn read_words<'a>(alloc: Global, words: &'a [String]) -> Result<Arguments<'a>, ErrorKind> {
    match parse(alloc, words) {
        Ok(matches) => Ok(arguments_of(&matches)),
        Err(error) => Err(error.kind()),
    }
}
