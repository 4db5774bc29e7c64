//! What the program says on standard error, beside its progress.
ghost use Rattle.std.specs.Prelude.{◌↔◌, ◌≡◌, IsSome, true};
ghost use Rattle.std.specs.Process.{exit_status};
ghost use Rattle.council_game.specs.Game.{has_low_quotas};

use crate::words::Arguments;
use council_game::{Game, sanitize};
use std::fmt::Display;
use std::io;
use std::process::ExitCode;

/// The longest path that is shown, in characters.
const LONGEST_PATH: usize = 4096;

/// Prints a line on standard error, after the name of the program.
pub fn say(rt: &impl Eprint, line: impl Display + Drop) {
    let _ = eprintln!(rt; "council: {line}");
}

/// Prints a line on standard error that says more of the line before.
pub fn say_more(rt: &impl Eprint, line: impl Display + Drop) {
    let _ = eprintln!(rt; "  {line}");
}

/// Reports that the file could not be opened, and returns the status.
///
/// It says why, or on a terminal which option says why.
pub fn report_unopened(
    rt: &impl Eprint,
    arguments: &Arguments<'_>,
    is_terminal: bool,
    error: io::Error,
) -> ExitCode
    ensures { exit_status result ≡ 1 }
{
    say(rt, "the game file cannot be opened");
    if arguments.explain {
        let path = sanitize(arguments.file.unwrap_or(""), LONGEST_PATH);
        say_more(rt, format_args!("{path}: {error}"));
    } else if is_terminal {
        say_more(rt, "--explain says why");
    }
    ExitCode::from(1)
}

/// Remarks on a text that a terminal may not show unchanged; `what` is a name for it.
fn remark_on_text(rt: &(impl Eprint + AllocGlobal), text: &str, what: impl Display + Drop) {
    // memory: a remark is left out
    if let Ok(shown) = format!(in rt.alloc(); "{}", sanitize(text, text.len()))
        && shown.as_str() != text
    {
        say(
            rt,
            format_args!("{what} has characters that move a terminal or show nothing"),
        );
    }
}

/// Says on standard error which names a terminal may not show as they are.
pub fn remark_on_names(rt: &(impl Eprint + AllocGlobal), game: &Game) {
    if let Some(title) = game.title() {
        remark_on_text(rt, title, "the title");
    }
    for member in 0..game.members() {
        let what = format_args!("the name of member {}", member + 1);
        remark_on_text(rt, game.name(member), what);
    }
}

/// Names the columns of a member's line, if the report goes to a terminal.
pub fn remark_on_columns(arguments: &Arguments<'_>) -> Option<&'static str> {
    if !arguments.is_shown {
        None
    } else if arguments.only_swings {
        Some(
            "a member's line has its name, weight and swings, and as fractions and as decimals the Banzhaf index, Penrose's measure, the Shapley-Shubik index and Coleman's powers to prevent and to initiate action; council-tools table prints headings",
        )
    } else if arguments.swings {
        Some(
            "a member's line has its name, weight and coalitions, as fractions and as decimals the Deegan-Packel index and the public good index, its swings, and likewise the Banzhaf index, Penrose's measure, the Shapley-Shubik index and Coleman's powers to prevent and to initiate action; council-tools table prints headings",
        )
    } else {
        Some(
            "a member's line has its name, weight and coalitions, and as fractions and as decimals the Deegan-Packel index and the public good index; council-tools table prints headings",
        )
    }
}

/// Remarks on commas between thousands in a bracket text: they end weights.
///
/// A weight after a comma has three digits, and begins with 0, or else a blank is after another
/// comma. The bytes are those of the file.
pub fn remark_on_thousands(bytes: &[u8]) -> Option<&'static str> {
    let text = str::from_utf8(bytes).unwrap_or("").trim_start();
    let mut is_first = true;
    let mut is_close = false;
    let mut is_apart = false;
    for part in text.split(',') {
        let number = part.trim_start();
        let rest = number.trim_start_matches(['0', '1', '2', '3', '4', '5', '6', '7', '8', '9']);
        let has_three = number.len().saturating_sub(rest.len()) == 3;
        let has_zero = has_three && number.starts_with('0');
        let is_near = number.len() == part.len();
        is_close = is_close || !is_first && (has_zero || has_three && is_near);
        is_apart = is_apart || !is_first && (has_zero || !is_near);
        is_first = false;
    }
    if text.starts_with('[') && is_close && is_apart {
        Some("a comma ends a weight, also between thousands: 1,000 is read as 1 and 0")
    } else {
        None
    }
}

/// Remarks on quotas of at most half of their totals.
///
/// If those of all rules are, the game may be improper: two coalitions without a common member
/// could both win (Felsenthal and Machover 1998).
pub fn remark_on_quotas(game: &Game) -> Option<&'static str>
    ensures { IsSome result ↔ has_low_quotas game.now ≡ true }
{
    if !game.has_low_quotas() {
        None
    } else if game.rules() == 1 {
        Some(
            "the quota is at most half of the total, so two coalitions without a common member could win",
        )
    } else if game.ways() == 1 {
        Some(
            "each quota is at most half of its total, so two coalitions without a common member could win",
        )
    } else {
        Some(
            "each quota of a way is at most half of its total, so two coalitions without a common member could win",
        )
    }
}
