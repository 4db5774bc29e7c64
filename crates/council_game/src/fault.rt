//! Why a game was refused.
ghost use Rattle.std.specs.Prelude.{◌≡◌, ◌≤◌, ◌++◌, Some, decimal, length};
ghost use Rattle.std.specs.Fmt.InlineText.{inline_text};
ghost use Rattle.council_game.specs.declared.fault.GameFault.TheVariants.{Memory};
ghost use Rattle.council_game.specs.Faults.{number_of, text_of};

use crate::Memory;
use itoa::Buffer;
use std::alloc::{AllocError, AllocFailed};
use std::fmt;
use std::fmt::InlineText;
use thiserror::Error;

/// The first fault of a game. Members are numbered from 1, in the order of the file.
#[derive(Clone, Copy, Debug, Error, PartialEq, Eq)]
pub enum GameFault {
    /// A read of the game file answered an error.
    Read,
    /// More than 65,536 bytes.
    TooLong,
    /// Not UTF-8, or not TOML; also an integer that does not fit 64 bits, and arrays or inline
    /// tables that are nested more than 80 deep.
    Text,
    /// A key that no game file has.
    UnknownKey,
    /// Not a string of at most 200 bytes without control characters.
    Title,
    /// No quota, or not an integer.
    Quota,
    /// Not a list of 1 to 40 members.
    Members,
    /// Not a string of 1 to 64 bytes without control characters.
    Name { member: u8 },
    /// A name that an earlier member has.
    SameName { member: u8 },
    /// Not an integer from 0 to 10^12.
    Weight { member: u8 },
    /// A quota below 1, or above the total of its rule's weights.
    QuotaRange,
    /// A bracket text that breaks its grammar.
    Bracket,
    /// Both `quota` and `quotas`, `quotas` that is no list of 1 to 4 integers, `weights` beside
    /// `quota`, or `weight` beside `quotas`.
    Rules,
    /// `ways` that are no ways to win by the rules of `quotas`.
    Ways,
    /// A growth was refused.
    Memory,
}

impl GameFault {
    /// Returns the number of the fault, from 1 to 15, for tables and tests.
    ///
    /// It is not the order of the checks, and no status of the program.
    pub fn number(self) -> u8
        ensures { result ≡ number_of self }
    {
        match self {
            GameFault::Read => 1,
            GameFault::TooLong => 2,
            GameFault::Text => 3,
            GameFault::UnknownKey => 4,
            GameFault::Title => 5,
            GameFault::Quota => 6,
            GameFault::Members => 7,
            GameFault::Name { .. } => 8,
            GameFault::SameName { .. } => 9,
            GameFault::Weight { .. } => 10,
            GameFault::QuotaRange => 11,
            GameFault::Bracket => 12,
            GameFault::Rules => 13,
            GameFault::Memory => 14,
            GameFault::Ways => 15,
        }
    }

    /// Returns the text of the fault.
    pub fn text(self) -> InlineText<100>
        ensures { inline_text result ≡ text_of self }
    {
        match self {
            GameFault::Read => short_text("the game file cannot be read"),
            GameFault::TooLong => short_text("the game file is longer than 65536 bytes"),
            GameFault::Text => short_text("the game file is not TOML"),
            GameFault::UnknownKey => short_text("unknown key"),
            GameFault::Title => short_text("bad title"),
            GameFault::Quota => short_text("bad quota"),
            GameFault::Members => short_text("bad member list"),
            GameFault::Name { member } => member_text("bad name of member ", member, ""),
            GameFault::SameName { member } => member_text("member ", member, " repeats a name"),
            GameFault::Weight { member } => member_text("bad weight of member ", member, ""),
            GameFault::QuotaRange => short_text("quota out of range"),
            GameFault::Bracket => short_text("bad bracket text"),
            GameFault::Rules => short_text("bad rules"),
            GameFault::Memory => short_text("out of memory"),
            GameFault::Ways => short_text("bad ways"),
        }
    }
}

/// Returns a text of at most 40 bytes.
#[tactic(auto, using(crate::proofs::Cut::cut_to_fits))]
pub fn short_text(text: &str) -> InlineText<100>
    requires { length text.now ≤ 40 }
    ensures { inline_text result ≡ text.now }
{
    InlineText::new().and_str(text, 40)
}

/// Returns a text with the number of a member in it.
fn member_text(before: &str, member: u8, after: &str) -> InlineText<100>
    requires before { length before.now ≤ 21 }
    requires after { length after.now ≤ 15 }
    ensures { inline_text result ≡ before.now ++ decimal member ++ after.now }
{
    let mut digits = Buffer::new();
    short_text(before)
        .and_str(digits.format(member), 40)
        .and_str(after, 15)
}

/// The text of each fault. (By hand: docs/DECISIONS.md says why.)
impl fmt::Display for GameFault {
    ghost output = { λ fault. Some (text_of fault) };

    fn fmt<W: fmt::Write>(&self, f: &mut fmt::Formatter<W>) -> fmt::Result {
        f.write_str(self.text().as_str())
    }
}

impl From<AllocError> for GameFault {
    ghost from_gives = { λ _ e. e ≡ Memory };

    fn from(_e: AllocError) -> GameFault {
        GameFault::Memory
    }
}

impl<T: Drop> From<AllocFailed<T>> for GameFault {
    ghost from_gives = { λ _ e. e ≡ Memory };

    fn from(_e: AllocFailed<T>) -> GameFault {
        GameFault::Memory
    }
}

impl From<Memory> for GameFault {
    ghost from_gives = { λ _ e. e ≡ Memory };

    fn from(_e: Memory) -> GameFault {
        GameFault::Memory
    }
}
