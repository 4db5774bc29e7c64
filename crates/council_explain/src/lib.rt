//! Why a game file was refused, and where: some lines of text for a person to read. No contract
//! speaks of their words, which are tested.
#![tactic(auto)]

mod file;
mod no_toml;
mod numbers;
mod place;
mod values;

use crate::file::{File, Lines};
use council_game::{GameFault, Memory};
use std::alloc::Global;
use toml::Table;

impl File {
    /// Says what a fault says of the file.
    fn explain(&self, lines: &mut Lines, bytes: &[u8], fault: GameFault) {
        let is_sheet = matches!(bytes, [b'P', b'K', 3, 4, ..] | [0xD0, 0xCF, 0x11, 0xE0, ..]);
        let unread = "a folder was named, or what can not be read: name a file that you may read";
        let long = "the file of a game of 40 members is much shorter: is it the right file?";
        let sheet =
            "that is a spreadsheet's own file: save the table as CSV, and council-tools from-table makes a game file of it";
        match fault {
            GameFault::Memory => {}
            GameFault::Read => lines.add(unread),
            GameFault::TooLong | GameFault::Text if is_sheet => lines.add(sheet),
            GameFault::TooLong => lines.add(long),
            GameFault::Text => self.explain_no_toml(lines, bytes),
            GameFault::Bracket => self.explain_misfit(lines),
            _ if self.error.is_some() => self.explain_bracket(lines, fault),
            GameFault::UnknownKey => self.explain_unknown_key(lines),
            GameFault::Title => self.explain_text(lines, 0),
            GameFault::Rules | GameFault::Quota | GameFault::QuotaRange => {
                self.explain_quotas(lines, fault);
            }
            GameFault::Ways => self.explain_ways(lines),
            GameFault::Members => self.explain_members(lines),
            GameFault::Name { member } => self.explain_text(lines, usize::from(member)),
            GameFault::SameName { member } => self.explain_same_name(lines, usize::from(member)),
            GameFault::Weight { member } => self.explain_weight(lines, usize::from(member)),
        }
    }
}

/// Explains why a game file was refused, and where, in lines of text.
///
/// Each line begins with two blanks and ends with LF; there is none if there is nothing to say. The
/// bytes are those of the file, and the fault is the one that `council_file::parse_game` answers
/// for them.
///
/// # Errors
///
/// Memory if an allocation was refused.
pub fn explain(alloc: Global, bytes: &[u8], fault: GameFault) -> Result<String, Memory> {
    // some editors write these before a text
    let bytes = bytes.strip_prefix(b"\xEF\xBB\xBF").unwrap_or(bytes);
    let text = String::from_utf8_lossy(alloc, bytes)?;
    let (table, error) = match toml::table_from_str(alloc, text.as_str()) {
        Ok(table) => (table, None),
        // memory: a growth was refused
        Err(error) if error.is_memory() => return Err(Memory),
        Err(error) => (Table::new(alloc), Some(error)),
    };
    let file = File {
        alloc,
        text,
        table,
        error,
    };
    let mut lines = Lines {
        text: String::new(alloc),
        failed: false,
    };
    file.explain(&mut lines, bytes, fault);
    if lines.failed {
        // memory: a growth was refused
        return Err(Memory);
    }
    Ok(lines.text)
}
