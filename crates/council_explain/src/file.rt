//! A game file, and the lines that explain a fault of it.
use crate::place::find;
use council_game::sanitize;
use std::alloc::Global;
use std::fmt::{Display, Write};
use toml::de::Error;
use toml::{Table, Value};

/// Lines, each begun with two blanks and ended with LF.
#[derive(Drop)]
pub struct Lines {
    pub text: String,
    /// Whether a growth was refused. Then some of them are missing.
    pub failed: bool,
}

/// A game file: its text, and the tree of it, which is empty after an error.
#[derive(Drop)]
pub struct File {
    pub alloc: Global,
    pub text: String,
    pub table: Table,
    pub error: Option<Error>,
}

impl Lines {
    /// Adds a line.
    pub fn add(&mut self, line: impl Display + Drop) {
        // memory: told at the end
        if writeln!(self.text, "  {line}").is_err() {
            self.failed = true;
        }
    }

    /// Adds a line of words, a value that is cut off if it is long, and words.
    pub fn add_of(&mut self, before: &str, what: impl Display + Drop, after: &str, wanted: &str) {
        self.add(format_args!("{before}{}{after}{wanted}", sanitize(what, 100)));
    }

    /// Adds a line that shows one of the file.
    pub fn add_row(&mut self, place: impl Display + Drop, row: &str) {
        self.add(format_args!("line {place}: {}", sanitize(row, 100)));
    }
}

/// Returns the elements of an array, and none of any other value.
pub fn elements_of(value: Option<&Value>) -> &[Value] {
    match value {
        Some(Value::Array(items)) => items.as_slice(),
        _ => &[],
    }
}

impl File {
    /// Returns the elements of the array at a key of the top.
    pub fn elements(&self, key: &str) -> &[Value] {
        elements_of(self.table.get(key))
    }

    /// Returns the table of a member, from 1, or that of the file at 0.
    pub fn table_of(&self, member: usize) -> Option<&Table> {
        if member == 0 {
            return Some(&self.table);
        }
        match self.elements("member").get(member.wrapping_sub(1)) {
            Some(Value::Table(table)) => Some(table),
            _ => None,
        }
    }

    /// Returns the value of a key of a member, or of the top.
    pub fn value_of(&self, member: usize, key: &str) -> Option<&Value> {
        self.table_of(member)?.get(key)
    }

    /// Returns the number of an offset's line, its text up to there, and its text.
    pub fn line_at(&self, offset: usize) -> (usize, &str, &str) {
        let before = self.text.as_str().get(..offset).unwrap_or("");
        let ends = before.matches('\n').count();
        let front = before.rsplit('\n').next().unwrap_or("");
        let row = self.text.as_str().lines().nth(ends).unwrap_or("");
        (ends.saturating_add(1), front, row)
    }

    /// Says which line has what `find` finds.
    pub fn explain_line(&self, lines: &mut Lines, top: &str, element: usize, key: Option<&str>) {
        match find(self.alloc, self.text.as_str(), top, element, key) {
            Ok(Some(offset)) => {
                let (line, _, row) = self.line_at(offset);
                lines.add_row(line, row.trim());
            }
            Ok(None) => {}
            // memory: told at the end
            Err(_) => lines.failed = true,
        }
    }

    /// Says which line has a key of a member, or of the top.
    pub fn explain_key(&self, lines: &mut Lines, member: usize, key: &str) {
        let top = if member == 0 { key } else { "member" };
        self.explain_line(lines, top, member, Some(key));
    }
}
