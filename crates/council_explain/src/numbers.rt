//! Numbers as people write them, and what turns those that are not whole into whole ones.
use crate::file::{File, Lines};
use std::fmt::Display;
use toml::Value;

/// The digits of a number.
pub const DIGITS: &[char] = &['0', '1', '2', '3', '4', '5', '6', '7', '8', '9'];

/// What is said of a percentage and of a fraction.
pub const GUIDE: &str = "docs/GUIDE.md says how percentages and fractions become whole numbers";

/// Returns how a line tells the kind of a value, after the value.
pub fn kind(value: &Value) -> &'static str {
    match value {
        Value::String(_) => " is a text: ",
        Value::Integer(_) => " is a whole number: ",
        Value::Float(_) => " is a number with a point: ",
        Value::Boolean(_) => " is true or false: ",
        Value::Datetime(_) => " is a date or a time: ",
        Value::Array(_) => " is an array: ",
        Value::Table(_) => " is a table: ",
    }
}

/// Returns the most decimals of a number: without zeros at their end, and with them.
///
/// The comma of an array counts for nothing, nor does what is in a comment or before a quote.
fn most_decimals(text: &str, sign: char) -> (usize, usize) {
    let (mut decimals, mut most) = (0usize, 0usize);
    for line in text.lines() {
        let line = line.split('#').next().unwrap_or("");
        let line = line.rsplit('"').next().unwrap_or("");
        let is_array = sign == ',' && line.contains('[');
        let mut is_number = false;
        for part in line.split(sign) {
            let rest = part.trim_start_matches(DIGITS);
            if is_number && !rest.starts_with(['e', 'E']) {
                let digits = part.strip_suffix(rest).unwrap_or("");
                decimals = decimals.max(digits.trim_end_matches('0').len());
                most = most.max(digits.len());
            }
            is_number = !is_array && part.ends_with(DIGITS);
        }
    }
    (decimals, most)
}

/// Says that a quota is not within its total; 0 is the only rule, 1 the first.
pub fn explain_range(lines: &mut Lines, rule: usize, quota: impl Display + Drop, total: u64) {
    let names = ["the quota", "quota 1", "quota 2", "quota 3", "quota 4"];
    let name = names.get(rule).unwrap_or(&"a quota");
    lines.add(format_args!(
        "{name} is {quota}, and the weights add up to {total}: a quota is from 1 to that total"
    ));
}

impl File {
    /// Says what a value is that is no quota or weight, and what helps.
    pub fn explain_number(&self, lines: &mut Lines, value: &Value, wanted: &str) {
        if let Value::Integer(weight) = value {
            let range = "a weight is from 0 to 1000000000000";
            return lines.add_of("", weight, " is out of range: ", range);
        }
        lines.add_of("", value, kind(value), wanted);
        match value {
            Value::Float(number) => {
                let is_whole = number.fract() == 0.0 && 0.0 <= *number && *number <= 1e12;
                if is_whole && most_decimals(self.text.as_str(), '.').0 == 0 {
                    lines.add_of("write ", number.abs(), "", "");
                }
                self.explain_factor(lines, '.');
            }
            Value::String(text) if text.contains(['%', '/']) => lines.add(GUIDE),
            _ => {}
        }
    }

    /// Says by which power of ten the decimals of the file become whole numbers.
    ///
    /// It says nothing if there are no decimals, or more than the greatest weight has zeros. Three
    /// decimals may also be thousands.
    pub fn explain_factor(&self, lines: &mut Lines, sign: char) {
        let (decimals, digits) = most_decimals(self.text.as_str(), sign);
        if let (1.., Some(factor)) = (decimals, "1000000000000".get(..=decimals)) {
            lines.add_of("multiply all weights and the quota by ", factor, "", "");
        }
        if digits == 3 {
            lines.add("leave out a point or a comma that separates thousands");
        }
    }
}
