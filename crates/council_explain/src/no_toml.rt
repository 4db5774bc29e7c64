//! What is said of a text that is not TOML, or breaks the grammar of bracket texts.
use crate::file::{File, Lines};
use crate::numbers::{DIGITS, GUIDE, explain_range};
use crate::values::MEMBERS;
use council_game::GameFault;

/// The blanks of a bracket text.
const BLANKS: &[char] = &[' ', '\t', '\r', '\n'];

/// What separates thousands or decimals somewhere: blanks too, of any width.
const SEPARATORS: &[char] = &[',', '.', ' ', '\'', '’', '\u{A0}', '\u{2009}', '\u{202F}'];

/// What may be in a number as people write it: a digit or a separator.
const NUMERALS: &[char] = &[
    '0', '1', '2', '3', '4', '5', '6', '7', '8', '9', ',', '.', ' ', '\'', '’', '\u{A0}',
    '\u{2009}', '\u{202F}',
];

/// Quotes that are none in TOML.
const CURLY: &[char] = &[
    '‘', '’', '‚', '‛', '“', '”', '„', '‟', '‹', '›', '«', '»', '´', '`',
];

/// Returns what follows a quota and weights.
///
/// # Errors
///
/// What follows where they break the grammar, and what is expected there.
fn skip_rule(text: &str) -> Result<&str, (&str, &'static str)> {
    let (mut rest, mut sign) = (text, ';');
    for _ in 0..=text.len() {
        let after = rest.trim_start_matches(DIGITS);
        let long = rest.get(18..).unwrap_or("");
        match rest.len().saturating_sub(after.len()) {
            0 => return Err((rest, "a weight is expected here, a whole number")),
            1..=18 => rest = after.trim_start_matches(BLANKS),
            _ => return Err((long, "a number has at most 18 digits")),
        }
        match rest.strip_prefix(sign) {
            Some(next) => rest = next.trim_start_matches(BLANKS),
            None if sign == ',' => break,
            None => return Err((rest, "a semicolon is expected here, after the quota")),
        }
        sign = ',';
    }
    Ok(rest)
}

/// Returns the number that stands between blanks and brackets.
fn number_in(text: &str) -> u64 {
    let digits = text.trim_matches([' ', '\t', '\r', '\n', '[', ']']);
    u64::from_str_radix(digits, 10).unwrap_or(0)
}

/// Returns what helps against a common slip, if a value breaks off before the rest of its line.
fn describe_slip(key: &str, value: &str, rest: &str) -> Option<&'static str> {
    let is_text = key.ends_with("name") || key.ends_with("title");
    let slash = "write \\\\ for a backslash";
    match rest {
        ";" => Some("a line ends without a semicolon"),
        "," => Some("a line ends without a comma"),
        _ if rest.contains('=') => Some("each key begins a line of its own"),
        _ if !is_text => None,
        _ if !value.starts_with(['"', '\'']) => Some("a text needs quotes, as in name = \"A\""),
        _ if value.strip_suffix(rest).unwrap_or("").ends_with('\\') => Some(slash),
        _ if rest.contains(['"', '\'']) => Some("write \\\" for a quote inside the quotes"),
        _ => None,
    }
}

/// Returns what helps if a line breaks off with this message; none if its value is to be read.
fn describe_break(message: &str, front: &str, key: &str, rest: &str) -> Option<&'static str> {
    let key = key.trim_start_matches(['[', ' ', '\t']);
    let is_of_member = key.starts_with("name") || key.starts_with("weight");
    match message {
        "number out of range" => Some(
            "a weight is at most 1000000000000, and a quota at most the total of its weights",
        ),
        _ if rest.starts_with(CURLY) && !front.ends_with(DIGITS) => Some(
            "write straight quotes: \" or '",
        ),
        "duplicate key" if !front.trim().is_empty() => None,
        "duplicate key" if is_of_member => Some(MEMBERS),
        "duplicate key" if key.starts_with("member") && !rest.starts_with("[[") => Some(MEMBERS),
        _ => None,
    }
}

impl File {
    /// Says where the text breaks the grammar of a bracket text.
    pub fn explain_misfit(&self, lines: &mut Lines) {
        let text = self.text.as_str().trim_end();
        let inside = text.trim_start_matches(BLANKS).get(1..).unwrap_or("");
        let comma = "a comma or a bracket is expected here, after the weight";
        let end = "nothing may follow the bracket";
        let (rest, expected) = match skip_rule(inside.trim_start_matches(BLANKS)) {
            Err(misfit) => misfit,
            Ok(rest) => match rest.strip_prefix(']') {
                Some(rest) => (rest.trim_start_matches(BLANKS), end),
                None => (rest, comma),
            },
        };
        self.explain_place(lines, text.len().saturating_sub(rest.len()), expected);
    }

    /// Says which number of a text that keeps to the grammar is out of its range.
    pub fn explain_bracket(&self, lines: &mut Lines, fault: GameFault) {
        let (quota, weights) = self.text.as_str().split_once(';').unwrap_or(("", ""));
        let (mut count, mut total) = (0usize, 0u64);
        for weight in weights.split(',') {
            count = count.saturating_add(1);
            total = total.saturating_add(number_in(weight));
        }
        let most = "at most 40 are allowed";
        match fault {
            GameFault::QuotaRange => explain_range(lines, 0, number_in(quota), total),
            GameFault::Members => lines.add_of("the text has ", count, " weights: ", most),
            _ => lines.add("the greatest weight is 1000000000000"),
        }
    }

    /// Says which bytes are no text, or else why the text of them is not TOML.
    pub fn explain_no_toml(&self, lines: &mut Lines, bytes: &[u8]) {
        let text = self.text.as_str().trim();
        let inside = text.trim_start_matches(['(', '{', '<', '[']);
        let inside = inside.trim_end_matches([')', '}', '>', ']']);
        let is_rule = matches!(skip_rule(inside.trim()), Ok(rest) if rest.is_empty());
        let message = "a byte there is not UTF-8: save the file as UTF-8";
        if matches!(bytes, [0xFF, 0xFE, ..] | [0xFE, 0xFF, ..]) {
            lines.add("the file is saved as UTF-16: save it as UTF-8");
        } else if let Err(error) = str::from_utf8(bytes) {
            self.explain_place(lines, error.valid_up_to(), message);
        } else if is_rule && text.starts_with('[') && text.len() == inside.len().saturating_add(2) {
            lines.add("a byte order mark stands before the bracket: save the file without one");
        } else if is_rule {
            lines.add_of("write it in square brackets: [", inside, "]", "");
        } else if text.trim_start_matches('[').trim_start().starts_with('{') {
            lines.add(
                "that looks like JSON: write lines such as quota = 51, and for each member [[member]], name = \"A\", weight = 50",
            );
        } else if let Some(error) = &self.error
            && !self.explain_table(lines)
        {
            let span = error.span().unwrap_or(0..0);
            self.explain_slip(lines, span.start, error.message());
        }
    }

    /// Says that the text looks like a table, and returns whether it does.
    ///
    /// A line of several columns comes before those of a game file.
    fn explain_table(&self, lines: &mut Lines) -> bool {
        let wanted = " between its columns: council-tools from-table makes a game file of it";
        for (index, line) in self.text.as_str().lines().enumerate() {
            if line.starts_with(['#', '[']) || line.contains('=') {
                break;
            }
            for (sign, name) in [('\t', "TABs"), (';', "semicolons"), (',', "commas")] {
                if line.contains(sign) {
                    lines.add_row(index.saturating_add(1), line);
                    lines.add_of("that looks like a table, with ", name, wanted, "");
                    return true;
                }
            }
        }
        false
    }

    /// Says where a text can't be read on, what the line has, why, and what helps.
    ///
    /// The column is in characters.
    fn explain_place(&self, lines: &mut Lines, offset: usize, message: &str) {
        let (line, front, row) = self.line_at(offset);
        let column = front.chars().count().saturating_add(1);
        lines.add_row(format_args!("{line}, column {column}"), row);
        lines.add(message);
        let is_lone = self.text.as_str().matches('.').count() == 1;
        let share = "a share of the total: write how many votes that is";
        match self.text.as_bytes().get(offset) {
            Some(b'%' | b'/') => lines.add(GUIDE),
            Some(b'.') if is_lone && front.trim_start() == "[0" => lines.add(share),
            Some(b'.') => self.explain_factor(lines, '.'),
            _ => {}
        }
    }

    /// Says where the text breaks off and why, and what helps against a common slip.
    fn explain_slip(&self, lines: &mut Lines, offset: usize, message: &str) {
        self.explain_place(lines, offset, message);
        let (_, front, row) = self.line_at(offset);
        let row = row.split('#').next().unwrap_or("");
        let rest = row.get(front.len()..).unwrap_or("").trim();
        let (key, value) = row.split_once('=').unwrap_or((row, ""));
        let (key, value) = (key.trim(), value.trim_start_matches('=').trim());
        if let Some(line) = describe_break(message, front, key, rest) {
            lines.add(line);
        } else if !front.contains('=') || key.contains('{') || value.starts_with('[') {
            // said by the message
        } else if let Some(line) = describe_slip(key, value, rest) {
            lines.add(line);
        } else if key.ends_with("quota") || key.ends_with("weight") {
            self.explain_digits(lines, value);
        }
    }

    /// Says what helps with the value of a quota or a weight.
    fn explain_digits(&self, lines: &mut Lines, value: &str) {
        let after = value.trim_start_matches(NUMERALS);
        let number = value.strip_suffix(after).unwrap_or("");
        let digits = number.trim_end_matches([',', ' ']);
        let is_long = digits.len() > 1 && digits.starts_with('0');
        let whole = "a quota or a weight is a whole number, in digits, without quotes";
        let unit = "a number has no unit: write its digits only";
        if number.contains(", ") {
            // several numbers
        } else if digits.contains(SEPARATORS) {
            self.explain_separators(lines, digits);
        } else if is_long && let Ok(whole) = u64::from_str_radix(digits, 10) {
            lines.add_of("a number has no leading zero: write ", whole, "", "");
        } else if !after.starts_with(['%', '/', ';', '_']) {
            // those are said with the place, or by the message
            lines.add(if digits.is_empty() { whole } else { unit });
        }
    }

    /// Says what helps with a number that has separators.
    fn explain_separators(&self, lines: &mut Lines, number: &str) {
        let (mut signs, mut is_thousands) = (0usize, true);
        for part in number.trim_start_matches(DIGITS).split(SEPARATORS) {
            is_thousands = is_thousands && (signs == 0 || part.len() == 3);
            signs = signs.saturating_add(1);
        }
        let has_comma = number.contains(',');
        if is_thousands && (!has_comma || 2 < signs) {
            lines.add("write a number without separators between thousands, as in 1200000");
        } else if !has_comma {
            lines.add("write a number in digits only");
        } else {
            lines.add("a number may have no comma");
            let end = number.rsplit(',').next().unwrap_or("");
            let sign = if end.contains('.') { '.' } else { ',' };
            if number.matches(sign).count() == 1 {
                self.explain_factor(lines, sign);
            }
        }
    }
}
