//! Text from outside, made safe to show in a line on a terminal.
use std::fmt::{self, Display, Formatter, Write};

/// The characters that show nothing, as ranges, first and last.
///
/// They are those that Unicode lists as default ignorable code points, and then separators of
/// lines, the marks of annotations, a blank of Braille, and codes that are no characters.
const INVISIBLE: &[(u32, u32)] = &[
    (0xAD, 0xAD),
    (0x34F, 0x34F),
    (0x61C, 0x61C),
    (0x115F, 0x1160),
    (0x17B4, 0x17B5),
    (0x180B, 0x180F),
    (0x200B, 0x200F),
    (0x202A, 0x202E),
    (0x2060, 0x206F),
    (0x3164, 0x3164),
    (0xFE00, 0xFE0F),
    (0xFEFF, 0xFEFF),
    (0xFFA0, 0xFFA0),
    (0xFFF0, 0xFFF8),
    (0x1BCA0, 0x1BCA3),
    (0x1D173, 0x1D17A),
    (0xE0000, 0xE0FFF),
    (0x2028, 0x2029),
    (0xFFF9, 0xFFFB),
    (0x2800, 0x2800),
    (0xFDD0, 0xFDEF),
];

/// Returns whether a character can do harm in a line on a terminal.
///
/// It moves the terminal, ends a line, turns the direction of writing, shows nothing, or is a blank
/// of another width.
fn is_harmful(character: char) -> bool {
    let code = u32::from(character);
    character.is_control()
        || character.is_whitespace()
        || code & 0xFFFE == 0xFFFE
        || INVISIBLE
            .iter()
            .any(|(first, last)| *first <= code && code <= *last)
}

/// A writer that passes on `left` characters, dots instead of the next one, and no more.
#[derive(Drop)]
struct Cut<'a, W> {
    writer: &'a mut W,
    left: Option<usize>,
}

impl<W: Write> Write for Cut<'_, W> {
    fn write_str(&mut self, text: &str) -> fmt::Result {
        for character in text.chars() {
            let Some(left) = self.left else {
                break;
            };
            self.left = left.checked_sub(1);
            if left == 0 {
                return self.writer.write_str("...");
            }
            let shown = if is_harmful(character) {
                ' '
            } else {
                character
            };
            self.writer.write_char(shown)?;
        }
        Ok(())
    }
}

/// Text from outside, safe to show.
#[derive(Drop)]
pub struct Sanitized<T> {
    what: T,
    most: usize,
}

/// Makes text from outside safe to show, at most `most` characters of it.
///
/// It shows a blank instead of each character that moves a terminal, ends a line, turns the
/// direction of writing, or shows nothing.
pub fn sanitize<T: Display>(what: T, most: usize) -> Sanitized<T> {
    Sanitized { what, most }
}

impl<T: Display> Display for Sanitized<T> {
    fn fmt<W: Write>(&self, f: &mut Formatter<W>) -> fmt::Result {
        let mut cut = Cut {
            writer: f,
            left: Some(self.most),
        };
        write!(cut, "{}", self.what)
    }
}
