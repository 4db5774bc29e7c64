//! Where a key of a file begins, or an element of an array, in one pass over the text.
use std::alloc::Global;
use toml_parser::text::skip_blank;
use toml_parser::{Key, ParseError, dotted_key, quoted, starts_string};

/// What a dotted key is: the key of the top, that of the element, or another one below the top.
#[derive(Clone, Copy)]
enum Kind {
    Top,
    Wanted,
    Below,
    Other,
}

/// Returns whether a dotted key has this part at an index.
fn has_part(key: &Key, index: usize, part: &str) -> bool {
    let name = match key.path.get(index) {
        Some(name) => name.as_str(),
        None if index == key.path.len() => key.last.as_str(),
        None => return false,
    };
    name == part
}

/// Returns the text from an offset on, without the blanks and comments at its front.
fn rest_at(text: &str, at: usize) -> &str {
    skip_blank(text.get(at..).unwrap_or(""), true)
}

/// Reads a key, whose headers gave `given` parts; returns its kind, and its length.
fn read_key(
    alloc: Global,
    text: &str,
    top: &str,
    wanted: Option<&str>,
    given: usize,
) -> Result<(Kind, usize), ParseError> {
    let (key, after) = dotted_key(alloc, text.trim_start_matches(['[', ' ', '\t']))?;
    let after = after.trim_start_matches([']', '=', ' ', '\t']);
    let kind = if given > 1 || given == 0 && !has_part(&key, 0, top) {
        Kind::Other
    } else if given == 0 && key.path.is_empty() {
        Kind::Top
    } else if has_part(&key, 1usize.saturating_sub(given), wanted.unwrap_or("")) {
        Kind::Wanted
    } else {
        Kind::Below
    };
    Ok((kind, text.len().saturating_sub(after.len())))
}

/// Returns how long a value is, up to a comma, a bracket or the end of its line.
fn value_len(alloc: Global, text: &str) -> Result<usize, ParseError> {
    let mut depth = 0usize;
    let mut until = 0usize;
    for (at, byte) in text.as_bytes().iter().enumerate() {
        if at < until {
            continue;
        }
        let rest = text.get(at..).unwrap_or("");
        match *byte {
            b',' | b']' | b'}' | b'\n' | b'#' if depth == 0 => return Ok(at),
            b'[' | b'{' => depth = depth.saturating_add(1),
            b']' | b'}' => depth = depth.saturating_sub(1),
            b'#' => until = text.len().saturating_sub(skip_blank(rest, true).len()),
            _ if starts_string(rest) => {
                let (_, after) = quoted(alloc, rest)?;
                until = text.len().saturating_sub(after.len());
            }
            _ => {}
        }
    }
    Ok(text.len())
}

/// Returns how long a value is, with the comma and the blanks after it.
fn item_len(alloc: Global, text: &str) -> Result<usize, ParseError> {
    let rest = rest_at(text, value_len(alloc, text)?).trim_start_matches(',');
    Ok(text.len().saturating_sub(skip_blank(rest, true).len()))
}

/// Returns the offset of a key of the top, an element of it or a key of that.
///
/// The text is TOML. Elements are counted from 1; 0 is the key of the top. A key that the element
/// lacks is where the element begins.
///
/// # Errors
///
/// Memory if an allocation was refused; or the text is not TOML.
pub fn find(
    alloc: Global,
    text: &str,
    top: &str,
    element: usize,
    key: Option<&str>,
) -> Result<Option<usize>, ParseError> {
    let (mut at, mut begun, mut found) = (0usize, 0usize, None);
    // how many parts headers give to the keys below them; 2 if those are not of the element
    let mut given = 0usize;
    for _ in 0..text.len() {
        let rest = rest_at(text, at);
        if rest.is_empty() || rest.starts_with('}') {
            break;
        }
        let is_header = rest.starts_with('[');
        given = if is_header { 0 } else { given };
        at = text.len().saturating_sub(rest.len());
        let (kind, len) = read_key(alloc, rest, top, key, given)?;
        let after = rest.get(len..).unwrap_or("");
        match kind {
            Kind::Other => {}
            _ if element == 0 => return Ok(Some(at)),
            Kind::Wanted if key.is_some() && begun == element => return Ok(Some(at)),
            Kind::Top if rest.starts_with("[[") => {
                begun = begun.saturating_add(1);
                found = if begun == element { Some(at) } else { found };
            }
            _ => {}
        }
        if is_header {
            given = if matches!(kind, Kind::Top) { 1 } else { 2 };
        }
        at = at.saturating_add(len);
        if matches!(kind, Kind::Top) && after.starts_with('[') {
            at = text.len().saturating_sub(rest_at(after, 1).len());
            for _ in 1..element {
                at = at.saturating_add(item_len(alloc, rest_at(text, at))?);
            }
            // the keys of the element follow, if it is a table
            (given, begun, found) = (1, element, Some(at));
            if !rest_at(text, at).starts_with('{') {
                break;
            }
            at = at.saturating_add(1);
        } else {
            at = at.saturating_add(item_len(alloc, after)?);
        }
    }
    Ok(found)
}
