//! Strings of JSON.
use crate::pieces::{Inside, Opened, Piece, hexadecimal};

/// Inside a string.
#[derive(Clone, Copy)]
pub(crate) struct JsonString;

/// What the character after a backslash stands for by itself.
fn simple(c: char) -> Option<char> {
    match c {
        '"' | '\\' | '/' => Some(c),
        'b' => Some('\x08'),
        'f' => Some('\x0C'),
        'n' => Some('\n'),
        'r' => Some('\r'),
        't' => Some('\t'),
        _ => None,
    }
}

/// The UTF-16 unit that an escape at the front is, `\u` and four digits.
fn unit(text: &str) -> Option<u32> {
    hexadecimal(text.strip_prefix("\\u")?, 4)
}

/// The character that one or two UTF-16 units at the front are, and how many bytes it takes.
fn coded(text: &str) -> Option<(char, usize)> {
    let first = unit(text)?;
    if let Some(character) = char::from_u32(first) {
        return Some((character, 6));
    }
    let second = unit(text.get(6..)?)?;
    if first >= 0xDC00 || !matches!(second, 0xDC00..=0xDFFF) {
        return None;
    }
    let high = first.saturating_sub(0xD800).saturating_mul(0x400);
    let low = second.saturating_sub(0xDC00);
    let code = high.saturating_add(low).saturating_add(0x1_0000);
    Some((char::from_u32(code)?, 12))
}

impl JsonString {
    /// The string that the rest of a source begins with.
    pub(crate) fn open(rest: &str) -> Option<Opened<JsonString>> {
        rest.starts_with('"').then_some(Opened {
            bytes: 1,
            inside: JsonString,
        })
    }
}

impl Inside for JsonString {
    fn piece(self, rest: &str) -> Option<Piece<JsonString>> {
        let first = rest.chars().next()?;
        match first {
            '"' => Some(Piece::end(1)),
            '\\' => {
                let escaped = rest.get(1..)?.chars().next()?;
                let (character, bytes) = match simple(escaped) {
                    Some(character) => (character, 2),
                    None => coded(rest)?,
                };
                Some(Piece::character(character, bytes, self))
            }
            _ => Some(Piece::character(first, first.len_utf8(), self)),
        }
    }
}
