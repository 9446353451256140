//! String literals of Rust.
use crate::pieces::{Inside, Opened, Piece, hexadecimal, line_break};

/// Inside a string literal.
#[derive(Clone, Copy)]
pub(crate) struct RustString {
    is_raw: bool,
    /// How many `#` close it after the quote.
    hashes: usize,
}

/// How many `#` are at the front.
fn hashes_at(text: &str) -> usize {
    text.bytes().take_while(|byte| *byte == b'#').count()
}

/// What the character after a backslash stands for by itself.
fn simple(c: char) -> Option<char> {
    match c {
        '\\' | '\'' | '"' => Some(c),
        'n' => Some('\n'),
        'r' => Some('\r'),
        't' => Some('\t'),
        '0' => Some('\0'),
        _ => None,
    }
}

/// The number in braces that the text begins with, in hexadecimal digits with underscores, and how many bytes it takes.
fn braced(text: &str) -> Option<(u32, usize)> {
    let inside = text.strip_prefix('{')?;
    let (written, _) = inside.split_once('}')?;
    let mut code = 0u32;
    for c in written.chars() {
        if c != '_' {
            code = code.checked_mul(16)?.checked_add(c.to_digit(16)?)?;
        }
    }
    Some((code, written.len().saturating_add(2)))
}

impl RustString {
    /// The literal that the rest of a source begins with.
    pub(crate) fn open(rest: &str) -> Option<Opened<RustString>> {
        let unprefixed = rest
            .strip_prefix(|c: char| matches!(c, 'b' | 'c'))
            .unwrap_or(rest);
        let raw = unprefixed.strip_prefix('r');
        let hashed = raw.unwrap_or(unprefixed);
        let hashes = if raw.is_some() { hashes_at(hashed) } else { 0 };
        let inside = hashed.get(hashes..)?.strip_prefix('"')?;
        Some(Opened {
            bytes: rest.len().saturating_sub(inside.len()),
            inside: RustString {
                is_raw: raw.is_some(),
                hashes,
            },
        })
    }

    /// The character with this code, which so many bytes spell.
    fn coded(self, code: u32, bytes: usize) -> Option<Piece<RustString>> {
        Some(Piece::character(char::from_u32(code)?, bytes, self))
    }

    /// The escape that is this backslash with what follows. After one at the end of a line the whitespace goes too.
    fn escape(self, escaped: &str) -> Option<Piece<RustString>> {
        if line_break(escaped) > 0 {
            let is_blank = |c: char| matches!(c, ' ' | '\t' | '\n' | '\r');
            let blanks = escaped
                .len()
                .saturating_sub(escaped.trim_start_matches(is_blank).len());
            return Some(Piece::nothing(blanks.saturating_add(1), self));
        }
        let first = escaped.chars().next()?;
        if let Some(character) = simple(first) {
            return Some(Piece::character(character, 2, self));
        }
        let digits = escaped.get(first.len_utf8()..)?;
        match first {
            'x' => {
                let code = hexadecimal(digits, 2).filter(|code| *code < 0x80)?;
                self.coded(code, 4)
            }
            'u' => {
                let (code, bytes) = braced(digits)?;
                self.coded(code, bytes.saturating_add(2))
            }
            _ => None,
        }
    }

    /// Whether the rest begins with what closes the literal.
    fn is_closed(self, rest: &str) -> bool {
        rest.strip_prefix('"')
            .is_some_and(|after| hashes_at(after) >= self.hashes)
    }
}

impl Inside for RustString {
    fn piece(self, rest: &str) -> Option<Piece<RustString>> {
        if self.is_closed(rest) {
            return Some(Piece::end(self.hashes.saturating_add(1)));
        }
        let first = rest.chars().next()?;
        match first {
            '\\' if !self.is_raw => self.escape(rest.get(1..)?),
            '\r' if line_break(rest) == 1 => None,
            '\r' => Some(Piece::character('\n', 2, self)),
            _ => Some(Piece::character(first, first.len_utf8(), self)),
        }
    }
}
