//! String literals of Python.
use crate::pieces::{Inside, Opened, Piece, hexadecimal, line_break};

/// The quotes of a literal, those that begin with others first.
static QUOTES: [&str; 4] = ["'''", "\"\"\"", "'", "\""];

/// The prefixes of literals that are texts or bytes, in lower case.
static PREFIXES: [&str; 6] = ["", "r", "u", "b", "br", "rb"];

/// Inside a string literal.
#[derive(Clone, Copy)]
pub(crate) struct PythonString {
    quote: &'static str,
    is_raw: bool,
    is_bytes: bool,
    /// Whether it is raw, and the last character was a backslash, so that a quote does not end it.
    is_after_backslash: bool,
}

/// What the character after a backslash stands for by itself.
fn simple(c: char) -> Option<char> {
    match c {
        '\\' | '\'' | '"' => Some(c),
        'a' => Some('\x07'),
        'b' => Some('\x08'),
        'f' => Some('\x0C'),
        'n' => Some('\n'),
        'r' => Some('\r'),
        't' => Some('\t'),
        'v' => Some('\x0B'),
        _ => None,
    }
}

/// How many octal digits are at the front, at most three.
fn octal_digits(text: &str) -> usize {
    let is_octal = |byte: &u8| matches!(*byte, b'0'..=b'7');
    text.bytes().take(3).take_while(is_octal).count()
}

impl PythonString {
    /// The literal that the rest of a source begins with.
    pub(crate) fn open(rest: &str) -> Option<Opened<PythonString>> {
        let letters = rest.find(|c: char| !c.is_ascii_alphabetic())?;
        let (prefix, quoted) = rest.split_at_checked(letters)?;
        if !PREFIXES
            .iter()
            .any(|known| prefix.eq_ignore_ascii_case(known))
        {
            return None;
        }
        let quote = QUOTES.iter().find(|quote| quoted.starts_with(**quote))?;
        Some(Opened {
            bytes: letters.saturating_add(quote.len()),
            inside: PythonString {
                quote,
                is_raw: prefix.contains(|c: char| matches!(c, 'r' | 'R')),
                is_bytes: prefix.contains(|c: char| matches!(c, 'b' | 'B')),
                is_after_backslash: false,
            },
        })
    }

    /// A character that the bytes spell, if the literal may have it.
    fn spelled(self, character: char, bytes: usize) -> Option<Piece<PythonString>> {
        if self.is_bytes && !character.is_ascii() {
            return None;
        }
        let after = PythonString {
            is_after_backslash: self.is_raw && character == '\\' && !self.is_after_backslash,
            ..self
        };
        Some(Piece::character(character, bytes, after))
    }

    /// The character with this code, which so many bytes spell.
    fn coded(self, code: u32, bytes: usize) -> Option<Piece<PythonString>> {
        self.spelled(char::from_u32(code)?, bytes)
    }

    /// The escape that is this backslash with what follows. A backslash that begins none stands for itself.
    fn escape(self, escaped: &str) -> Option<Piece<PythonString>> {
        let broken = line_break(escaped);
        if broken > 0 {
            return Some(Piece::nothing(broken.saturating_add(1), self));
        }
        let first = escaped.chars().next()?;
        if let Some(character) = simple(first) {
            return self.spelled(character, 2);
        }
        let digits = escaped.get(first.len_utf8()..)?;
        match first {
            '0'..='7' => {
                let count = octal_digits(escaped);
                let code = u32::from_str_radix(escaped.get(..count)?, 8).ok()?;
                self.coded(code, count.saturating_add(1))
            }
            'x' => self.coded(hexadecimal(digits, 2)?, 4),
            'u' if !self.is_bytes => self.coded(hexadecimal(digits, 4)?, 6),
            'U' if !self.is_bytes => self.coded(hexadecimal(digits, 8)?, 10),
            'N' if !self.is_bytes => None,
            _ => self.spelled('\\', 1),
        }
    }
}

impl Inside for PythonString {
    fn piece(self, rest: &str) -> Option<Piece<PythonString>> {
        if !self.is_after_backslash && rest.starts_with(self.quote) {
            return Some(Piece::end(self.quote.len()));
        }
        let first = rest.chars().next()?;
        if first == '\\' && !self.is_raw {
            return self.escape(rest.get(1..)?);
        }
        let broken = line_break(rest);
        if broken == 0 {
            return self.spelled(first, first.len_utf8());
        }
        if self.quote.len() == 1 && !self.is_after_backslash {
            return None;
        }
        self.spelled('\n', broken)
    }
}
