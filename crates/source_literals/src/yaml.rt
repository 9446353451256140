//! Scalars of YAML.
use crate::pieces::{Inside, Opened, Piece, hexadecimal};
use crate::yaml_block::YamlBlock;
use crate::yaml_plain::plain_len;

/// Inside a scalar.
#[derive(Clone, Copy)]
pub(crate) enum YamlScalar {
    /// In a plain one, which has so many bytes left.
    Plain { left: usize },
    /// Between single quotes.
    Single,
    /// Between double quotes.
    Double,
    /// In a literal block.
    Block(YamlBlock),
}

/// Whether the character ends a line in YAML.
pub(crate) fn is_break(c: char) -> bool {
    matches!(c, '\n' | '\r' | '\u{85}' | '\u{2028}' | '\u{2029}')
}

/// What the character after a backslash stands for by itself.
fn simple(c: char) -> Option<char> {
    match c {
        '"' | '\\' | '/' | ' ' | '\t' => Some(c),
        '0' => Some('\0'),
        'a' => Some('\x07'),
        'b' => Some('\x08'),
        't' => Some('\t'),
        'n' => Some('\n'),
        'v' => Some('\x0B'),
        'f' => Some('\x0C'),
        'r' => Some('\r'),
        'e' => Some('\x1B'),
        'N' => Some('\u{85}'),
        '_' => Some('\u{A0}'),
        'L' => Some('\u{2028}'),
        'P' => Some('\u{2029}'),
        _ => None,
    }
}

/// How many digits the code of a character has after a backslash and this letter.
fn code_digits(letter: char) -> Option<usize> {
    match letter {
        'x' => Some(2),
        'u' => Some(4),
        'U' => Some(8),
        _ => None,
    }
}

/// The escape that the rest begins with, between double quotes.
fn escape(rest: &str) -> Option<Piece<YamlScalar>> {
    let escaped = rest.get(1..)?;
    let first = escaped.chars().next()?;
    if let Some(character) = simple(first) {
        return Some(Piece::character(character, 2, YamlScalar::Double));
    }
    let digits = code_digits(first)?;
    let code = hexadecimal(escaped.get(1..)?, digits)?;
    let bytes = digits.saturating_add(2);
    Some(Piece::character(char::from_u32(code)?, bytes, YamlScalar::Double))
}

impl YamlScalar {
    /// The scalar that the rest of a source begins with; `is_flow` says that it is inside braces or brackets.
    pub(crate) fn open(rest: &str, is_flow: bool) -> Option<Opened<YamlScalar>> {
        let (bytes, inside) = match rest.chars().next()? {
            '\'' => (1, YamlScalar::Single),
            '"' => (1, YamlScalar::Double),
            '|' if !is_flow => {
                let opened = YamlBlock::open(rest)?;
                (opened.bytes, YamlScalar::Block(opened.inside))
            }
            _ => (
                0,
                YamlScalar::Plain {
                    left: plain_len(rest, is_flow)?,
                },
            ),
        };
        Some(Opened { bytes, inside })
    }

    /// The character that the rest begins with, if it ends no line.
    fn itself(self, rest: &str) -> Option<Piece<YamlScalar>> {
        let first = rest.chars().next().filter(|c| !is_break(*c))?;
        Some(Piece::character(first, first.len_utf8(), self))
    }
}

impl Inside for YamlScalar {
    fn piece(self, rest: &str) -> Option<Piece<YamlScalar>> {
        match self {
            YamlScalar::Plain { left: 0 } => Some(Piece::end(0)),
            YamlScalar::Plain { left } => {
                let first = rest.chars().next()?;
                let left = left.saturating_sub(first.len_utf8());
                Some(Piece::character(first, first.len_utf8(), YamlScalar::Plain { left }))
            }
            YamlScalar::Single if rest.starts_with("''") => Some(Piece::character('\'', 2, self)),
            YamlScalar::Single if rest.starts_with('\'') => Some(Piece::end(1)),
            YamlScalar::Double if rest.starts_with('"') => Some(Piece::end(1)),
            YamlScalar::Double if rest.starts_with('\\') => escape(rest),
            YamlScalar::Single | YamlScalar::Double => self.itself(rest),
            YamlScalar::Block(block) => {
                let piece = block.piece(rest)?;
                Some(Piece {
                    bytes: piece.bytes,
                    character: piece.character,
                    after: piece.after.map(YamlScalar::Block),
                })
            }
        }
    }
}
