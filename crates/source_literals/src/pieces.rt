//! The pieces that a literal consists of.

/// A piece of a literal: what so many bytes of the source spell, and how the literal goes on.
#[derive(Clone, Copy)]
pub(crate) struct Piece<I> {
    /// How many bytes it takes.
    pub(crate) bytes: usize,
    /// The character that these spell, if they spell one.
    pub(crate) character: Option<char>,
    /// What the literal is inside after them; none at its end.
    pub(crate) after: Option<I>,
}

impl<I> Piece<I> {
    /// A character that so many bytes spell.
    pub(crate) fn character(character: char, bytes: usize, after: I) -> Piece<I> {
        Piece {
            bytes,
            character: Some(character),
            after: Some(after),
        }
    }

    /// Bytes that spell nothing.
    pub(crate) fn nothing(bytes: usize, after: I) -> Piece<I> {
        Piece {
            bytes,
            character: None,
            after: Some(after),
        }
    }

    /// The end of the literal, which takes so many bytes.
    pub(crate) fn end(bytes: usize) -> Piece<I> {
        Piece {
            bytes,
            character: None,
            after: None,
        }
    }
}

/// What is known of a literal between two of its pieces.
pub(crate) trait Inside: Copy {
    /// The piece that the rest of the literal begins with; none if that is no piece, or one that is not read here.
    fn piece(self, rest: &str) -> Option<Piece<Self>>;
}

/// A literal that is opened: how many bytes its opening takes, and what is inside.
#[derive(Clone, Copy)]
pub(crate) struct Opened<I> {
    pub(crate) bytes: usize,
    pub(crate) inside: I,
}

/// How many bytes the line break takes that the text begins with: CR LF, LF or CR; 0 if it begins with none.
pub(crate) fn line_break(text: &str) -> usize {
    if text.starts_with("\r\n") {
        return 2;
    }
    text.starts_with(|c: char| matches!(c, '\n' | '\r')) as usize
}

/// The number that is written by exactly so many hexadecimal digits at the front of the text.
pub(crate) fn hexadecimal(text: &str, digits: usize) -> Option<u32> {
    let written = text.get(..digits)?;
    if !written.bytes().all(|byte| byte.is_ascii_hexdigit()) {
        return None;
    }
    u32::from_str_radix(written, 16).ok()
}
