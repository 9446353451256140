//! Positions in texts.
ghost use Rattle.std.specs.Prelude.{◌≡◌, ◌++◌, ◌≤◌, chars, length, option_map, IfSome, IfNone, None};
ghost use Rattle.editor_documents.specs.Position.{units, ends_line, is_after};
ghost use Rattle.editor_documents.specs.Position as spec;

use fancy_lex::text::next;

/// What the characters before a position in its line are counted in.
#[derive(Debug, Clone, Copy, PartialEq, Eq)]
pub enum Encoding {
    /// Bytes of UTF-8.
    Utf8,
    /// Units of UTF-16.
    Utf16,
}

impl Encoding {
    /// How many units the character takes.
    pub fn units(self, c: char) -> usize
        ensures { result ≡ units self c }
    {
        match self {
            Encoding::Utf8 => c.len_utf8(),
            Encoding::Utf16 => c.len_utf16(),
        }
    }
}

/// A position in a text.
#[derive(Debug, Clone, Copy, PartialEq, Eq)]
pub struct Position {
    /// How many lines are before its line.
    pub line: usize,
    /// How many units of its line are before it. Where that is more than the line has, it is the end of the line.
    pub character: usize,
}

impl Position {
    /// Whether it is after the other.
    pub fn is_after(self, other: Position) -> bool
        ensures { result ≡ is_after self other }
    {
        other.line < self.line || (self.line == other.line && other.character < self.character)
    }
}

/// Whether the character ends a line, or begins the end of one.
pub(crate) fn ends_line(c: char) -> bool
    ensures { result ≡ ends_line c }
{
    c == '\n' || c == '\r'
}

/// The text without the LF that it begins with, if it does.
pub(crate) fn after_line_feed(text: &str) -> &str
    ensures value { spec.after_line_feed (chars text.now) ≡ chars result.now }
    ensures within { length result.now ≤ length text.now }
{
    match next(text) {
        Some(('\n', rest)) => rest,
        _ => text,
    }
}

/// The text after its first line; None if it has no other line.
fn next_line(text: &str) -> Option<&str>
    ensures { spec.next_line (chars text.now) ≡ option_map (λ rest. chars rest.now) result }
{
    let mut rest = text;
    while let Some((c, after)) = next(rest) {
        if c == '\n' {
            return Some(after);
        }
        if c == '\r' {
            return Some(after_line_feed(after));
        }
        rest = after;
    }
    None
}

/// The text from the line on that has so many before it, which is the end after the last one; None if there is no such line.
fn from_line(text: &str, line: usize) -> Option<&str>
    ensures { spec.from_line line (chars text.now) ≡ option_map (λ rest. chars rest.now) result }
{
    let mut rest = text;
    let mut above = line;
    while above > 1 {
        rest = next_line(rest)?;
        above -= 1;
    }
    if above == 0 {
        return Some(rest);
    }
    match next_line(rest) {
        Some(next) => Some(next),
        None => Some(""),
    }
}

/// The text from so many units of its first line on, or from the end of this line if it has fewer; None if that is inside a
/// character.
fn from_character(encoding: Encoding, text: &str, character: usize) -> Option<&str>
    ensures { spec.from_character encoding character (chars text.now) ≡ option_map (λ rest. chars rest.now) result }
{
    let mut rest = text;
    let mut before = character;
    while before > 0 {
        let Some((c, after)) = next(rest) else {
            return Some(rest);
        };
        if ends_line(c) {
            return Some(rest);
        }
        before = before.checked_sub(encoding.units(c))?;
        rest = after;
    }
    Some(rest)
}

/// The text from the position on; None if the text has no such line, or the position is inside a character. After the last line
/// is one more, at the end: ranges that contain all of the last one end there.
pub fn from_position(encoding: Encoding, text: &str, position: Position) -> Option<&str>
    ensures { spec.from_position encoding position (chars text.now) ≡ option_map (λ rest. chars rest.now) result }
{
    from_character(
        encoding,
        from_line(text, position.line)?,
        position.character,
    )
}
