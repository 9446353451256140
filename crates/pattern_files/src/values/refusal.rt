//! Why a file is not read as JSON.
use crate::values::nesting::Nesting;
use crate::values::strings::{StringError, string_error};
use json::{MAX_DEPTH, Reader, Scratch, Token};
use patterns_text::position::FilePosition;
use std::alloc::{AllocError, Global};
use std::fmt;

/// What is wrong with the text of a file.
#[derive(Clone, Copy)]
enum Reason {
    TooDeep,
    /// The text ends before its value does.
    Incomplete,
    /// Something follows the value of the text.
    Followed,
    Comment,
    TrailingComma,
    /// A value or a key follows a value without a comma between.
    Unseparated,
    /// A string is where a key has to be, and no colon follows it.
    NoColon,
    /// A value other than a string is where a key has to be.
    NoKey,
    /// A key is where a value has to be.
    NoObject,
    /// A bracket closes what another kind of bracket has opened, or nothing.
    Bracket,
    SingleQuote,
    String(StringError),
    Other,
}

impl Reason {
    /// What is wrong, in words; nothing where there is only a position.
    fn text(self) -> &'static str {
        match self {
            Reason::TooDeep | Reason::Other => "",
            Reason::Incomplete => ": it ends too early",
            Reason::Followed => ": something follows its value",
            Reason::Comment => ": it has a comment",
            Reason::TrailingComma => ": a comma is before a closing bracket",
            Reason::Unseparated => ": a comma is missing",
            Reason::NoColon => ": a key has no colon",
            Reason::NoKey => ": a key is not a string",
            Reason::NoObject => ": a key is not in an object",
            Reason::Bracket => ": a closing bracket does not fit",
            Reason::SingleQuote => ": strings are in double quotes",
            Reason::String(StringError::Unclosed) => ": a string has no end in its line",
            Reason::String(StringError::Control) => {
                ": a string has a control character that is not an escape"
            }
            Reason::String(StringError::Escape) => {
                ": a string has an escape that JSON does not have"
            }
            Reason::String(StringError::Surrogate) => {
                ": a string has one half of a surrogate pair"
            }
        }
    }
}

/// Where and why a text is not read as JSON.
#[derive(Clone, Copy)]
pub struct JsonRefusal {
    /// The line and the column in the file.
    pub(crate) line: u64,
    pub(crate) column: u64,
    /// Whether the text is a line of the file, and not all of it.
    is_line: bool,
    reason: Reason,
}

impl fmt::Display for JsonRefusal {
    fn fmt<W: fmt::Write>(&self, f: &mut fmt::Formatter<W>) -> fmt::Result {
        if let Reason::TooDeep = self.reason {
            return write!(f, "the JSON nests deeper than {MAX_DEPTH} levels");
        }
        let noun = if self.is_line { "line" } else { "file" };
        write!(f, "the {noun} is not valid JSON{}", self.reason.text())
    }
}

/// Why a character that begins no token is wrong after this part of a text of JSON.
fn reason_of(found: char, before: &str) -> Reason {
    let last = before.trim_end().chars().next_back();
    match found {
        '/' | '#' => Reason::Comment,
        '\'' => Reason::SingleQuote,
        ']' | '}' if last == Some(',') => Reason::TrailingComma,
        '"' | '{' | '[' | '-' | 'a'..='z' | '0'..='9'
            if last.is_some_and(|c| !matches!(c, ',' | ':' | '{' | '[')) => { Reason::Unseparated }
        _ => Reason::Other,
    }
}

/// Where and why no token begins at this byte offset.
fn reason_at(text: &str, start: usize) -> (usize, Reason) {
    let (before, after) = text.split_at(text.floor_char_boundary(start));
    if let Some((at, error)) = after.strip_prefix('"').and_then(string_error) {
        let position = match error {
            StringError::Unclosed => start,
            StringError::Control | StringError::Escape | StringError::Surrogate => {
                start.saturating_add(1).saturating_add(at)
            }
        };
        return (position, Reason::String(error));
    }
    match after.chars().next() {
        Some(found) => (start, reason_of(found, before)),
        None => (start, Reason::Incomplete),
    }
}

/// Where and why a token is wrong that begins at this byte offset.
fn reason_for(token: Token<'_>, text: &str, start: usize) -> (usize, Reason) {
    match token {
        Token::Bad => reason_at(text, start),
        Token::String(_) => (start, Reason::NoColon),
        Token::Key(_) => (start, Reason::NoObject),
        Token::EndObject | Token::EndArray => (start, Reason::Bracket),
        Token::BeginObject | Token::BeginArray | Token::Number(_) | Token::Bool(_) | Token::Null =>
            (start, Reason::NoKey),
    }
}

/// The byte offset up to which a text is JSON that nests at most 128 deep, and why not further.
fn end_of_json(alloc: Global, text: &str) -> Result<(usize, Reason), AllocError> {
    let mut scratch = Scratch::new(alloc);
    let mut reader = Reader::new(text, &mut scratch)?;
    let mut nesting = Nesting::new(alloc);
    for _ in 0..=text.len() {
        let start = reader.offset();
        let Some(token) = reader.next() else {
            break;
        };
        if !nesting.takes(token) {
            let (position, reason) = reason_for(token, text, start);
            if nesting.is_complete() && !matches!(reason, Reason::Comment) {
                return Ok((start, Reason::Followed));
            }
            return Ok((position, reason));
        }
        nesting.pass(token)?;
        if nesting.depth() > MAX_DEPTH {
            return Ok((reader.offset(), Reason::TooDeep));
        }
    }
    Ok((text.trim_end().len(), Reason::Incomplete))
}

/// Where and why a text is not read as JSON: that of a file, or of the line of this number.
pub(super) fn refusal_of(
    alloc: Global,
    text: &str,
    line: Option<u64>,
) -> Result<JsonRefusal, AllocError> {
    let (end, reason) = end_of_json(alloc, text)?;
    let FilePosition {
        line: own,
        column,
        ..
    } = FilePosition::of(text, end);
    Ok(JsonRefusal {
        line: line.unwrap_or(1).saturating_add(own.saturating_sub(1)),
        column,
        is_line: line.is_some(),
        reason,
    })
}
