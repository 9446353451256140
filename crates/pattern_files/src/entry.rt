//! What a file holds: its patterns, and what of it is not read.
ghost use Rattle.std.specs.Prelude.{◌≡◌, None};

use crate::lines::{LineRecord, lines_in};
use crate::record::{Record, RecordRefusal};
use crate::values::refusal::JsonRefusal;
use dialects::dialect::Dialect;
use fancy_syntax::span::Span;
use json::MAX_LEN;
use patterns_text::error::RunError;
use patterns_text::grammar_rule::GrammarRule;
use patterns_text::position::Spot;
use patterns_text::shown::Shown;
use std::alloc::AllocError;
use std::io::ErrorKind;
use std::{fmt, io};

/// A pattern of a file.
#[derive(Clone, Copy)]
pub struct Entry<'a> {
    pub pattern: &'a str,
    /// The flags that its record gives it.
    pub flags: Option<u32>,
    /// The dialect that its record gives it.
    pub dialect: Option<Dialect>,
    /// The name of the file that it is in, for reports, and where in it.
    pub file: &'a str,
    pub spot: Spot<'a>,
    /// Where the file that is read spells it, in byte offsets: of a line the line without its end, of JSON what is between
    /// the quotes. Empty for a record, whose `record` says where its source spells it.
    pub span: Span,
    /// What is at the span; of a record the pattern itself.
    pub contents: &'a str,
    /// What ends it: the end of its line or record; for a value of JSON a line feed.
    pub end: &'a [u8],
    /// The key of JSON under which it is; empty for others.
    pub key: &'a str,
    /// What the object around it says of groups, if that is read.
    pub grammar: Option<&'a GrammarRule>,
    pub record: Option<&'a Record<'a>>,
}

impl<'a> Entry<'a> {
    /// A pattern that is a line with this end, at the start of what is read. The line has this number, from 1.
    pub fn of_line(file: &'a str, number: u64, pattern: &'a str, end: &'a [u8]) -> Entry<'a>
        ensures pattern { result.pattern ≡ pattern.entry }
        ensures flags { result.flags ≡ None }
    {
        Entry {
            pattern,
            flags: None,
            dialect: None,
            file,
            spot: Spot::Line(number),
            span: Span {
                start: 0,
                end: pattern.len(),
            },
            contents: pattern,
            end,
            key: "",
            grammar: None,
            record: None,
        }
    }
}

/// Why something is not read.
#[derive(Drop)]
pub enum UnreadReason {
    /// A call of the system failed.
    System(io::Error),
    /// The line of this number is not UTF-8.
    NotText(u64),
    NotJson(JsonRefusal),
    /// It has more bytes than are read as JSON.
    TooLong,
    /// The line of this number is JSON, but no record.
    NotRecord(u64, RecordRefusal),
}

/// That a file, the rest of one or a line of one is not read, and why: the line that is written on it, without a line feed.
#[derive(Drop)]
pub struct Unread<'a> {
    /// The name of the file.
    pub file: &'a str,
    /// The line, if it is one, and the others are read; none if it is the file or its rest.
    pub line: Option<LineRecord<'a>>,
    pub reason: UnreadReason,
}

impl<'a> Unread<'a> {
    /// A file that cannot be opened, or not be read further. An error if that is because memory ran out.
    pub fn by_system(file: &'a str, error: io::Error) -> Result<Unread<'a>, RunError> {
        if error.kind() == ErrorKind::OutOfMemory {
            return Err(RunError::Memory(AllocError));
        }
        Ok(Unread::of_file(file, UnreadReason::System(error)))
    }

    /// A file that is not read for this reason.
    pub(crate) fn of_file(file: &'a str, reason: UnreadReason) -> Unread<'a> {
        Unread {
            file,
            line: None,
            reason,
        }
    }

    /// The line and the column from which it is not read, as far as that is known.
    pub fn position(&self) -> (u64, u64) {
        match self.reason {
            UnreadReason::NotText(line) | UnreadReason::NotRecord(line, _) => (line, 1),
            UnreadReason::NotJson(refusal) => (refusal.line, refusal.column),
            UnreadReason::System(_) | UnreadReason::TooLong => (1, 1),
        }
    }

    /// A file that is no text: its bytes are UTF-8 up to the offset.
    pub fn not_text(file: &'a str, bytes: &[u8], valid_up_to: usize) -> Unread<'a> {
        Unread::of_file(file, UnreadReason::not_text(bytes, valid_up_to))
    }
}

impl UnreadReason {
    /// That bytes are UTF-8 up to the offset, and no further.
    pub(crate) fn not_text(bytes: &[u8], valid_up_to: usize) -> UnreadReason {
        UnreadReason::NotText(lines_in(bytes.get(..valid_up_to).unwrap_or(bytes)))
    }
}

impl fmt::Display for UnreadReason {
    fn fmt<W: fmt::Write>(&self, f: &mut fmt::Formatter<W>) -> fmt::Result {
        match self {
            UnreadReason::System(error) => write!(f, "{error}"),
            UnreadReason::NotText(_) => f.write_str("the line is not valid UTF-8"),
            UnreadReason::NotJson(refusal) => write!(f, "{refusal}"),
            UnreadReason::TooLong => write!(f, "JSON of more than {MAX_LEN} bytes"),
            UnreadReason::NotRecord(_, refusal) => write!(f, "{refusal}"),
        }
    }
}

impl fmt::Display for Unread<'_> {
    fn fmt<W: fmt::Write>(&self, f: &mut fmt::Formatter<W>) -> fmt::Result {
        let (file, reason) = (Shown(self.file), &self.reason);
        match reason {
            UnreadReason::System(_) | UnreadReason::TooLong => {
                write!(f, "patterns: {file}: {reason}")
            }
            UnreadReason::NotText(line) => write!(f, "{file}:{line}: {reason}"),
            UnreadReason::NotJson(refusal) => {
                write!(f, "{file}:{}:{}: {reason}", refusal.line, refusal.column)
            }
            UnreadReason::NotRecord(line, _) => write!(f, "{file}:{line}:{reason}"),
        }
    }
}

/// What visits the patterns of a file, in their order.
pub trait Visitor {
    /// The next pattern.
    fn pattern(&mut self, entry: Entry<'_>) -> Result<(), RunError>;

    /// Something that is not read; if it is no line, nothing follows.
    fn unread(&mut self, _unread: Unread<'_>) -> Result<(), RunError> {
        Ok(())
    }

    /// A byte order mark, which begins a file of lines.
    fn bom(&mut self) -> Result<(), RunError> {
        Ok(())
    }

    /// Whether the rest need not be visited.
    fn is_done(&self) -> bool {
        false
    }
}
