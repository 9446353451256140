//! Where the patterns of a document are, as the protocol has it.
use editor_documents::cursor::Cursor;
use editor_documents::position::{Encoding, Position};
use fancy_syntax::span::Span;
use json::Writer;
use pattern_files::entry::Entry;
use pattern_files::spelling::{SpelledIn, offset_in_contents, offset_in_pattern};
use pattern_reports::json_lines::fields::write_number;
use patterns_text::position::Spot;
use std::alloc::AllocError;

/// Goes through the text of a document from pattern to pattern.
#[derive(Clone, Copy)]
pub struct Locator<'d> {
    /// The start of the text.
    start: Cursor<'d>,
    cursor: Cursor<'d>,
    /// How many bytes are before it.
    offset: usize,
}

impl<'d> Locator<'d> {
    /// Before the text.
    pub fn new(encoding: Encoding, text: &'d str) -> Locator<'d> {
        let start = Cursor::start(encoding, text);
        Locator {
            start,
            cursor: start,
            offset: 0,
        }
    }

    /// The position of a column of a line, both counted from 1: the column in characters, and lines by LF.
    pub(crate) fn position(self, line: u64, column: u64) -> Position {
        let offset = offset_of_column(self.start.rest(), line, column);
        self.start.after(offset).position()
    }

    /// Goes on to the pattern of an entry, and returns where that is.
    pub fn locate<'s>(&mut self, entry: Entry<'s>) -> Located<'d, 's> {
        let start = entry.span.start;
        let bytes = start.saturating_sub(self.offset);
        self.cursor = self.cursor.after(bytes);
        self.offset = start;
        Located {
            cursor: self.cursor,
            entry,
        }
    }
}

/// A pattern of a document.
#[derive(Clone, Copy)]
pub struct Located<'d, 's> {
    /// Where it begins.
    cursor: Cursor<'d>,
    pub entry: Entry<'s>,
}

impl Located<'_, '_> {
    /// Where it begins.
    pub fn start(self) -> Position {
        self.cursor.position()
    }

    /// How its document spells it.
    fn form(self) -> SpelledIn {
        match self.entry.spot {
            Spot::Line(_) => SpelledIn::Lines,
            Spot::Path { .. } | Spot::Value { .. } | Spot::Source(_) => SpelledIn::Json,
        }
    }

    /// How many bytes of its contents are before the byte offset in it.
    fn inside(self, offset: usize) -> usize {
        let Entry {
            contents,
            pattern,
            ..
        } = self.entry;
        offset_in_contents(self.form(), contents, pattern, offset)
    }

    /// The part of the document that spells the span of it, in byte offsets.
    pub(crate) fn bytes(self, span: Span) -> Span {
        let first = self.entry.span.start;
        Span {
            start: first.saturating_add(self.inside(span.start)),
            end: first.saturating_add(self.inside(span.end)),
        }
    }

    /// How many bytes of it are before the byte offset of its document.
    pub fn offset(self, offset: usize) -> usize {
        let Entry {
            contents,
            pattern,
            span,
            ..
        } = self.entry;
        offset_in_pattern(
            self.form(),
            contents,
            pattern,
            offset.saturating_sub(span.start),
        )
    }

    /// Where the span of it starts and ends.
    pub fn positions(self, span: Span) -> (Position, Position) {
        let start = self.cursor.after(self.inside(span.start));
        let end = self.cursor.after(self.inside(span.end));
        (start.position(), end.position())
    }

    /// Writes the range of the span of it.
    pub fn write_range(self, writer: &mut Writer, span: Span) -> Result<(), AllocError> {
        let (start, end) = self.positions(span);
        write_range(writer, start, end)
    }

    /// Writes the range of all of it.
    pub(crate) fn write_whole(self, writer: &mut Writer) -> Result<(), AllocError> {
        let end = self.cursor.after(self.entry.contents.len());
        write_range(writer, self.start(), end.position())
    }
}

/// How many bytes of a text are before a column of a line, both counted from 1: the column in characters, and lines by LF.
fn offset_of_column(text: &str, line: u64, column: u64) -> usize {
    let mut rest = text;
    for _ in 1..line {
        match rest.split_once('\n') {
            Some((_, next)) => rest = next,
            None => break,
        }
    }
    let mut chars = rest.chars();
    for _ in 1..column {
        if chars.next().is_none() {
            break;
        }
    }
    text.len().saturating_sub(chars.as_str().len())
}

/// Writes a position.
fn write_position(writer: &mut Writer, position: Position) -> Result<(), AllocError> {
    writer.begin_object()?;
    write_number(writer, "line", position.line as u64)?;
    write_number(writer, "character", position.character as u64)?;
    writer.end_object()
}

/// Writes a range.
pub fn write_range(writer: &mut Writer, start: Position, end: Position) -> Result<(), AllocError> {
    writer.begin_object()?;
    writer.key("start")?;
    write_position(writer, start)?;
    writer.key("end")?;
    write_position(writer, end)?;
    writer.end_object()
}

/// Whether two parts of a document have a byte or an end in common.
pub(crate) fn touches(one: Span, other: Span) -> bool {
    one.start <= other.end && other.start <= one.end
}
