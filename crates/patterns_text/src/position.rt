//! Positions in texts: lines, columns as a terminal shows them, and characters; and where a pattern is in its file.
ghost use Rattle.std.specs.Prelude.{◌≡◌, ◌+◌, chars, false};
ghost use Rattle.unicode_width.specs.Width.{str_width};

use crate::paint::Paint;
use crate::path::Path;
use crate::shown::Shown;
use crate::source_positions::SourcePositions;
use std::alloc::{AllocError, Global};
use std::fmt;
use unicode_width::UnicodeWidthStr;

/// The column after the text in its line, from 1. Each character takes as many columns as on a terminal; a tab or
/// another control character takes one.
fn column_after(text: &str) -> usize
    ensures value { result ≡ 1 + str_width false (chars text.now) }
{
    text.width() + 1
}

/// A position in a file, or in a pattern.
#[derive(Clone, Copy)]
pub struct FilePosition {
    /// The line, from 1.
    pub line: u64,
    /// The column in the line, from 1.
    pub column: u64,
    /// How many characters are before it in the line, and 1.
    pub character: u64,
}

impl FilePosition {
    /// The start of a file.
    pub const START: FilePosition = FilePosition {
        line: 1,
        column: 1,
        character: 1,
    };

    /// The position after a text that begins here.
    pub fn after(self, text: &str) -> FilePosition {
        match text.rsplit_once('\n') {
            Some((above, before)) => FilePosition {
                line: self
                    .line
                    .saturating_add(above.matches('\n').count() as u64)
                    .saturating_add(1),
                column: column_after(before) as u64,
                character: (before.chars().count() as u64).saturating_add(1),
            },
            None => FilePosition {
                line: self.line,
                column: self.column.saturating_add(text.width() as u64),
                character: self.character.saturating_add(text.chars().count() as u64),
            },
        }
    }

    /// That of a byte offset in a text: of the character that it falls into, or of the end where it is past that.
    pub fn of(text: &str, offset: usize) -> FilePosition {
        let (before, _) = text.split_at(text.floor_char_boundary(offset));
        FilePosition::START.after(before)
    }
}

impl fmt::Display for FilePosition {
    fn fmt<W: fmt::Write>(&self, f: &mut fmt::Formatter<W>) -> fmt::Result {
        write!(f, "{}:{}", self.line, self.column)
    }
}

/// A position in a pattern, in words: its column, and its line where that is not the first.
#[derive(Clone, Copy)]
pub struct PositionWords(pub FilePosition);

impl fmt::Display for PositionWords {
    fn fmt<W: fmt::Write>(&self, f: &mut fmt::Formatter<W>) -> fmt::Result {
        let FilePosition { line, column, .. } = self.0;
        if line > 1 {
            write!(f, "line {line}, ")?;
        }
        write!(f, "column {column}")
    }
}

/// Where the characters of a text begin.
#[derive(Drop)]
pub struct CharacterTable {
    /// The byte offset of each.
    starts: Vec<usize>,
}

impl CharacterTable {
    /// Those of the text.
    pub fn of(alloc: Global, text: &str) -> Result<CharacterTable, AllocError> {
        let mut starts = Vec::new(alloc);
        for (start, _) in text.char_indices() {
            starts.push(start)?;
        }
        Ok(CharacterTable { starts })
    }

    /// How many characters begin before a byte offset.
    pub fn index(&self, offset: usize) -> u64 {
        self.starts.partition_point(|start| *start < offset) as u64
    }
}

/// Where a pattern is in its file.
#[derive(Clone, Copy)]
pub enum Spot<'a> {
    /// Its first line has this number, counted from 1.
    Line(u64),
    /// It is the value of JSON at the path that is written so.
    Path {
        /// Where its quote is.
        position: FilePosition,
        path: &'a str,
    },
    /// It is a value of JSON.
    Value {
        /// Where its quote is.
        position: FilePosition,
        path: Path<'a>,
        /// Whether a number in a back reference is that of a group of another pattern, the `begin` beside this one.
        refers_to_begin: bool,
    },
    /// It was extracted from the file.
    Source(&'a SourcePositions),
}

impl<'a> Spot<'a> {
    /// Where the part of the pattern is that begins at the byte offset. In a source that has a position of its own, under
    /// the path that the pattern has in its record.
    fn part(self, pattern: &str, offset: usize) -> Spot<'a> {
        match self {
            Spot::Source(positions) => Spot::Path {
                position: positions.position(pattern, offset),
                path: "pattern",
            },
            Spot::Line(_) | Spot::Path { .. } | Spot::Value { .. } => self,
        }
    }
}

/// Where a pattern is in its file, and the colours of what is written of it.
#[derive(Clone, Copy)]
pub struct Location<'a> {
    /// The file's name as an argument.
    pub file: &'a str,
    pub spot: Spot<'a>,
    /// Of reports: that it is invalid, and what `lint` finds.
    pub reported: Paint,
    /// Of its groups, and of how it would change.
    pub listed: Paint,
}

impl<'a> Location<'a> {
    /// Where a pattern is, without colours.
    pub fn at(file: &'a str, spot: Spot<'a>) -> Location<'a> {
        Location {
            file,
            spot,
            reported: Paint::Plain,
            listed: Paint::Plain,
        }
    }

    /// Where the part of the pattern is that begins at the byte offset: of a pattern that was extracted the position of
    /// that in its source.
    pub fn part(self, pattern: &str, offset: usize) -> Location<'a> {
        Location {
            spot: self.spot.part(pattern, offset),
            ..self
        }
    }

    /// Whether a number in a back reference is that of a group of another pattern.
    pub fn refers_to_begin(self) -> bool {
        matches!(
            self.spot,
            Spot::Value {
                refers_to_begin: true,
                ..
            }
        )
    }

    /// Writes the file and a line of the pattern, from 1; of a value of JSON the file, the position there, the path, and
    /// the line if that is not the first.
    fn write_line<W: fmt::Write>(self, f: &mut fmt::Formatter<W>, line: u64) -> fmt::Result {
        let file = Shown(self.file);
        match self.spot.part("", 0) {
            Spot::Line(first) => {
                let number = first.saturating_add(line.saturating_sub(1));
                return write!(f, "{file}:{number}");
            }
            Spot::Path { position, path } => write!(f, "{file}:{position}: {path}")?,
            Spot::Value { position, path, .. } => write!(f, "{file}:{position}: {path}")?,
            Spot::Source(_) => {}
        }
        if line > 1 {
            write!(f, ":{line}")?;
        }
        Ok(())
    }
}

impl fmt::Display for Location<'_> {
    fn fmt<W: fmt::Write>(&self, f: &mut fmt::Formatter<W>) -> fmt::Result {
        self.write_line(f, 1)
    }
}

/// A position in a pattern, with where the pattern is: what reports begin with.
#[derive(Clone, Copy)]
pub struct PatternPosition<'a> {
    pub(crate) at: Location<'a>,
    pub(crate) position: FilePosition,
}

impl fmt::Display for PatternPosition<'_> {
    fn fmt<W: fmt::Write>(&self, f: &mut fmt::Formatter<W>) -> fmt::Result {
        let FilePosition { line, column, .. } = self.position;
        self.at.write_line(f, line)?;
        write!(f, ":{column}")
    }
}
