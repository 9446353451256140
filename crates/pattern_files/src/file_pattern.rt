//! A pattern of a file, chosen by its position as reports write it.
ghost use Rattle.std.specs.Prelude.{◌≡◌};

use crate::entry::{Entry, Unread, UnreadReason, Visitor};
use crate::form::FileFormat;
use crate::lines::Ending;
use crate::sources::{STANDARD_INPUT, Sources};
use crate::walk::{TextShape, visit_lines, visit_texts};
use patterns_text::error::RunError;
use patterns_text::path::Path;
use patterns_text::position::{FilePosition, Location, Spot};
use patterns_text::subject::Subject;
use std::alloc::Global;
use std::io::{BufRead, ErrorKind, Write};
use std::{fmt, io};

/// A pattern that was read from a file.
#[derive(Drop)]
pub struct FilePattern<'a> {
    file: &'a str,
    spot: Spot<'a>,
    pattern: String,
}

impl<'a> FilePattern<'a> {
    /// The name of the file.
    pub fn file(&self) -> &'a str {
        self.file
    }

    /// The pattern, and what is needed to parse it under the flags and to report on it.
    pub fn subject(&self, alloc: Global, flags: u32) -> Subject<'_>
        ensures flags { result.flags ≡ flags }
    {
        Subject {
            alloc,
            flags,
            at: Location::at(self.file, self.spot),
            pattern: self.pattern.as_str(),
        }
    }
}

/// Which pattern of a file is chosen.
#[derive(Clone, Copy)]
enum ChosenPattern<'a> {
    /// The line with this number, counted from 1.
    Line {
        number: u64,
        /// Whether the file may have no further line.
        is_only: bool,
    },
    /// The text of JSON at the path that this begins with.
    Path(&'a str),
}

/// Whether the text is only the columns that may follow a position, each after a colon.
fn is_columns(text: &str) -> bool {
    let is_of_columns = |byte: u8| byte.is_ascii_digit() || byte == b':' || byte == b'-';
    text.is_empty() || (text.starts_with(':') && text.bytes().all(is_of_columns))
}

/// The text without the line and the column that reports write before the path of a text of JSON.
fn without_position(text: &str) -> &str {
    match text.split_once(": ") {
        Some((position, path)) if position.bytes().all(|b| b.is_ascii_digit() || b == b':') => path,
        _ => text,
    }
}

impl<'a> ChosenPattern<'a> {
    /// That of what follows the file's name and a colon.
    fn of(text: &'a str) -> ChosenPattern<'a> {
        if text.is_empty() {
            return ChosenPattern::Line {
                number: 1,
                is_only: true,
            };
        }
        let end = text
            .find(|c: char| !c.is_ascii_digit())
            .unwrap_or(text.len());
        match text.split_at_checked(end) {
            Some((digits, rest)) if end > 0 && is_columns(rest) => {
                ChosenPattern::Line {
                    number: digits.parse().unwrap_or(u64::MAX),
                    is_only: false,
                }
            }
            _ => ChosenPattern::Path(without_position(text)),
        }
    }

    /// That the file does not have it.
    fn missing(self) -> Missing<'a> {
        match self {
            ChosenPattern::Line { number, .. } => Missing::Line(number),
            ChosenPattern::Path(path) => Missing::Path(path),
        }
    }
}

/// What a file does not have.
#[derive(Clone, Copy)]
enum Missing<'a> {
    Line(u64),
    /// It has several lines, and none is chosen.
    OnlyLine,
    Path(&'a str),
}

impl fmt::Display for Missing<'_> {
    fn fmt<W: fmt::Write>(&self, f: &mut fmt::Formatter<W>) -> fmt::Result {
        match self {
            Missing::Line(line) => write!(f, "there is no line {line}"),
            Missing::OnlyLine => f.write_str(
                "there are several lines; choose one by its number, as in FILE:1",
            ),
            Missing::Path(path) => write!(f, "there is no text at {path}"),
        }
    }
}

/// What was found of a pattern.
#[derive(Drop)]
enum Found<'a> {
    Nothing,
    Pattern(FilePattern<'a>),
    /// It cannot be read, or is not the only line, which is reported.
    Refused,
}

/// Looks for the pattern of one file.
#[derive(Drop)]
struct Search<'a, 'e, E> {
    alloc: Global,
    file: &'a str,
    choice: ChosenPattern<'a>,
    found: Found<'a>,
    err: &'e mut E,
}

impl<'a, E: Write> Search<'a, '_, E> {
    /// Takes the pattern that is there.
    fn find(&mut self, spot: Spot<'a>, pattern: &str) -> Result<(), RunError> {
        self.found = Found::Pattern(FilePattern {
            file: self.file,
            spot,
            pattern: String::from_str(self.alloc, pattern)?,
        });
        Ok(())
    }

    /// Whether the line of this number is chosen. If it is one after the only one, that is reported.
    fn takes_line(&mut self, line: u64) -> Result<bool, RunError> {
        let ChosenPattern::Line { number, is_only } = self.choice else {
            return Ok(false);
        };
        if is_only && line > number {
            writeln!(self.err, "patterns: {}: {}", self.file, Missing::OnlyLine)?;
            self.found = Found::Refused;
        }
        Ok(line == number)
    }

    /// Takes the text of JSON at the path, if that is chosen.
    fn see_text(
        &mut self,
        position: FilePosition,
        path: Path<'_>,
        pattern: &str,
    ) -> Result<(), RunError> {
        let ChosenPattern::Path(choice) = self.choice else {
            return Ok(());
        };
        let path = format!(in self.alloc; "{path}")?;
        if !choice.strip_prefix(path.as_str()).is_some_and(is_columns) {
            return Ok(());
        }
        let path = choice.get(..path.len()).unwrap_or(choice);
        self.find(Spot::Path { position, path }, pattern)
    }
}

impl<E: Write> Visitor for Search<'_, '_, E> {
    fn pattern(&mut self, entry: Entry<'_>) -> Result<(), RunError> {
        match entry.spot {
            Spot::Line(line) => {
                if self.takes_line(line)? {
                    self.find(Spot::Line(line), entry.pattern)?;
                }
                Ok(())
            }
            Spot::Value { position, path, .. } => self.see_text(position, path, entry.pattern),
            Spot::Path { .. } | Spot::Source(_) => Ok(()),
        }
    }

    fn unread(&mut self, unread: Unread<'_>) -> Result<(), RunError> {
        let is_chosen = match (unread.line, &unread.reason) {
            (Some(_), UnreadReason::NotText(line)) => self.takes_line(*line)?,
            _ => true,
        };
        if is_chosen {
            writeln!(self.err, "{unread}")?;
            self.found = Found::Refused;
        }
        Ok(())
    }

    fn bom(&mut self) -> Result<(), RunError> {
        Ok(())
    }

    fn is_done(&self) -> bool {
        match (&self.found, self.choice) {
            (Found::Nothing, ChosenPattern::Line { number, .. }) => number == 0,
            (Found::Nothing, ChosenPattern::Path(_)) => false,
            (Found::Pattern(_), ChosenPattern::Line { is_only, .. }) => !is_only,
            (Found::Pattern(_), ChosenPattern::Path(_)) | (Found::Refused, _) => true,
        }
    }
}

/// Looks for the pattern that the text after the file's name chooses.
fn read_chosen<'a, R: BufRead, E: Write>(
    alloc: Global,
    file: &'a str,
    rest: &'a str,
    reader: &mut R,
    err: &mut E,
) -> Result<Option<FilePattern<'a>>, RunError> {
    let choice = ChosenPattern::of(rest.strip_prefix(':').unwrap_or(rest));
    let mut search = Search {
        alloc,
        file,
        choice,
        found: Found::Nothing,
        err,
    };
    match choice {
        ChosenPattern::Line { .. } => {
            visit_lines(
                alloc,
                FileFormat::Records(Ending::Line),
                file,
                reader,
                &mut search,
            )?;
        }
        ChosenPattern::Path(_) => {
            visit_texts(alloc, TextShape::ALL, file, reader, &mut search)?;
        }
    }
    let Search { found, err, .. } = search;
    match found {
        Found::Pattern(pattern) => Ok(Some(pattern)),
        Found::Refused => Ok(None),
        Found::Nothing => {
            writeln!(err, "patterns: {file}: {}", choice.missing())?;
            Ok(None)
        }
    }
}

/// The longest beginning of a position, up to a colon or the end, that is the name of a file, and the opened file. If
/// no beginning names one, the error of the shortest.
fn open<'a, S: Sources>(position: &'a str, sources: &S) -> io::Result<(&'a str, S::File)> {
    let mut name = position;
    for _ in 0..position.len() {
        match (sources.open(name), name.rsplit_once(':')) {
            (Ok(file), _) => return Ok((name, file)),
            (Err(error), Some((front, _))) if error.kind() != ErrorKind::OutOfMemory => name =
                front,
            (Err(error), _) => return Err(error),
        }
    }
    Ok((name, sources.open(name)?))
}

/// What follows the name of standard input, if the position begins with that.
fn after_input(position: &str) -> Option<&str> {
    let rest = position.strip_prefix(STANDARD_INPUT)?;
    (rest.is_empty() || rest.starts_with(':')).then_some(rest)
}

/// Says that the file cannot be opened.
fn refuse<'a, E: Write>(
    file: &str,
    error: io::Error,
    err: &mut E,
) -> Result<Option<FilePattern<'a>>, RunError> {
    writeln!(err, "{}", Unread::by_system(file, error)?)?;
    Ok(None)
}

/// Reads the pattern at the position: the only line of `FILE`; or that of `FILE:LINE`; or the text of JSON that is
/// `FILE:PATH`, with the path as reports write it. Columns may follow. The file `-` is standard input. The name of the
/// file may have colons: it is the longest beginning that names a file. `None` if there is no such pattern or it cannot be
/// read, and then `err` says why. An error if memory runs out or a write fails.
pub fn read_pattern<'a, S: Sources, E: Write>(
    alloc: Global,
    position: &'a str,
    sources: &S,
    err: &mut E,
) -> Result<Option<FilePattern<'a>>, RunError> {
    if let Some(rest) = after_input(position) {
        return match sources.input() {
            Ok(mut input) => read_chosen(alloc, STANDARD_INPUT, rest, &mut input, err),
            Err(error) => refuse(STANDARD_INPUT, error, err),
        };
    }
    match open(position, sources) {
        Ok((file, mut opened)) => {
            let rest = position.get(file.len()..).unwrap_or("");
            read_chosen(alloc, file, rest, &mut opened, err)
        }
        Err(error) => {
            let file = position.split_once(':').map_or(position, |parts| parts.0);
            refuse(file, error, err)
        }
    }
}
