//! Records of patterns that were extracted from sources: each is an object of JSON.
use crate::entry::Entry;
use crate::values::trail::Tokens;
use dialects::dialect::{DIALECT_WORD, Dialect};
use fancy_lex::flag_word::{FLAG_WORD, flags_named};
use fancy_syntax::span::Span;
use json::{Scratch, Token};
use patterns_text::position::{FilePosition, Spot};
use patterns_text::source_positions::SourcePositions;
use source_literals::source_change::{CharacterChange, Spelling};
use source_literals::source_syntax::SourceSyntax;
use std::alloc::{AllocError, Global};
use std::fmt;
use thiserror::Error;

/// A member of a record.
#[derive(Debug, Clone, Copy, PartialEq, Eq)]
enum Member {
    Pattern,
    Flags,
    Dialect,
    File,
    Line,
    Column,
    Columns,
    Lines,
    Syntax,
    Literals,
}

impl Member {
    /// That of this name; none if a record has no such member, and it is passed over.
    fn named(name: &str) -> Option<Member> {
        match name {
            "pattern" => Some(Member::Pattern),
            "flags" => Some(Member::Flags),
            "dialect" => Some(Member::Dialect),
            "file" => Some(Member::File),
            "line" => Some(Member::Line),
            "column" => Some(Member::Column),
            "columns" => Some(Member::Columns),
            "lines" => Some(Member::Lines),
            "syntax" => Some(Member::Syntax),
            "literals" => Some(Member::Literals),
            _ => None,
        }
    }

    fn name(self) -> &'static str {
        match self {
            Member::Pattern => "pattern",
            Member::Flags => "flags",
            Member::Dialect => "dialect",
            Member::File => "file",
            Member::Line => "line",
            Member::Column => "column",
            Member::Columns => "columns",
            Member::Lines => "lines",
            Member::Syntax => "syntax",
            Member::Literals => "literals",
        }
    }

    /// What its value is.
    fn expected(self) -> &'static str {
        match self {
            Member::Pattern | Member::Flags | Member::Dialect | Member::File | Member::Syntax =>
                "a string",
            Member::Line | Member::Column => "a number from 1",
            Member::Columns | Member::Lines => "a list of numbers from 1",
            Member::Literals => "a list of numbers from 0",
        }
    }

    /// The least number that it holds.
    fn least(self) -> u64 {
        match self {
            Member::Line | Member::Column | Member::Columns | Member::Lines => 1,
            Member::Pattern
            | Member::Flags
            | Member::Dialect
            | Member::File
            | Member::Syntax
            | Member::Literals => 0,
        }
    }
}

/// What is wrong with a record.
#[derive(Debug, Clone, Copy, PartialEq, Eq)]
enum RecordProblem {
    /// The line is JSON, but no object.
    NoObject,
    /// It has no pattern.
    NoPattern,
    /// A member has a value of another type.
    WrongType(Member),
    /// The flags have a character that is no letter of theirs.
    UnknownFlags,
    /// The dialect is not known.
    UnknownDialect,
    /// A list has not one entry for each character of the pattern and one for its end.
    WrongLength(Member),
    /// The numbers of the literals are not pairs, each of a start and an end.
    OddLiterals,
}

impl fmt::Display for RecordProblem {
    fn fmt<W: fmt::Write>(&self, f: &mut fmt::Formatter<W>) -> fmt::Result {
        match self {
            RecordProblem::NoObject => f.write_str("a record must be an object"),
            RecordProblem::NoPattern => f.write_str("the record has no pattern"),
            RecordProblem::WrongType(member) => {
                write!(f, "{} must be {}", member.name(), member.expected())
            }
            RecordProblem::UnknownFlags => write!(f, "flags must be {FLAG_WORD}"),
            RecordProblem::UnknownDialect => write!(f, "dialect must be {DIALECT_WORD}"),
            RecordProblem::WrongLength(member) => write!(
                f,
                "{} must have one entry more than the pattern has characters",
                member.name()
            ),
            RecordProblem::OddLiterals => {
                f.write_str("literals must have a start and an end for each literal")
            }
        }
    }
}

/// What is wrong with a record, and where in its line.
#[derive(Debug, Clone, Copy)]
pub struct RecordRefusal {
    /// The column of what is wrong in the line, from 1.
    column: u64,
    problem: RecordProblem,
}

impl fmt::Display for RecordRefusal {
    fn fmt<W: fmt::Write>(&self, f: &mut fmt::Formatter<W>) -> fmt::Result {
        write!(f, "{}: {}", self.column, self.problem)
    }
}

/// Why a record was not read.
#[derive(Debug, Drop, Error)]
pub(crate) enum RecordError {
    /// Out of memory.
    #[error("out of memory")]
    Memory(#[from(alloc)] AllocError),
    /// It is refused.
    #[error("{0}")]
    Refused(RecordRefusal),
}

/// That a record is refused for what is at this position.
fn refused(position: FilePosition, problem: RecordProblem) -> RecordError {
    RecordError::Refused(RecordRefusal {
        column: position.column,
        problem,
    })
}

/// A list of numbers, and where it begins in the line.
#[derive(Drop)]
struct NumberList {
    position: FilePosition,
    numbers: Vec<u64>,
}

/// The members of a record that were read so far. Of one that comes twice the last value counts.
#[derive(Drop)]
struct Members<'a> {
    pattern: Option<&'a str>,
    flags: Option<u32>,
    dialect: Option<Dialect>,
    file: Option<&'a str>,
    line: Option<u64>,
    column: Option<u64>,
    columns: Option<NumberList>,
    lines: Option<NumberList>,
    syntax: Option<SourceSyntax>,
    literals: Option<NumberList>,
}

impl Members<'_> {
    /// Before the first one.
    fn new() -> Self {
        Members {
            pattern: None,
            flags: None,
            dialect: None,
            file: None,
            line: None,
            column: None,
            columns: None,
            lines: None,
            syntax: None,
            literals: None,
        }
    }
}

/// A pattern that was extracted from a source.
#[derive(Drop)]
pub struct Record<'a> {
    pub pattern: &'a str,
    /// The flags that it is parsed under, if they are known.
    pub flags: Option<u32>,
    /// The dialect that it is written in, if it is known.
    pub dialect: Option<Dialect>,
    /// The name of its source, if that is known.
    pub file: Option<&'a str>,
    /// The line that the record is.
    pub line: u64,
    pub positions: SourcePositions,
    /// How its source spells it, if that is known.
    pub spelling: Option<Spelling>,
}

impl<'a> Record<'a> {
    /// The pattern, as one of the file of records.
    pub(crate) fn entry(&'a self, file: &'a str) -> Entry<'a> {
        Entry {
            pattern: self.pattern,
            flags: self.flags,
            dialect: self.dialect,
            file: self.file.unwrap_or(file),
            spot: Spot::Source(&self.positions),
            span: Span { start: 0, end: 0 },
            contents: self.pattern,
            end: b"\n",
            key: "",
            grammar: None,
            record: Some(self),
        }
    }
}

/// The numbers of the characters after the changes, and the last number, which is that of the end. A character that is added
/// has the number of the one after it.
fn changed_numbers(
    alloc: Global,
    numbers: &[u64],
    changes: &[CharacterChange],
) -> Result<Vec<u64>, AllocError> {
    let mut left = Vec::new(alloc);
    for (index, number) in numbers.iter().enumerate() {
        let change = changes.get(index);
        if change.is_some_and(|change| change.added.is_some()) {
            left.push(*number)?;
        }
        if change.is_none_or(|change| change.is_kept) {
            left.push(*number)?;
        }
    }
    Ok(left)
}

/// Where the characters of a pattern are after these changes of each of its characters.
pub fn changed_positions(
    alloc: Global,
    positions: &SourcePositions,
    changes: &[CharacterChange],
) -> Result<SourcePositions, AllocError> {
    Ok(SourcePositions {
        line: positions.line,
        column: positions.column,
        has_column: positions.has_column,
        columns: changed_numbers(alloc, &positions.columns, changes)?,
        lines: changed_numbers(alloc, &positions.lines, changes)?,
    })
}

/// Reads a record, whose text is JSON.
#[derive(Drop)]
struct RecordReader<'a> {
    alloc: Global,
    tokens: Tokens<'a>,
    members: Members<'a>,
}

impl<'a> RecordReader<'a> {
    /// That the value of the member has another type. It begins with the last token.
    fn wrong_type(&mut self, member: Member) -> RecordError {
        refused(self.tokens.position(), RecordProblem::WrongType(member))
    }

    /// Reads a text.
    fn text(&mut self, member: Member) -> Result<&'a str, RecordError> {
        match self.tokens.next() {
            Some(Token::String(text)) => Ok(text),
            _ => Err(self.wrong_type(member)),
        }
    }

    /// The number that a text of JSON is, if the member may hold it.
    fn number_of(&mut self, text: &str, member: Member) -> Result<u64, RecordError> {
        match text.parse::<u64>() {
            Ok(number) if number >= member.least() => Ok(number),
            _ => Err(self.wrong_type(member)),
        }
    }

    /// Reads a number.
    fn number(&mut self, member: Member) -> Result<u64, RecordError> {
        match self.tokens.next() {
            Some(Token::Number(text)) => self.number_of(text, member),
            _ => Err(self.wrong_type(member)),
        }
    }

    /// Reads a list of numbers.
    fn numbers(&mut self, member: Member) -> Result<NumberList, RecordError> {
        let Some(Token::BeginArray) = self.tokens.next() else {
            return Err(self.wrong_type(member));
        };
        let position = self.tokens.position();
        let mut numbers = Vec::new(self.alloc);
        for _ in 0..=self.tokens.text().len() {
            match self.tokens.next() {
                Some(Token::EndArray) => break,
                Some(Token::Number(text)) => numbers.push(self.number_of(text, member)?)?,
                _ => return Err(self.wrong_type(member)),
            }
        }
        Ok(NumberList { position, numbers })
    }

    /// Reads the letters of flags.
    fn flags(&mut self) -> Result<u32, RecordError> {
        let letters = self.text(Member::Flags)?;
        match flags_named(letters) {
            Some(flags) => Ok(flags),
            None => Err(refused(self.tokens.position(), RecordProblem::UnknownFlags)),
        }
    }

    /// Reads the name of a dialect.
    fn dialect(&mut self) -> Result<Dialect, RecordError> {
        let name = self.text(Member::Dialect)?;
        match Dialect::named(name) {
            Some(dialect) => Ok(dialect),
            None => Err(refused(self.tokens.position(), RecordProblem::UnknownDialect)),
        }
    }

    /// Reads the value of a member.
    fn read_value(&mut self, member: Member) -> Result<(), RecordError> {
        match member {
            Member::Pattern => self.members.pattern = Some(self.text(member)?),
            Member::Flags => self.members.flags = Some(self.flags()?),
            Member::Dialect => self.members.dialect = Some(self.dialect()?),
            Member::File => self.members.file = Some(self.text(member)?),
            Member::Line => self.members.line = Some(self.number(member)?),
            Member::Column => self.members.column = Some(self.number(member)?),
            Member::Columns => self.members.columns = Some(self.numbers(member)?),
            Member::Lines => self.members.lines = Some(self.numbers(member)?),
            Member::Syntax => self.members.syntax = SourceSyntax::named(self.text(member)?),
            Member::Literals => self.members.literals = Some(self.numbers(member)?),
        }
        Ok(())
    }

    /// Reads the members up to the end of the record.
    fn read_members(&mut self) -> Result<(), RecordError> {
        for _ in 0..=self.tokens.text().len() {
            let Some(Token::Key(key)) = self.tokens.next() else {
                break;
            };
            match Member::named(key) {
                Some(member) => self.read_value(member)?,
                None => self.tokens.skip_value(),
            }
        }
        Ok(())
    }
}

/// The numbers of a list; nothing if there is none. It is refused if it has another length.
fn numbers_of(
    alloc: Global,
    list: Option<NumberList>,
    member: Member,
    length: usize,
) -> Result<Vec<u64>, RecordError> {
    let Some(NumberList { position, numbers }) = list else {
        return Ok(Vec::new(alloc));
    };
    if numbers.len() != length {
        return Err(refused(position, RecordProblem::WrongLength(member)));
    }
    Ok(numbers)
}

/// The positions of the characters of a pattern whose record has these members, and no more: a pattern of a file that
/// is not known is where its record is, in this line.
fn positions_of(
    alloc: Global,
    members: Members<'_>,
    length: usize,
    own_line: u64,
) -> Result<SourcePositions, RecordError> {
    let columns = numbers_of(alloc, members.columns, Member::Columns, length)?;
    let lines = numbers_of(alloc, members.lines, Member::Lines, length)?;
    if members.file.is_none() {
        return Ok(SourcePositions::of(alloc, own_line, 1));
    }
    Ok(SourcePositions {
        line: members.line.unwrap_or(1),
        column: members.column.unwrap_or(1),
        has_column: members.column.is_some(),
        columns,
        lines,
    })
}

/// The spans of literals, of which a list has the starts and the ends.
fn literals_of(alloc: Global, list: NumberList) -> Result<Vec<Span>, RecordError> {
    let mut literals = Vec::new(alloc);
    for pair in list.numbers.chunks(2) {
        let [start, end] = pair else {
            return Err(refused(list.position, RecordProblem::OddLiterals));
        };
        literals.push(Span {
            start: *start as usize,
            end: *end as usize,
        })?;
    }
    Ok(literals)
}

/// How the source spells the pattern of a record with these members.
fn spelling_of(
    alloc: Global,
    syntax: Option<SourceSyntax>,
    literals: Option<NumberList>,
) -> Result<Option<Spelling>, RecordError> {
    let Some(list) = literals else {
        return Ok(None);
    };
    let literals = literals_of(alloc, list)?;
    Ok(syntax.map(|syntax| Spelling { syntax, literals }))
}

/// The record that has the members, and begins at the position. `line` is its own line.
fn record_of<'a>(
    alloc: Global,
    members: Members<'a>,
    start: FilePosition,
    line: u64,
) -> Result<Record<'a>, RecordError> {
    let Some(pattern) = members.pattern else {
        return Err(refused(start, RecordProblem::NoPattern));
    };
    let length = pattern.chars().count().saturating_add(1);
    let (flags, dialect, file) = (members.flags, members.dialect, members.file);
    let mut members = members;
    let spelling = spelling_of(alloc, members.syntax, members.literals.take())?;
    Ok(Record {
        pattern,
        flags,
        dialect,
        file,
        line,
        positions: positions_of(alloc, members, length, line)?,
        spelling,
    })
}

/// Reads the record that a text of JSON is, which is the line of this number. It is refused if it is no object, has no
/// pattern, has a member with a value of another type, other letters than those of flags or an unknown dialect, a list that has not one entry for
/// each character and one for the end, or literals without an end. Other members are passed over, and a syntax that is not
/// known.
pub(crate) fn read_record<'a>(
    alloc: Global,
    text: &'a str,
    line: u64,
    scratch: &'a mut Scratch,
) -> Result<Record<'a>, RecordError> {
    let mut reader = RecordReader {
        alloc,
        tokens: Tokens::new(text, scratch)?,
        members: Members::new(),
    };
    let token = reader.tokens.next();
    let start = reader.tokens.position();
    let Some(Token::BeginObject) = token else {
        return Err(refused(start, RecordProblem::NoObject));
    };
    reader.read_members()?;
    record_of(alloc, reader.members, start, line)
}
