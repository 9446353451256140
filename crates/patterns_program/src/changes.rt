//! The changes of the patterns of a file.
ghost use Rattle.std.specs.Prelude.{◌≡◌, IfOk};
ghost use Rattle.patterns_program.specs.Edited.{form_at, IsReplaced, IfInFile};

use crate::outcome::Outcome;
use crate::rewriting::PatternForm;
use pattern_files::entry::Entry;
use pattern_files::record::{Record, changed_positions};
use pattern_files::shift::Shift;
use pattern_files::spelling::{SpelledIn, changes_of, spelled};
use patterns_text::position::{FilePosition, Spot};
use patterns_text::source_positions::SourcePositions;
use source_literals::replaced::Replacement;
use source_literals::source_change::{SourceChange, Spelling};
use source_literals::source_syntax::SourceSyntax;
use std::alloc::{AllocError, Global};
use std::{fmt, mem};

/// Why a pattern stays as it is.
#[derive(Clone, Copy)]
pub(crate) enum Unwritten {
    /// Its record does not say how the source spells it.
    UnknownSpelling,
    /// It would get a character that a source may spell otherwise.
    NewCharacter,
    /// Its canonical text is in another syntax than that of the source's engine.
    OtherEngine,
    /// With the change another text would be read, or it would end elsewhere.
    NotReadBack,
}

impl fmt::Display for Unwritten {
    fn fmt<W: fmt::Write>(&self, f: &mut fmt::Formatter<W>) -> fmt::Result {
        f.write_str("the pattern is not changed: ")?;
        f.write_str(match self {
            Unwritten::UnknownSpelling => {
                "its record needs `syntax` and `literals`, as python -m fancy extract writes them"
            }
            Unwritten::NewCharacter => {
                "it would get characters that the source may spell otherwise"
            }
            Unwritten::OtherEngine => "--canonical writes what Python's engine may not read",
            Unwritten::NotReadBack => "the source would not be read as the new pattern",
        })
    }
}

/// A pattern that is changed in its source, and where its characters are then.
#[derive(Drop)]
pub(crate) struct MovedPattern {
    pub(crate) change: SourceChange,
    pub(crate) positions: SourcePositions,
}

/// What is changed for a pattern that becomes another text.
#[derive(Drop)]
pub(crate) enum PatternChange {
    /// A part of the file that is read.
    InFile(Replacement),
    /// The literals of a source.
    InSource(MovedPattern),
}

/// Which patterns of a file stay as they are, whatever a fix or a form would make of them.
#[derive(Drop)]
pub(crate) enum Kept {
    /// Those whose records are these lines, in order.
    Records(Vec<u64>),
    /// All.
    All,
}

/// What is left of the patterns of a file as it is, although it was to change.
#[derive(Drop)]
pub(crate) struct Left {
    pub(crate) kept: Kept,
    /// Whether a file cannot be read or written.
    pub(crate) outcome: Outcome,
}

/// The changes of the patterns of a file, up to one of them.
#[derive(Drop)]
pub(crate) struct Changes {
    /// In the file itself.
    parts: Vec<Replacement>,
    /// In sources.
    sources: Vec<SourceChange>,
    pub(crate) kept: Kept,
    /// Where the next patterns are with the changes.
    shift: Shift,
}

/// Where in the file that is read a spot is; none of one in a source.
fn start_of(spot: Spot<'_>) -> Option<FilePosition> {
    match spot {
        Spot::Line(line) => Some(FilePosition {
            line,
            ..FilePosition::START
        }),
        Spot::Path { position, .. } | Spot::Value { position, .. } => Some(position),
        Spot::Source(_) => None,
    }
}

impl Changes {
    /// None, in a file in which these patterns stay.
    pub(crate) fn none(alloc: Global, kept: Kept) -> Changes {
        Changes {
            parts: Vec::new(alloc),
            sources: Vec::new(alloc),
            kept,
            shift: Shift::NONE,
        }
    }

    /// Whether the pattern of an entry stays. One does whose record names no source.
    pub(crate) fn keeps(&self, entry: Entry<'_>) -> bool {
        match (&self.kept, entry.record) {
            (Kept::All, _) => true,
            (Kept::Records(lines), Some(record)) => {
                record.file.is_none() || lines.binary_search(&record.line).is_ok()
            }
            (Kept::Records(_), None) => false,
        }
    }

    /// Where an entry is with the changes.
    pub(crate) fn spot<'s>(&self, spot: Spot<'s>) -> Spot<'s> {
        let is_line = matches!(spot, Spot::Line(_));
        match (spot, start_of(spot).map(|start| self.shift.at(start))) {
            (_, Some(FilePosition { line, .. })) if is_line => Spot::Line(line),
            (
                Spot::Value {
                    path,
                    refers_to_begin,
                    ..
                },
                Some(position),
            ) => Spot::Value {
                position,
                path,
                refers_to_begin,
            },
            (spot, _) => spot,
        }
    }

    /// Goes on past an entry that becomes the text.
    pub(crate) fn pass(&mut self, entry: Entry<'_>, text: &str) {
        if let Some(start) = start_of(entry.spot) {
            self.shift.past(start, entry.contents, text);
        }
    }

    /// Takes those in the file itself.
    pub(crate) fn take_parts(&mut self, alloc: Global) -> Vec<Replacement> {
        mem::replace(&mut self.parts, Vec::new(alloc))
    }

    /// Takes the changes in sources.
    pub(crate) fn take_sources(&mut self, alloc: Global) -> Vec<SourceChange> {
        mem::replace(&mut self.sources, Vec::new(alloc))
    }

    /// Adds the change of an entry.
    pub(crate) fn add(
        &mut self,
        entry: Entry<'_>,
        change: PatternChange,
    ) -> Result<(), AllocError> {
        match change {
            PatternChange::InFile(part) => {
                self.pass(entry, part.text.as_str());
                self.parts.push(part)?;
            }
            PatternChange::InSource(moved) => self.sources.push(moved.change)?,
        }
        Ok(())
    }
}

/// How a source spells the pattern of a record, if its record says that, and texts of this form have the syntax of the source's
/// engine: canonical ones have that of fancy-regex.
fn spelling_of(
    alloc: Global,
    record: &Record<'_>,
    form: PatternForm,
) -> Result<Result<Spelling, Unwritten>, AllocError> {
    let Some(spelling) = &record.spelling else {
        return Ok(Err(Unwritten::UnknownSpelling));
    };
    if matches!(form, PatternForm::Canonical(_)) && spelling.syntax == SourceSyntax::Python {
        return Ok(Err(Unwritten::OtherEngine));
    }
    Ok(Ok(Spelling {
        syntax: spelling.syntax,
        literals: Vec::from_slice(alloc, &spelling.literals)?,
    }))
}

/// The change of the pattern of a record, which becomes the text.
fn moved(
    alloc: Global,
    entry: Entry<'_>,
    record: &Record<'_>,
    form: PatternForm,
    text: &str,
) -> Result<Result<MovedPattern, Unwritten>, AllocError> {
    let spelling = match spelling_of(alloc, record, form)? {
        Ok(spelling) => spelling,
        Err(reason) => return Ok(Err(reason)),
    };
    let Some(changes) = changes_of(alloc, entry.pattern, text)? else {
        return Ok(Err(Unwritten::NewCharacter));
    };
    let positions = changed_positions(alloc, &record.positions, &changes)?;
    let change = SourceChange {
        file: String::from_str(alloc, entry.file)?,
        line: record.positions.line,
        column: record.positions.column,
        record: record.line,
        pattern: String::from_str(alloc, entry.pattern)?,
        text: String::from_str(alloc, text)?,
        changes,
        spelling,
        is_read_back: false,
    };
    Ok(Ok(MovedPattern { change, positions }))
}

/// How a file spells its patterns, if it has no records. A text that may not have several lines is left out before.
fn form_at(spot: Spot<'_>) -> SpelledIn
    ensures { result ≡ form_at spot.entry }
{
    match spot {
        Spot::Line(_) => SpelledIn::Lines,
        Spot::Path { .. } | Spot::Value { .. } | Spot::Source(_) => SpelledIn::Json,
    }
}

/// What is changed for the pattern of an entry that becomes the text; or why it stays.
pub(crate) fn change_of(
    alloc: Global,
    entry: Entry<'_>,
    form: PatternForm,
    text: &str,
) -> Result<Result<PatternChange, Unwritten>, AllocError>
    ensures in_file { IfOk result (λ written. IfOk written (IfInFile (IsReplaced entry.entry text.now))) }
{
    if let Some(record) = entry.record {
        return Ok(moved(alloc, entry, record, form, text)?.map(PatternChange::InSource));
    }
    let spelled_in = form_at(entry.spot);
    match spelled(alloc, spelled_in, entry.contents, entry.pattern, text)? {
        Some(text) => Ok(Ok(PatternChange::InFile(Replacement {
            span: entry.span,
            text,
        }))),
        None => Ok(Err(Unwritten::NotReadBack)),
    }
}
