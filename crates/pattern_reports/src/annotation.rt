//! Reports on files, for other tools.
use crate::error_kinds::code;
use crate::reporter::MAX_REPORTS;
use crate::severity::Severity;
use fancy_syntax::span::Span;
use lint_rules::chosen::Chosen;
use lint_rules::problem::{Found, NOT_SEARCHED};
use patterns_text::error::RunError;
use patterns_text::position::{FilePosition, PositionWords, Spot};
use patterns_text::shown::Shown;
use patterns_text::subject::{Advice, Refusal, Subject};
use std::alloc::AllocError;
use std::fmt;

/// A report on a part of a file.
#[derive(Drop)]
pub(crate) struct Annotation {
    pub(crate) severity: Severity,
    pub(crate) start: FilePosition,
    /// Where the part ends: past its last character.
    pub(crate) end: FilePosition,
    /// The name of the rule.
    pub(crate) rule: Option<&'static str>,
    pub(crate) message: String,
}

/// Where an offset of the pattern is in its file: in a line of its own that of the character; in JSON, whose escapes are
/// not counted, so many characters from the quote on.
fn file_position(subject: Subject<'_>, offset: usize, from_quote: u64) -> FilePosition {
    let Subject { at, pattern, .. } = subject;
    match at.spot {
        Spot::Line(first) => {
            let inside = FilePosition::of(pattern, offset);
            FilePosition {
                line: first.saturating_add(inside.line.saturating_sub(1)),
                ..inside
            }
        }
        Spot::Path { position, .. } | Spot::Value { position, .. } => FilePosition {
            character: position.character.saturating_add(from_quote),
            ..position
        },
        Spot::Source(positions) => positions.position(pattern, offset),
    }
}

/// What comes before the message of a report that begins at the byte offset, where its position in the file is not that of
/// the part: the path of the pattern, and the position in that.
#[derive(Clone, Copy)]
struct PathPrefix<'a>(Subject<'a>, usize);

impl fmt::Display for PathPrefix<'_> {
    fn fmt<W: fmt::Write>(&self, f: &mut fmt::Formatter<W>) -> fmt::Result {
        let PathPrefix(subject, offset) = *self;
        let pattern = subject.pattern;
        if let Spot::Source(positions) = subject.at.spot
            && positions.are_known(pattern)
        {
            return Ok(());
        }
        match subject.part(offset).at.spot {
            Spot::Line(_) | Spot::Source(_) => return Ok(()),
            Spot::Path { path, .. } => f.write_str(path)?,
            Spot::Value { path, .. } => write!(f, "{path}")?,
        }
        let words = PositionWords(FilePosition::of(pattern, offset));
        write!(f, ", {words}: ")
    }
}

/// A report on the part of the pattern.
fn part_annotation(
    subject: Subject<'_>,
    severity: Severity,
    span: Span,
    rule: Option<&'static str>,
    message: &str,
) -> Result<Annotation, AllocError> {
    let prefix = PathPrefix(subject, span.start);
    Ok(Annotation {
        severity,
        start: file_position(subject, span.start, 0),
        end: file_position(subject, span.end, 1),
        rule,
        message: format!(in subject.alloc; "{prefix}{message}")?,
    })
}

/// The report that the pattern is invalid.
pub(crate) fn error_annotation(
    subject: Subject<'_>,
    refusal: &Refusal,
) -> Result<Annotation, RunError> {
    let Subject { alloc, pattern, .. } = subject;
    let start = refusal.position.min(pattern.len());
    let Advice { hint, .. } = refusal.advice(subject)?;
    let kind = format!(in alloc; "{}", refusal.kind)?;
    let message = match hint {
        Some(hint) => format!(in alloc; "{}\nhelp: {hint}", Shown(kind.as_str()))?,
        None => format!(in alloc; "{}", Shown(kind.as_str()))?,
    };
    let (span, rule) = (Span { start, end: start }, Some(code(&refusal.kind)));
    Ok(part_annotation(subject, Severity::Error, span, rule, message.as_str())?)
}

/// The report of a likely mistake.
fn problem_annotation(
    subject: Subject<'_>,
    severity: Severity,
    found: Found<'_>,
) -> Result<Annotation, AllocError> {
    let Found { span, problem, .. } = found;
    let (what, help) = (found.message(subject.pattern), found.help(subject.pattern));
    let message = format!(in subject.alloc; "{what}\nhelp: {help}")?;
    let rule = Some(problem.rule().name());
    part_annotation(subject, severity, span, rule, message.as_str())
}

/// The reports of the likely mistakes, or of the first ones and how many more there are.
pub(crate) fn problem_annotations(
    subject: Subject<'_>,
    chosen: &Chosen,
    found: &[Found<'_>],
) -> Result<Vec<Annotation>, AllocError> {
    let mut annotations = Vec::new(subject.alloc);
    for one in found.iter().take(MAX_REPORTS) {
        let severity = Severity::of(chosen.level(one.problem.rule()));
        annotations.push(problem_annotation(subject, severity, *one)?)?;
    }
    let more = found.len().saturating_sub(MAX_REPORTS);
    if more > 0 {
        let message = format!(in subject.alloc; "{more} more reports are not shown")?;
        let span = Span { start: 0, end: 0 };
        annotations.push(part_annotation(
            subject,
            Severity::Notice,
            span,
            None,
            message.as_str(),
        )?)?;
    }
    Ok(annotations)
}

/// The reports that parts of the pattern were not searched.
pub(crate) fn not_searched_annotations(
    subject: Subject<'_>,
    parts: &[Span],
) -> Result<Vec<Annotation>, AllocError> {
    let mut annotations = Vec::new(subject.alloc);
    for span in parts.iter().take(MAX_REPORTS) {
        annotations.push(part_annotation(subject, Severity::Notice, *span, None, NOT_SEARCHED)?)?;
    }
    Ok(annotations)
}
