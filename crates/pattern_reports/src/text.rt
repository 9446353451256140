//! Reports as lines of text.
use crate::reporter::{MAX_REPORTS, Reporter};
use crate::severity::Severity;
use crate::streams::{Stream, Streams};
use fancy_syntax::span::Span;
use fancy_syntax::spanned::SpannedTree;
use lint_rules::chosen::Chosen;
use lint_rules::problem::{Found, NOT_SEARCHED};
use patterns_listing::drawing::{Look, write_tree};
use patterns_listing::listing::{Lead, write_at, write_classes, write_numbered, write_references};
use patterns_text::columns::ColumnTable;
use patterns_text::error::RunError;
use patterns_text::excerpt::{write_excerpt, write_refusal};
use patterns_text::names::Names;
use patterns_text::nodes::nodes_of;
use patterns_text::paint::Ink;
use patterns_text::shown::ShownLines;
use patterns_text::subject::{Refusal, Subject};
use std::io;
use std::io::Write;

/// Reports as lines of text: errors and likely mistakes on one of the streams, what was not searched on `err`, and groups and
/// trees on `out`.
#[derive(Drop)]
pub struct Text<'a> {
    pub(crate) streams: &'a mut Streams,
    pub(crate) stream: Stream,
    pub(crate) look: Look,
}

/// Writes a likely mistake: where and what, the line of the pattern with the part underlined, and help.
fn write_problem(
    out: &mut Vec<u8>,
    subject: Subject<'_>,
    severity: Severity,
    found: Found<'_>,
) -> io::Result<()> {
    let Found {
        span,
        problem,
        related,
        ..
    } = found;
    let subject = subject.part(span.start);
    let (paint, ink) = (subject.at.reported, severity.ink());
    let (bold, color, end) = (paint.begin(Ink::Position), paint.begin(ink), paint.end());
    let position = subject.position(span.start);
    write!(
        out,
        "{bold}{position}:{end} {color}{}{end}",
        severity.word()
    )?;
    let message = found.message(subject.pattern);
    writeln!(out, ": {message} [{}]", problem.rule().name())?;
    write_excerpt(out, ink, subject, span, related)?;
    writeln!(out, "help: {}", found.help(subject.pattern))
}

impl Reporter for Text<'_> {
    fn error(&mut self, subject: Subject<'_>, refusal: &Refusal) -> Result<(), RunError> {
        refusal.write(self.streams.stream(self.stream), subject)
    }

    fn refuse(
        &mut self,
        subject: Subject<'_>,
        position: usize,
        reason: &str,
    ) -> Result<(), RunError> {
        let out = self.streams.stream(self.stream);
        write_refusal(out, subject, position, reason, None)?;
        Ok(())
    }

    fn problems(
        &mut self,
        subject: Subject<'_>,
        _parsed: &SpannedTree,
        chosen: &Chosen,
        found: &[Found<'_>],
    ) -> Result<(), RunError> {
        let out = self.streams.stream(self.stream);
        for one in found.iter().take(MAX_REPORTS) {
            let severity = Severity::of(chosen.level(one.problem.rule()));
            write_problem(out, subject, severity, *one)?;
        }
        let more = found.len().saturating_sub(MAX_REPORTS);
        if more > 0 {
            writeln!(out, "{}: {more} more reports are not shown", subject.at)?;
        }
        Ok(())
    }

    fn not_searched(&mut self, subject: Subject<'_>, parts: &[Span]) -> Result<(), RunError> {
        for span in parts.iter().take(MAX_REPORTS) {
            let position = subject.part(span.start).position(span.start);
            writeln!(self.streams.err, "{position}: note: {NOT_SEARCHED}")?;
        }
        Ok(())
    }

    fn groups(&mut self, subject: Subject<'_>, parsed: &SpannedTree) -> Result<(), RunError> {
        let Subject {
            alloc,
            at,
            pattern,
            ..
        } = subject;
        let out = &mut self.streams.out;
        write_at(out, at)?;
        writeln!(out, "{}", ShownLines(pattern))?;
        let names = Names::of(alloc, &parsed.tree)?;
        let nodes = nodes_of(alloc, parsed)?;
        let columns = ColumnTable::of(alloc, pattern, &nodes)?;
        let lead = Lead::At(at, &columns);
        write_numbered(out, lead, &nodes, &names)?;
        write_references(out, lead, &columns, &nodes, &names)?;
        if self.look.has_classes {
            write_classes(out, lead, subject, &nodes)?;
        }
        if parsed.tree.self_recursive {
            write_at(out, at)?;
            out.write_all(b"the pattern calls itself\n")?;
        }
        Ok(())
    }

    fn tree(&mut self, subject: Subject<'_>, parsed: &SpannedTree) -> Result<(), RunError> {
        write_tree(subject, self.look, parsed, &mut self.streams.out)
    }
}
