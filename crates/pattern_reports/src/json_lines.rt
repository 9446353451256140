//! Reports as JSON, an object a line.
pub mod fields;
mod groups;
mod node;

use crate::error_kinds::code;
use crate::fixes::{PartText, fixes_of};
use crate::json_lines::fields::{
    begin, finish, write_number, write_related, write_span, write_text,
};
use crate::json_lines::groups::{write_group_info, write_groups, write_references, write_trivia};
use crate::json_lines::node::write_node;
use crate::reporter::{MAX_REPORTS, Reporter};
use crate::severity::Severity;
use fancy_syntax::span::Span;
use fancy_syntax::spanned::SpannedTree;
use json::Writer;
use lint_rules::chosen::Chosen;
use lint_rules::problem::{Found, NOT_SEARCHED, Problem};
use patterns_listing::fact_words::FactRows;
use patterns_text::error::RunError;
use patterns_text::nodes::nodes_of;
use patterns_text::position::CharacterTable;
use patterns_text::subject::{Advice, Refusal, Subject};
use std::alloc::{AllocError, Global};

/// Reports as JSON, an object a line.
#[derive(Drop)]
pub struct JsonLines<'a> {
    pub(crate) out: &'a mut Vec<u8>,
    /// Whether the nodes of trees have what is known of their matches.
    pub(crate) has_facts: bool,
}

/// Writes a field that is a text, given by its characters.
fn write_characters(
    alloc: Global,
    writer: &mut Writer,
    name: &str,
    characters: &[char],
) -> Result<(), AllocError> {
    let mut text = String::new(alloc);
    for c in characters {
        text.push(*c)?;
    }
    write_text(writer, name, text.as_str())
}

/// Writes the field of the text on which the pattern is slow, if the report is on that.
fn write_attack(
    alloc: Global,
    writer: &mut Writer,
    problem: Problem<'_>,
) -> Result<(), AllocError> {
    let (Problem::ExponentialBacktracking { text }
    | Problem::PolynomialBacktracking { text, .. }
    | Problem::QuadraticSearch { text }) = problem
    else {
        return Ok(());
    };
    writer.key("attack")?;
    writer.begin_object()?;
    if let Some(before) = text.before {
        write_characters(alloc, writer, "before", before)?;
    }
    write_characters(alloc, writer, "repeat", text.word)?;
    write_characters(alloc, writer, "after", text.after)?;
    if let Problem::PolynomialBacktracking { degree, .. } = problem {
        write_number(writer, "degree", degree as u64)?;
    }
    writer.end_object()
}

/// Writes the field of the edit that fixes a likely mistake, if there is one.
fn write_fix(writer: &mut Writer, fix: Option<&PartText>) -> Result<(), AllocError> {
    let Some(PartText { span, text }) = fix else {
        return Ok(());
    };
    writer.key("fix")?;
    writer.begin_object()?;
    write_number(writer, "start", span.start as u64)?;
    write_number(writer, "end", span.end as u64)?;
    write_text(writer, "text", text.as_str())?;
    writer.end_object()
}

/// Writes a likely mistake.
fn write_problem(
    out: &mut Vec<u8>,
    subject: Subject<'_>,
    characters: &CharacterTable,
    severity: Severity,
    found: Found<'_>,
    fix: Option<&PartText>,
) -> Result<(), RunError> {
    let Found {
        span,
        problem,
        related,
        ..
    } = found;
    let Subject { alloc, pattern, .. } = subject;
    let message = format!(in alloc; "{}", found.message(pattern))?;
    let help = format!(in alloc; "{}", found.help(pattern))?;
    let mut writer = begin(subject, severity.word(), span.start)?;
    write_span(&mut writer, characters, span)?;
    write_text(&mut writer, "code", problem.rule().name())?;
    write_text(&mut writer, "message", message.as_str())?;
    write_text(&mut writer, "help", help.as_str())?;
    write_related(alloc, &mut writer, characters, related)?;
    write_attack(alloc, &mut writer, problem)?;
    write_fix(&mut writer, fix)?;
    finish(writer, out)
}

impl Reporter for JsonLines<'_> {
    /// The span is empty, and is at most at the end of the pattern.
    fn error(&mut self, subject: Subject<'_>, refusal: &Refusal) -> Result<(), RunError> {
        let Subject { alloc, pattern, .. } = subject;
        let start = refusal.position.min(pattern.len());
        let Advice { related, hint } = refusal.advice(subject)?;
        let characters = CharacterTable::of(alloc, pattern)?;
        let message = format!(in alloc; "{}", refusal.kind)?;
        let mut writer = begin(subject, Severity::Error.word(), start)?;
        write_span(&mut writer, &characters, Span { start, end: start })?;
        write_text(&mut writer, "code", code(&refusal.kind))?;
        write_text(&mut writer, "message", message.as_str())?;
        if let Some(hint) = hint {
            write_text(&mut writer, "help", format!(in alloc; "{hint}")?.as_str())?;
        }
        write_related(alloc, &mut writer, &characters, related)?;
        finish(writer, self.out)
    }

    fn problems(
        &mut self,
        subject: Subject<'_>,
        parsed: &SpannedTree,
        chosen: &Chosen,
        found: &[Found<'_>],
    ) -> Result<(), RunError> {
        let characters = CharacterTable::of(subject.alloc, subject.pattern)?;
        let written = found.get(..MAX_REPORTS).unwrap_or(found);
        let fixes = fixes_of(subject, parsed, written)?;
        for (one, fix) in written.iter().zip(&fixes) {
            let severity = Severity::of(chosen.level(one.problem.rule()));
            write_problem(self.out, subject, &characters, severity, *one, fix.as_ref())?;
        }
        let more = found.len().saturating_sub(MAX_REPORTS);
        if more > 0 {
            let mut writer = begin(subject, "omitted", 0)?;
            write_number(&mut writer, "count", more as u64)?;
            finish(writer, self.out)?;
        }
        Ok(())
    }

    fn not_searched(&mut self, subject: Subject<'_>, parts: &[Span]) -> Result<(), RunError> {
        let characters = CharacterTable::of(subject.alloc, subject.pattern)?;
        for span in parts.iter().take(MAX_REPORTS) {
            let mut writer = begin(subject, Severity::Notice.word(), span.start)?;
            write_span(&mut writer, &characters, *span)?;
            write_text(&mut writer, "message", NOT_SEARCHED)?;
            finish(writer, self.out)?;
        }
        Ok(())
    }

    fn groups(&mut self, subject: Subject<'_>, parsed: &SpannedTree) -> Result<(), RunError> {
        let Subject { alloc, pattern, .. } = subject;
        let characters = CharacterTable::of(alloc, pattern)?;
        let nodes = nodes_of(alloc, parsed)?;
        let mut writer = begin(subject, "groups", 0)?;
        write_groups(alloc, &mut writer, &characters, &nodes, &parsed.tree)?;
        write_references(&mut writer, &characters, &nodes)?;
        write_group_info(&mut writer, &parsed.tree)?;
        finish(writer, self.out)
    }

    fn tree(&mut self, subject: Subject<'_>, parsed: &SpannedTree) -> Result<(), RunError> {
        let Subject { alloc, pattern, .. } = subject;
        let characters = CharacterTable::of(alloc, pattern)?;
        let nodes = nodes_of(alloc, parsed)?;
        let mut writer = begin(subject, "tree", 0)?;
        writer.key("tree")?;
        let mut facts = FactRows::of(subject, self.has_facts, parsed)?;
        write_node(&mut writer, &characters, &mut facts, parsed.root())?;
        write_trivia(&mut writer, &characters, subject, &parsed.trivia)?;
        write_groups(alloc, &mut writer, &characters, &nodes, &parsed.tree)?;
        write_group_info(&mut writer, &parsed.tree)?;
        finish(writer, self.out)
    }
}
