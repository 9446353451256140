//! Reports that are kept, for a program that shows them itself.
use crate::error_kinds::code;
use crate::fixes::{PartText, fixes_of};
use crate::reporter::{MAX_REPORTS, Reporter};
use crate::severity::Severity;
use fancy_syntax::span::Span;
use fancy_syntax::spanned::SpannedTree;
use lint_rules::chosen::Chosen;
use lint_rules::problem::{Found, NOT_SEARCHED};
use lint_rules::rule::Rule;
use patterns_text::error::RunError;
use patterns_text::excerpt::Related;
use patterns_text::subject::{Advice, Refusal, Subject};
use std::alloc::{AllocError, Global};

/// A report on a part of a pattern. Spans are in byte offsets of the pattern.
#[derive(Drop)]
pub struct Report {
    pub severity: Severity,
    /// The part. Of an error it is empty, and at most at the end of the pattern.
    pub span: Span,
    /// The rule that reports it; None for an error.
    pub rule: Option<Rule>,
    /// The name of the rule, or of the kind of the error.
    pub code: Option<&'static str>,
    pub message: String,
    /// What to do about it.
    pub help: Option<String>,
    /// The part that the message names, and what that is.
    pub related: Option<PartText>,
    /// The edit that fixes it by itself.
    pub fix: Option<PartText>,
}

/// The part that a message names.
fn related_part(alloc: Global, related: Option<Related>) -> Result<Option<PartText>, AllocError> {
    let Some(Related { span, label }) = related else {
        return Ok(None);
    };
    let text = format!(in alloc; "{label}")?;
    Ok(Some(PartText { span, text }))
}

/// The report of an error.
fn error_report(subject: Subject<'_>, refusal: &Refusal) -> Result<Report, RunError> {
    let Subject { alloc, pattern, .. } = subject;
    let start = refusal.position.min(pattern.len());
    let Advice { related, hint } = refusal.advice(subject)?;
    let help = match hint {
        Some(hint) => Some(format!(in alloc; "{hint}")?),
        None => None,
    };
    Ok(Report {
        severity: Severity::Error,
        span: Span { start, end: start },
        rule: None,
        code: Some(code(&refusal.kind)),
        message: format!(in alloc; "{}", refusal.kind)?,
        help,
        related: related_part(alloc, related)?,
        fix: None,
    })
}

/// The report of a likely mistake.
fn problem_report(
    subject: Subject<'_>,
    severity: Severity,
    found: Found<'_>,
    fix: Option<PartText>,
) -> Result<Report, AllocError> {
    let Subject { alloc, pattern, .. } = subject;
    let Found {
        span,
        problem,
        related,
        ..
    } = found;
    let rule = problem.rule();
    Ok(Report {
        severity,
        span,
        rule: Some(rule),
        code: Some(rule.name()),
        message: format!(in alloc; "{}", found.message(pattern))?,
        help: Some(format!(in alloc; "{}", found.help(pattern))?),
        related: related_part(alloc, related)?,
        fix,
    })
}

/// A report that names no rule.
fn notice(span: Span, message: String) -> Report {
    Report {
        severity: Severity::Notice,
        span,
        rule: None,
        code: None,
        message,
        help: None,
        related: None,
        fix: None,
    }
}

/// Reports that are added to a list.
#[derive(Drop)]
pub struct Kept<'a> {
    pub(crate) reports: &'a mut Vec<Report>,
}

impl Reporter for Kept<'_> {
    fn error(&mut self, subject: Subject<'_>, refusal: &Refusal) -> Result<(), RunError> {
        let report = error_report(subject, refusal)?;
        self.reports.push(report)?;
        Ok(())
    }

    fn problems(
        &mut self,
        subject: Subject<'_>,
        parsed: &SpannedTree,
        chosen: &Chosen,
        found: &[Found<'_>],
    ) -> Result<(), RunError> {
        let kept = found.get(..MAX_REPORTS).unwrap_or(found);
        let fixes = fixes_of(subject, parsed, kept)?;
        for (one, fix) in kept.iter().zip(fixes) {
            let severity = Severity::of(chosen.level(one.problem.rule()));
            let report = problem_report(subject, severity, *one, fix)?;
            self.reports.push(report)?;
        }
        let more = found.len().saturating_sub(MAX_REPORTS);
        if more > 0 {
            let message = format!(in subject.alloc; "{more} more reports are not shown")?;
            self.reports
                .push(notice(Span { start: 0, end: 0 }, message))?;
        }
        Ok(())
    }

    fn not_searched(&mut self, subject: Subject<'_>, parts: &[Span]) -> Result<(), RunError> {
        for span in parts.iter().take(MAX_REPORTS) {
            let message = String::from_str(subject.alloc, NOT_SEARCHED)?;
            self.reports.push(notice(*span, message))?;
        }
        Ok(())
    }
}
