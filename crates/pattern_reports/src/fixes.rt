//! The reports of a pattern that an edit fixes.
ghost use Rattle.std.specs.Prelude.{◌≡◌, string_bytes, IfOk, IfSome};
ghost use Rattle.fancy_lex.specs.Flags.{flags_of};
ghost use Rattle.fancy_grammar.specs.Trivia.{comment_texts};
ghost use Rattle.fancy_syntax.specs.InfoViews.{info_of};
ghost use Rattle.fancy_syntax.specs.TriviaViews.{trivia_of};
ghost use Rattle.fancy_syntax.specs.View.{view};
ghost use Rattle.pattern_fixes.specs.Fixed.{IsFixedText};

use fancy_syntax::span::Span;
use fancy_syntax::spanned::SpannedTree;
use lint_rules::problem::Found;
use pattern_fixes::edit::{Edit, FixableReport};
use pattern_fixes::fixed::ParsedPattern;
use patterns_text::first_comment::first_comment;
use patterns_text::subject::Subject;
use std::alloc::AllocError;

/// How often reports of a pattern are to be fixed, the later ones after the earlier. Each time these are up to
/// `pattern_fixes::fixed::MAX_FIXES`, so that only a pattern with thousands of them has some left.
pub const MAX_ROUNDS: usize = 64;

/// A part of a pattern, and a text about it or in its place.
#[derive(Drop)]
pub struct PartText {
    pub span: Span,
    pub text: String,
}

/// Adds the report, once for each part that its message names, if there may be edits that fix it.
fn add_fixable(found: &Found<'_>, reports: &mut Vec<FixableReport>) -> Result<(), AllocError> {
    let Some(kind) = found.problem.rule().row().fix else {
        return Ok(());
    };
    let span = found.span;
    reports.push(FixableReport { kind, span })?;
    for span in found.others.named.iter().flatten() {
        reports.push(FixableReport { kind, span: *span })?;
    }
    Ok(())
}

/// Whether a `#` is at the span, which may begin a comment.
fn has_hash(pattern: &str, span: Span) -> bool {
    span.text(pattern).unwrap_or("").contains('#')
}

/// The reports that may be fixed. In a pattern with comments they are not on a part with a `#`, so that no comment is lost.
fn fixable_reports(
    subject: Subject<'_>,
    parsed: &SpannedTree,
    found: &[Found<'_>],
) -> Result<Vec<FixableReport>, AllocError> {
    let mut reports = Vec::new(subject.alloc);
    for one in found {
        add_fixable(one, &mut reports)?;
    }
    if reports
        .iter()
        .any(|one| has_hash(subject.pattern, one.span))
        && first_comment(subject.pattern, parsed).is_some()
    {
        reports.retain(|one| !has_hash(subject.pattern, one.span));
    }
    Ok(reports)
}

/// The pattern, for which fixes are tried.
fn parsed_pattern<'p, 't>(subject: Subject<'p>, parsed: &'t SpannedTree) -> ParsedPattern<'p, 't>
    ensures flags { result.flags ≡ subject.entry.flags }
    ensures tree { result.tree.now ≡ parsed.now.tree }
    ensures pattern { result.pattern ≡ subject.entry.pattern }
    ensures trivia { result.trivia.now ≡ parsed.now.trivia.items }
{
    ParsedPattern {
        alloc: subject.alloc,
        flags: subject.flags,
        pattern: subject.pattern,
        tree: &parsed.tree,
        trivia: &parsed.trivia,
    }
}

/// What becomes of the part of the pattern from the first of the edits that may fix the reports through the last one, if these
/// are fixed.
fn fix_of_several(
    pattern: ParsedPattern<'_, '_>,
    own: &[FixableReport],
) -> Result<Option<PartText>, AllocError> {
    let edits = pattern.edits(own)?;
    let (Some(first), Some(last)) = (edits.first(), edits.last()) else {
        return Ok(None);
    };
    let Some(text) = pattern.fixed(own)? else {
        return Ok(None);
    };
    let (start, end) = (first.span.start, last.span.end);
    let rest = pattern.pattern.len().saturating_sub(end);
    let Some(part) = text.get(start..text.len().saturating_sub(rest)) else {
        return Ok(None);
    };
    Ok(Some(PartText {
        span: Span { start, end },
        text: String::from_str(pattern.alloc, part)?,
    }))
}

/// The edit that fixes the report by itself, which is one of the reports, if there is one.
fn fix_of(
    pattern: ParsedPattern<'_, '_>,
    report: FixableReport,
    reports: &[FixableReport],
) -> Result<Option<PartText>, AllocError> {
    let Some(Edit { span, text }) = pattern.fix(report, reports)? else {
        return Ok(None);
    };
    let text = String::from_str(pattern.alloc, text)?;
    Ok(Some(PartText { span, text }))
}

/// For each report the edit that fixes it by itself, if there is one.
pub fn fixes_of(
    subject: Subject<'_>,
    parsed: &SpannedTree,
    found: &[Found<'_>],
) -> Result<Vec<Option<PartText>>, AllocError> {
    let reports = fixable_reports(subject, parsed, found)?;
    let pattern = parsed_pattern(subject, parsed);
    let mut fixes = Vec::new(subject.alloc);
    for one in found {
        let mut own = Vec::new(subject.alloc);
        add_fixable(one, &mut own)?;
        own.retain(|report| reports.iter().any(|other| other.span == report.span));
        let fix = match own.as_slice() {
            [report] => fix_of(pattern, *report, &reports)?,
            several => fix_of_several(pattern, several)?,
        };
        fixes.push(fix)?;
    }
    Ok(fixes)
}

/// The pattern with the reports fixed, as many as can be fixed at once, and nothing else changed; none if none can be.
pub fn fixed(
    subject: Subject<'_>,
    parsed: &SpannedTree,
    found: &[Found<'_>],
) -> Result<Option<String>, AllocError>
    ensures { IfOk result (λ o. IfSome o (λ text. IsFixedText (flags_of subject.entry.flags) (string_bytes text)
        (view parsed.now.tree.expr) (info_of parsed.now.tree)
        (comment_texts subject.entry.pattern.now (trivia_of parsed.now.trivia)))) }
{
    let reports = fixable_reports(subject, parsed, found)?;
    parsed_pattern(subject, parsed).fixed(&reports)
}
