//! `format --canonical`: each pattern as the text of its tree, in its own spelling of escapes, classes and references.
ghost use Rattle.std.specs.Prelude.{◌≡◌, ◌⊎◌, chars, string_bytes, Ok, IfOk, IfSome, IfNone, OnSome};
ghost use Rattle.fancy_lex.specs.Flags.{flags_of};
ghost use Rattle.fancy_grammar.specs.Spans.{AreSpansOf};
ghost use Rattle.fancy_syntax.specs.InfoViews.{IsTreeOf, info_of};
ghost use Rattle.fancy_syntax.specs.SpanViews.{spans_of};
ghost use Rattle.fancy_syntax.specs.View.{view};
ghost use Rattle.patterns_program.specs.Line.{IsLineOf, HasNoLine, MayKeep, Stays, Changes};
ghost use Rattle.patterns_program.specs.declared.canonical.Comments.{Comments};
ghost use Rattle.patterns_program.specs.Rewriting.{IfChanged};
ghost use Rattle.patterns_program.specs.declared.outcome.Outcome.{Outcome};
ghost use Rattle.patterns_program.specs.declared.rewriting.Rewriting.TheVariants.{Stays as StaysAs};
ghost use Rattle.patterns_text.specs.Subject.{IsParsedAs, IsRefused};

use crate::outcome::Outcome;
use crate::rewriting::Rewriting;
use fancy_lex::error::Error;
use fancy_pattern::to_pattern;
use fancy_syntax::spanned::SpannedTree;
use pattern_files::lines::breaks_line;
use pattern_format::spelled::in_spelling_of;
use pattern_reports::reporter::Reporter;
use pattern_reports::reports::Reports;
use patterns_text::error::RunError;
use patterns_text::first_comment::first_comment;
use patterns_text::subject::{Refusal, Subject};
use std::alloc::{AllocError, Global};

/// Why a pattern with a comment stays as it is.
const LOST: &str = "comments would be lost; use --drop-comments";

/// What becomes of a pattern that has a comment, which its text does not keep.
#[derive(Clone, Copy, PartialEq, Eq)]
pub enum Comments {
    /// It stays as it is, and that is reported.
    Keep,
    /// It is written without the comment.
    Drop,
}

/// The canonical text of the pattern, for its line. None if it would break the line: the pattern itself is written then.
fn line_of(
    alloc: Global,
    flags: u32,
    pattern: &str,
    parsed: &SpannedTree,
) -> Result<Option<String>, RunError>
    ensures some { IfOk result (λ text. IfSome text (λ s. IsLineOf (flags_of flags) pattern.now
        (view parsed.now.tree.expr) (info_of parsed.now.tree) (spans_of parsed.now.spans) (string_bytes s))) }
    ensures none { IfOk result (λ text. IfNone text
        (IsTreeOf (flags_of flags) (chars pattern.now) (view parsed.now.tree.expr) (info_of parsed.now.tree) →
        HasNoLine (flags_of flags) pattern.now (view parsed.now.tree.expr) (info_of parsed.now.tree) (spans_of parsed.now.spans))) }
{
    let Some(text) = to_pattern(alloc, &parsed.tree, flags)? else {
        return Ok(None);
    };
    let text = in_spelling_of(alloc, pattern, parsed, text, flags)?;
    if breaks_line(text.as_str(), pattern) {
        return Ok(None);
    }
    Ok(Some(text))
}

/// The tree of the pattern with its spans; None if the pattern is invalid, and then the error is reported.
fn spanned(subject: Subject<'_>, reports: &mut Reports<'_>) -> Result<Option<SpannedTree>, RunError>
    ensures tree { IfOk result (λ parsed. IfSome parsed (λ t. IsParsedAs subject.entry t.tree)) }
    ensures spans { IfOk result (λ parsed. IfSome parsed (λ t. AreSpansOf (flags_of subject.entry.flags)
        (chars subject.entry.pattern.now) (spans_of t.spans))) }
    ensures refused { IfOk result (λ parsed. IfNone parsed (IsRefused subject.entry)) }
{
    match SpannedTree::parse(subject.alloc, subject.pattern, subject.flags) {
        Ok(parsed) => Ok(Some(parsed)),
        Err(Error::ParseError(position, kind)) => {
            reports.error(subject, &Refusal { position, kind })?;
            Ok(None)
        }
        Err(Error::OutOfMemory) => Err(RunError::Memory(AllocError)),
    }
}

/// The position of the first comment of the pattern, if comments are to be kept.
fn kept_comment(
    subject: Subject<'_>,
    parsed: &SpannedTree,
    comments: Comments,
) -> Result<Option<usize>, RunError>
    ensures { IfOk result (λ kept. OnSome kept (MayKeep comments subject.entry.pattern.now)) }
{
    if comments == Comments::Drop || !subject.pattern.as_bytes().contains(&b'#') {
        return Ok(None);
    }
    let Some(position) = first_comment(subject.pattern, parsed) else {
        return Ok(None);
    };
    Ok(Some(position))
}

/// What becomes of the pattern: its canonical text. It stays if that would break its line. An invalid pattern stays, and one
/// whose comments are kept: the position and the reason are reported.
pub(crate) fn canonical(
    subject: Subject<'_>,
    comments: Comments,
    reports: &mut Reports<'_>,
) -> Result<Rewriting, RunError>
    ensures good { result ≡ Ok (StaysAs Outcome.Good) → Stays (flags_of subject.entry.flags) subject.entry.pattern.now }
    ensures changed { IfOk result (IfChanged
        (Changes (flags_of subject.entry.flags) subject.entry.pattern.now)) }
    ensures refused { result ≡ Ok (StaysAs Outcome.Refused) → IsRefused subject.entry
        ⊎ MayKeep comments subject.entry.pattern.now }
    ensures read { result ≡ Ok (StaysAs Outcome.Unread) → ⊥ }
{
    let Subject {
        alloc,
        flags,
        pattern,
        ..
    } = subject;
    let Some(parsed) = spanned(subject, reports)? else {
        return Ok(Rewriting::Stays(Outcome::Refused));
    };
    if let Some(position) = kept_comment(subject, &parsed, comments)? {
        reports.refuse(subject, position, LOST)?;
        return Ok(Rewriting::Stays(Outcome::Refused));
    }
    let Some(text) = line_of(alloc, flags, pattern, &parsed)? else {
        return Ok(Rewriting::Stays(Outcome::Good));
    };
    if text.as_str() == pattern {
        return Ok(Rewriting::Stays(Outcome::Good));
    }
    Ok(Rewriting::Changed(text))
}
