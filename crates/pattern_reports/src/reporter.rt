//! What writes reports on patterns.
ghost use Rattle.std.specs.Prelude.{IfOk, IfSome, OnSome, IfNone};
ghost use Rattle.patterns_text.specs.Subject.{IsAccepted, IsRefused, IsParsedAs, HasTrivia};

use fancy_syntax::span::Span;
use fancy_syntax::spanned::SpannedTree;
use lint_rules::chosen::Chosen;
use lint_rules::problem::Found;
use patterns_text::error::RunError;
use patterns_text::subject::{Refusal, Subject};
use std::alloc::Global;

/// What writes reports on patterns. An error is that memory ran out.
pub trait Reporter {
    /// Writes what comes before the reports. `is_lint` says whether likely mistakes are looked for.
    fn begin(&mut self, _alloc: Global, _is_lint: bool) -> Result<(), RunError> {
        Ok(())
    }

    /// Writes where and why the pattern is invalid.
    fn error(&mut self, subject: Subject<'_>, refusal: &Refusal) -> Result<(), RunError>;

    /// Writes why a valid pattern stays as it is, for what is at the position; for other tools nothing.
    fn refuse(
        &mut self,
        _subject: Subject<'_>,
        _position: usize,
        _reason: &str,
    ) -> Result<(), RunError> {
        Ok(())
    }

    /// Writes the likely mistakes in the pattern, whose tree this is, or the first ones and how many more there are. Each is
    /// of a rule that is not silent.
    fn problems(
        &mut self,
        subject: Subject<'_>,
        parsed: &SpannedTree,
        chosen: &Chosen,
        found: &[Found<'_>],
    ) -> Result<(), RunError>;

    /// Writes which parts of the pattern were not searched, since they are too large.
    fn not_searched(&mut self, subject: Subject<'_>, parts: &[Span]) -> Result<(), RunError>;

    /// Writes the groups of the pattern, and what its references and calls refer to; for other tools nothing.
    fn groups(&mut self, _subject: Subject<'_>, _parsed: &SpannedTree) -> Result<(), RunError> {
        Ok(())
    }

    /// Writes the tree of the pattern, and its group information; for other tools nothing.
    fn tree(&mut self, _subject: Subject<'_>, _parsed: &SpannedTree) -> Result<(), RunError> {
        Ok(())
    }

    /// Writes what comes after the reports.
    fn end(&mut self) -> Result<(), RunError> {
        Ok(())
    }
}

/// How many likely mistakes are reported of a pattern. Each report shows the pattern's line, which may be long.
pub(crate) const MAX_REPORTS: usize = 100;

/// The tree of the pattern; `None` if the pattern is invalid, and then the error is reported.
pub fn parse<R: Reporter>(
    subject: Subject<'_>,
    reporter: &mut R,
) -> Result<Option<SpannedTree>, RunError>
    ensures read { IfOk result (λ reading. OnSome reading (IsAccepted subject.entry)) }
    ensures tree { IfOk result (λ reading. IfSome reading (λ t. IsParsedAs subject.entry t.tree)) }
    ensures trivia { IfOk result (λ reading. IfSome reading (λ t. HasTrivia subject.entry t.trivia)) }
    ensures refused { IfOk result (λ reading. IfNone reading (IsRefused subject.entry)) }
{
    match subject.parse()? {
        Ok(parsed) => Ok(Some(parsed)),
        Err(refusal) => {
            reporter.error(subject, &refusal)?;
            Ok(None)
        }
    }
}
