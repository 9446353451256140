//! The subcommand `check`: whether a pattern is accepted.
ghost use Rattle.std.specs.Prelude.{◌≡◌, Ok};
ghost use Rattle.patterns_program.specs.declared.outcome.Outcome.{Outcome};
ghost use Rattle.patterns_text.specs.Subject.{IsAccepted, IsRefused};

use crate::outcome::Outcome;
use pattern_reports::reporter::parse;
use pattern_reports::reports::Reports;
use patterns_text::error::RunError;
use patterns_text::subject::Subject;

/// Reports the error of the pattern, if it is invalid.
pub(crate) fn check(subject: Subject<'_>, reports: &mut Reports<'_>) -> Result<Outcome, RunError>
    ensures good { result ≡ Ok Outcome.Good → IsAccepted subject.entry }
    ensures refused { result ≡ Ok Outcome.Refused → IsRefused subject.entry }
    ensures read { result ≡ Ok Outcome.Unread → ⊥ }
{
    match parse(subject, reports)? {
        Some(_) => Ok(Outcome::Good),
        None => Ok(Outcome::Refused),
    }
}
