//! The subcommand `groups`: a pattern's groups, and what its references and calls refer to.
ghost use Rattle.std.specs.Prelude.{◌≡◌, Ok};
ghost use Rattle.patterns_program.specs.declared.outcome.Outcome.{Outcome};
ghost use Rattle.patterns_text.specs.Subject.{IsAccepted, IsRefused};

use crate::outcome::Outcome;
use pattern_reports::reporter::{Reporter, parse};
use pattern_reports::reports::Reports;
use patterns_text::error::RunError;
use patterns_text::subject::Subject;

/// Reports the groups of the pattern and what its references and calls refer to, or its error if it is invalid.
pub(crate) fn list_groups(
    subject: Subject<'_>,
    reports: &mut Reports<'_>,
) -> Result<Outcome, RunError>
    ensures good { result ≡ Ok Outcome.Good → IsAccepted subject.entry }
    ensures refused { result ≡ Ok Outcome.Refused → IsRefused subject.entry }
    ensures read { result ≡ Ok Outcome.Unread → ⊥ }
{
    let Some(parsed) = parse(subject, reports)? else {
        return Ok(Outcome::Refused);
    };
    reports.groups(subject, &parsed)?;
    Ok(Outcome::Good)
}
