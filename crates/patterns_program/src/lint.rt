//! The command `lint`: likely mistakes in patterns that are accepted.
ghost use Rattle.std.specs.Prelude.{◌≡◌, ◌⊎◌, string_bytes, Ok, IfOk, IfSome, OnSome, IfNone, IsSome, Contains};
ghost use Rattle.std.specs.Bool.{OnTrue};
ghost use Rattle.fancy_lex.specs.Flags.{flags_of};
ghost use Rattle.lint_rules.specs.declared.chosen.Level.{Level};
ghost use Rattle.patterns_program.specs.Fixes.{IsFixedOnce, IsFixedRepeatedly};
ghost use Rattle.patterns_program.specs.Rewriting.{IfChanged};
ghost use Rattle.patterns_program.specs.declared.outcome.Outcome.{Outcome};
ghost use Rattle.patterns_program.specs.declared.rewriting.Rewriting.TheVariants.{Stays};
ghost use Rattle.patterns_text.specs.Subject.{HasTrivia, IsAccepted, IsParsedAs, IsRefused};

use crate::outcome::Outcome;
use crate::rewriting::Rewriting;
use crate::tally::Tally;
use dialects::dialect::Dialect;
use fancy_syntax::spanned::SpannedTree;
use lint_rules::chosen::{Chosen, Level};
use lint_rules::problem::Found;
use pattern_reports::fixes::{MAX_ROUNDS, fixed};
use pattern_reports::reporter::{Reporter, parse};
use pattern_reports::reports::Reports;
use patterns_lint::find::reported;
use patterns_lint::known::Known;
use patterns_lint::silenced::levels_in;
use patterns_lint::slow::SlowParts;
use patterns_text::error::RunError;
use patterns_text::grammar_rule::GrammarRule;
use patterns_text::subject::Subject;

/// What `lint` looks for in a pattern.
#[derive(Clone, Copy)]
pub(crate) struct LintRequest<'a> {
    /// What the object around it says, if it is a pattern of a grammar.
    pub(crate) grammar: Option<&'a GrammarRule>,
    /// The levels of the rules.
    pub(crate) chosen: &'a Chosen,
    /// Whether reports are fixed that a plain edit fixes.
    pub(crate) has_fixes: bool,
}

/// Counts the likely mistakes, and returns whether the rule of one is denied.
fn count_denied(found: &[Found<'_>], chosen: &Chosen, tally: &mut Tally) -> bool
    ensures { OnTrue result (Contains chosen.now.levels Level.Deny) }
{
    let mut is_denied = false;
    for one in found {
        let level = chosen.level(one.problem.rule());
        tally.report(level);
        is_denied = is_denied || level == Level::Deny;
    }
    is_denied
}

/// Parses the pattern. What is invalid is reported, if no other dialect is named.
fn parse_in(
    subject: Subject<'_>,
    dialect: Option<Dialect>,
    reports: &mut Reports<'_>,
) -> Result<Option<SpannedTree>, RunError>
    ensures read { IfOk result (λ parsed. OnSome parsed (IsAccepted subject.entry)) }
    ensures tree { IfOk result (λ parsed. IfSome parsed (λ t. IsParsedAs subject.entry t.tree)) }
    ensures trivia { IfOk result (λ parsed. IfSome parsed (λ t. HasTrivia subject.entry t.trivia)) }
    ensures refused { IfOk result (λ parsed. IfNone parsed (IsRefused subject.entry)) }
{
    if dialect.is_none() {
        return parse(subject, reports);
    }
    Ok(subject.parse()?.ok())
}

/// What a pattern is that is invalid: refused, or passed over if another dialect is named, which is counted.
fn not_parsed(dialect: Option<Dialect>, tally: &mut Tally) -> Outcome
    ensures good { result ≡ Outcome.Good → IsSome dialect }
    ensures read { result ≡ Outcome.Unread → ⊥ }
{
    if dialect.is_none() {
        return Outcome::Refused;
    }
    tally.pass_over();
    Outcome::Good
}

/// Reports the likely mistakes in the pattern, or its error if it is invalid; or returns the pattern with reports fixed, in
/// one record. A pattern is passed over, which is counted, if a dialect is named that reads it otherwise, or if it is invalid
/// and a dialect is named. `known` has the classes of the run's patterns.
pub(crate) fn lint(
    subject: Subject<'_>,
    request: LintRequest<'_>,
    reports: &mut Reports<'_>,
    known: &mut Known,
    tally: &mut Tally,
) -> Result<Rewriting, RunError>
    ensures good { result ≡ Ok (Stays Outcome.Good) → IsAccepted subject.entry ⊎ IsSome request.entry.chosen.now.dialect }
    ensures refused { result ≡ Ok (Stays Outcome.Refused) →
        IsRefused subject.entry ⊎ Contains request.entry.chosen.now.levels Level.Deny }
    ensures read { result ≡ Ok (Stays Outcome.Unread) → ⊥ }
    ensures changed { IfOk result (IfChanged (IsFixedOnce (flags_of subject.entry.flags) subject.entry.pattern.now)) }
{
    let LintRequest {
        grammar,
        chosen,
        has_fixes,
    } = request;
    let Some(parsed) = parse_in(subject, chosen.dialect, reports)? else {
        return Ok(Rewriting::Stays(not_parsed(chosen.dialect, tally)));
    };
    let levels = levels_in(subject.pattern, &parsed.trivia, chosen);
    let slow = SlowParts::in_dialect(subject, &parsed, &levels, known)?;
    let Some(mut found) = reported(subject, &parsed, grammar, &levels, known, &slow)? else {
        tally.pass_over();
        return Ok(Rewriting::Stays(Outcome::Good));
    };
    if has_fixes && let Some(text) = fixed(subject, &parsed, &found)? {
        return Ok(Rewriting::Changed(text));
    }
    found.retain(|one| !one.is_counted);
    reports.problems(subject, &parsed, chosen, &found)?;
    if chosen.is_verbose {
        reports.not_searched(subject, &slow.not_searched)?;
    }
    if count_denied(&found, chosen, tally) {
        tally.denied = tally.denied.saturating_add(1);
        return Ok(Rewriting::Stays(Outcome::Refused));
    }
    Ok(Rewriting::Stays(Outcome::Good))
}

/// The pattern with reports fixed, as many as can be fixed at once; none if none can be.
fn fixed_once(
    subject: Subject<'_>,
    chosen: &Chosen,
    known: &mut Known,
) -> Result<Option<String>, RunError>
    ensures { IfOk result (λ found. IfSome found (λ text.
        IsFixedOnce (flags_of subject.entry.flags) subject.entry.pattern.now (string_bytes text))) }
{
    let Ok(parsed) = subject.parse()? else {
        return Ok(None);
    };
    let levels = levels_in(subject.pattern, &parsed.trivia, chosen);
    let slow = SlowParts::new(subject.alloc);
    let Some(found) = reported(subject, &parsed, None, &levels, known, &slow)? else {
        return Ok(None);
    };
    Ok(fixed(subject, &parsed, &found)?)
}

/// The text that a pattern has become by fixes, with the reports fixed that it has then, and so on.
pub(crate) fn fixed_further(
    subject: Subject<'_>,
    text: String,
    chosen: &Chosen,
    known: &mut Known,
) -> Result<String, RunError>
    ensures { IfOk result (λ further.
        IsFixedRepeatedly (flags_of subject.entry.flags) (string_bytes text) (string_bytes further)) }
{
    let mut text = text;
    for _ in 1..MAX_ROUNDS {
        let pattern = text.as_str();
        match fixed_once(Subject { pattern, ..subject }, chosen, known)? {
            Some(next) => text = next,
            None => break,
        }
    }
    Ok(text)
}
