//! What becomes of a pattern.
ghost use Rattle.std.specs.Prelude.{◌≡◌, Ok, IfOk, if◌then◌else◌};
ghost use Rattle.fancy_lex.specs.Flags.{flags_of};
ghost use Rattle.pattern_format.specs.Formatted.{IsFormatted};
ghost use Rattle.pattern_format.specs.declared.style.Style.{Style};
ghost use Rattle.patterns_config.specs.declared.choices.FormatStyle.{FormatStyle};
ghost use Rattle.patterns_program.specs.Edited.{IsInForm};
ghost use Rattle.patterns_program.specs.Rewriting.{IfChanged};
ghost use Rattle.patterns_program.specs.declared.canonical.Comments.{Comments};
ghost use Rattle.patterns_program.specs.declared.outcome.Outcome.{Outcome};
ghost use Rattle.patterns_program.specs.declared.rewriting.PatternForm.{PatternForm};
ghost use Rattle.patterns_program.specs.declared.rewriting.Rewriting.TheVariants.{Stays};
ghost use Rattle.patterns_text.specs.Subject.{IsAccepted};

use crate::canonical::{Comments, canonical};
use crate::outcome::Outcome;
use fancy_lex::error::Error;
use pattern_files::spelling::{SpelledIn, fits};
use pattern_format::extent::Extent;
use pattern_format::format::format_pattern;
use pattern_format::style::Style;
use pattern_reports::reporter::Reporter;
use pattern_reports::reports::Reports;
use patterns_config::choices::FormatStyle;
use patterns_config::file_settings::FormatSettings;
use patterns_text::error::RunError;
use patterns_text::subject::{Refusal, Subject};
use std::alloc::AllocError;

/// Why a valid pattern stays as it is.
const NOT_FORMATTED: &str = "the pattern cannot be formatted without another change";

/// The form that `format` writes patterns in.
#[derive(Clone, Copy, PartialEq, Eq)]
pub enum PatternForm {
    /// As they are written, and what has one right form in that form.
    Written(Style),
    /// As the texts of their trees.
    Canonical(Comments),
}

impl PatternForm {
    /// That of patterns for which nothing is chosen.
    pub const NONE: PatternForm = PatternForm::Written(Style::Kept);
}

/// The form of patterns with these settings. Without `has_lines` each is in one line, and stays in it.
pub fn form_of(settings: FormatSettings, has_lines: bool) -> PatternForm
    ensures kept { settings.style ≡ FormatStyle.Default → result ≡ PatternForm.Written Style.Kept }
    ensures verbose { settings.style ≡ FormatStyle.Verbose → result ≡
        PatternForm.Written (if has_lines then Style.Verbose settings.width else Style.Kept) }
    ensures compact { settings.style ≡ FormatStyle.Compact → result ≡ PatternForm.Written Style.Compact }
    ensures canonical { settings.style ≡ FormatStyle.Canonical → result ≡
        PatternForm.Canonical (if settings.drops_comments then Comments.Drop else Comments.Keep) }
{
    let FormatSettings {
        style,
        width,
        drops_comments,
    } = settings;
    match style {
        FormatStyle::Verbose if has_lines => PatternForm::Written(Style::Verbose { width }),
        FormatStyle::Default | FormatStyle::Verbose => PatternForm::Written(Style::Kept),
        FormatStyle::Compact => PatternForm::Written(Style::Compact),
        FormatStyle::Canonical if drops_comments => PatternForm::Canonical(Comments::Drop),
        FormatStyle::Canonical => PatternForm::Canonical(Comments::Keep),
    }
}

/// What becomes of a pattern.
#[derive(Drop)]
pub(crate) enum Rewriting {
    /// It stays as it is, with this outcome. What there is to report was reported.
    Stays(Outcome),
    /// It becomes this text, which is another. Nothing was reported.
    Changed(String),
}

/// How a pattern in this style is written: the style Verbose may give it several lines.
fn spelled_in(style: Style) -> SpelledIn {
    match style {
        Style::Kept | Style::Compact => SpelledIn::Line,
        Style::Verbose { .. } => SpelledIn::Lines,
    }
}

/// What becomes of the pattern in this style. It stays if its text cannot replace it. An invalid pattern stays, and one that
/// cannot be formatted: the position and the reason are reported.
fn styled(
    subject: Subject<'_>,
    style: Style,
    reports: &mut Reports<'_>,
) -> Result<Rewriting, RunError>
    ensures changed { IfOk result (IfChanged
        (IsFormatted style (flags_of subject.entry.flags) subject.entry.pattern.now)) }
    ensures good { result ≡ Ok (Stays Outcome.Good) → IsAccepted subject.entry }
    ensures read { result ≡ Ok (Stays Outcome.Unread) → ⊥ }
{
    let Subject {
        alloc,
        flags,
        pattern,
        ..
    } = subject;
    let formatted = match format_pattern(alloc, pattern, flags, style) {
        Ok(formatted) => formatted,
        Err(Error::ParseError(position, kind)) => {
            reports.error(subject, &Refusal { position, kind })?;
            return Ok(Rewriting::Stays(Outcome::Refused));
        }
        Err(Error::OutOfMemory) => return Err(RunError::Memory(AllocError)),
    };
    if formatted.extent == Extent::Nothing {
        reports.refuse(subject, 0, NOT_FORMATTED)?;
        return Ok(Rewriting::Stays(Outcome::Refused));
    }
    let text = formatted.text;
    if text.as_str() == pattern || !fits(spelled_in(style), text.as_str(), pattern) {
        return Ok(Rewriting::Stays(Outcome::Good));
    }
    Ok(Rewriting::Changed(text))
}

/// What becomes of the pattern in this form. What it is not is reported: valid, or without a comment that would be lost.
pub(crate) fn formatted(
    subject: Subject<'_>,
    form: PatternForm,
    reports: &mut Reports<'_>,
) -> Result<Rewriting, RunError>
    ensures changed { IfOk result (IfChanged
        (IsInForm form (flags_of subject.entry.flags) subject.entry.pattern.now)) }
{
    match form {
        PatternForm::Written(style) => styled(subject, style, reports),
        PatternForm::Canonical(comments) => canonical(subject, comments, reports),
    }
}
