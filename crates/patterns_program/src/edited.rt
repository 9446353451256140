//! What a run does with a pattern, for an editor: nothing is written, and one pattern is worked on at a time.
ghost use Rattle.std.specs.Prelude.{◌≡◌, IfOk, IfSome, unwrap_or};
ghost use Rattle.fancy_lex.specs.Flags.{flags_of};
ghost use Rattle.patterns_program.specs.Edited.{IsInForm, IsReplaced, Replaces};
ghost use Rattle.patterns_program.specs.Fixes.{IsFixedOnce, IsFixedRepeatedly};
ghost use Rattle.patterns_program.specs.Rewriting.{IfChanged};

use crate::changes::{PatternChange, change_of};
use crate::lint::{LintRequest, fixed_further, lint};
use crate::rewriting::{PatternForm, Rewriting, formatted};
use crate::tally::Tally;
use lint_rules::chosen::Chosen;
use pattern_files::entry::Entry;
use pattern_files::spelling::{SpelledIn, fits};
use pattern_reports::kept::Report;
use pattern_reports::reports::Reports;
use patterns_lint::known::Known;
use patterns_text::error::RunError;
use patterns_text::position::Location;
use patterns_text::subject::Subject;
use source_literals::replaced::Replacement;
use std::alloc::{AllocError, Global};

/// The work on the patterns of a document.
#[derive(Drop)]
pub struct EditedPatterns {
    alloc: Global,
    /// The flags that they are parsed under, and the levels of rules.
    pub flags: u32,
    pub levels: Chosen,
    /// The classes of patterns that are parsed under the same flags, and these.
    known: Known,
    known_flags: u32,
}

impl EditedPatterns {
    /// Patterns that are parsed under these flags, with these levels of rules.
    pub fn new(alloc: Global, flags: u32, levels: Chosen) -> EditedPatterns {
        EditedPatterns {
            alloc,
            flags,
            levels,
            known: Known::new(alloc, flags),
            known_flags: flags,
        }
    }

    /// The pattern of an entry.
    pub fn subject<'s>(&self, entry: Entry<'s>) -> Subject<'s>
        ensures pattern { result.pattern ≡ entry.entry.pattern }
        ensures flags { result.flags ≡ unwrap_or entry.entry.flags self.now.flags }
    {
        Subject {
            alloc: self.alloc,
            flags: entry.flags.unwrap_or(self.flags),
            at: Location::at(entry.file, entry.spot),
            pattern: entry.pattern,
        }
    }

    /// Forgets the classes of other patterns, if those were parsed under other flags.
    fn see_flags(&mut self, flags: u32)
        ensures flags { self.new.flags ≡ self.old.flags }
    {
        if flags != self.known_flags {
            self.known = Known::new(self.alloc, flags);
            self.known_flags = flags;
        }
    }

    /// What `lint` makes of the pattern of an entry, and what it reports.
    fn linted(
        &mut self,
        entry: Entry<'_>,
        has_fixes: bool,
        reports: &mut Vec<Report>,
    ) -> Result<Rewriting, RunError>
        ensures flags { self.new.flags ≡ self.old.flags }
        ensures changed { IfOk result (IfChanged
            (IsFixedOnce (flags_of (unwrap_or entry.entry.flags self.old.flags)) entry.entry.pattern.now)) }
    {
        let subject = self.subject(entry);
        self.see_flags(subject.flags);
        let request = LintRequest {
            grammar: entry.grammar,
            chosen: &self.levels,
            has_fixes,
        };
        let mut reports = Reports::kept(reports);
        lint(
            subject,
            request,
            &mut reports,
            &mut self.known,
            &mut Tally::new(1),
        )
    }

    /// The error of the pattern of an entry, or the likely mistakes in it.
    pub fn reports(&mut self, entry: Entry<'_>) -> Result<Vec<Report>, RunError>
        ensures flags { self.new.flags ≡ self.old.flags }
    {
        let mut reports = Vec::new(self.alloc);
        self.linted(entry, false, &mut reports)?;
        Ok(reports)
    }

    /// What is changed in the file for an entry that becomes the text, which has this form; None if it stays.
    fn change(
        &self,
        entry: Entry<'_>,
        form: PatternForm,
        text: &str,
    ) -> Result<Option<Replacement>, AllocError>
        ensures { IfOk result (λ found. IfSome found (IsReplaced entry.entry text.now)) }
    {
        match change_of(self.alloc, entry, form, text)? {
            Ok(PatternChange::InFile(part)) => Ok(Some(part)),
            Ok(PatternChange::InSource(_)) | Err(_) => Ok(None),
        }
    }

    /// What is changed in the file for an entry whose reports are fixed; None if it stays.
    pub fn fixed(&mut self, entry: Entry<'_>) -> Result<Option<Replacement>, RunError>
        ensures flags { self.new.flags ≡ self.old.flags }
        ensures replaces { IfOk result (λ found. IfSome found (Replaces entry.entry
            (IsFixedRepeatedly (flags_of (unwrap_or entry.entry.flags self.old.flags)) entry.entry.pattern.now))) }
    {
        let mut reports = Vec::new(self.alloc);
        let Rewriting::Changed(text) = self.linted(entry, true, &mut reports)? else {
            return Ok(None);
        };
        let subject = self.subject(entry);
        let text = fixed_further(subject, text, &self.levels, &mut self.known)?;
        self.fixed_to(entry, text.as_str())
    }

    /// What is changed in the file for an entry that becomes the text by fixes; None if it stays.
    pub fn fixed_to(&self, entry: Entry<'_>, text: &str) -> Result<Option<Replacement>, RunError>
        ensures { IfOk result (λ found. IfSome found (IsReplaced entry.entry text.now)) }
    {
        if !fits(SpelledIn::Line, text, entry.pattern) {
            return Ok(None);
        }
        Ok(self.change(entry, PatternForm::NONE, text)?)
    }

    /// What is changed in the file for an entry that gets this form; None if it stays.
    pub fn formatted(
        &self,
        entry: Entry<'_>,
        form: PatternForm,
    ) -> Result<Option<Replacement>, RunError>
        ensures { IfOk result (λ found. IfSome found (Replaces entry.entry
            (IsInForm form (flags_of (unwrap_or entry.entry.flags self.now.flags)) entry.entry.pattern.now))) }
    {
        let mut reports = Vec::new(self.alloc);
        let subject = self.subject(entry);
        match formatted(subject, form, &mut Reports::kept(&mut reports))? {
            Rewriting::Changed(text) => Ok(self.change(entry, form, text.as_str())?),
            Rewriting::Stays(_) => Ok(None),
        }
    }
}
