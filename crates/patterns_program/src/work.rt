//! The work of a run on one pattern after another, whatever files they are in. What it writes is kept in memory.
ghost use Rattle.std.specs.Prelude.{◌≡◌, Ok, IfOk, unwrap_or};
ghost use Rattle.patterns_program.specs.Accepted.{IsEntryAccepted};
ghost use Rattle.patterns_program.specs.Rewriting.{StaysWith};
ghost use Rattle.patterns_program.specs.declared.job.Command.{Command};
ghost use Rattle.patterns_program.specs.declared.outcome.Outcome.{Outcome};
ghost use Rattle.patterns_text.specs.Subject.{IsAccepted};

use crate::change::{write_change, write_difference, write_ended};
use crate::changes::{Changes, Kept, PatternChange, Unwritten, change_of};
use crate::check::check;
use crate::groups::list_groups;
use crate::job::{Command, Job, Output};
use crate::lint::{LintRequest, fixed_further, lint};
use crate::outcome::Outcome;
use crate::rewriting::{PatternForm, Rewriting, formatted};
use crate::tally::Tally;
use dialects::dialect::Dialect;
use lint_rules::chosen::Chosen;
use pattern_files::entry::Entry;
use pattern_files::lines::BOM;
use pattern_files::sources::STANDARD_INPUT;
use pattern_files::spelling::{SpelledIn, fits};
use pattern_reports::reporter::Reporter;
use pattern_reports::reports::{ReportLog, ReportOptions, Reports};
use pattern_reports::streams::{Stream, Streams};
use patterns_lint::known::Known;
use patterns_listing::drawing::{Look, Style};
use patterns_text::error::RunError;
use patterns_text::grammar_rule::GrammarRule;
use patterns_text::position::{Location, Spot};
use patterns_text::shown::Shown;
use patterns_text::subject::Subject;
use std::alloc::{AllocError, Global};
use std::io;
use std::io::Write;

/// What has been written of the patterns that are formatted.
#[derive(Clone, Copy)]
enum Written {
    Nothing,
    /// A byte order mark, or the last pattern with its end.
    Ended,
    /// The last pattern, which had no end: the last one of its file.
    Unended,
}

/// What a pass over a file changes of what a run has met, so that a pass can be taken back.
#[derive(Clone, Copy)]
pub(crate) struct Met {
    tally: Tally,
    log: ReportLog,
}

/// The work of a run.
#[derive(Drop)]
pub(crate) struct Work<'a> {
    pub(crate) alloc: Global,
    pub(crate) job: Job<'a>,
    /// The flags of the file that is read.
    pub(crate) flags: u32,
    /// The levels of rules for the pattern that is read, and its dialect.
    levels: Chosen,
    /// The dialect of the file that is read.
    dialect: Option<Dialect>,
    /// The form that `format` brings them into.
    form: PatternForm,
    /// Whether the patterns are in a file, and not arguments.
    pub(crate) has_file: bool,
    /// The changes of the patterns of the file.
    pub(crate) changes: Changes,
    /// The classes of the patterns that are parsed under the same flags, where they are looked at.
    known: Known,
    /// These flags.
    known_flags: u32,
    pub(crate) log: ReportLog,
    pub(crate) tally: Tally,
    written: Written,
    /// What is written before reports: patterns, changes that are shown, and why patterns stay as they are.
    pub(crate) shown: Streams,
    pub(crate) reported: Streams,
}

impl<'a> Work<'a> {
    /// Before the first of so many files.
    pub(crate) fn new(alloc: Global, job: Job<'a>, files: usize) -> Work<'a>
        ensures { result.job ≡ job.entry }
    {
        let flags = job.choices.flags;
        Work {
            alloc,
            job,
            flags,
            levels: Chosen::by_default(false),
            dialect: None,
            form: PatternForm::NONE,
            has_file: true,
            changes: Changes::none(alloc, Kept::Records(Vec::new(alloc))),
            known: Known::new(alloc, flags),
            known_flags: flags,
            log: ReportLog::new(),
            tally: Tally::new(files),
            written: Written::Nothing,
            shown: Streams::new(alloc),
            reported: Streams::new(alloc),
        }
    }

    /// Begins a file whose patterns are parsed under these flags, with these levels of rules, and brought into this form.
    pub(crate) fn begin(&mut self, flags: u32, levels: Chosen, form: PatternForm)
        ensures job { self.new.job ≡ self.old.job }
        ensures flags { self.new.flags ≡ flags }
    {
        self.flags = flags;
        self.levels = levels;
        self.dialect = levels.dialect;
        self.form = form;
        self.begin_pass(Kept::Records(Vec::new(self.alloc)));
    }

    /// Begins a pass over a file, in which these patterns stay.
    fn begin_pass(&mut self, kept: Kept)
        ensures job { self.new.job ≡ self.old.job }
        ensures flags { self.new.flags ≡ self.old.flags }
    {
        self.changes = Changes::none(self.alloc, kept);
    }

    /// What a pass over a file will change.
    pub(crate) fn met(&self) -> Met {
        Met {
            tally: self.tally,
            log: self.log,
        }
    }

    /// Takes back a pass over a file, and begins another, in which these patterns stay.
    pub(crate) fn take_back(&mut self, met: Met, kept: Kept) {
        self.tally = met.tally;
        self.log = met.log;
        self.shown.clear();
        self.reported.clear();
        self.begin_pass(kept);
    }

    /// Forgets the classes of other patterns, if those were parsed under other flags.
    fn see_flags(&mut self, flags: u32)
        ensures job { self.new.job ≡ self.old.job }
        ensures flags { self.new.flags ≡ self.old.flags }
    {
        if flags != self.known_flags {
            self.known = Known::new(self.alloc, flags);
            self.known_flags = flags;
        }
    }

    /// Chooses the dialect of a pattern: that of the arguments, or else that of its record, or else that of its file.
    fn see_dialect(&mut self, recorded: Option<Dialect>)
        ensures job { self.new.job ≡ self.old.job }
        ensures flags { self.new.flags ≡ self.old.flags }
    {
        self.levels.dialect = match (self.job.choices.dialect, recorded) {
            (Some(dialect), _) | (None, Some(dialect)) => Some(dialect),
            (None, None) => self.dialect,
        };
    }

    /// Where a pattern is, with the colours of the outputs.
    fn located<'s>(&self, file: &'s str, spot: Spot<'s>) -> Location<'s> {
        let paints = self.job.paints;
        let reported = match self.job.stream() {
            Stream::Out => paints.out,
            Stream::Err => paints.err,
        };
        Location {
            file,
            spot,
            reported,
            listed: paints.out,
        }
    }

    /// The pattern of an entry, where it is with the changes of those before it.
    fn subject<'s>(&self, entry: Entry<'s>) -> Subject<'s>
        ensures { IsAccepted result → IsEntryAccepted self.now.flags entry.entry }
    {
        Subject {
            alloc: self.alloc,
            flags: entry.flags.unwrap_or(self.flags),
            at: self.located(entry.file, self.changes.spot(entry.spot)),
            pattern: entry.pattern,
        }
    }

    /// How reports are written.
    pub(crate) fn options(&self) -> ReportOptions {
        let has_classes = matches!(self.job.command, Command::Groups { has_classes: true });
        ReportOptions {
            format: self.job.format,
            stream: self.job.stream(),
            look: Look {
                style: Style::Lines,
                has_spans: false,
                has_each_literal: false,
                has_facts: false,
                has_classes,
                has_trivia: false,
            },
        }
    }

    /// Writes what comes before all reports.
    pub(crate) fn begin_reports(&mut self) -> Result<(), RunError>
        ensures { self.new.job ≡ self.old.job }
    {
        let options = self.options();
        let is_lint = self.job.command == Command::Lint;
        Reports::new(options, &mut self.reported, &mut self.log).begin(self.alloc, is_lint)
    }

    /// Writes what comes after all reports.
    pub(crate) fn end_reports(&mut self) -> Result<(), RunError> {
        let options = self.options();
        Reports::new(options, &mut self.reported, &mut self.log).end()
    }

    /// What becomes of a pattern. What there is to say of one that stays is reported. Reports of `lint` are fixed if so.
    fn rewrite(
        &mut self,
        subject: Subject<'_>,
        grammar: Option<&GrammarRule>,
        has_fixes: bool,
    ) -> Result<Rewriting, RunError>
        ensures job { self.new.job ≡ self.old.job }
        ensures flags { self.new.flags ≡ self.old.flags }
        ensures check { self.old.job.command ≡ Command.Check → IfOk result
            (StaysWith (λ outcome. outcome ≡ Outcome.Good → IsAccepted subject.entry)) }
    {
        let options = self.options();
        let mut reports = Reports::new(options, &mut self.reported, &mut self.log);
        match self.job.command {
            Command::Check => Ok(Rewriting::Stays(check(subject, &mut reports)?)),
            Command::Groups { .. } => Ok(Rewriting::Stays(list_groups(subject, &mut reports)?)),
            Command::Format => formatted(subject, self.form, &mut reports),
            Command::Lint => {
                let request = LintRequest {
                    grammar,
                    chosen: &self.levels,
                    has_fixes,
                };
                let (known, tally) = (&mut self.known, &mut self.tally);
                lint(subject, request, &mut reports, known, tally)
            }
        }
    }

    /// Whether the pattern of an entry may be changed, or that is shown.
    fn may_change(&self, entry: Entry<'_>) -> bool {
        match self.job.output {
            Output::Diff | Output::Files { .. } => !self.changes.keeps(entry),
            Output::Reports | Output::Patterns | Output::Check => false,
        }
    }

    /// The form of texts that replace patterns.
    fn form(&self) -> PatternForm {
        if self.job.command == Command::Format {
            self.form
        } else {
            PatternForm::NONE
        }
    }

    /// Whether all patterns are written to the output, as they are or changed.
    fn writes_all(&self) -> bool {
        match self.job.output {
            Output::Patterns => true,
            Output::Files { .. } => !self.has_file,
            Output::Reports | Output::Check | Output::Diff => false,
        }
    }

    /// Does the work on the pattern of an entry, and returns its outcome.
    pub(crate) fn process(&mut self, entry: Entry<'_>) -> Result<Outcome, RunError>
        ensures job { self.new.job ≡ self.old.job }
        ensures flags { self.new.flags ≡ self.old.flags }
        ensures check { self.old.job.command ≡ Command.Check → result ≡ Ok Outcome.Good
            → IsEntryAccepted self.old.flags entry.entry }
    {
        self.see_flags(entry.flags.unwrap_or(self.flags));
        self.see_dialect(entry.dialect);
        self.end_last(entry.end)?;
        let subject = self.subject(entry);
        match self.rewrite(subject, entry.grammar, self.may_change(entry))? {
            Rewriting::Stays(outcome) => {
                if self.writes_all() {
                    write_ended(&mut self.shown.out, entry.pattern, entry.end)?;
                }
                Ok(outcome)
            }
            Rewriting::Changed(text) if self.job.output == Output::Patterns => {
                write_ended(&mut self.shown.out, text.as_str(), entry.end)?;
                Ok(Outcome::Good)
            }
            Rewriting::Changed(text) if self.may_change(entry) => self.change(subject, entry, text),
            Rewriting::Changed(text) => self.leave(subject, entry, text.as_str()),
        }
    }

    /// Changes the pattern of an entry to the text, or to what further fixes make of it, if that can be.
    fn change(
        &mut self,
        subject: Subject<'_>,
        entry: Entry<'_>,
        text: String,
    ) -> Result<Outcome, RunError>
        ensures job { self.new.job ≡ self.old.job }
        ensures flags { self.new.flags ≡ self.old.flags }
    {
        let command = self.job.command;
        let mut text = text;
        if command == Command::Lint {
            text = fixed_further(subject, text, &self.levels, &mut self.known)?;
            if !fits(SpelledIn::Line, text.as_str(), entry.pattern) {
                return self.leave(subject, entry, text.as_str());
            }
        }
        if !self.has_file {
            return self.write_changed(subject, entry, text.as_str());
        }
        match change_of(self.alloc, entry, self.form(), text.as_str())? {
            Ok(change) => self.replace(subject, entry, text.as_str(), change),
            Err(reason) => {
                self.write_unwritten(subject, reason)?;
                self.leave(subject, entry, text.as_str())
            }
        }
    }

    /// Says why a pattern stays as it is.
    fn write_unwritten(&mut self, subject: Subject<'_>, reason: Unwritten) -> io::Result<()>
        ensures job { self.new.job ≡ self.old.job }
        ensures flags { self.new.flags ≡ self.old.flags }
    {
        let Location { file, spot, .. } = subject.at;
        let err = &mut self.shown.err;
        match spot {
            Spot::Source(positions) => {
                let start = positions.position(subject.pattern, 0);
                writeln!(err, "{}:{start}: {reason}", Shown(file))
            }
            Spot::Line(_) | Spot::Path { .. } | Spot::Value { .. } => {
                writeln!(err, "{}: {reason}", subject.at)
            }
        }
    }

    /// Goes on with an argument that becomes the text.
    fn write_changed(
        &mut self,
        subject: Subject<'_>,
        entry: Entry<'_>,
        text: &str,
    ) -> Result<Outcome, RunError>
        ensures job { self.new.job ≡ self.old.job }
        ensures flags { self.new.flags ≡ self.old.flags }
    {
        self.show(subject, entry, text)?;
        if self.writes_all() {
            write_ended(&mut self.shown.out, text, entry.end)?;
        }
        self.changes.pass(entry, text);
        self.report_changed(subject, entry.grammar, text)
    }

    /// Goes on with the pattern of an entry that becomes the text in its file.
    fn replace(
        &mut self,
        subject: Subject<'_>,
        entry: Entry<'_>,
        text: &str,
        change: PatternChange,
    ) -> Result<Outcome, RunError>
        ensures job { self.new.job ≡ self.old.job }
        ensures flags { self.new.flags ≡ self.old.flags }
    {
        self.show(subject, entry, text)?;
        let spot = match &change {
            PatternChange::InFile(_) => subject.at.spot,
            PatternChange::InSource(moved) => Spot::Source(&moved.positions),
        };
        let subject = Subject {
            at: Location { spot, ..subject.at },
            ..subject
        };
        let outcome = self.report_changed(subject, entry.grammar, text)?;
        self.changes.add(entry, change)?;
        Ok(outcome)
    }

    /// Whether the change of an entry is a part of a patch: what it is in has a name.
    fn is_patched(&self, entry: Entry<'_>) -> bool {
        self.has_file && (entry.record.is_some() || entry.file != STANDARD_INPUT)
    }

    /// Counts a pattern that becomes the text, and shows the change if it is only shown, and not in a patch.
    fn show(&mut self, subject: Subject<'_>, entry: Entry<'_>, text: &str) -> Result<(), RunError>
        ensures job { self.new.job ≡ self.old.job }
        ensures flags { self.new.flags ≡ self.old.flags }
    {
        let is_shown = self.job.output == Output::Diff;
        let is_patched = self.is_patched(entry);
        let tally = &mut self.tally;
        let count = match self.job.command {
            _ if is_shown => &mut tally.fixable,
            Command::Format => &mut tally.formatted,
            Command::Check | Command::Groups { .. } | Command::Lint => &mut tally.fixed,
        };
        *count = count.saturating_add(1);
        if is_shown && !is_patched {
            write_change(&mut self.shown.out, subject, text)?;
        }
        Ok(())
    }

    /// Reports what is left in a pattern that has become the text.
    fn report_changed(
        &mut self,
        subject: Subject<'_>,
        grammar: Option<&GrammarRule>,
        text: &str,
    ) -> Result<Outcome, RunError>
        ensures job { self.new.job ≡ self.old.job }
        ensures flags { self.new.flags ≡ self.old.flags }
    {
        if self.job.command != Command::Lint {
            return Ok(Outcome::Good);
        }
        let subject = Subject {
            pattern: text,
            ..subject
        };
        self.report(subject, grammar)
    }

    /// Reports on a pattern that stays as it is.
    fn report(
        &mut self,
        subject: Subject<'_>,
        grammar: Option<&GrammarRule>,
    ) -> Result<Outcome, RunError>
        ensures job { self.new.job ≡ self.old.job }
        ensures flags { self.new.flags ≡ self.old.flags }
    {
        match self.rewrite(subject, grammar, false)? {
            Rewriting::Stays(outcome) => Ok(outcome),
            Rewriting::Changed(_) => Ok(Outcome::Refused),
        }
    }

    /// Reports on the pattern of an entry that would become the text, but stays as it is.
    fn leave(
        &mut self,
        subject: Subject<'_>,
        entry: Entry<'_>,
        text: &str,
    ) -> Result<Outcome, RunError>
        ensures job { self.new.job ≡ self.old.job }
        ensures flags { self.new.flags ≡ self.old.flags }
    {
        if self.job.command == Command::Lint {
            return self.report(subject, entry.grammar);
        }
        self.tally.changed = self.tally.changed.saturating_add(1);
        match self.job.output {
            Output::Diff => write_difference(&mut self.reported.err, subject, text)?,
            Output::Reports | Output::Patterns | Output::Check | Output::Files { .. } => {
                write_difference(&mut self.shown.out, subject, text)?
            }
        }
        Ok(Outcome::Refused)
    }

    /// Where patterns are written, ends the last one of the file before, if it had no end, since one that ends so comes next.
    pub(crate) fn end_last(&mut self, end: &[u8]) -> Result<(), AllocError>
        ensures job { self.new.job ≡ self.old.job }
        ensures flags { self.new.flags ≡ self.old.flags }
    {
        if let (Output::Patterns, Written::Unended) = (self.job.output, self.written) {
            let end = self.job.choices.form.ending().byte();
            self.shown.out.push(end)?;
        }
        self.written = if end.is_empty() {
            Written::Unended
        } else {
            Written::Ended
        };
        Ok(())
    }

    /// Writes the byte order mark of a file that is formatted, if nothing is written yet: in the middle of the output
    /// it would be part of a pattern.
    pub(crate) fn write_bom(&mut self) -> Result<(), AllocError> {
        if let (Output::Patterns, Written::Nothing) = (self.job.output, self.written) {
            self.shown.out.extend_from_slice(BOM)?;
            self.written = Written::Ended;
        }
        Ok(())
    }
}
