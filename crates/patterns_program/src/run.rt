//! A run over files of patterns.
ghost use Rattle.std.specs.Prelude.{◌≡◌, ◌≤◌, chars, All, IsTrue, IsSome, Ok, OnOk};
ghost use Rattle.fancy_lex.specs.Flags.{flags_of};
ghost use Rattle.fancy_syntax.specs.InfoViews.{HasTree};
ghost use Rattle.patterns_program.specs.Accepted.{IsEntryAccepted, AreArgumentsAccepted};
ghost use Rattle.patterns_program.specs.declared.job.Command.{Command};
ghost use Rattle.patterns_program.specs.declared.outcome.Outcome.{Outcome};

use crate::changes::{Kept, Left};
use crate::draft::LineDraft;
use crate::job::{Command, Job, Output};
use crate::outcome::Outcome;
use crate::progress::{STEP, Screen};
use crate::rewriting::form_of;
use crate::tally::Counted;
use crate::work::Work;
use pattern_files::entry::{Entry, Unread, Visitor};
use pattern_files::form::{FileFormat, NamedFormat};
use pattern_files::lines::{BOM, Ending, lines_in};
use pattern_files::patch::{PatchText, patch_of};
use pattern_files::sources::{ReplaceError, STANDARD_INPUT, Sources, System};
use pattern_files::values::keys::{Keys, UsedKeys};
use pattern_files::walk::{FileShape, visit};
use patterns_config::choices::Choices;
use patterns_config::file_settings::{
    flags_with, format_with, is_form_chosen, keys_with, levels_with,
};
use patterns_config::plan::{Plan, PlanRequest, PlannedFile};
use patterns_text::error::{RunError, give_up};
use patterns_text::paint::Paint;
use patterns_text::shown::Shown;
use patterns_text::subject::ARGUMENT;
use source_literals::replaced::{Replacement, replaced};
use std::alloc::{AllocError, Global};
use std::io;
use std::io::{BufRead, ErrorKind, Write};

/// Why `format` does not read a file that a configuration says is JSON, if it is to write patterns to standard output.
const NO_VALUES: &str = "patterns.toml says that it is JSON, which format writes only with --write";

/// How many bytes a file of lines has at least that is written while it is read.
const LARGE: u64 = 1 << 20;

/// A run over files.
#[derive(Drop)]
pub(crate) struct FileRun<'a, 'p, S: Sources, O, E> {
    plan: &'p Plan,
    pub(crate) sources: &'a S,
    pub(crate) screen: Screen<'a, S, O, E>,
    pub(crate) work: Work<'a>,
    /// The keys by which the file that is read is JSON, if a configuration says so.
    configured: Option<Keys<'p>>,
    /// Whether the arguments or a configuration choose how it has patterns.
    is_form_chosen: bool,
    /// Under which keys of the arguments there are patterns.
    used_keys: UsedKeys<'a>,
    /// What the patterns of the file are so far.
    pub(crate) outcome: Outcome,
    /// Whether what is to be written is held back until the changes of the file are made.
    pub(crate) is_held: bool,
    /// How many bytes the file has that is read, if that is known.
    pub(crate) size: Option<usize>,
    /// What is to take the place of the file that is read.
    pub(crate) draft: Option<LineDraft<S::Draft>>,
}

impl<S: System, O: Write, E: Write> Visitor for FileRun<'_, '_, S, O, E> {
    fn pattern(&mut self, entry: Entry<'_>) -> Result<(), RunError>
        ensures job { self.new.work.job ≡ self.old.work.job }
        ensures flags { self.new.work.flags ≡ self.old.work.flags }
        ensures before { self.new.outcome ≡ Outcome.Good → self.old.outcome ≡ Outcome.Good }
        ensures check { self.old.work.job.command ≡ Command.Check → OnOk result
            (self.new.outcome ≡ Outcome.Good → IsEntryAccepted self.old.work.flags entry.entry) }
    {
        self.used_keys.add(entry.key)?;
        let found = self.work.process(entry)?;
        self.add_to_draft(entry);
        self.outcome = self.outcome.and(found);
        self.put_unless_held()?;
        self.work.tally.add(found);
        self.work.tally.read_to(self.size, entry.span.end);
        let bytes = entry.pattern.len().saturating_add(1);
        self.screen.go_on(bytes, &self.work.tally)?;
        Ok(())
    }

    fn unread(&mut self, unread: Unread<'_>) -> Result<(), RunError> {
        self.outcome = Outcome::Unread;
        self.add_unread(unread.line);
        writeln!(self.work.reported.err, "{unread}")?;
        if let (Output::Patterns, Some(line)) = (self.work.job.output, unread.line) {
            self.work.end_last(line.end)?;
            let out = &mut self.work.shown.out;
            out.extend_from_slice(line.text)?;
            out.extend_from_slice(line.end)?;
        }
        self.put_unless_held()
    }

    fn bom(&mut self) -> Result<(), RunError> {
        if let Some(draft) = &mut self.draft {
            draft.keep(BOM, b"");
        }
        self.work.write_bom()?;
        Ok(())
    }
}

impl<'a, S: System, O: Write, E: Write> FileRun<'a, '_, S, O, E> {
    /// Writes what the work has written so far.
    pub(crate) fn put(&mut self) -> Result<(), RunError>
        ensures job { self.new.work.job ≡ self.old.work.job }
        ensures flags { self.new.work.flags ≡ self.old.work.flags }
        ensures outcome { self.new.outcome ≡ self.old.outcome }
    {
        let Screen { out, err, .. } = &mut self.screen;
        self.work.shown.put(out, err)?;
        self.work.reported.put(out, err)?;
        Ok(())
    }

    /// The same, unless it is held back.
    fn put_unless_held(&mut self) -> Result<(), RunError>
        ensures job { self.new.work.job ≡ self.old.work.job }
        ensures flags { self.new.work.flags ≡ self.old.work.flags }
        ensures outcome { self.new.outcome ≡ self.old.outcome }
    {
        if self.is_held {
            return Ok(());
        }
        self.put()
    }

    /// Says that a file cannot be opened, or not be read further.
    pub(crate) fn write_unread(
        &mut self,
        file: &str,
        error: io::Error,
    ) -> Result<Outcome, RunError> {
        let unread = Unread::by_system(file, error)?;
        writeln!(self.screen.err, "{unread}")?;
        Ok(Outcome::Unread)
    }

    /// Does the work on each pattern of a reader, in one pass, and returns the outcome.
    pub(crate) fn pass<R: BufRead>(
        &mut self,
        file: &str,
        reader: &mut R,
    ) -> Result<Outcome, RunError> {
        let form = match self.configured {
            Some(keys) => FileFormat::Values(keys),
            None => self.work.job.choices.form,
        };
        let shape = FileShape {
            form,
            flags: self.work.flags,
            has_grammars: self.work.job.command == Command::Lint,
        };
        self.outcome = Outcome::Good;
        let alloc = self.work.alloc;
        visit(alloc, shape, file, reader, self)?;
        if let FileFormat::Values(_) = form
            && self.outcome != Outcome::Unread
        {
            self.used_keys.has_json = true;
        }
        Ok(self.outcome)
    }

    /// Writes the new bytes to the file, from which the old ones were read, and returns whether that can be done; if not, it is
    /// reported.
    pub(crate) fn replace(&mut self, file: &str, old: &[u8], new: &[u8]) -> Result<bool, RunError> {
        let replaced = self.sources.replace(file, old, new);
        self.see_replaced(file, replaced)
    }

    /// Returns whether a file was replaced; if not, it is reported.
    pub(crate) fn see_replaced(
        &mut self,
        file: &str,
        replaced: Result<(), ReplaceError>,
    ) -> Result<bool, RunError> {
        let Err(error) = replaced else {
            return Ok(true);
        };
        if let ReplaceError::System(error) = &error
            && error.kind() == ErrorKind::OutOfMemory
        {
            return Err(RunError::Memory(AllocError));
        }
        writeln!(
            self.screen.err,
            "patterns: {}: cannot be written: {error}",
            Shown(file)
        )?;
        Ok(false)
    }

    /// Says how many patterns of a file were changed.
    pub(crate) fn write_written(&mut self, file: &str, count: usize) -> io::Result<()> {
        let job = self.work.job;
        if job.is_quiet {
            return Ok(());
        }
        let done = match job.command {
            Command::Format => "formatted",
            Command::Check | Command::Groups { .. } | Command::Lint => "fixed",
        };
        let (file, patterns) = (Shown(file), Counted(count as u64, "pattern"));
        writeln!(self.screen.err, "{file}: {patterns} {done}")
    }

    /// Whom a patch is for: people, if they see it on a terminal or it has colours.
    fn patch_text(&self) -> PatchText {
        match self.work.job.paints.out {
            Paint::Plain if !self.sources.terminals().out => PatchText::Exact,
            paint => PatchText::Shown(paint),
        }
    }

    /// Writes what is replaced in a file with these bytes as a patch.
    pub(crate) fn write_patch(
        &mut self,
        file: &str,
        bytes: &[u8],
        parts: &[Replacement],
    ) -> Result<(), RunError> {
        let patch = patch_of(self.work.alloc, self.patch_text(), file, bytes, parts)?;
        self.screen.out.write_all(&patch)?;
        Ok(())
    }

    /// Makes the changes of the patterns of a file in it, or shows them, and returns whether that can be done; if not, it is
    /// reported. Standard input is written to the output instead. A file without changes is not written.
    fn change_file(&mut self, file: &str, bytes: &[u8]) -> Result<bool, RunError> {
        let alloc = self.work.alloc;
        let parts = self.work.changes.take_parts(alloc);
        let is_input = file == STANDARD_INPUT;
        let has_output = match self.work.job.output {
            Output::Files { has_output } => has_output && is_input,
            Output::Diff if !is_input => {
                self.write_patch(file, bytes, &parts)?;
                return Ok(true);
            }
            Output::Reports | Output::Patterns | Output::Check | Output::Diff => return Ok(true),
        };
        if parts.is_empty() && !has_output {
            return Ok(true);
        }
        let Some(new) = replaced(alloc, bytes, &parts)? else {
            return Ok(false);
        };
        if is_input {
            self.screen.out.write_all(&new)?;
            return Ok(true);
        }
        if !self.replace(file, bytes, &new)? {
            return Ok(false);
        }
        self.write_written(file, parts.len())?;
        Ok(true)
    }

    /// Does the work on each pattern of a file that has these bytes, and makes the changes. Where they cannot be made the work
    /// is done again, with the patterns as they are.
    fn pass_and_change(&mut self, file: &str, bytes: &[u8]) -> Result<Outcome, RunError> {
        let met = self.work.met();
        let mut reader = bytes;
        let found = self.pass(file, &mut reader)?;
        self.screen.err.write_all(&self.work.shown.err)?;
        self.work.shown.err.clear();
        let left = if self.change_file(file, bytes)? {
            self.change_sources()?
        } else {
            Some(Left {
                kept: Kept::All,
                outcome: Outcome::Unread,
            })
        };
        let Some(Left { kept, outcome }) = left else {
            return Ok(found);
        };
        self.work.take_back(met, kept);
        let mut reader = bytes;
        let found = self.pass(file, &mut reader)?;
        // It was said before why patterns stay.
        self.work.shown.err.clear();
        Ok(found.and(outcome))
    }

    /// Does the work on each pattern of a reader, and makes the changes. What is written is held back until then.
    fn process_whole<R: BufRead>(
        &mut self,
        file: &str,
        reader: &mut R,
    ) -> Result<Outcome, RunError> {
        let mut bytes = Vec::new(self.work.alloc);
        if let Err(error) = reader.read_to_end(&mut bytes) {
            return self.write_unread(file, error);
        }
        self.is_held = true;
        self.size = Some(bytes.len());
        let outcome = self.pass_and_change(file, &bytes)?;
        self.is_held = false;
        self.size = None;
        self.put()?;
        Ok(outcome)
    }

    /// Whether a file has lines that are written to it.
    fn writes_lines_to(&self, file: &str) -> bool {
        let has_lines = self.configured.is_none()
            && matches!(self.work.job.choices.form, FileFormat::Records(_));
        has_lines && self.work.job.writes_files() && file != STANDARD_INPUT
    }

    /// Does the work on each pattern of a reader, and makes the changes: of a large file of lines while it is read, and of another
    /// when it is read.
    fn process_and_change<R: BufRead>(
        &mut self,
        file: &str,
        reader: &mut R,
    ) -> Result<Outcome, RunError> {
        if self.writes_lines_to(file)
            && let Some(size) = self.sources.size(file)
            && size >= LARGE
            // If it cannot be replaced, that is reported only if a pattern changes.
            && let Ok(draft) = self.sources.draft(file)
        {
            return self.process_with_draft(file, size, draft, reader);
        }
        self.process_whole(file, reader)
    }

    /// Does the work on each pattern of a reader.
    fn process_opened<R: BufRead>(
        &mut self,
        file: &str,
        reader: &mut R,
    ) -> Result<Outcome, RunError> {
        match self.work.job.output {
            Output::Diff | Output::Files { .. } => self.process_and_change(file, reader),
            Output::Reports | Output::Patterns | Output::Check => self.pass(file, reader),
        }
    }

    /// Says how the file is read, if its name is that of a file of another format.
    fn write_other_format(&mut self, file: &str) -> io::Result<()> {
        let job = self.work.job;
        if job.is_quiet || job.choices.has_form || self.configured.is_some() {
            return Ok(());
        }
        if let Some(advice) = NamedFormat::of(file).advice() {
            writeln!(self.screen.err, "patterns: {file}: {advice}")?;
        }
        Ok(())
    }

    /// Whether the patterns of the file that is read may have several lines.
    fn has_several_lines(&self) -> bool {
        match self.work.job.choices.form {
            FileFormat::Records(Ending::Null) | FileFormat::Values(_) => true,
            FileFormat::Records(Ending::Line) => self.configured.is_some(),
            FileFormat::Extracted => false,
        }
    }

    /// Begins a file of the plan, or the patterns that are arguments, with what the arguments choose.
    fn begin(&mut self, choices: Choices<'a>, file: &PlannedFile) -> Result<(), AllocError>
        ensures job { self.new.work.job ≡ self.old.work.job }
        ensures flags { IsTrue choices.entry.has_flags → OnOk result (self.new.work.flags ≡ choices.entry.flags) }
    {
        let settings = self.plan.settings(self.work.alloc, file)?;
        self.configured = keys_with(choices, &settings);
        self.is_form_chosen = is_form_chosen(choices, &settings);
        let has_lines = !self.work.has_file || self.has_several_lines();
        let flags = flags_with(choices, &settings);
        let form = form_of(format_with(choices, &settings), has_lines);
        self.work
            .begin(flags, levels_with(choices, &settings), form);
        Ok(())
    }

    /// Does the work on patterns that are arguments, as on lines with this end.
    fn process_lines(&mut self, patterns: &[&str], end: &[u8]) -> Result<(), RunError>
        ensures check { self.old.work.job.command ≡ Command.Check → OnOk result (self.new.outcome ≡ Outcome.Good
            → All (λ pattern. HasTree (flags_of self.old.work.flags) (chars pattern.now)) patterns.now) }
    {
        let mut line = 1u64;
        for pattern in patterns {
            self.pattern(Entry::of_line(ARGUMENT, line, pattern, end))?;
            line = line.saturating_add(lines_in(pattern.as_bytes()));
        }
        Ok(())
    }

    /// Does the work on the patterns that are arguments, if there are some. They are never JSON.
    fn process_arguments(&mut self) -> Result<Outcome, RunError>
        ensures accepted { IsSome self.old.plan.now.arguments → result ≡ Ok Outcome.Good
            → self.old.work.job.command ≡ Command.Check → IsTrue self.old.work.job.choices.has_flags
            → AreArgumentsAccepted self.old.work.job }
    {
        let plan = self.plan;
        let Some(arguments) = &plan.arguments else {
            return Ok(Outcome::Good);
        };
        let job = self.work.job;
        let choices = Choices {
            has_form: true,
            ..job.choices
        };
        self.work.has_file = false;
        self.begin(choices, arguments)?;
        let end = [job.choices.form.ending().byte()];
        self.outcome = Outcome::Good;
        self.process_lines(job.patterns, &end)?;
        self.work.has_file = true;
        Ok(self.outcome)
    }

    /// Why the file of this name is not read, if the patterns are to be written and cannot be.
    fn refusal(&self, file: &str) -> Option<&'static str> {
        if self.work.job.writes_lines() && self.configured.is_some() {
            return Some(NO_VALUES);
        }
        match self.work.job.output {
            Output::Files { .. } if !self.is_form_chosen => NamedFormat::of(file).refusal(),
            _ => None,
        }
    }

    /// Does the work on each pattern of a file of the plan.
    fn process_planned(&mut self, file: &PlannedFile) -> Result<Outcome, RunError> {
        self.begin(self.work.job.choices, file)?;
        let name = file.name.as_str();
        if let Some(refusal) = self.refusal(name) {
            writeln!(self.screen.err, "patterns: {}: {refusal}", Shown(name))?;
            return Ok(Outcome::Unread);
        }
        self.process_file(name)
    }

    /// Does the work on each pattern of a file.
    fn process_file(&mut self, file: &str) -> Result<Outcome, RunError> {
        let error = if file == STANDARD_INPUT {
            match self.sources.input() {
                Ok(mut input) => return self.process_opened(file, &mut input),
                Err(error) => error,
            }
        } else {
            match self.sources.open(file) {
                Ok(mut opened) => {
                    self.write_other_format(file)?;
                    return self.process_opened(file, &mut opened);
                }
                Err(error) => error,
            }
        };
        self.write_unread(file, error)
    }

    /// Whether the run has no more warnings than it may have. If it has, that is reported.
    fn check_warnings(&mut self) -> io::Result<Outcome> {
        match self.work.job.max_warnings {
            Some(most) if most < self.work.tally.warnings => {
                let warnings = Counted(self.work.tally.warnings, "warning");
                writeln!(
                    self.screen.err,
                    "patterns: {warnings}, and --max-warnings is {most}"
                )?;
                Ok(Outcome::Refused)
            }
            Some(_) | None => Ok(Outcome::Good),
        }
    }

    /// Whether there is a pattern under each key that the arguments name, if a file was read as JSON. The others are
    /// reported.
    fn check_keys(&mut self) -> io::Result<Outcome> {
        let mut outcome = Outcome::Good;
        for key in self.work.job.choices.form.named_keys() {
            if self.used_keys.has_json && !self.used_keys.has(key) {
                outcome = Outcome::Unread;
                let key = Shown(key);
                writeln!(
                    self.screen.err,
                    "patterns: no file has a pattern under the key \"{key}\""
                )?;
            }
        }
        Ok(outcome)
    }

    /// Does the work on each pattern that is an argument and on each of each file, and sees that it is written.
    fn process_files(&mut self) -> Result<Outcome, RunError>
        ensures complete { result ≡ Ok Outcome.Good → IsTrue self.old.plan.now.is_complete }
        ensures accepted { IsSome self.old.plan.now.arguments → result ≡ Ok Outcome.Good
            → self.old.work.job.command ≡ Command.Check → IsTrue self.old.work.job.choices.has_flags
            → AreArgumentsAccepted self.old.work.job }
    {
        self.work.begin_reports()?;
        let plan = self.plan;
        let mut outcome = if plan.is_complete {
            Outcome::Good
        } else {
            Outcome::Unread
        };
        outcome = outcome.and(self.process_arguments()?);
        for (done, file) in plan.files.iter().enumerate() {
            self.work.tally.begin_file(done);
            self.screen.go_on(STEP, &self.work.tally)?;
            outcome = outcome.and(self.process_planned(file)?);
        }
        self.work.end_reports()?;
        self.put()?;
        self.screen.out.flush()?;
        outcome = outcome.and(self.check_warnings()?);
        outcome = outcome.and(self.check_keys()?);
        if !self.work.job.is_quiet {
            writeln!(self.screen.err, "{}", self.work.tally)?;
        }
        Ok(outcome)
    }
}

/// Does the job on what the plan has, and returns the exit status.
fn run_plan<S: System, O: Write, E: Write>(
    alloc: Global,
    job: Job<'_>,
    plan: &Plan,
    sources: &S,
    out: &mut O,
    err: &mut E,
) -> u8
    ensures status { result ≤ 3 }
    ensures complete { result ≡ 0 → IsTrue plan.now.is_complete }
    ensures accepted { IsSome plan.now.arguments → result ≡ 0 → job.entry.command ≡ Command.Check
        → IsTrue job.entry.choices.has_flags → AreArgumentsAccepted job.entry }
{
    let mut run = FileRun {
        plan,
        sources,
        screen: Screen::new(sources, job.is_quiet, out, err),
        work: Work::new(alloc, job, plan.files.len()),
        configured: None,
        is_form_chosen: false,
        used_keys: UsedKeys::new(alloc, job.choices.form.named_keys()),
        outcome: Outcome::Good,
        is_held: false,
        size: None,
        draft: None,
    };
    match run.process_files() {
        Ok(outcome) => outcome.status(),
        Err(error) => {
            // Erases the line, which stays otherwise if nothing is reported.
            let _ = run.screen.err.write(b"");
            give_up(&mut run.screen.err, error)
        }
    }
}

/// Does the job on each pattern of the files, and returns the exit status: 0 if every pattern passes; 1 if one does
/// not, or there are more warnings than there may be; 2 if a file, a line of one, a folder or a configuration cannot be
/// read, a file is not written, or no file has a pattern under a key that the job names, which is reported on `err` while
/// the others are still read; 3 if memory ran out or a write failed, which is reported on `err` if that is possible,
/// unless the reader of a pipe closed it, and `out` may then have part of the output. A pattern of a file of records ends
/// as the job says, and is reported with the number of its first line; a NUL that ends a pattern ends a line too. A text
/// of JSON is reported with its path. The file `-` is standard input. Of a folder those files are read that its
/// configuration names, sorted by name. Lines are written only to a file whose name is that of a file of patterns, unless
/// the job or a configuration chooses that it has lines. The last line on `err` counts the patterns and their outcomes,
/// unless the job is quiet or the status is 3.
///
/// The configuration of a file is the nearest `patterns.toml` from its folder upwards, and for what has no file that of
/// the current folder, unless the job chooses one, or none. What it says counts where the arguments leave it open.
///
/// Where `err` is a terminal and the job is not quiet, a line on it says how far the run is, once that takes longer
/// than a second; it is erased before anything else is written.
pub fn run<S: System, O: Write, E: Write>(
    alloc: Global,
    job: Job<'_>,
    files: &[&str],
    sources: &S,
    out: &mut O,
    err: &mut E,
) -> u8
    ensures status { result ≤ 3 }
    ensures accepted { result ≡ 0 → job.entry.command ≡ Command.Check → IsTrue job.entry.choices.has_flags
        → AreArgumentsAccepted job.entry }
{
    let request = PlanRequest {
        choices: job.choices,
        names: files,
        has_arguments: !job.patterns.is_empty(),
        has_no_json: job.writes_lines(),
    };
    match Plan::of(alloc, request, sources, err) {
        Ok(plan) => run_plan(alloc, job, &plan, sources, out, err),
        Err(error) => give_up(err, error),
    }
}
