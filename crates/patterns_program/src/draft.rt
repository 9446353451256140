//! Large files of lines, which are written while they are read.
ghost use Rattle.std.specs.Prelude.{◌≡◌, ◌<◌, ◌++◌, ℕ, List, [], IsNone};
ghost use Rattle.std.specs.Io.KnownBytes.{Appends};
ghost use Rattle.sha2.specs.Hashers.{Holds256};

use crate::changes::Kept;
use crate::outcome::Outcome;
use crate::run::FileRun;
use crate::work::Met;
use pattern_files::entry::Entry;
use pattern_files::lines::LineRecord;
use pattern_files::sources::{ReplaceError, Sources, System};
use patterns_text::error::RunError;
use sha2::{Digest, Sha256};
use std::io;
use std::io::{BufRead, Write};

/// A file that is to take the place of the one that is read, up to a line.
#[derive(Drop)]
pub(crate) struct LineDraft<D> {
    file: D,
    /// Why nothing more is written to it.
    error: Option<io::Error>,
    /// Of the bytes that were read.
    hasher: Sha256,
    /// How many lines have become other ones.
    changed: usize,
    /// What the run had met before.
    met: Met,
}

impl<D: Write + Drop> LineDraft<D> {
    /// At the start of the file that is read.
    fn new(file: D, met: Met) -> LineDraft<D>
        ensures file { result.file ≡ file }
        ensures read { Holds256 result.hasher [] }
        ensures unchanged { result.changed ≡ 0 }
    {
        LineDraft {
            file,
            error: None,
            hasher: Sha256::new(),
            changed: 0,
            met,
        }
    }

    /// Writes bytes, if none failed to be written before.
    fn write(&mut self, bytes: &[u8])
        ensures written { IsNone self.new.error → Appends (D.contents self.old.file) (D.contents self.new.file) bytes.now }
        ensures error { IsNone self.new.error → IsNone self.old.error }
        ensures read { self.new.hasher ≡ self.old.hasher }
        ensures changed { self.new.changed ≡ self.old.changed }
    {
        if self.error.is_none()
            && let Err(error) = self.file.write_all(bytes)
        {
            self.error = Some(error);
        }
    }

    /// Adds a line that is read, with its end, and becomes the text.
    fn push(&mut self, line: &[u8], text: &[u8], end: &[u8])
        ensures read { (bytes : List ℕ) → Holds256 self.old.hasher bytes
            → Holds256 self.new.hasher (bytes ++ line.now ++ end.now) }
        ensures written { IsNone self.new.error
            → Appends (D.contents self.old.file) (D.contents self.new.file) (text.now ++ end.now) }
        ensures error { IsNone self.new.error → IsNone self.old.error }
        ensures changed { self.new.changed ≡ self.old.changed }
    {
        self.hasher.update(line);
        self.hasher.update(end);
        self.write(text);
        self.write(end);
    }

    /// Adds a line that stays as it is, with its end.
    pub(crate) fn keep(&mut self, line: &[u8], end: &[u8])
        ensures read { (bytes : List ℕ) → Holds256 self.old.hasher bytes
            → Holds256 self.new.hasher (bytes ++ line.now ++ end.now) }
        ensures written { IsNone self.new.error
            → Appends (D.contents self.old.file) (D.contents self.new.file) (line.now ++ end.now) }
        ensures error { IsNone self.new.error → IsNone self.old.error }
        ensures changed { self.new.changed ≡ self.old.changed }
    {
        self.push(line, line, end);
    }

    /// Adds a line, with its end, that becomes another text.
    fn change(&mut self, line: &[u8], text: &[u8], end: &[u8])
        ensures read { (bytes : List ℕ) → Holds256 self.old.hasher bytes
            → Holds256 self.new.hasher (bytes ++ line.now ++ end.now) }
        ensures written { IsNone self.new.error
            → Appends (D.contents self.old.file) (D.contents self.new.file) (text.now ++ end.now) }
        ensures error { IsNone self.new.error → IsNone self.old.error }
        ensures changed { 0 < self.new.changed }
    {
        self.changed = self.changed.saturating_add(1);
        self.push(line, text, end);
    }
}

impl<S: System, O: Write, E: Write> FileRun<'_, '_, S, O, E> {
    /// Adds the line of an entry, as it is now, to the draft.
    pub(crate) fn add_to_draft(&mut self, entry: Entry<'_>)
        ensures job { self.new.work.job ≡ self.old.work.job }
        ensures flags { self.new.work.flags ≡ self.old.work.flags }
        ensures outcome { self.new.outcome ≡ self.old.outcome }
    {
        let alloc = self.work.alloc;
        let Some(draft) = &mut self.draft else {
            return;
        };
        let parts = self.work.changes.take_parts(alloc);
        let line = entry.pattern.as_bytes();
        match parts.first() {
            Some(part) => draft.change(line, part.text.as_bytes(), entry.end),
            None => draft.keep(line, entry.end),
        }
    }

    /// Adds a line that is no text to the draft. If there is no line, the file can be read no further: the draft is dropped, and
    /// what was done with it is taken back.
    pub(crate) fn add_unread(&mut self, line: Option<LineRecord<'_>>) {
        let Some(draft) = &mut self.draft else {
            return;
        };
        match line {
            Some(line) => draft.keep(line.text, line.end),
            None => {
                self.work.take_back(draft.met, Kept::All);
                self.draft = None;
            }
        }
    }

    /// Puts the draft in the place of the file, if a line changes, and returns whether that can be done; if not, it is reported.
    fn settle(&mut self, file: &str, draft: LineDraft<S::Draft>) -> Result<bool, RunError> {
        let count = draft.changed;
        if count == 0 {
            return Ok(true);
        }
        let settled = match draft.error {
            Some(error) => Err(ReplaceError::from(error)),
            None => self.sources.settle(draft.file, draft.hasher.finalize()),
        };
        if !self.see_replaced(file, settled)? {
            return Ok(false);
        }
        self.write_written(file, count)?;
        Ok(true)
    }

    /// Does the work on each pattern of a file again, with the patterns as they are.
    fn process_kept(&mut self, file: &str) -> Result<Outcome, RunError> {
        match self.sources.open(file) {
            Ok(mut opened) => Ok(self.pass(file, &mut opened)?.and(Outcome::Unread)),
            Err(error) => self.write_unread(file, error),
        }
    }

    /// Makes the changes of a file that is read to its end, and where they cannot be made does the work again.
    fn end_draft(&mut self, file: &str, found: Outcome) -> Result<Outcome, RunError> {
        let Some(draft) = self.draft.take() else {
            return Ok(found);
        };
        self.screen.err.write_all(&self.work.shown.err)?;
        self.work.shown.err.clear();
        let met = draft.met;
        if self.settle(file, draft)? {
            return Ok(found);
        }
        self.work.take_back(met, Kept::All);
        self.process_kept(file)
    }

    /// Does the work on each pattern of a file of lines, which has so many bytes, and writes its new lines to the draft while it is
    /// read. What is to be reported is held back until the draft is in its place.
    pub(crate) fn process_with_draft<R: BufRead>(
        &mut self,
        file: &str,
        size: u64,
        draft: S::Draft,
        reader: &mut R,
    ) -> Result<Outcome, RunError> {
        self.is_held = true;
        self.size = Some(size as usize);
        self.draft = Some(LineDraft::new(draft, self.work.met()));
        let found = self.pass(file, reader)?;
        let outcome = self.end_draft(file, found)?;
        self.is_held = false;
        self.size = None;
        self.put()?;
        Ok(outcome)
    }
}
