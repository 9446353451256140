//! Patterns that are changed in their sources.
use crate::changes::{Kept, Left, Unwritten};
use crate::outcome::Outcome;
use crate::run::FileRun;
use pattern_files::sources::System;
use patterns_text::error::RunError;
use patterns_text::shown::Shown;
use source_literals::source_change::{SourceChange, changed_source};
use std::io::{Read, Write};

/// Why a source is not changed.
const CHANGED: &str = "it does not have the characters of its patterns where their records say";

impl<S: System, O: Write, E: Write> FileRun<'_, '_, S, O, E> {
    /// The bytes of a source; none if it cannot be read, which is reported.
    fn source_bytes(&mut self, file: &str) -> Result<Option<Vec<u8>>, RunError> {
        let mut bytes = Vec::new(self.work.alloc);
        let found = match self.sources.open(file) {
            Ok(mut opened) => opened.read_to_end(&mut bytes),
            Err(error) => Err(error),
        };
        match found {
            Ok(_) => Ok(Some(bytes)),
            Err(error) => {
                self.write_unread(file, error)?;
                Ok(None)
            }
        }
    }

    /// Says which of the changes of a source would not be read back, and returns whether one is left.
    fn see_unread(&mut self, changes: &[SourceChange]) -> Result<bool, RunError> {
        for change in changes.iter().filter(|change| !change.is_read_back) {
            let SourceChange { line, column, .. } = change;
            let (file, reason) = (Shown(change.file.as_str()), Unwritten::NotReadBack);
            writeln!(self.screen.err, "{file}:{line}:{column}: {reason}")?;
        }
        Ok(changes.iter().any(|change| change.is_read_back))
    }

    /// Changes the patterns of one source, or shows the changes, and returns whether that can be done; if not, it is reported.
    fn change_source(
        &mut self,
        file: &str,
        changes: &mut [SourceChange],
    ) -> Result<bool, RunError> {
        let Some(bytes) = self.source_bytes(file)? else {
            return Ok(false);
        };
        let Some(changed) = changed_source(self.work.alloc, &bytes, changes)? else {
            let err = &mut self.screen.err;
            writeln!(err, "patterns: {}: {CHANGED}", Shown(file))?;
            return Ok(false);
        };
        if !self.see_unread(changes)? {
            return Ok(true);
        }
        if !self.work.job.writes_files() {
            self.write_patch(file, &bytes, &changed.parts)?;
            return Ok(true);
        }
        if !self.replace(file, &bytes, changed.text.as_bytes())? {
            return Ok(false);
        }
        let count = changes.iter().filter(|change| change.is_read_back).count();
        self.write_written(file, count)?;
        Ok(true)
    }

    /// Changes the patterns in their sources, or shows the changes. Returns the patterns that stay, if some do: those of
    /// a source that cannot be changed, and those that would not be read back.
    pub(crate) fn change_sources(&mut self) -> Result<Option<Left>, RunError> {
        let mut outcome = Outcome::Good;
        let alloc = self.work.alloc;
        let mut kept = Vec::new(alloc);
        let mut changes = self.work.changes.take_sources(alloc);
        changes.sort_unstable_by(|one, other| one.file.cmp(&other.file));
        for group in changes.chunk_by_mut(|one, other| one.file == other.file) {
            let Some(first) = group.first() else {
                continue;
            };
            let file = String::from_str(alloc, first.file.as_str())?;
            let is_changed = self.change_source(file.as_str(), group)?;
            if !is_changed {
                outcome = Outcome::Unread;
            }
            for change in group.iter() {
                if !is_changed || !change.is_read_back {
                    kept.push(change.record)?;
                }
            }
        }
        if kept.is_empty() {
            return Ok(None);
        }
        kept.sort_unstable();
        let kept = Kept::Records(kept);
        Ok(Some(Left { kept, outcome }))
    }
}
