//! Which files a run reads, and the configuration of each.
ghost use Rattle.std.specs.Prelude.{◌≡◌, false, IsTrue, IsSome, IfOk, OnOk};

use crate::choices::Choices;
use crate::configs::{
    ConfigFinder, FolderConfig, FoundConfig, HERE, folder_of, joined, name_of, system_error,
};
use crate::file_settings::FileSettings;
use crate::glob::PathNames;
use pattern_files::sources::{EntryKind, STANDARD_INPUT, System};
use patterns_text::error::RunError;
use patterns_text::shown::Shown;
use std::alloc::{AllocError, Global};
use std::io;
use std::io::Write;

/// A file that is read, or the patterns that are arguments.
#[derive(Drop)]
pub struct PlannedFile {
    /// The name by which it is opened and reported.
    pub name: String,
    /// The index of its configuration, if it has one.
    config: Option<usize>,
    /// Its path in the folder of the configuration. Standard input and arguments have none.
    path: Option<PathNames>,
}

/// What a run reads.
#[derive(Drop)]
pub struct Plan {
    configs: Vec<FoundConfig>,
    /// The patterns that are arguments, if there are some that are read.
    pub arguments: Option<PlannedFile>,
    pub files: Vec<PlannedFile>,
    /// Whether no configuration, folder or file is left out because it cannot be read.
    pub is_complete: bool,
}

impl Plan {
    /// What the configuration of a file says of it.
    pub fn settings(
        &self,
        alloc: Global,
        file: &PlannedFile,
    ) -> Result<FileSettings<'_>, AllocError> {
        match file.config.and_then(|index| self.configs.get(index)) {
            Some(found) => FileSettings::of(alloc, found, file.path.as_ref()),
            None => Ok(FileSettings::none(alloc)),
        }
    }
}

/// An entry of a folder that is read.
#[derive(Drop)]
struct FolderEntry {
    /// The name by which it is opened and reported.
    name: String,
    /// Its absolute path.
    path: String,
    /// The index of the configuration of its folder.
    config: usize,
}

/// Why no file of a folder is read.
const NO_GLOBS: &str = "no `files` in patterns.toml says which files of a folder are read";

/// Why a folder that is named is not read.
const NO_MATCH: &str = "no file in it is one of the `files` of patterns.toml";

/// What a run is to read.
#[derive(Clone, Copy)]
pub struct PlanRequest<'a> {
    pub choices: Choices<'a>,
    /// Files and folders.
    pub names: &'a [&'a str],
    /// Whether there are patterns that are arguments.
    pub has_arguments: bool,
    /// Whether files of folders are passed over that are JSON by their configuration.
    pub has_no_json: bool,
}

/// Makes the plan of a run.
#[derive(Drop)]
struct Planner<'a, S, E> {
    alloc: Global,
    /// Whether files of folders are passed over that are JSON by their configuration.
    has_no_json: bool,
    finder: ConfigFinder<'a, S, E>,
    files: Vec<PlannedFile>,
    /// Whether the folder that is walked has a file that its configuration names.
    has_match: bool,
    /// Whether nothing is left out because it cannot be read.
    is_complete: bool,
}

impl<S: System, E: Write> Planner<'_, S, E> {
    /// Says why a file or a folder is not read.
    fn report(&mut self, name: &str, reason: &str) -> io::Result<()>
        ensures { self.new.is_complete ≡ false }
    {
        self.is_complete = false;
        writeln!(self.finder.err, "patterns: {}: {reason}", Shown(name))
    }

    /// Says that a file or a folder cannot be read.
    fn unread(&mut self, name: &str, error: io::Error) -> Result<(), RunError>
        ensures { OnOk result (self.new.is_complete ≡ false) }
    {
        let error = system_error(error)?;
        let reason = format!(in self.alloc; "{error}")?;
        self.report(name, reason.as_str())?;
        Ok(())
    }

    /// The file of this name in the folder of this absolute path; none if its configuration is refused.
    fn planned(
        &mut self,
        name: &str,
        folder: &str,
        path: Option<&str>,
    ) -> Result<Option<PlannedFile>, RunError>
        ensures stays { IsTrue self.new.is_complete → IsTrue self.old.is_complete }
        ensures found { IsTrue self.new.is_complete → IfOk result (λ planned. IsSome planned) }
    {
        let config = match self.finder.of_folder(folder)? {
            FolderConfig::Absent => None,
            FolderConfig::Found(index) => Some(index),
            FolderConfig::Refused => {
                self.is_complete = false;
                return Ok(None);
            }
        };
        let path = match (config.and_then(|index| self.finder.found.get(index)), path) {
            (Some(found), Some(path)) => Some(found.path_names(self.alloc, path)?),
            (Some(_) | None, _) => None,
        };
        Ok(Some(PlannedFile {
            name: String::from_str(self.alloc, name)?,
            config,
            path,
        }))
    }

    /// What has no file, and is of the current folder.
    fn planned_here(&mut self, name: &str) -> Result<Option<PlannedFile>, RunError>
        ensures stays { OnOk result (IsTrue self.new.is_complete → IsTrue self.old.is_complete) }
        ensures found { IsTrue self.new.is_complete → IfOk result (λ planned. IsSome planned) }
    {
        match self.finder.absolute(HERE) {
            Ok(folder) => self.planned(name, folder.as_str(), None),
            Err(error) => {
                self.unread(HERE, error)?;
                Ok(None)
            }
        }
    }

    /// Adds a file that is named as an argument.
    fn add_file(&mut self, file: &str) -> Result<(), RunError>
        ensures { OnOk result (IsTrue self.new.is_complete → IsTrue self.old.is_complete) }
    {
        let folder = match self.finder.absolute(folder_of(file)) {
            Ok(folder) => folder,
            Err(error) => return self.unread(file, error),
        };
        let path = joined(self.alloc, folder.as_str(), name_of(file))?;
        if let Some(planned) = self.planned(file, folder.as_str(), Some(path.as_str()))? {
            self.files.push(planned)?;
        }
        Ok(())
    }

    /// Adds a file of a folder, if it is one of the files of the configuration. `format` passes over JSON.
    fn add_entry(&mut self, entry: FolderEntry) -> Result<(), RunError> {
        let Some(found) = self.finder.found.get(entry.config) else {
            return Ok(());
        };
        let path = found.path_names(self.alloc, entry.path.as_str())?;
        if !found.config.has_file(&path) {
            return Ok(());
        }
        self.has_match = true;
        let settings = FileSettings::of(self.alloc, found, Some(&path))?;
        if self.has_no_json && settings.is_json() {
            return Ok(());
        }
        self.files.push(PlannedFile {
            name: entry.name,
            config: Some(entry.config),
            path: Some(path),
        })?;
        Ok(())
    }

    /// The index of the configuration by which the files of a folder are read, given by its absolute path; none if none
    /// says which, or it is refused. That is reported.
    fn globs_of(&mut self, name: &str, path: &str) -> Result<Option<usize>, RunError> {
        let index = match self.finder.of_folder(path)? {
            FolderConfig::Found(index) => index,
            FolderConfig::Absent => {
                self.report(name, NO_GLOBS)?;
                return Ok(None);
            }
            FolderConfig::Refused => {
                self.is_complete = false;
                return Ok(None);
            }
        };
        match self.finder.found.get(index) {
            Some(found) if found.config.files.is_some() => Ok(Some(index)),
            Some(_) | None => {
                self.report(name, NO_GLOBS)?;
                Ok(None)
            }
        }
    }

    /// Puts the entries of a folder on the stack, the first one by name on top. Hidden ones are left out.
    fn open_folder(
        &mut self,
        name: &str,
        path: &str,
        open: &mut Vec<FolderEntry>,
    ) -> Result<(), RunError> {
        let Some(config) = self.globs_of(name, path)? else {
            return Ok(());
        };
        let mut entries = match self.finder.sources.entries(name) {
            Ok(entries) => entries,
            Err(error) => return self.unread(name, error),
        };
        entries.sort_unstable();
        for entry in entries.iter().rev() {
            if entry.as_str().starts_with('.') {
                continue;
            }
            open.push(FolderEntry {
                name: entry_name(self.alloc, name, entry.as_str())?,
                path: joined(self.alloc, path, entry.as_str())?,
                config,
            })?;
        }
        Ok(())
    }

    /// Adds the entry if it is a file, or opens it if it is a folder.
    fn visit(&mut self, entry: FolderEntry, open: &mut Vec<FolderEntry>) -> Result<(), RunError> {
        match self.finder.sources.kind(entry.name.as_str()) {
            EntryKind::File => self.add_entry(entry),
            EntryKind::Folder => self.open_folder(entry.name.as_str(), entry.path.as_str(), open),
            EntryKind::FolderLink | EntryKind::Other => Ok(()),
        }
    }

    /// Adds the files of a folder and of those in it.
    fn walk(&mut self, folder: &str, path: &str) -> Result<(), RunError> {
        let mut open = Vec::new(self.alloc);
        self.open_folder(folder, path, &mut open)?;
        for _ in 0..u64::MAX {
            let Some(entry) = open.pop() else {
                break;
            };
            self.visit(entry, &mut open)?;
        }
        Ok(())
    }

    /// Adds the files of a folder that is named as an argument. It is reported if there are none.
    fn add_folder(&mut self, folder: &str) -> Result<(), RunError>
        ensures { OnOk result (IsTrue self.new.is_complete → IsTrue self.old.is_complete) }
    {
        let path = match self.finder.absolute(folder) {
            Ok(path) => path,
            Err(error) => return self.unread(folder, error),
        };
        let is_complete = self.is_complete;
        self.is_complete = true;
        self.has_match = false;
        self.walk(folder, path.as_str())?;
        if !self.has_match && self.is_complete {
            self.report(folder, NO_MATCH)?;
        }
        self.is_complete = self.is_complete && is_complete;
        Ok(())
    }

    /// Adds what an argument names.
    fn add(&mut self, name: &str) -> Result<(), RunError>
        ensures { OnOk result (IsTrue self.new.is_complete → IsTrue self.old.is_complete) }
    {
        if name == STANDARD_INPUT {
            if let Some(planned) = self.planned_here(name)? {
                self.files.push(planned)?;
            }
            return Ok(());
        }
        match self.finder.sources.kind(name) {
            EntryKind::Folder | EntryKind::FolderLink => self.add_folder(name),
            EntryKind::File | EntryKind::Other => self.add_file(name),
        }
    }

    /// The patterns that are arguments, if there are some that are read.
    fn planned_arguments(&mut self, has_arguments: bool) -> Result<Option<PlannedFile>, RunError>
        ensures { IsTrue self.new.is_complete → IsTrue has_arguments → IfOk result (λ planned. IsSome planned) }
    {
        if !has_arguments {
            return Ok(None);
        }
        self.planned_here(STANDARD_INPUT)
    }

    /// Adds what each of the arguments names.
    fn add_names(&mut self, names: &[&str]) -> Result<(), RunError>
        ensures { OnOk result (IsTrue self.new.is_complete → IsTrue self.old.is_complete) }
    {
        for name in names {
            self.add(name)?;
        }
        Ok(())
    }

    /// Adds what the arguments name, and returns the patterns that are arguments themselves.
    fn add_all(&mut self, request: PlanRequest<'_>) -> Result<Option<PlannedFile>, RunError>
        ensures { IsTrue self.new.is_complete → IsTrue request.entry.has_arguments →
            IfOk result (λ planned. IsSome planned) }
    {
        if self.finder.begin(request.choices.config)? {
            self.is_complete = false;
            return Ok(None);
        }
        let arguments = self.planned_arguments(request.has_arguments)?;
        self.add_names(request.names)?;
        Ok(arguments)
    }
}

/// The name of an entry of a folder. The current folder is left out, since other tools know files without it.
fn entry_name(alloc: Global, folder: &str, entry: &str) -> Result<String, AllocError> {
    if folder == HERE {
        return String::from_str(alloc, entry);
    }
    joined(alloc, folder, entry)
}

impl Plan {
    /// That of a request. What cannot be read is reported on `err`.
    pub fn of<'a, S: System, E: Write>(
        alloc: Global,
        request: PlanRequest<'_>,
        sources: &'a S,
        err: &'a mut E,
    ) -> Result<Plan, RunError>
        ensures arguments { IfOk result (λ plan. IsTrue plan.is_complete → IsTrue request.entry.has_arguments
            → IsSome plan.arguments) }
    {
        let mut planner = Planner {
            alloc,
            has_no_json: request.has_no_json,
            finder: ConfigFinder::new(alloc, sources, err),
            files: Vec::new(alloc),
            has_match: false,
            is_complete: true,
        };
        let arguments = planner.add_all(request)?;
        Ok(Plan {
            arguments,
            files: planner.files,
            is_complete: planner.is_complete,
            configs: planner.finder.found,
        })
    }
}
