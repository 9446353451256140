//! The configurations of a run. Each is read once.
use crate::choices::{ConfigChoice, rule_names};
use crate::config::{CONFIG_NAME, Config};
use crate::config_error::ConfigError;
use crate::glob::PathNames;
use pattern_files::entry::Unread;
use pattern_files::lines::BOM;
use pattern_files::sources::{EntryKind, System};
use patterns_text::error::RunError;
use patterns_text::shown::Shown;
use std::alloc::{AllocError, Global};
use std::collections::BTreeMap;
use std::io::{ErrorKind, Read, Write};
use std::path::Path;
use std::{io, str};

/// The name of the current folder.
pub(crate) const HERE: &str = ".";

/// Why a pipe, for example, is not read.
const NOT_REGULAR: &str = "it is not a regular file";

/// A configuration that was read.
#[derive(Drop)]
pub(crate) struct FoundConfig {
    /// The absolute path of the folder that its globs are relative to.
    folder: String,
    pub(crate) config: Config,
}

impl FoundConfig {
    /// The path of a file, given by its absolute path, in the folder of the configuration; the whole path of a file
    /// that is elsewhere.
    pub(crate) fn path_names(&self, alloc: Global, file: &str) -> Result<PathNames, AllocError> {
        let rest = match file.strip_prefix(self.folder.as_str()) {
            Some(rest) if self.folder.ends_with('/') || rest.starts_with('/') => rest,
            Some(_) | None => file,
        };
        PathNames::new(alloc, rest.strip_prefix('/').unwrap_or(rest))
    }
}

/// What is known of the configuration of a folder.
#[derive(Debug, Clone, Copy, PartialEq, Eq)]
pub(crate) enum FolderConfig {
    /// There is none.
    Absent,
    /// It is the one of this index.
    Found(usize),
    /// It cannot be read or is wrong, which was reported.
    Refused,
}

/// The path of an entry of a folder.
pub(crate) fn joined(alloc: Global, folder: &str, entry: &str) -> Result<String, AllocError> {
    let slash = if folder.ends_with('/') { "" } else { "/" };
    format!(in alloc; "{folder}{slash}{entry}")
}

/// The folder that a file of this name is in.
pub(crate) fn folder_of(file: &str) -> &str {
    match file.rsplit_once('/') {
        Some(("", _)) => "/",
        Some((folder, _)) => folder,
        None => HERE,
    }
}

/// The name of a file in its folder.
pub(crate) fn name_of(file: &str) -> &str {
    match file.rsplit_once('/') {
        Some((_, name)) => name,
        None => file,
    }
}

/// An error of the system; memory that ran out is another error.
pub(crate) fn system_error(error: io::Error) -> Result<io::Error, RunError> {
    if error.kind() == ErrorKind::OutOfMemory {
        return Err(RunError::Memory(AllocError));
    }
    Ok(error)
}

/// Where configurations are looked for.
#[derive(Clone, Copy, PartialEq, Eq)]
enum Search {
    /// From each folder upwards.
    Upwards,
    /// Nowhere: the first one that is found is that of all folders.
    First,
    /// Nowhere: no folder has one.
    Nothing,
}

/// Finds the configurations of folders, and reports those that cannot be read.
#[derive(Drop)]
pub(crate) struct ConfigFinder<'a, S, E> {
    pub(crate) alloc: Global,
    pub(crate) sources: &'a S,
    pub(crate) err: &'a mut E,
    search: Search,
    /// The absolute path of the current folder, with a slash, as far as it is known.
    here: String,
    /// What is known of folders, by their absolute paths.
    folders: BTreeMap<String, FolderConfig>,
    pub(crate) found: Vec<FoundConfig>,
}

impl<'a, S: System, E: Write> ConfigFinder<'a, S, E> {
    /// Before the first folder.
    pub(crate) fn new(alloc: Global, sources: &'a S, err: &'a mut E) -> ConfigFinder<'a, S, E> {
        ConfigFinder {
            alloc,
            sources,
            err,
            search: Search::Upwards,
            here: String::new(alloc),
            folders: BTreeMap::new(alloc),
            found: Vec::new(alloc),
        }
    }

    /// The absolute path of a folder; the path as it is, if no configuration is read.
    pub(crate) fn absolute(&self, folder: &str) -> io::Result<String> {
        match self.search {
            Search::Nothing => Ok(String::from_str(self.alloc, folder)?),
            Search::Upwards | Search::First => self.sources.absolute(folder),
        }
    }

    /// Finds out where the current folder is. Files below it are then reported by their paths in it.
    fn find_here(&mut self) -> Result<(), RunError> {
        match self.sources.absolute(HERE) {
            Ok(here) => self.here = joined(self.alloc, here.as_str(), "")?,
            Err(error) => {
                system_error(error)?;
            }
        }
        Ok(())
    }

    /// The bytes as a text, without a byte order mark. If they are not UTF-8, that is reported.
    fn text<'b>(&mut self, file: &str, bytes: &'b [u8]) -> io::Result<Option<&'b str>> {
        let bytes = bytes.strip_prefix(BOM).unwrap_or(bytes);
        match str::from_utf8(bytes) {
            Ok(text) => Ok(Some(text)),
            Err(error) => {
                let unread = Unread::not_text(file, bytes, error.valid_up_to());
                writeln!(self.err, "{unread}")?;
                Ok(None)
            }
        }
    }

    /// Says that a file cannot be read.
    fn refuse(&mut self, file: &str, error: io::Error) -> Result<FolderConfig, RunError> {
        let error = system_error(error)?;
        writeln!(self.err, "patterns: {}: {error}", Shown(file))?;
        Ok(FolderConfig::Refused)
    }

    /// Adds the configuration that a text is, whose globs are relative to the folder.
    fn add(&mut self, file: &str, folder: &str, text: &str) -> Result<FolderConfig, RunError> {
        let rules = rule_names(self.alloc)?;
        let config = match Config::read(self.alloc, text, &rules) {
            Ok(config) => config,
            Err(ConfigError::Memory(error)) => return Err(RunError::Memory(error)),
            Err(ConfigError::Refused(refusal)) => {
                writeln!(self.err, "{}:{refusal}", Shown(file))?;
                return Ok(FolderConfig::Refused);
            }
        };
        let index = self.found.len();
        let folder = String::from_str(self.alloc, folder)?;
        self.found.push(FoundConfig { folder, config })?;
        Ok(FolderConfig::Found(index))
    }

    /// Reads an opened configuration.
    fn read<R: Read>(
        &mut self,
        file: &str,
        folder: &str,
        opened: &mut R,
    ) -> Result<FolderConfig, RunError> {
        let mut bytes = Vec::new(self.alloc);
        if let Err(error) = opened.read_to_end(&mut bytes) {
            return self.refuse(file, error);
        }
        match self.text(file, &bytes)? {
            Some(text) => self.add(file, folder, text),
            None => Ok(FolderConfig::Refused),
        }
    }

    /// Opens a configuration. It is an error if it is a pipe or a device: reading a pipe waits for a writer.
    fn open(&self, path: &str) -> io::Result<S::File> {
        match self.sources.kind(path) {
            EntryKind::Other => Err(io::Error::new(ErrorKind::InvalidInput, NOT_REGULAR)),
            EntryKind::File | EntryKind::Folder | EntryKind::FolderLink => self.sources.open(path),
        }
    }

    /// The configuration that is in the folder itself, given by its absolute path.
    fn in_folder(&mut self, folder: &str) -> Result<FolderConfig, RunError> {
        let path = joined(self.alloc, folder, CONFIG_NAME)?;
        let shown = String::from_str(
            self.alloc,
            path.as_str()
                .strip_prefix(self.here.as_str())
                .unwrap_or(path.as_str()),
        )?;
        match self.open(path.as_str()) {
            Ok(mut opened) => self.read(shown.as_str(), folder, &mut opened),
            Err(error) if error.kind() == ErrorKind::NotFound => Ok(FolderConfig::Absent),
            Err(error) => self.refuse(shown.as_str(), error),
        }
    }

    /// What is known of the folder, or of the nearest one above it of which something is, and the path of that. Nothing
    /// is above the root.
    fn nearest<'f>(&mut self, folder: &'f str) -> Result<(FolderConfig, &'f str), RunError> {
        let mut at = folder;
        for _ in 0..=folder.len() {
            if let Some(known) = self.folders.get(at) {
                return Ok((*known, at));
            }
            let found = self.in_folder(at)?;
            if found != FolderConfig::Absent {
                return Ok((found, at));
            }
            let Some(above) = Path::new(at).parent() else {
                break;
            };
            at = above.as_str();
        }
        Ok((FolderConfig::Absent, at))
    }

    /// Keeps what is known of the folder and of those above it, up to one of them.
    fn keep(&mut self, folder: &str, last: &str, config: FolderConfig) -> Result<(), AllocError> {
        let mut at = folder;
        for _ in 0..=folder.len() {
            self.folders
                .insert(String::from_str(self.alloc, at)?, config)?;
            let above = Path::new(at).parent();
            match above {
                Some(above) if at != last => at = above.as_str(),
                Some(_) | None => break,
            }
        }
        Ok(())
    }

    /// The configuration of a folder, given by its absolute path: the nearest one from there upwards, unless the
    /// arguments choose one.
    pub(crate) fn of_folder(&mut self, folder: &str) -> Result<FolderConfig, RunError> {
        match self.search {
            Search::Nothing => Ok(FolderConfig::Absent),
            Search::First => Ok(FolderConfig::Found(0)),
            Search::Upwards => {
                let (config, last) = self.nearest(folder)?;
                self.keep(folder, last, config)?;
                Ok(config)
            }
        }
    }

    /// Reads the configuration of this name.
    fn read_file(&mut self, file: &str) -> Result<FolderConfig, RunError> {
        let folder = match self.sources.absolute(folder_of(file)) {
            Ok(folder) => folder,
            Err(error) => return self.refuse(file, error),
        };
        match self.open(file) {
            Ok(mut opened) => self.read(file, folder.as_str(), &mut opened),
            Err(error) => self.refuse(file, error),
        }
    }

    /// Reads the configuration that the arguments choose, if they choose one, and returns whether it is refused.
    pub(crate) fn begin(&mut self, choice: ConfigChoice<'_>) -> Result<bool, RunError> {
        match choice {
            ConfigChoice::None => self.search = Search::Nothing,
            ConfigChoice::Nearest => self.find_here()?,
            ConfigChoice::File(file) => {
                self.search = Search::First;
                return Ok(self.read_file(file)? == FolderConfig::Refused);
            }
        }
        Ok(false)
    }
}
