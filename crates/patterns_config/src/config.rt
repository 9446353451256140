//! The configuration that a file `patterns.toml` has.
use crate::config_error::{ConfigError, Problem, Refusal, TableError};
use crate::glob::{Glob, PathNames};
use crate::options::{FileOption, is_option, options_of};
use crate::tables::{tables_of, texts_of};
use std::alloc::{AllocError, Global};
use toml::{Table, table_from_str};

/// The name of the file.
pub(crate) const CONFIG_NAME: &str = "patterns.toml";

/// The keys of the file, and those of an override, besides those of options.
static KEYS: [&str; 2] = ["files", "overrides"];

static OVERRIDE_KEYS: [&str; 1] = ["files"];

/// What is said of the files that some globs match.
#[derive(Debug, Drop)]
pub(crate) struct Override {
    files: Vec<Glob>,
    pub(crate) options: Vec<FileOption>,
}

/// A configuration.
#[derive(Debug, Drop)]
pub(crate) struct Config {
    /// What is said of all files.
    pub(crate) options: Vec<FileOption>,
    /// Which files of a folder are read, if that is said.
    pub(crate) files: Option<Vec<Glob>>,
    /// What is said of some files: of each option, the last one that has it and matches counts.
    pub(crate) overrides: Vec<Override>,
}

/// Whether one of the globs matches the path.
fn is_among(globs: &[Glob], path: &PathNames) -> bool {
    globs.iter().any(|glob| glob.matches(path))
}

/// Refuses a table with a key that is neither one of an option nor among the others.
fn check_keys(alloc: Global, table: &Table, others: &[&str]) -> Result<(), TableError> {
    for key in table.keys() {
        if !is_option(key.as_str()) && !others.iter().any(|name| *name == key.as_str()) {
            let key = String::from_str(alloc, key.as_str())?;
            return Err(TableError::Refused(Problem::UnknownKey(key)));
        }
    }
    Ok(())
}

impl Override {
    /// That of a table, which is the one of this number.
    fn read(
        alloc: Global,
        table: &Table,
        number: usize,
        rules: &[&str],
    ) -> Result<Override, TableError> {
        check_keys(alloc, table, &OVERRIDE_KEYS)?;
        let options = options_of(alloc, table, rules)?;
        let Some(files) = globs_at(alloc, table)? else {
            return Err(TableError::Refused(Problem::MissingFiles(number)));
        };
        Ok(Override { files, options })
    }

    /// Whether it is of the file.
    pub(crate) fn is_of(&self, path: &PathNames) -> bool {
        is_among(&self.files, path)
    }
}

/// The globs of a table, if it has some.
fn globs_at(alloc: Global, table: &Table) -> Result<Option<Vec<Glob>>, TableError> {
    let Some(value) = table.get("files") else {
        return Ok(None);
    };
    let texts = texts_of(alloc, "files", value)?;
    let mut globs = Vec::with_capacity(alloc, texts.len())?;
    for text in &texts {
        globs.push(Glob::new(alloc, text.as_str())?)?;
    }
    Ok(Some(globs))
}

/// The overrides of a table.
fn overrides_of(alloc: Global, table: &Table, rules: &[&str]) -> Result<Vec<Override>, TableError> {
    let mut overrides = Vec::new(alloc);
    let Some(value) = table.get("overrides") else {
        return Ok(overrides);
    };
    for (number, inner) in tables_of(alloc, "overrides", value)?.iter().enumerate() {
        overrides.push(Override::read(alloc, inner, number, rules)?)?;
    }
    Ok(overrides)
}

/// The configuration that a table has.
fn config_of(alloc: Global, table: &Table, rules: &[&str]) -> Result<Config, TableError> {
    check_keys(alloc, table, &KEYS)?;
    Ok(Config {
        options: options_of(alloc, table, rules)?,
        files: globs_at(alloc, table)?,
        overrides: overrides_of(alloc, table, rules)?,
    })
}

/// What the beginning of a text is.
enum Beginning {
    /// It ends in the middle of an entry.
    Incomplete,
    /// It is TOML, without the problem.
    Complete,
    /// It has the problem.
    HasProblem,
}

/// The problem of a table, if it has one.
fn problem_of(alloc: Global, table: &Table, rules: &[&str]) -> Result<Option<Problem>, AllocError> {
    let Err(error) = config_of(alloc, table, rules) else {
        return Ok(None);
    };
    match error {
        TableError::Memory(error) => Err(error),
        TableError::Refused(problem) => Ok(Some(problem)),
    }
}

/// What the beginning of a text is, of which the whole has the problem.
fn beginning_of(
    alloc: Global,
    text: &str,
    rules: &[&str],
    problem: &Problem,
) -> Result<Beginning, AllocError> {
    let table = match table_from_str(alloc, text) {
        Ok(table) => table,
        Err(error) => {
            return if error.is_memory() {
                Err(AllocError)
            } else {
                Ok(Beginning::Incomplete)
            };
        }
    };
    if problem_of(alloc, &table, rules)?.as_ref() == Some(problem) {
        return Ok(Beginning::HasProblem);
    }
    Ok(Beginning::Complete)
}

/// The line on which the entry begins that has the problem. Lines are read up to one after another, since a table does not
/// say where its entries are.
fn line_of(
    alloc: Global,
    text: &str,
    rules: &[&str],
    problem: &Problem,
) -> Result<usize, AllocError> {
    let mut begins = 1usize;
    let mut number = 1usize;
    let mut end = 0usize;
    for line in text.split_inclusive('\n') {
        number = number.saturating_add(1);
        end = end.saturating_add(line.len());
        match beginning_of(alloc, text.get(..end).unwrap_or(text), rules, problem)? {
            Beginning::Incomplete => {}
            Beginning::Complete => begins = number,
            Beginning::HasProblem => break,
        }
    }
    Ok(begins)
}

/// The line and the column after the text, from 1.
fn position_after(text: &str) -> (usize, usize) {
    let mut line = 1usize;
    let mut column = 1usize;
    for c in text.chars() {
        if c == '\n' {
            line = line.saturating_add(1);
            column = 1;
        } else {
            column = column.saturating_add(1);
        }
    }
    (line, column)
}

/// That the text is not TOML.
fn refused_text(text: &str, error: toml::de::Error) -> ConfigError {
    let Some(span) = error.span() else {
        return ConfigError::Memory(AllocError);
    };
    let (line, column) = position_after(text.get(..span.start).unwrap_or(text));
    ConfigError::Refused(Refusal {
        line,
        column: Some(column),
        problem: Problem::Syntax(error),
    })
}

/// That a table of the text has the problem.
fn refused_table(
    alloc: Global,
    text: &str,
    rules: &[&str],
    problem: Problem,
) -> Result<Config, ConfigError> {
    let line = line_of(alloc, text, rules, &problem)?;
    Err(ConfigError::Refused(Refusal {
        line,
        column: None,
        problem,
    }))
}

impl Config {
    /// Whether it names a file of a folder, by its `files`.
    pub(crate) fn has_file(&self, path: &PathNames) -> bool {
        self.files
            .as_ref()
            .is_some_and(|globs| is_among(globs, path))
    }

    /// Reads the text of a configuration. It is refused if it is not TOML of version 1.1; if a table has a key that no
    /// option has, or a value of another type than the option's; if a rule or a letter of the flags is unknown; and if an
    /// override has no files. `rules` are the names of all rules.
    pub(crate) fn read(alloc: Global, text: &str, rules: &[&str]) -> Result<Config, ConfigError> {
        let table = match table_from_str(alloc, text) {
            Ok(table) => table,
            Err(error) => return Err(refused_text(text, error)),
        };
        let error = match config_of(alloc, &table, rules) {
            Ok(config) => return Ok(config),
            Err(error) => error,
        };
        match error {
            TableError::Memory(error) => Err(ConfigError::Memory(error)),
            TableError::Refused(problem) => refused_table(alloc, text, rules, problem),
        }
    }
}
