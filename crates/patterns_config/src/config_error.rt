//! Why a configuration is refused.
use fancy_lex::flag_word::FLAG_WORD;
use std::alloc::AllocError;
use std::fmt;
use thiserror::Error;

/// What is wrong with a file `patterns.toml`.
#[derive(Debug, PartialEq, Drop)]
pub(crate) enum Problem {
    /// It is not TOML.
    Syntax(toml::de::Error),
    /// It has a key that no option has.
    UnknownKey(String),
    /// The value of a key is of another type.
    WrongType {
        key: &'static str,
        expected: &'static str,
    },
    /// A list of rules names none.
    UnknownRule(String),
    /// The letters of the flags are none.
    UnknownFlags(String),
    /// The override of this number, from 0, does not say of which files it is.
    MissingFiles(usize),
}

impl fmt::Display for Problem {
    fn fmt<W: fmt::Write>(&self, f: &mut fmt::Formatter<W>) -> fmt::Result {
        match self {
            Problem::Syntax(error) => f.write_str(error.message()),
            Problem::UnknownKey(key) => write!(f, "unknown key {key:?}"),
            Problem::WrongType { key, expected } => write!(f, "{key} must be {expected}"),
            Problem::UnknownRule(name) => write!(f, "unknown rule {name:?}"),
            Problem::UnknownFlags(_) => write!(f, "flags must be {FLAG_WORD}"),
            Problem::MissingFiles(_) => f.write_str("overrides must have files"),
        }
    }
}

/// A problem, and where it is.
#[derive(Debug, Drop)]
pub(crate) struct Refusal {
    /// The line, from 1.
    pub(crate) line: usize,
    /// The column in characters, from 1, of what is not TOML.
    pub(crate) column: Option<usize>,
    pub(crate) problem: Problem,
}

/// The line, the column if there is one, and the problem.
impl fmt::Display for Refusal {
    fn fmt<W: fmt::Write>(&self, f: &mut fmt::Formatter<W>) -> fmt::Result {
        write!(f, "{}:", self.line)?;
        if let Some(column) = self.column {
            write!(f, "{column}:")?;
        }
        write!(f, " {}", self.problem)
    }
}

/// Why a configuration was not read.
#[derive(Debug, Drop, Error)]
pub(crate) enum ConfigError {
    /// Out of memory.
    #[error("out of memory")]
    Memory(#[from(alloc)] AllocError),
    /// It is refused.
    #[error("{0}")]
    Refused(Refusal),
}

/// Why a table was not read.
#[derive(Debug, Drop, Error)]
pub(crate) enum TableError {
    /// Out of memory.
    #[error("out of memory")]
    Memory(#[from(alloc)] AllocError),
    /// It has a problem.
    #[error("{0}")]
    Refused(Problem),
}
