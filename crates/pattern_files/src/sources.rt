//! What a run asks the system for.
use std::io;
use std::io::{BufRead, Write};
use std::time::Clock;
use thiserror::Error;

/// The file name that stands for standard input.
pub const STANDARD_INPUT: &str = "-";

/// Why a file is not replaced.
#[derive(Debug, Drop, Error)]
pub enum ReplaceError {
    /// A call of the system failed, or memory ran out.
    #[error("{0}")]
    System(io::Error),
    /// It is a pipe, for example.
    #[error("it is not a regular file")]
    NotRegular,
    /// Its other names would keep the old bytes.
    #[error("it has several hard links, of which only this one would change; read it as standard input")]
    HardLinks,
    /// The system does not let a new file have its owner and its group.
    #[error("its owner and group cannot be kept; read it as standard input")]
    Owner,
    /// It has not the bytes that were read any more.
    #[error("it has changed since it was read")]
    Changed,
    /// Another run is about to replace it.
    #[error("another run is writing it")]
    Busy,
}

impl From<io::Error> for ReplaceError {
    fn from(error: io::Error) -> ReplaceError {
        ReplaceError::System(error)
    }
}

/// What opens the files of a run.
pub trait Sources {
    /// An opened file.
    type File: BufRead + Drop;
    /// The standard input.
    type Input: BufRead + Drop;
    /// A file that is written to take the place of another. If it is dropped, it is removed.
    type Draft: Write + Drop;

    /// Opens the file of this name.
    fn open(&self, name: &str) -> io::Result<Self::File>;

    /// Writes the new bytes to the file of this name, in the place of the old ones, which were read from it. After an error it
    /// is as it was. It is an error if it does not have the old bytes any more.
    fn replace(&self, name: &str, old: &[u8], new: &[u8]) -> Result<(), ReplaceError>;

    /// How many bytes the file of this name has, if that is known.
    fn size(&self, name: &str) -> Option<u64>;

    /// Begins a file that is to take the place of the one of this name. It is empty. It is an error if that one cannot be
    /// replaced.
    fn draft(&self, name: &str) -> Result<Self::Draft, ReplaceError>;

    /// Puts the draft in the place of the file that it was begun for. After an error that file is as it was. It is an error if
    /// its bytes do not have this SHA-256 digest.
    fn settle(&self, draft: Self::Draft, digest: [u8; 32]) -> Result<(), ReplaceError>;

    /// The standard input, from its position on.
    fn input(&self) -> io::Result<Self::Input>;
}

/// What a name is the name of.
#[derive(Debug, Clone, Copy, PartialEq, Eq)]
pub enum EntryKind {
    /// A file; or nothing that is known, and then opening it says why.
    File,
    Folder,
    /// A symbolic link to a folder.
    FolderLink,
    /// Anything else, such as a pipe.
    Other,
}

/// What knows the folders that files are in.
pub trait Folders {
    /// What the name is the name of.
    fn kind(&self, name: &str) -> EntryKind;

    /// The names of the entries of a folder, in any order.
    fn entries(&self, folder: &str) -> io::Result<Vec<String>>;

    /// The absolute path of a folder, without symbolic links.
    fn absolute(&self, folder: &str) -> io::Result<String>;
}

/// Which of the two outputs are terminals that know escape codes.
#[derive(Clone, Copy)]
pub struct Terminals {
    pub out: bool,
    pub err: bool,
}

/// What a run asks the system for: files and folders, the time, and what its outputs are.
pub trait System: Sources + Folders + Clock {
    /// Which of the outputs are terminals.
    fn terminals(&self) -> Terminals;
}
