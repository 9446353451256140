//! Why a run has no result.
use std::alloc::AllocError;
use std::io;
use std::io::ErrorKind;
use thiserror::Error;

#[derive(Debug, Drop, Error)]
pub(crate) enum ProgramError {
    #[error("usage: fre FLAGS PATTERN")]
    Usage,
    #[error("out of memory")]
    Memory(#[from(alloc)] AllocError),
    #[error("cannot write")]
    Write(#[from] io::Error),
}

impl ProgramError {
    /// Whether nobody reads what the run writes any more, as in `fre u PATTERN | head -1`.
    pub(crate) fn is_broken_pipe(&self) -> bool {
        match self {
            ProgramError::Usage | ProgramError::Memory(_) => false,
            ProgramError::Write(error) => error.kind() == ErrorKind::BrokenPipe,
        }
    }
}
