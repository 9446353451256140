//! Errors that end a run.
ghost use Rattle.std.specs.Prelude.{◌≡◌, alloc_error};
ghost use Rattle.std.specs.IoError.{error_kind};
ghost use Rattle.std.specs.declared.io.ErrorKind.TheVariants.{OutOfMemory};
ghost use Rattle.patterns_text.specs.declared.error.RunError.TheVariants as run;

use std::alloc::AllocError;
use std::io;
use std::io::{ErrorKind, Write};
use thiserror::Error;

/// Why a run ended before its work was done.
#[derive(Debug, Drop, Error)]
pub enum RunError {
    /// Out of memory.
    #[error("out of memory")]
    Memory(#[from(alloc)] AllocError),
    /// A write failed.
    #[error("cannot write")]
    Write(io::Error),
}

/// A buffer in memory also has errors of writing: that memory ran out.
impl From<io::Error> for RunError {
    ghost from_gives = { λ error e. (error_kind error ≡ OutOfMemory → e ≡ run.Memory alloc_error)
        × ((error_kind error ≡ OutOfMemory → ⊥) → e ≡ run.Write error) };

    fn from(error: io::Error) -> RunError {
        if error.kind() == ErrorKind::OutOfMemory {
            RunError::Memory(AllocError)
        } else {
            RunError::Write(error)
        }
    }
}

impl RunError {
    /// Whether nobody reads what the run writes any more, as in `patterns groups FILE | head -1`.
    fn is_broken_pipe(&self) -> bool {
        match self {
            RunError::Memory(_) => false,
            RunError::Write(error) => error.kind() == ErrorKind::BrokenPipe,
        }
    }
}

/// Reports on `err`, if that is possible, why the run ends, and returns the exit status for that, 3. Nothing is reported if
/// the reader of an output closed it.
pub fn give_up<E: Write>(err: &mut E, error: RunError) -> u8
    ensures status { result ≡ 3 }
{
    if !error.is_broken_pipe() {
        let _ = writeln!(err, "patterns: {error}");
    }
    3
}
