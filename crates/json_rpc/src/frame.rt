//! Messages between headers, on streams of bytes.
ghost use Rattle.std.specs.Prelude.{◌≡◌, ℕ, ◌<◌, ◌^◌, List, [], ◌∷◌, ◌++◌, length, Some, OnOk, IfOk, IfSome, IsTrue};
ghost use Rattle.std.specs.Io.KnownBytes.{Appends, Consumes};
ghost use Rattle.json_rpc.specs.Header.{header, frame, IsLineRead};

use crate::header::{HeaderLine, header_line};
use std::alloc::{AllocError, Global};
use std::io;
use std::io::{ErrorKind, Read, Write};
use thiserror::Error;

/// How many bytes a message may have.
pub const MAX_LENGTH: usize = 256 << 20;

/// How many bytes a line of a header may have.
const MAX_LINE: usize = 4096;

/// How many lines a header may have.
const MAX_LINES: usize = 64;

/// Why no message is read. What follows in the stream is not read either.
#[derive(Debug, Drop, Error)]
pub enum FrameError {
    /// A call of the system failed.
    #[error("{0}")]
    System(io::Error),
    /// Memory ran out.
    #[error("out of memory")]
    Memory,
    #[error("the stream ends within a message")]
    Ended,
    #[error("a line of the header of a message is not a field")]
    Header,
    #[error("the header of a message does not say how many bytes it has")]
    NoLength,
    #[error("a message of {0} bytes is too long")]
    TooLong(usize),
}

impl From<AllocError> for FrameError {
    fn from(_error: AllocError) -> FrameError {
        FrameError::Memory
    }
}

impl From<io::Error> for FrameError {
    fn from(error: io::Error) -> FrameError {
        match error.kind() {
            ErrorKind::OutOfMemory => FrameError::Memory,
            ErrorKind::UnexpectedEof => FrameError::Ended,
            _ => FrameError::System(error),
        }
    }
}

/// Reads the next byte; None if the stream ends before it.
fn read_byte<R: Read>(reader: &mut R) -> Result<Option<u8>, FrameError>
    ensures { IfOk result (λ read. IfSome read (λ byte.
        Consumes (R.remaining reader.old) (R.remaining reader.new) (byte ∷ []))) }
{
    let mut byte = [0];
    match reader.read_exact(&mut byte) {
        Ok(()) => Ok(Some(byte[0])),
        Err(error) if error.kind() == ErrorKind::UnexpectedEof => Ok(None),
        Err(error) => Err(FrameError::from(error)),
    }
}

/// Reads a line of a header: what is before its CR LF. Returns whether there is one: not if the stream ends before it.
fn read_line<R: Read>(reader: &mut R, line: &mut Vec<u8>) -> Result<bool, FrameError>
    ensures { IfOk result (λ is_read. IsTrue is_read →
        IsLineRead (R.remaining reader.old) (R.remaining reader.new) line.new.items) }
{
    line.clear();
    for _ in 0..MAX_LINE {
        let Some(byte) = read_byte(reader)? else {
            if line.is_empty() {
                return Ok(false);
            }
            return Err(FrameError::Ended);
        };
        if byte == b'\n' {
            if line.pop() == Some(b'\r') {
                return Ok(true);
            }
            return Err(FrameError::Header);
        }
        line.extend_from_slice(&[byte])?;
    }
    Err(FrameError::Header)
}

/// Reads a header: how many bytes the message has; None if the stream ends before it.
fn read_header<R: Read>(alloc: Global, reader: &mut R) -> Result<Option<usize>, FrameError>
    ensures { IfOk result (λ read. IfSome read (λ n. (m : ℕ) (rest : List ℕ) → m < 2 ^ 64
        → R.remaining reader.old ≡ Some (header m ++ rest) → (n ≡ m) × (R.remaining reader.new ≡ Some rest))) }
{
    let mut line = Vec::new(alloc);
    let mut length = None;
    for number in 0..MAX_LINES {
        if !read_line(reader, &mut line)? {
            if number == 0 {
                return Ok(None);
            }
            return Err(FrameError::Ended);
        }
        match header_line(&line) {
            HeaderLine::End => {
                let Some(length) = length else {
                    return Err(FrameError::NoLength);
                };
                return Ok(Some(length));
            }
            HeaderLine::Length(found) => length = Some(found),
            HeaderLine::Other => {}
            HeaderLine::Invalid => return Err(FrameError::Header),
        }
    }
    Err(FrameError::Header)
}

/// Reads a message with its header, and returns the message; None if the stream ends before it.
pub fn read_message<R: Read>(alloc: Global, reader: &mut R) -> Result<Option<Vec<u8>>, FrameError>
    ensures { IfOk result (λ read. IfSome read (λ v. (message rest : List ℕ) → length message < 2 ^ 64
        → R.remaining reader.old ≡ Some (frame message ++ rest)
        → (v.items ≡ message) × (R.remaining reader.new ≡ Some rest))) }
{
    let Some(length) = read_header(alloc, reader)? else {
        return Ok(None);
    };
    if length > MAX_LENGTH {
        return Err(FrameError::TooLong(length));
    }
    let mut message = vec![in alloc; 0; length]?;
    reader.read_exact(&mut message)?;
    Ok(Some(message))
}

/// Writes the message with its header. After an error a part of that may be written.
pub fn write_message<W: Write>(writer: &mut W, message: &[u8]) -> io::Result<()>
    ensures { OnOk result (Appends (W.contents writer.old) (W.contents writer.new) (frame message.now)) }
{
    let length = message.len();
    write!(writer, "Content-Length: {length}\r\n\r\n")?;
    writer.write_all(message)?;
    writer.flush()
}
