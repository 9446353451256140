//! The records of a reader.
ghost use Rattle.std.specs.Prelude.{◌≡◌};
ghost use Rattle.pattern_files.specs.Line as spec;

use std::alloc::Global;
use std::io;
use std::io::{BufRead, Chain, Read};

/// The byte order mark, U+FEFF, which some editors put at the start of a file.
pub const BOM: &[u8] = b"\xEF\xBB\xBF";

/// What ends a record.
#[derive(Clone, Copy, PartialEq, Eq)]
pub enum Ending {
    /// LF, or CR LF: each line is a record.
    Line,
    /// NUL: a record may hold line ends.
    Null,
}

impl Ending {
    /// The byte that a record ends with.
    pub fn byte(self) -> u8 {
        match self {
            Ending::Line => b'\n',
            Ending::Null => b'\0',
        }
    }

    /// The record without its end.
    fn cut(self, record: &[u8]) -> &[u8] {
        match (self, record.split_last()) {
            (Ending::Line, Some((b'\n', front))) => front.strip_suffix(b"\r").unwrap_or(front),
            (Ending::Null, Some((b'\0', front))) => front,
            _ => record,
        }
    }
}

/// A record, and what it ends with.
#[derive(Clone, Copy)]
pub struct LineRecord<'b> {
    /// The record without its end.
    pub text: &'b [u8],
    /// Its end. The last record of a reader may have none, and then this is empty.
    pub end: &'b [u8],
}

impl LineRecord<'_> {
    /// How many bytes it takes, with its end.
    pub(crate) fn len(&self) -> usize {
        self.text.len().saturating_add(self.end.len())
    }
}

/// Reads the next record into the buffer, in the place of what it held; none where nothing is left to read.
pub(crate) fn next_record<'b, R: BufRead>(
    reader: &mut R,
    ending: Ending,
    buffer: &'b mut Vec<u8>,
) -> io::Result<Option<LineRecord<'b>>> {
    buffer.clear();
    if reader.read_until(ending.byte(), buffer)? == 0 {
        return Ok(None);
    }
    let text = ending.cut(buffer);
    let end = buffer.get(text.len()..).unwrap_or(b"");
    Ok(Some(LineRecord { text, end }))
}

/// The start of a reader: whether it is the byte order mark, and if not, its bytes, which are still to be read.
#[derive(Drop)]
pub(crate) struct Start {
    pub(crate) has_bom: bool,
    unread: Vec<u8>,
}

impl Start {
    /// Takes the start off the reader. It waits for no more than the first byte, unless that may begin a byte order mark.
    pub(crate) fn take<R: BufRead>(alloc: Global, reader: &mut R) -> io::Result<Start> {
        let mut unread = Vec::new(alloc);
        if reader.fill_buf()?.first() == BOM.first() {
            reader.take(BOM.len() as u64).read_to_end(&mut unread)?;
        }
        let has_bom = unread.as_slice() == BOM;
        if has_bom {
            unread.clear();
        }
        Ok(Start { has_bom, unread })
    }

    /// The byte offset up to which it is passed over.
    pub(crate) fn offset(&self) -> usize {
        if self.has_bom { BOM.len() } else { 0 }
    }

    /// The reader from its start on, or from past the byte order mark.
    pub(crate) fn chain<'s, R: BufRead>(&'s self, reader: &'s mut R) -> Chain<&'s [u8], &'s mut R> {
        self.unread.as_slice().chain(reader)
    }
}

/// How many lines a record takes: one more than the LFs in it.
pub fn lines_in(record: &[u8]) -> u64 {
    let mut lines = 1u64;
    for byte in record {
        if *byte == b'\n' {
            lines = lines.saturating_add(1);
        }
    }
    lines
}

/// Whether a byte is in the text, and not in the pattern.
fn is_new(byte: u8, text: &str, pattern: &str) -> bool
    ensures { result ≡ spec.is_new byte text.now pattern.now }
{
    text.as_bytes().contains(&byte) && !pattern.as_bytes().contains(&byte)
}

/// Whether the text, in a line of its own, would be read as another: it holds an end of a line or of a record that the
/// pattern does not hold, or ends with a CR.
pub fn breaks_line(text: &str, pattern: &str) -> bool
    ensures { result ≡ spec.breaks_line text.now pattern.now }
{
    is_new(b'\n', text, pattern)
        || is_new(b'\r', text, pattern)
        || is_new(b'\0', text, pattern)
        || text.as_bytes().ends_with(b"\r")
}
