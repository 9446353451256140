//! Files, and writers, that lie in memory.
use pattern_files::sources::{EntryKind, Folders, ReplaceError, Sources, System, Terminals};
use std::alloc::Global;
use std::io;
use std::io::{BufRead, Chain, ErrorKind, Read, Write};
use std::time::{Clock, Duration};

/// Nothing to read; or an error where one would read on.
#[derive(Clone, Copy)]
pub(crate) struct End {
    is_broken: bool,
}

impl Read for End {
    fn read(&mut self, _buffer: &mut [u8]) -> io::Result<usize> {
        if self.is_broken {
            return Err(io::Error::from(ErrorKind::ConnectionReset));
        }
        Ok(0)
    }
}

impl BufRead for End {
    fn fill_buf(&mut self) -> io::Result<&[u8]> {
        if self.is_broken {
            return Err(io::Error::from(ErrorKind::ConnectionReset));
        }
        Ok(b"")
    }

    fn consume(&mut self, _amount: usize) {}
}

/// The names of files, and what they hold.
static FILES: [(&str, &[u8]); 9] = [
    ("mixed", b"a|b\r\n(\n\n\xFFx\na)b\n"),
    ("mixed:5", b"x\n[\n"),
    ("broken", b"(\r\n"),
    ("full", b"a|a\n"),
    ("moving", b"a|a\n"),
    ("large", LARGE_FILE),
    ("large-broken", b"(\r\na{1,1}\n"),
    ("large-full", b"a{1,1}\n(?:b)\n"),
    ("large-moving", b"a{1,1}\n"),
];

/// How the names of files begin that are said to be large.
const LARGE: &str = "large";

/// What the file `large` holds, and what it is to hold when it is formatted.
const LARGE_FILE: &[u8] = b"\xEF\xBB\xBFa{1,1}\r\n\xFF{1,1}\n(\n\n(?:b)";

const LARGE_FORMATTED: &[u8] = b"\xEF\xBB\xBFa{1}\r\n\xFF{1,1}\n(\n\nb";

/// Its SHA-256 digest, as `sha256sum` writes it.
const LARGE_DIGEST: [u8; 32] = [
    0x37, 0x25, 0xe1, 0x0d, 0xac, 0x60, 0xf1, 0xce, 0x09, 0xb1, 0xdf, 0xc3, 0xf4, 0xa5, 0xbf, 0x80,
    0xe6, 0x7d, 0x7b, 0xbe, 0x1b, 0x1e, 0xe4, 0xfd, 0x84, 0x59, 0x38, 0x0f, 0x23, 0x30, 0x6d, 0x5d,
];

/// A file that is to take the place of the one of this name. For that of `large-full` there is no space.
#[derive(Drop)]
pub(crate) struct MemoryDraft {
    name: &'static str,
    bytes: Vec<u8>,
}

impl Write for MemoryDraft {
    fn write(&mut self, bytes: &[u8]) -> io::Result<usize> {
        if self.name == "large-full" {
            return Err(io::Error::from(ErrorKind::StorageFull));
        }
        self.bytes.write(bytes)
    }

    fn flush(&mut self) -> io::Result<()> {
        Ok(())
    }
}

/// The files above, of which `broken` and `large-broken` cannot be read to their ends, and only `large` can be written, and a
/// standard input.
#[derive(Clone, Copy)]
pub(crate) struct Memory<'a> {
    pub(crate) alloc: Global,
    pub(crate) input: &'a [u8],
}

impl<'a> Sources for Memory<'a> {
    type File = Chain<&'static [u8], End>;

    type Input = &'a [u8];

    type Draft = MemoryDraft;

    fn open(&self, name: &str) -> io::Result<Chain<&'static [u8], End>> {
        for (known, bytes) in FILES.iter() {
            if *known == name {
                let end = End {
                    is_broken: name.ends_with("broken"),
                };
                return Ok(bytes.chain(end));
            }
        }
        Err(io::Error::from(ErrorKind::NotFound))
    }

    /// The file `moving` has other bytes by now, and for the others there is no space.
    fn replace(&self, name: &str, old: &[u8], _new: &[u8]) -> Result<(), ReplaceError> {
        let has_old = FILES
            .iter()
            .any(|(known, bytes)| *known == name && *bytes == old);
        if name == "moving" || !has_old {
            return Err(ReplaceError::Changed);
        }
        Err(ReplaceError::from(io::Error::from(ErrorKind::StorageFull)))
    }

    fn size(&self, name: &str) -> Option<u64> {
        name.starts_with(LARGE).then_some(u64::MAX)
    }

    fn draft(&self, name: &str) -> Result<MemoryDraft, ReplaceError> {
        for (known, _) in FILES.iter() {
            if *known == name {
                return Ok(MemoryDraft {
                    name: *known,
                    bytes: Vec::new(self.alloc),
                });
            }
        }
        Err(ReplaceError::NotRegular)
    }

    /// The file `large-moving` has other bytes by now.
    fn settle(&self, draft: MemoryDraft, digest: [u8; 32]) -> Result<(), ReplaceError> {
        let is_same = draft.name == LARGE && digest == LARGE_DIGEST;
        if !is_same || draft.bytes.as_slice() != LARGE_FORMATTED {
            return Err(ReplaceError::Changed);
        }
        Ok(())
    }

    fn input(&self) -> io::Result<&'a [u8]> {
        Ok(self.input)
    }
}

/// One folder, without a configuration.
impl Folders for Memory<'_> {
    fn kind(&self, _name: &str) -> EntryKind {
        EntryKind::File
    }

    fn entries(&self, _folder: &str) -> io::Result<Vec<String>> {
        Err(io::Error::from(ErrorKind::NotFound))
    }

    fn absolute(&self, _folder: &str) -> io::Result<String> {
        Ok(String::from_str(self.alloc, "/")?)
    }
}

/// A clock that does not move.
impl Clock for Memory<'_> {
    fn monotonic(&self) -> io::Result<Duration> {
        Ok(Duration::ZERO)
    }

    fn since_1970(&self) -> io::Result<Duration> {
        Ok(Duration::ZERO)
    }
}

impl System for Memory<'_> {
    fn terminals(&self) -> Terminals {
        Terminals {
            out: false,
            err: false,
        }
    }
}

/// Takes so many bytes and no more, as a pipe does that is closed then.
#[derive(Drop)]
pub(crate) struct Limited {
    pub(crate) text: Vec<u8>,
    capacity: usize,
}

impl Limited {
    pub(crate) fn new(alloc: Global, capacity: usize) -> Limited {
        Limited {
            text: Vec::new(alloc),
            capacity,
        }
    }
}

impl Write for Limited {
    fn write(&mut self, bytes: &[u8]) -> io::Result<usize> {
        let Some(left) = self.capacity.checked_sub(bytes.len()) else {
            return Err(io::Error::from(ErrorKind::BrokenPipe));
        };
        self.text.extend_from_slice(bytes)?;
        self.capacity = left;
        Ok(bytes.len())
    }

    fn flush(&mut self) -> io::Result<()> {
        Ok(())
    }
}
