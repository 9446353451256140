//! Writes a file in the place of another, so that a name has the old bytes or the new ones at each time.
use crate::new_file::NewFile;
use pattern_files::sources::ReplaceError;
use sha2::{Digest, Sha256};
use std::fs::{File, Metadata};
use std::io::{BufRead, BufReader, ErrorKind, Write};
use std::os::unix::fs::MetadataExt;
use std::{fs, io};

/// The file that is to be replaced.
#[derive(Drop)]
struct OldFile {
    /// Its absolute path, without symbolic links.
    path: String,
    file: File,
    /// What the system said of it when it was opened.
    metadata: Metadata,
}

/// An error if a file is not one that may be replaced.
fn check_old(old: &Metadata) -> Result<(), ReplaceError> {
    if !old.is_file() {
        return Err(ReplaceError::NotRegular);
    }
    if old.permissions().readonly() {
        return Err(ReplaceError::from(io::Error::from(ErrorKind::PermissionDenied)));
    }
    if old.nlink() > 1 {
        return Err(ReplaceError::HardLinks);
    }
    Ok(())
}

/// Whether both are of the same file, which was not changed between them.
fn is_same(one: &Metadata, other: &Metadata) -> bool {
    one.dev() == other.dev()
        && one.ino() == other.ino()
        && one.size() == other.size()
        && one.mtime() == other.mtime()
        && one.mtime_nsec() == other.mtime_nsec()
        && one.ctime() == other.ctime()
        && one.ctime_nsec() == other.ctime_nsec()
}

/// Whether what is left to read of a file is the bytes. It is read in parts, so that it is not in memory once more.
fn has_bytes(rt: &HostRuntime, file: &File, bytes: &[u8]) -> io::Result<bool> {
    let mut reader = BufReader::new(rt.alloc(), file)?;
    let mut left = bytes;
    for _ in 0..u64::MAX {
        let found = match reader.fill_buf() {
            Ok(found) => found,
            Err(error) if error.kind() == ErrorKind::Interrupted => continue,
            Err(error) => return Err(error),
        };
        if found.is_empty() {
            break;
        }
        let Some(rest) = left.strip_prefix(found) else {
            return Ok(false);
        };
        left = rest;
        let length = found.len();
        reader.consume(length);
    }
    Ok(left.is_empty())
}

/// The SHA-256 digest of what is left to read of a file.
fn digest_of(rt: &HostRuntime, file: &File) -> io::Result<[u8; 32]> {
    let mut reader = BufReader::new(rt.alloc(), file)?;
    let mut hasher = Sha256::new();
    for _ in 0..u64::MAX {
        let found = match reader.fill_buf() {
            Ok(found) => found,
            Err(error) if error.kind() == ErrorKind::Interrupted => continue,
            Err(error) => return Err(error),
        };
        if found.is_empty() {
            break;
        }
        hasher.update(found);
        let length = found.len();
        reader.consume(length);
    }
    Ok(hasher.finalize())
}

impl OldFile {
    /// Opens the file that the name leads to.
    fn open(rt: &HostRuntime, name: &str) -> Result<OldFile, ReplaceError> {
        let path = fs::canonicalize(rt, name)?.into_string();
        // A pipe is not opened: that would wait for a writer.
        check_old(&fs::metadata(rt, path.as_str())?)?;
        let file = File::open(rt, path.as_str())?;
        let metadata = file.metadata()?;
        check_old(&metadata)?;
        Ok(OldFile {
            path,
            file,
            metadata,
        })
    }

    /// Whether its path still leads to it, and it was not changed since it was opened.
    fn is_unchanged(&self, rt: &HostRuntime) -> io::Result<bool> {
        match fs::symlink_metadata(rt, self.path.as_str()) {
            Ok(now) => Ok(is_same(&self.metadata, &now)),
            Err(error) if error.kind() == ErrorKind::NotFound => Ok(false),
            Err(error) => Err(error),
        }
    }
}

/// A new file beside an old one, whose place it is to take. If it is dropped, it is removed.
#[derive(Drop)]
pub(crate) struct Draft<'a> {
    rt: &'a HostRuntime,
    old: OldFile,
    new: NewFile<'a>,
}

impl Write for Draft<'_> {
    fn write(&mut self, bytes: &[u8]) -> io::Result<usize> {
        self.new.write(bytes)
    }

    fn flush(&mut self) -> io::Result<()> {
        self.new.flush()
    }
}

impl<'a> Draft<'a> {
    /// Begins one for the file of this name, or for the one that a symbolic link of this name leads to. It has the owner, the group
    /// and the permissions of the old file, of these at most 0777. It is an error where the old file is no regular one, is
    /// read-only or has several hard links; where owner and group cannot be kept; where another run writes to it; and where
    /// the new file cannot be created.
    pub(crate) fn begin(rt: &'a HostRuntime, name: &str) -> Result<Draft<'a>, ReplaceError> {
        let old = OldFile::open(rt, name)?;
        let new = NewFile::create(rt, old.path.as_str())?;
        new.prepare(&old.metadata)?;
        Ok(Draft { rt, old, new })
    }

    /// Gives it the name of the old file. It is an error if that has not the old bytes, or was changed otherwise.
    fn rename(self, has_old_bytes: bool) -> Result<(), ReplaceError> {
        // No call of the system compares and renames at once. What others write between the two calls is lost, and what they
        // write later to the old file, if they have it open.
        if !has_old_bytes || !self.old.is_unchanged(self.rt)? {
            return Err(ReplaceError::Changed);
        }
        let Draft { old, new, .. } = self;
        Ok(new.rename(old.path.as_str())?)
    }

    /// Gives it the name of the old file, once its own bytes are on the disk. After an error the old file is as it was. It is an
    /// error if the bytes of that have another SHA-256 digest, or it was changed otherwise.
    pub(crate) fn settle(self, digest: [u8; 32]) -> Result<(), ReplaceError> {
        self.new.sync()?;
        let has_old_bytes = digest_of(self.rt, &self.old.file)? == digest;
        self.rename(has_old_bytes)
    }

    /// Writes the new bytes to it, and gives it the name of the old file. After an error the old file is as it was. It is an error
    /// if that has not the old bytes, or was changed otherwise, and if the new ones cannot be written.
    pub(crate) fn exchange(mut self, old: &[u8], new: &[u8]) -> Result<(), ReplaceError> {
        self.write_all(new)?;
        self.new.sync()?;
        let has_old_bytes = has_bytes(self.rt, &self.old.file, old)?;
        self.rename(has_old_bytes)
    }
}
