//! The new file that takes the place of an old one. A run holds its lock as long as it has the name, so that what a killed run
//! left is known from what another run is writing.
use pattern_files::sources::ReplaceError;
use std::fs::{File, Metadata, OpenOptions, Permissions, TryLockError};
use std::io::{ErrorKind, Write};
use std::os::unix::fs::{MetadataExt, OpenOptionsExt, PermissionsExt, fchown};
use std::{fs, io};

/// What is added to the name of the old file.
const SUFFIX: &str = ".patterns.tmp";

/// The permissions that a new file may have: set-user-ID and set-group-ID are not among them.
const MAX_MODE: u32 = 0o777;

/// The permissions of a new file before it has an owner.
const FIRST_MODE: u32 = 0o600;

/// The new file, whose lock is held. If it is dropped, it is removed.
pub(crate) struct NewFile<'a> {
    rt: &'a HostRuntime,
    name: String,
    file: File,
}

/// The name of the new file for the one at the path.
fn new_name(rt: &HostRuntime, path: &str) -> io::Result<String> {
    Ok(format!(in rt.alloc(); "{path}{SUFFIX}")?)
}

/// Takes the lock of the file; an error if another run holds it.
fn lock(file: &File) -> Result<(), ReplaceError> {
    match file.try_lock() {
        Ok(()) => Ok(()),
        Err(TryLockError::WouldBlock) => Err(ReplaceError::Busy),
        Err(TryLockError::Error(error)) => Err(ReplaceError::from(error)),
    }
}

/// Whether the name is that of the file.
fn is_named(rt: &HostRuntime, file: &File, name: &str) -> io::Result<bool> {
    let known = file.metadata()?;
    match fs::symlink_metadata(rt, name) {
        Ok(found) => Ok(found.dev() == known.dev() && found.ino() == known.ino()),
        Err(error) if error.kind() == ErrorKind::NotFound => Ok(false),
        Err(error) => Err(error),
    }
}

/// Creates the file of this name; none if there is one.
fn create_new(rt: &HostRuntime, name: &str) -> io::Result<Option<File>> {
    let created = OpenOptions::new()
        .write(true)
        .create_new(true)
        .mode(FIRST_MODE)
        .open(rt, name);
    match created {
        Ok(file) => Ok(Some(file)),
        Err(error) if error.kind() == ErrorKind::AlreadyExists => Ok(None),
        Err(error) => Err(error),
    }
}

/// Removes the file of this name that a killed run left; an error if a run is writing it, or it is no regular file.
fn remove_stale(rt: &HostRuntime, name: &str) -> Result<(), ReplaceError> {
    // A pipe is not opened: that would wait for a reader.
    if !fs::symlink_metadata(rt, name)?.is_file() {
        return Err(ReplaceError::from(io::Error::from(ErrorKind::AlreadyExists)));
    }
    let stale = OpenOptions::new().write(true).open(rt, name)?;
    lock(&stale)?;
    if !is_named(rt, &stale, name)? {
        return Err(ReplaceError::Busy);
    }
    Ok(fs::remove_file(rt, name)?)
}

/// The new file of this name, which is created. What a killed run left there is removed.
fn create(rt: &HostRuntime, name: &str) -> Result<File, ReplaceError> {
    if let Some(file) = create_new(rt, name)? {
        return Ok(file);
    }
    remove_stale(rt, name)?;
    create_new(rt, name)?.ok_or(ReplaceError::Busy)
}

/// Takes the lock of the file of this name; an error if another run took it for a file that was left, and removes it.
fn hold(rt: &HostRuntime, file: &File, name: &str) -> Result<(), ReplaceError> {
    lock(file)?;
    if !is_named(rt, file, name)? {
        return Err(ReplaceError::Busy);
    }
    Ok(())
}

/// Gives the file the owner and the group of the old one; an error if that is not allowed.
fn keep_owner(file: &File, old: &Metadata) -> Result<(), ReplaceError> {
    let new = file.metadata()?;
    if new.uid() == old.uid() && new.gid() == old.gid() {
        return Ok(());
    }
    match fchown(file, Some(old.uid()), Some(old.gid())) {
        Ok(()) => Ok(()),
        Err(error) if error.kind() == ErrorKind::PermissionDenied => Err(ReplaceError::Owner),
        Err(error) => Err(ReplaceError::from(error)),
    }
}

impl<'a> NewFile<'a> {
    /// Creates the new file for the one at the path, empty and for this user only, and takes its lock.
    pub(crate) fn create(rt: &'a HostRuntime, path: &str) -> Result<NewFile<'a>, ReplaceError> {
        let name = new_name(rt, path)?;
        let file = create(rt, name.as_str())?;
        let held = hold(rt, &file, name.as_str());
        if let Err(ReplaceError::Busy) = held {
            // The name is that of the other run's file.
            return Err(ReplaceError::Busy);
        }
        let new = NewFile { rt, name, file };
        held?;
        Ok(new)
    }

    /// Gives it the owner, the group and the permissions of the old file.
    pub(crate) fn prepare(&self, old: &Metadata) -> Result<(), ReplaceError> {
        // The owner comes first: permissions are for the owner and the group that the file then has.
        keep_owner(&self.file, old)?;
        self.file
            .set_permissions(Permissions::from_mode(old.mode() & MAX_MODE))?;
        Ok(())
    }

    /// Sees that its bytes are on the disk.
    pub(crate) fn sync(&self) -> io::Result<()> {
        self.file.sync_all()
    }

    /// Gives it the name of the old file.
    pub(crate) fn rename(self, path: &str) -> io::Result<()> {
        fs::rename(self.rt, self.name.as_str(), path)?;
        // It is not dropped: its first name may be that of another run's file by now.
        let NewFile {
            rt: _,
            name: _,
            file: _,
        } = self;
        Ok(())
    }
}

impl Write for NewFile<'_> {
    fn write(&mut self, bytes: &[u8]) -> io::Result<usize> {
        (&self.file).write(bytes)
    }

    fn flush(&mut self) -> io::Result<()> {
        (&self.file).flush()
    }
}

impl Drop for NewFile<'_> {
    fn drop(self) {
        let _ = fs::remove_file(self.rt, self.name.as_str());
        let NewFile {
            rt: _,
            name: _,
            file: _,
        } = self;
    }
}
