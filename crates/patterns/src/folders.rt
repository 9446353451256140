//! The folders of the system.
use crate::files::Host;
use pattern_files::sources::{EntryKind, Folders};
use std::fs::{metadata, read_dir, symlink_metadata};
use std::{fs, io};

impl Folders for Host<'_> {
    fn kind(&self, name: &str) -> EntryKind {
        let Ok(found) = metadata(self.rt, name) else {
            return EntryKind::File;
        };
        if found.is_file() {
            return EntryKind::File;
        }
        if !found.is_dir() {
            return EntryKind::Other;
        }
        match symlink_metadata(self.rt, name) {
            Ok(link) if link.is_symlink() => EntryKind::FolderLink,
            Ok(_) | Err(_) => EntryKind::Folder,
        }
    }

    fn entries(&self, folder: &str) -> io::Result<Vec<String>> {
        let mut names = Vec::new(self.rt.alloc());
        for entry in read_dir(self.rt, folder)? {
            let entry = entry?;
            names.push(String::from_str(self.rt.alloc(), entry.file_name())?)?;
        }
        Ok(names)
    }

    fn absolute(&self, folder: &str) -> io::Result<String> {
        Ok(fs::canonicalize(self.rt, folder)?.into_string())
    }
}
