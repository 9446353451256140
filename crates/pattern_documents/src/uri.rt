//! The files that URIs name.
use percent_encoding::{DecodeError, percent_decode_str};
use std::alloc::{AllocError, Global};

/// What the URI of a file of this machine begins with, before its path.
const FILE: &str = "file://";

/// The path of the file that the URI names; None if it names no file of this machine.
pub(crate) fn path_of(alloc: Global, uri: &str) -> Result<Option<String>, AllocError> {
    let Some(path) = uri.strip_prefix(FILE) else {
        return Ok(None);
    };
    if !path.starts_with('/') {
        return Ok(None);
    }
    match percent_decode_str(path).decode_utf8(alloc) {
        Ok(decoded) => Ok(Some(decoded.into_owned(alloc)?)),
        Err(DecodeError::OutOfMemory) => Err(AllocError),
        Err(_) => Ok(None),
    }
}
