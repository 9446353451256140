//! The fields of a line, which tabs separate. Texts are in hexadecimal, `-` or nothing where empty.
use anyhow::Result;
use std::alloc::Global;
use std::str;

/// What is between the separators. `collect` would first try to allocate the expected capacity, and go on if that
/// fails; here each failed allocation is an error.
pub(crate) fn parts(alloc: Global, line: &str, separator: char) -> Result<Vec<&str>> {
    let mut parts = Vec::new(alloc);
    for part in line.split(separator) {
        parts.push(part)?;
    }
    Ok(parts)
}

/// The bytes of a field.
pub(crate) fn bytes(alloc: Global, field: &str) -> Result<Vec<u8>> {
    if field == "-" {
        return Ok(Vec::new(alloc));
    }
    Ok(hex::decode(alloc, field)?)
}

/// The text of a field.
pub(crate) fn text(alloc: Global, field: &str) -> Result<String> {
    let bytes = bytes(alloc, field)?;
    Ok(String::from_str(alloc, str::from_utf8(&bytes)?)?)
}
