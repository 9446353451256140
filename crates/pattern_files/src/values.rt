//! Patterns that are texts in a file of JSON.
pub mod keys;
mod nesting;
pub(crate) mod open_rules;
pub(crate) mod refusal;
mod strings;
pub(crate) mod trail;

use crate::entry::UnreadReason;
use crate::lines::BOM;
use crate::values::refusal::refusal_of;
use json::{MAX_LEN, Scratch, is_valid};
use std::alloc::{AllocError, Global};
use std::str;

/// Why a text is not read as JSON, if it is not: a file, or the line of this number.
pub(crate) fn json_problem(
    alloc: Global,
    text: &str,
    line: Option<u64>,
) -> Result<Option<UnreadReason>, AllocError> {
    if text.len() > MAX_LEN {
        return Ok(Some(UnreadReason::TooLong));
    }
    let mut scratch = Scratch::new(alloc);
    if is_valid(text, &mut scratch)? {
        return Ok(None);
    }
    Ok(Some(UnreadReason::NotJson(refusal_of(alloc, text, line)?)))
}

/// The text of a file of JSON, without a byte order mark; or why it is not read.
pub(crate) fn json_text(
    alloc: Global,
    bytes: &[u8],
) -> Result<Result<&str, UnreadReason>, AllocError> {
    let bytes = bytes.strip_prefix(BOM).unwrap_or(bytes);
    let text = match str::from_utf8(bytes) {
        Ok(text) => text,
        Err(error) => return Ok(Err(UnreadReason::not_text(bytes, error.valid_up_to()))),
    };
    Ok(match json_problem(alloc, text, None)? {
        Some(reason) => Err(reason),
        None => Ok(text),
    })
}
