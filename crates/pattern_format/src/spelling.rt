//! The spelling of quantifiers and of flags.
use crate::token::is_blank;
use fancy_lex::flags::{Flag, Flags};
use std::alloc::{AllocError, Global};

/// The text without its blanks.
pub(crate) fn without_blanks(alloc: Global, text: &str) -> Result<String, AllocError> {
    let mut kept = String::with_capacity(alloc, text.len())?;
    for c in text.chars() {
        if !is_blank(c) {
            kept.push(c)?;
        }
    }
    Ok(kept)
}

/// The operator that has the counts in braces, given without them.
fn operator_of(counts: &str) -> Option<&'static str> {
    match counts {
        "0,1" | ",1" => Some("?"),
        "0," | "," => Some("*"),
        "1," => Some("+"),
        _ => None,
    }
}

/// Writes the counts, which are given without their braces, as an operator if that is allowed. Of equal counts one is
/// written.
fn push_counts(
    written: &mut String,
    counts: &str,
    allows_operator: bool,
) -> Result<(), AllocError> {
    if allows_operator && let Some(operator) = operator_of(counts) {
        return Ok(written.push_str(operator)?);
    }
    let count = match counts.split_once(',') {
        Some((low, high)) if low == high && !low.is_empty() => low,
        _ => counts,
    };
    written.push('{')?;
    written.push_str(count)?;
    written.push('}')?;
    Ok(())
}

/// The counts of a quantifier without blanks, and what is after their braces.
fn counts_of(compact: &str) -> Option<(&str, &str)> {
    compact.strip_prefix('{')?.split_once('}')
}

/// Whether an operator has the counts of a quantifier; None if it has no counts.
pub(crate) fn has_operator(alloc: Global, text: &str) -> Result<Option<bool>, AllocError> {
    let compact = without_blanks(alloc, text)?;
    let counts = counts_of(compact.as_str());
    Ok(counts.map(|(counts, _)| operator_of(counts).is_some()))
}

/// Writes a quantifier without blanks. Counts are written as an operator only if that is allowed.
pub(crate) fn push_quantifier(
    alloc: Global,
    written: &mut String,
    text: &str,
    allows_operator: bool,
) -> Result<(), AllocError> {
    let compact = without_blanks(alloc, text)?;
    let Some((counts, after)) = counts_of(compact.as_str()) else {
        return Ok(written.push_str(compact.as_str())?);
    };
    push_counts(written, counts, allows_operator)?;
    written.push_str(after)?;
    Ok(())
}

/// Whether it is the letter of a flag that is set.
fn has_flag(flags: Flags, letter: char) -> bool {
    match Flag::from_letter(letter) {
        Some(flag) => flags.get(flag),
        None => false,
    }
}

/// Writes each of the letters once whose flag the first flags lack and the others have.
fn push_letters(
    written: &mut String,
    letters: &str,
    without: Flags,
    with: Flags,
) -> Result<(), AllocError> {
    let start = written.len();
    for letter in letters.chars() {
        let is_new = match written.get(start..) {
            Some(text) => !text.contains(letter),
            None => true,
        };
        if is_new && has_flag(with, letter) && !has_flag(without, letter) {
            written.push(letter)?;
        }
    }
    Ok(())
}

/// Writes inline flags or the opening of a flag group, without blanks and without the letters that change nothing. Those
/// that stay keep their order.
pub(crate) fn push_flags(
    alloc: Global,
    written: &mut String,
    text: &str,
    before: Flags,
    after: Flags,
) -> Result<(), AllocError> {
    let compact = without_blanks(alloc, text)?;
    let Some(letters) = compact.strip_prefix("(?") else {
        return Ok(written.push_str(text)?);
    };
    let (set, cleared) = letters.split_once('-').unwrap_or((letters, ""));
    written.push_str("(?")?;
    push_letters(written, set, before, after)?;
    written.push('-')?;
    push_letters(written, cleared, after, before)?;
    if written.ends_with('-') {
        written.pop();
    }
    written.push(if compact.ends_with(':') { ':' } else { ')' })?;
    Ok(())
}
