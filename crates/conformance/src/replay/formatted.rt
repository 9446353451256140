//! Formatted patterns.
use anyhow::{Result, bail};
use fancy_syntax::error::Error;
use pattern_format::extent::Extent;
use pattern_format::format::format_pattern;
use pattern_format::style::Style;
use std::alloc::Global;

/// Whether all of the pattern is formatted, as this text.
fn becomes(alloc: Global, pattern: &str, flags: u32, style: Style, expected: &str) -> Result<bool> {
    match format_pattern(alloc, pattern, flags, style) {
        Ok(formatted) => {
            let is_whole = matches!(formatted.extent, Extent::Lines | Extent::Whole);
            Ok(is_whole && formatted.text.as_str() == expected)
        }
        Err(Error::OutOfMemory) => bail!("out of memory"),
        Err(Error::ParseError(..)) => Ok(false),
    }
}

/// Whether the pattern is formatted as this text, and this text as itself.
pub(crate) fn is_formatted(
    alloc: Global,
    pattern: &str,
    flags: u32,
    style: Style,
    expected: &str,
) -> Result<bool> {
    Ok(
        becomes(alloc, pattern, flags, style, expected)?
            && becomes(alloc, expected, flags, style, expected)?,
    )
}
