//! How a position is shown.
use std::alloc::{AllocError, Global};

/// The column of a position, in characters from 1. At or past the end, the column after the last character.
pub fn column(pattern: &str, position: usize) -> usize {
    let before = pattern
        .char_indices()
        .take_while(|(start, _)| *start < position);
    before.count().saturating_add(1)
}

/// The pattern, and below it a caret under the position.
pub fn pointed(alloc: Global, pattern: &str, position: usize) -> Result<String, AllocError> {
    let column = column(pattern, position);
    format!(in alloc; "{pattern}\n{:>column$}", '^')
}
