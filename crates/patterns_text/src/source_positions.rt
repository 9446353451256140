//! Where the characters of a pattern are in the source that it was extracted from.
use crate::position::FilePosition;
use std::alloc::Global;

/// Where the characters of a pattern are in its source, as far as its record says.
#[derive(Drop)]
pub struct SourcePositions {
    /// Where the pattern begins.
    pub line: u64,
    pub column: u64,
    /// Whether the column is known.
    pub has_column: bool,
    /// The column of each character and of the end; nothing if they are not known.
    pub columns: Vec<u64>,
    /// Their lines; nothing if all are in the one where the pattern begins.
    pub lines: Vec<u64>,
}

impl SourcePositions {
    /// Those of a pattern of which no more is known than where it is.
    pub fn of(alloc: Global, line: u64, column: u64) -> SourcePositions {
        SourcePositions {
            line,
            column,
            has_column: false,
            columns: Vec::new(alloc),
            lines: Vec::new(alloc),
        }
    }

    /// Whether the position of each character of the pattern is known.
    pub fn are_known(&self, pattern: &str) -> bool {
        !self.columns.is_empty() || (self.has_column && !pattern.contains('\n'))
    }

    /// The line and the column of the character of this index, or of the end.
    fn of_character(&self, pattern: &str, index: usize) -> (u64, u64) {
        if let Some(column) = self.columns.get(index) {
            let line = self.lines.get(index).copied().unwrap_or(self.line);
            return (line, *column);
        }
        let passed = if self.are_known(pattern) { index } else { 0 };
        (self.line, self.column.saturating_add(passed as u64))
    }

    /// Where the character at a byte offset of the pattern is; of an offset past the end, where the pattern ends. If
    /// that is not known, where the pattern begins. Columns are characters.
    pub fn position(&self, pattern: &str, offset: usize) -> FilePosition {
        let (before, _) = pattern.split_at(pattern.floor_char_boundary(offset));
        let (line, column) = self.of_character(pattern, before.chars().count());
        FilePosition {
            line,
            column,
            character: column,
        }
    }
}
