//! How much of a pattern is formatted.

/// How much of a pattern is formatted. If the text with all changes does not read back as the pattern, fewer are made.
#[derive(Clone, Copy, PartialEq, Eq, Debug)]
pub enum Extent {
    /// All of it, and its lines are new.
    Lines,
    /// All of it, and its lines stay.
    Whole,
    /// Quantifiers, flags and blanks. No group, comment or flag setting is left out.
    Spelling,
    /// Only its blanks.
    Blanks,
    /// Nothing: the pattern stays as it is.
    Nothing,
}
