//! How often a piece repeats.

/// The counts of a quantifier.
#[derive(Clone, Copy, PartialEq, Eq, Debug)]
pub struct Counts {
    /// The least count.
    pub low: usize,
    /// The greatest count; `usize::MAX` stands for no limit.
    pub high: usize,
    /// Whether the counts are in braces, and not written as an operator.
    pub braces: bool,
}
