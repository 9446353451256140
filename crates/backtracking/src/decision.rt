//! What a backtracking engine decides on its way through a part of a pattern.

/// A decision.
#[derive(Clone, Copy, PartialEq, Eq, Debug)]
pub enum Decision {
    /// The branch of an alternation at this index.
    Branch(usize),
    /// One more turn of a repeat.
    Again,
    /// No more turn of it.
    Done,
}
