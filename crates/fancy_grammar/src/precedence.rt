//! Which part of a pattern the text of a tree is.

/// The part of a pattern that a text has to be.
#[derive(Clone, Copy)]
pub enum Precedence {
    /// The whole pattern, or the whole contents of a group.
    Whole,
    /// A branch of an alternation.
    Branch,
    /// A piece of a branch.
    Piece,
    /// The operand of a quantifier, and how many more quantifiers may come before that one.
    Operand(usize),
}
