//! What is recorded about the positions of nodes, and of what no node has. A position is given as a reach.

use crate::trivium::TriviumKind;

/// What is recorded of the raw tree: its nodes, and after the nodes of an Alt its first bar.
#[derive(Clone, Copy)]
pub(crate) enum Recorded {
    /// A node.
    Node { start: usize, end: usize },
    /// The node of a capturing group without a name.
    Unnamed { start: usize, end: usize },
    /// The first bar of an Alt.
    Bar(FirstBar),
}

/// The first bar of a part.
#[derive(Clone, Copy)]
pub(crate) struct FirstBar {
    /// Where the branch after it begins.
    pub(crate) past: usize,
    /// How much is recorded of the branch before it.
    pub(crate) before: usize,
}

/// The condition of a conditional.
#[derive(Clone, Copy)]
pub(crate) struct ConditionPart {
    pub(crate) start: usize,
    /// Where its closing parenthesis begins.
    pub(crate) closing: usize,
    /// How many parts without a node are before the body.
    pub(crate) passed: usize,
}

/// An open atom, its open part, and the open branch of that part.
#[derive(Clone, Copy)]
pub(crate) struct Open {
    /// Where the atom begins, how much is recorded before its nodes, and how many parts without a node.
    pub(crate) start: usize,
    pub(crate) height: usize,
    pub(crate) passed: usize,
    /// Its condition, if it is a conditional and its body is open.
    pub(crate) condition: Option<ConditionPart>,
    /// Where the part begins, and how much is recorded before its nodes.
    pub(crate) part: usize,
    pub(crate) branches: usize,
    pub(crate) bar: Option<FirstBar>,
    /// The same for the branch.
    pub(crate) branch: usize,
    pub(crate) pieces: usize,
}

/// A piece: where it begins, and how much is recorded before its nodes.
#[derive(Clone, Copy)]
pub(crate) struct LastPiece {
    pub(crate) start: usize,
    pub(crate) height: usize,
}

/// A part of the pattern that has no node, or may have none.
#[derive(Clone, Copy)]
pub(crate) struct RecordedTrivium {
    pub(crate) start: usize,
    pub(crate) end: usize,
    pub(crate) kind: TriviumKind,
    /// Whether it is a parenthesis of a capturing group without a name, which has a node unless only named groups have a
    /// number.
    pub(crate) unnamed: bool,
}
