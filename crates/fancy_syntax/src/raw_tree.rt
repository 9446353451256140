//! What the grammar returns for a text: its raw tree, and the groups in it.
use crate::expr::Expr;
use fancy_grammar::ranks::Groups;

/// The raw tree of a text, and what was found of its groups and references.
#[derive(Drop)]
pub(crate) struct RawTree {
    /// The tree. A capturing group is a `Group`, or if it was undecided whether it has a number, an `AstNode` with the
    /// reach of its parenthesis.
    pub(crate) expr: Expr,
    /// The groups that have a number.
    pub(crate) groups: Groups,
    /// Whether groups without a name have no number.
    pub(crate) named: bool,
    /// Whether there is an `AstNode` to resolve: a reference, or a group that was undecided.
    pub(crate) unresolved: bool,
}
