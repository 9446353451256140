//! What is said of groups and references.
use fancy_syntax::{Expr, ExprTree};

/// The group that a reference by the name refers to: the last one of that name.
pub fn group_named(tree: &ExprTree, name: &str) -> Option<usize> {
    tree.named_groups.get(name)?.last().copied()
}

/// Whether the tree has a call that cannot be resolved.
pub fn calls_nothing(tree: &Expr) -> bool {
    is_unresolved(tree) || tree.has_descendant(is_unresolved)
}

fn is_unresolved(node: &Expr) -> bool {
    matches!(node, Expr::AstNode(..))
}
