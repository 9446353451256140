//! Whether the references of a tree refer to groups that it has.
ghost use Rattle.std.specs.Prelude.{◌≡◌};
ghost use Rattle.fancy_grammar.specs.References as spec;
ghost use Rattle.fancy_syntax.specs.View.{view};

use super::ExprTree;
use crate::expr::Expr;

/// Whether the node is no reference, or refers to one of this many groups or to the whole pattern.
fn is_resolved(node: &Expr, groups: usize) -> bool
    ensures { result ≡ spec.is_resolved groups (view node.now) }
{
    if let Expr::Backref { group, .. }
    | Expr::BackrefWithRelativeRecursionLevel { group, .. }
    | Expr::BackrefExistsCondition { group, .. }
    | Expr::SubroutineCall(group) = node
    {
        return *group <= groups;
    }
    !matches!(node, Expr::AstNode(..))
}

/// Whether this is so for each node of the tree.
fn are_resolved(tree: &Expr, groups: usize) -> bool
    ensures { result ≡ spec.are_resolved groups (view tree.now) }
{
    if !is_resolved(tree, groups) {
        return false;
    }
    let mut children = tree.children_iter();
    while let Some(child) = children.next() {
        if !are_resolved(child, groups) {
            return false;
        }
    }
    true
}

impl ExprTree {
    /// Returns whether each reference of the tree refers to a group, or to the whole pattern: no back reference,
    /// condition or call has a number above `total_groups`, and no node is an `AstNode`. It does not allocate, which is
    /// not part of the contract.
    ///
    /// ```rust
    /// let tree = Expr::parse_tree(alloc, r"(a)\2")?;
    /// let resolved = tree.is_resolved(); // false
    /// ```
    pub fn is_resolved(&self) -> bool
        ensures { result ≡ spec.are_resolved self.now.total_groups (view self.now.expr) }
    {
        are_resolved(&self.expr, self.total_groups)
    }
}
