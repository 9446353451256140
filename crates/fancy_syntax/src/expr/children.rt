//! The immediate children of a node.
ghost use Rattle.std.specs.Prelude.{◌≡◌, []};
ghost use Rattle.std.specs.Bool.{OnTrue};
ghost use Rattle.std.specs.Iterator.{YieldsFirstRef, item_count};
ghost use Rattle.fancy_syntax.specs.Children.{children_of, remaining_children};
ghost use Rattle.fancy_grammar.specs.Tree.{children, is_leaf};
ghost use Rattle.fancy_syntax.specs.View.{view, views};

use super::{Expr, Shape};
use std::slice;

impl Expr {
    /// Returns whether the node is of a kind that never has children: `Absent::Clear` is, an empty `Concat` is not, and
    /// every `AstNode` is.
    pub fn is_leaf_node(&self) -> bool
        ensures value { result ≡ is_leaf (view self.now) }
        ensures childless { OnTrue result (children (view self.now) ≡ []) }
    {
        matches!(self.shape(), Shape::Leaf)
    }

    /// Returns an iterator over the immediate children, in the order of the text: for a `Conditional` the condition and
    /// the two branches, for an absent expression `absent` and `exp`. The contents of an `AstNode` are not its
    /// children. It does not allocate, which is not part of the contract.
    ///
    /// ```rust
    /// for child in tree.children_iter() {
    ///     visit(child);
    /// }
    /// ```
    #[tactic(auto, using(crate::proofs::ChildrenLemmas::leaf_children, crate::proofs::ChildrenLemmas::concat_children, crate::proofs::ChildrenLemmas::alt_children))]
    pub fn children_iter(&self) -> ExprChildrenIter<'_>
        ensures trees { views (remaining_children result) ≡ children (view self.now) }
        ensures values { remaining_children result ≡ children_of self.now }
    {
        match self.shape() {
            Shape::Leaf => ExprChildrenIter::Empty,
            Shape::Around(_, child) => ExprChildrenIter::Single(Some(child)),
            Shape::Concat(trees) => ExprChildrenIter::Vec(trees.iter()),
            Shape::Alt(trees) => ExprChildrenIter::Vec(trees.iter()),
            Shape::Conditional {
                condition,
                true_branch,
                false_branch,
            } => ExprChildrenIter::Triple {
                first: Some(condition),
                second: Some(true_branch),
                third: Some(false_branch),
            },
            Shape::Expression { absent, exp } => ExprChildrenIter::Triple {
                first: Some(absent),
                second: Some(exp),
                third: None,
            },
        }
    }
}

/// An iterator over the immediate children of a node, in the order of the text.
#[derive(Drop)]
pub enum ExprChildrenIter<'a> {
    /// No child.
    Empty,
    /// One child, until it is returned.
    Single(Option<&'a Expr>),
    /// The children of a list that are still to come.
    Vec(slice::Iter<'a, Expr>),
    /// Up to three children, each until it is returned.
    Triple {
        /// The first child.
        first: Option<&'a Expr>,
        /// The second child.
        second: Option<&'a Expr>,
        /// The third child.
        third: Option<&'a Expr>,
    },
}

impl<'a> Iterator for ExprChildrenIter<'a> {
    type Item = &'a Expr;

    ghost next_gives = { YieldsFirstRef remaining_children };

    ghost remaining = { item_count remaining_children };

    fn next(&mut self) -> Option<&'a Expr> {
        match self {
            ExprChildrenIter::Empty => None,
            ExprChildrenIter::Single(child) => child.take(),
            ExprChildrenIter::Vec(children) => children.next(),
            ExprChildrenIter::Triple { .. } => {
                if let ExprChildrenIter::Triple { first, .. } = self
                    && let Some(child) = first.take()
                {
                    return Some(child);
                }
                if let ExprChildrenIter::Triple { second, .. } = self
                    && let Some(child) = second.take()
                {
                    return Some(child);
                }
                if let ExprChildrenIter::Triple { third, .. } = self {
                    return third.take();
                }
                None
            }
        }
    }
}
