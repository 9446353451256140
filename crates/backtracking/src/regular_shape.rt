//! What the searches go into at a node.
ghost use Rattle.fancy_grammar.specs.Tree.{atomic_group};
ghost use Rattle.fancy_syntax.specs.View.{view};
ghost use Rattle.backtracking.specs.RegularShape.{HasRegularShape};

use crate::characters::is_one_character;
use crate::passed::may_be_passed;
use fancy_syntax::expr::{Expr, Shape, Wrap};

/// What a node is to the searches. Each variant but the last has ways of its own.
#[derive(Clone, Copy)]
pub(crate) enum RegularShape<'a> {
    /// An `Empty`.
    Empty,
    /// A node that matches one character.
    Character,
    /// A node that is passed, as look-around or a reference: it is taken as empty.
    Passed,
    /// A `Group` of the child.
    Group(&'a Expr),
    /// A `Repeat` of the child, from `lo` to `hi` times.
    Repeat {
        child: &'a Expr,
        lo: usize,
        hi: usize,
    },
    /// An atomic group of a greedy repeat of the child, which matches one character, as `a++`.
    Possessive {
        child: &'a Expr,
        lo: usize,
        hi: usize,
    },
    /// The pieces of a `Concat`.
    Concat(&'a [Expr]),
    /// The branches of an `Alt`.
    Alt(&'a [Expr]),
    /// Any other node, as another atomic group or a call. No search goes into it.
    Irregular,
}

/// What an atomic group of the tree is to the searches.
fn shape_of_atomic(tree: &Expr) -> RegularShape<'_>
    ensures { HasRegularShape result (atomic_group (view tree.now)) }
{
    match tree.shape() {
        Shape::Around(Wrap::Repeat { lo, hi, greedy }, child) => {
            if greedy && is_one_character(child) {
                RegularShape::Possessive { child, lo, hi }
            } else {
                RegularShape::Irregular
            }
        }
        Shape::Around(
            Wrap::Group
            | Wrap::AtomicGroup
            | Wrap::LookAround(_)
            | Wrap::DefineGroup
            | Wrap::Repeater
            | Wrap::Stopper,
            _,
        )
        | Shape::Leaf
        | Shape::Concat(_)
        | Shape::Alt(_)
        | Shape::Conditional { .. }
        | Shape::Expression { .. } => RegularShape::Irregular,
    }
}

/// What the node is to the searches.
pub(crate) fn regular_shape(tree: &Expr) -> RegularShape<'_>
    ensures { HasRegularShape result (view tree.now) }
{
    match tree.shape() {
        Shape::Leaf => {
            if matches!(tree, Expr::Empty) {
                RegularShape::Empty
            } else if is_one_character(tree) {
                RegularShape::Character
            } else if may_be_passed(tree) {
                RegularShape::Passed
            } else {
                RegularShape::Irregular
            }
        }
        Shape::Around(Wrap::Group, child) => RegularShape::Group(child),
        Shape::Around(Wrap::Repeat { lo, hi, .. }, child) => {
            RegularShape::Repeat { child, lo, hi }
        }
        Shape::Concat(trees) => RegularShape::Concat(trees),
        Shape::Alt(branches) => RegularShape::Alt(branches),
        Shape::Around(Wrap::LookAround(_), _) | Shape::Conditional { .. } => RegularShape::Passed,
        Shape::Around(Wrap::AtomicGroup, child) => shape_of_atomic(child),
        Shape::Around(Wrap::DefineGroup | Wrap::Repeater | Wrap::Stopper, _)
        | Shape::Expression { .. } => RegularShape::Irregular,
    }
}
