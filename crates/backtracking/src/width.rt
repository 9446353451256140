//! How many characters a tree matches.
use crate::characters::is_one_character;
use fancy_syntax::expr::{Expr, Shape, Wrap};

/// How many characters the tree matches, if it is known that it always matches so many.
#[cycle(width_of)]
pub(crate) fn width_of(tree: &Expr) -> Option<usize> {
    if is_one_character(tree) {
        return Some(1);
    }
    if matches!(tree, Expr::Empty | Expr::Assertion(_) | Expr::KeepOut) {
        return Some(0);
    }
    match tree.shape() {
        Shape::Around(Wrap::Group | Wrap::AtomicGroup, child) => width_of(child),
        Shape::Around(Wrap::LookAround(_), _) => Some(0),
        Shape::Around(Wrap::Repeat { lo, hi, .. }, child) => {
            if lo == hi {
                width_of(child)?.checked_mul(lo)
            } else {
                None
            }
        }
        Shape::Concat(trees) => width_of_all(trees),
        Shape::Alt(branches) => common_width(branches),
        Shape::Around(Wrap::DefineGroup | Wrap::Repeater | Wrap::Stopper, _)
        | Shape::Conditional { .. }
        | Shape::Expression { .. }
        | Shape::Leaf => None,
    }
}

/// How many characters the trees match together.
#[cycle(width_of)]
fn width_of_all(trees: &[Expr]) -> Option<usize> {
    let mut width = 0usize;
    for tree in trees {
        width = width.checked_add(width_of(tree)?)?;
    }
    Some(width)
}

/// How many characters each of the trees matches, if it is the same for all.
#[cycle(width_of)]
fn common_width(trees: &[Expr]) -> Option<usize> {
    let mut common = None;
    for tree in trees {
        let width = width_of(tree)?;
        if common.is_some_and(|other| other != width) {
            return None;
        }
        common = Some(width);
    }
    common
}
