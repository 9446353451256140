//! Whether a tree's text is read back as its normal form, if fewer than 64 printed groups nest.
ghost use Rattle.std.specs.Prelude.{◌≡◌, true, false, IfOk, IsOk};
ghost use Rattle.fancy_grammar.specs.HasDelegate.{has_delegate, any_has_delegate};
ghost use Rattle.fancy_grammar.specs.Join.{is_empty, join};
ghost use Rattle.fancy_grammar.specs.Normal.{normal, normal_pieces};
ghost use Rattle.fancy_grammar.specs.Printable as spec;
ghost use Rattle.fancy_grammar.specs.Tree as tree;
ghost use Rattle.fancy_grammar.specs.Tree.{is_leaf, over, trees_of};
ghost use Rattle.fancy_syntax.specs.Shape.{label_of};
ghost use Rattle.fancy_syntax.specs.View.{view, views};

use crate::expr::{Expr, Shape, Wrap};
use crate::print::delegate::is_whole;
use fancy_lex::escape::Assertion;
use fancy_lex::text::next;
use std::alloc::{AllocError, Global};

/// Whether the tree is printable.
#[cycle(printable)]
pub(crate) fn is_printable(alloc: Global, tree: &Expr) -> Result<bool, AllocError>
    ensures exact { IfOk result (λ b. b ≡ spec.printable (view tree.now)) }
    ensures without_memory { has_delegate (view tree.now) ≡ false → IsOk result }
{
    match tree.shape() {
        Shape::Leaf => is_printable_leaf(alloc, tree),
        Shape::Around(wrap, child) => is_printable_around(alloc, wrap, child),
        Shape::Concat(trees) | Shape::Alt(trees) => are_printable(alloc, trees),
        Shape::Conditional { .. } | Shape::Expression { .. } => Ok(false),
    }
}

/// Whether the leaf is printable.
fn is_printable_leaf(alloc: Global, leaf: &Expr) -> Result<bool, AllocError>
    ensures exact { is_leaf (view leaf.now) ≡ true → IfOk result (λ b. b ≡ spec.printable (view leaf.now)) }
    ensures without_memory { has_delegate (view leaf.now) ≡ false → IsOk result }
{
    if let Expr::Delegate { inner, .. } = leaf {
        return is_whole(alloc, inner.as_str());
    }
    if let Expr::Assertion(assertion) = leaf {
        return Ok(has_text(*assertion));
    }
    if let Expr::Literal { .. } = leaf {
        return Ok(true);
    }
    Ok(matches!(leaf, Expr::Empty | Expr::Any { .. }))
}

/// Whether the node around this child is printable.
#[cycle(printable)]
fn is_printable_around(alloc: Global, wrap: Wrap, child: &Expr) -> Result<bool, AllocError>
    ensures exact { IfOk result (λ b. b ≡ spec.printable (over (label_of wrap) (view child.now))) }
    ensures without_memory { has_delegate (over (label_of wrap) (view child.now)) ≡ false → IsOk result }
{
    match wrap {
        Wrap::Group => is_printable(alloc, child),
        Wrap::Repeat { lo, hi, .. } => {
            // Once read, they are known to be counts.
            let _counts = (lo, hi);
            Ok(!is_empty_in_normal_form(child) && is_printable(alloc, child)?)
        }
        Wrap::DefineGroup => Ok(true),
        Wrap::LookAround(_) | Wrap::AtomicGroup | Wrap::Repeater | Wrap::Stopper => Ok(false),
    }
}

/// Whether each tree is printable.
#[cycle(printable)]
fn are_printable(alloc: Global, trees: &[Expr]) -> Result<bool, AllocError>
    ensures exact { IfOk result (λ b. b ≡ spec.all_printable (trees_of (views trees.now))) }
    ensures without_memory { any_has_delegate (trees_of (views trees.now)) ≡ false → IsOk result }
{
    for tree in trees {
        if !is_printable(alloc, tree)? {
            return Ok(false);
        }
    }
    Ok(true)
}

/// Whether the assertion has a text.
fn has_text(assertion: Assertion) -> bool
    ensures { result ≡ spec.printable (tree.assertion assertion) }
{
    !matches!(assertion, Assertion::EndTextIgnoreTrailingNewlines { .. })
}

/// Whether the tree's normal form is Empty. It does not look into a Group or a Repeat, so that `is_printable`, which
/// calls it on the child of each Repeat, visits no node more than twice.
#[cycle(normal)]
fn is_empty_in_normal_form(tree: &Expr) -> bool
    ensures { result ≡ is_empty (normal false (view tree.now)) }
{
    match tree.shape() {
        Shape::Leaf => is_empty_leaf(tree),
        Shape::Around(wrap, _) => matches!(wrap, Wrap::DefineGroup),
        Shape::Concat(trees) => are_empty_in_normal_form(trees),
        Shape::Alt(trees) => match trees {
            [] => true,
            [only] => is_empty_in_normal_form(only),
            _ => false,
        },
        Shape::Conditional { .. } | Shape::Expression { .. } => false,
    }
}

/// Whether the normal form of the leaf is Empty.
fn is_empty_leaf(leaf: &Expr) -> bool
    ensures { is_leaf (view leaf.now) ≡ true → result ≡ is_empty (normal false (view leaf.now)) }
{
    if let Expr::Literal { val, .. } = leaf {
        return next(val.as_str()).is_none();
    }
    matches!(leaf, Expr::Empty)
}

/// Whether the normal form of the trees, one after the other, is Empty.
#[cycle(normal)]
fn are_empty_in_normal_form(trees: &[Expr]) -> bool
    ensures { result ≡ is_empty (join (normal_pieces false (trees_of (views trees.now)))) }
{
    for tree in trees {
        if !is_empty_in_normal_form(tree) {
            return false;
        }
    }
    true
}
