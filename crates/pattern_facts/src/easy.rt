//! Whether the original's engine can hand a node on to an engine that never backtracks.
ghost use Rattle.std.specs.Prelude.{◌≡◌, true};
ghost use Rattle.fancy_grammar.specs.Tree.{is_leaf, trees_of};
ghost use Rattle.fancy_syntax.specs.Shape.{label_of};
ghost use Rattle.fancy_syntax.specs.View.{view, views};
ghost use Rattle.pattern_facts.specs.Easy as spec;

use fancy_syntax::expr::{Assertion, Expr, Shape, Wrap};

/// Whether the leaf is easy.
fn is_easy_leaf(node: &Expr) -> bool
    requires { is_leaf (view node.now) ≡ true }
    ensures { result ≡ spec.is_easy (view node.now) }
{
    if let Expr::Assertion(assertion) = node {
        return !matches!(assertion, Assertion::EndTextIgnoreTrailingNewlines { .. });
    }
    matches!(
        node,
        Expr::Empty | Expr::Any { .. } | Expr::Literal { .. } | Expr::Delegate { .. }
    )
}

/// Whether a node over one child is easy if the child is.
fn is_easy_wrap(wrap: Wrap) -> bool
    ensures { result ≡ spec.is_easy_wrap (label_of wrap) }
{
    matches!(wrap, Wrap::Group | Wrap::Repeat { .. })
}

/// Whether all of the trees are easy.
#[cycle(easy)]
fn are_easy(trees: &[Expr]) -> bool
    ensures { result ≡ spec.are_easy (trees_of (views trees.now)) }
{
    for tree in trees {
        if !is_easy_tree(tree) {
            return false;
        }
    }
    true
}

/// Whether the tree is easy.
#[cycle(easy)]
fn is_easy_tree(tree: &Expr) -> bool
    ensures { result ≡ spec.is_easy (view tree.now) }
{
    match tree.shape() {
        Shape::Leaf => is_easy_leaf(tree),
        Shape::Around(wrap, child) => is_easy_wrap(wrap) && is_easy_tree(child),
        Shape::Concat(trees) => are_easy(trees),
        Shape::Alt(trees) => are_easy(trees),
        Shape::Conditional { .. } | Shape::Expression { .. } => false,
    }
}

/// Returns whether the original's engine can hand the tree on to an engine that never backtracks: each node is empty, a
/// dot, a literal, a class, an assertion other than `\Z`, a capturing group, a repeat, a concatenation or an alternation.
/// So there is no look-around, reference or call, atomic group, possessive quantifier, conditional, `\K`, `\G`, `\R`,
/// byte, verb or absent form. Such an engine may still refuse the tree, for example for its size.
///
/// ```rust
/// if is_easy(&tree.expr) { /* one automaton */ } // `(a|b)*c` is, `(a)\1` and `a++` are not
/// ```
pub fn is_easy(tree: &Expr) -> bool
    ensures { result ≡ spec.is_easy (view tree.now) }
{
    is_easy_tree(tree)
}
