//! Which parts of a pattern fancy-regex hands on to the crate regex, which never backtracks.
use fancy_syntax::expr::{Shape, Wrap};
use fancy_syntax::span::Span;
use fancy_syntax::spanned::SpannedNode;
use pattern_facts::is_easy;

/// Whether the node is the part, or has it in it.
fn has_part(node: SpannedNode<'_>, part: Span) -> bool {
    let span = node.span();
    span.start <= part.start && part.end <= span.end
}

/// Whether each child of the node from the part on is easy.
fn are_easy_from(node: SpannedNode<'_>, part: Span) -> bool {
    for child in node.children() {
        if part.start < child.span().end && !is_easy(child.expr()) {
            return false;
        }
    }
    true
}

/// Whether what is easy below the node, at the part, is handed on. `is_around` says whether the node would be if it were
/// easy.
fn is_handed_on_below(node: SpannedNode<'_>, part: Span, is_around: bool) -> bool {
    match node.expr().shape() {
        Shape::Around(Wrap::AtomicGroup | Wrap::LookAround(_), _) => true,
        Shape::Around(Wrap::Repeat { .. }, _) => is_around && is_easy(node.expr()),
        Shape::Concat(_) => is_around && are_easy_from(node, part),
        Shape::Around(Wrap::Group, _) | Shape::Alt(_) | Shape::Conditional { .. } | Shape::Leaf =>
            is_around,
        Shape::Around(Wrap::DefineGroup | Wrap::Repeater | Wrap::Stopper, _)
        | Shape::Expression { .. } => false,
    }
}

/// Whether fancy-regex hands on the part of the pattern that has these nodes, in preorder. It hands on what is easy, unless
/// something after it in a concatenation is not, up to the next atomic group or look-around that it is in; what a
/// quantifier repeats, only with the quantifier.
pub(crate) fn is_handed_on(nodes: &[SpannedNode<'_>], part: Span) -> bool {
    let mut is_handed_on = true;
    for node in nodes {
        if has_part(*node, part) {
            is_handed_on = is_handed_on_below(*node, part, is_handed_on);
        }
    }
    is_handed_on
}
