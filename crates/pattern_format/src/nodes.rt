//! The nodes of a tree, as far as formatting needs them.
use fancy_syntax::expr::{Expr, Shape, Wrap};
use fancy_syntax::span::Span;
use fancy_syntax::spanned::{SpannedNode, SpannedTree};
use std::alloc::{AllocError, Global};

/// A node of a tree.
#[derive(Clone, Copy)]
pub(crate) struct Node {
    pub(crate) span: Span,
    pub(crate) is_leaf: bool,
    /// Whether it is a literal that ignores case.
    pub(crate) ignores_case: bool,
    /// Whether a flag group around it, and around nothing else, cannot be left out.
    pub(crate) needs_group: bool,
    /// Whether it is one of several branches.
    pub(crate) is_branch: bool,
}

/// Whether a group around the node cannot be left out where it is repeated.
fn needs_group_in_repeat(node: &Expr) -> bool {
    // An atomic group may be made by a quantifier. In the grammars of editors, a back reference may be replaced by a text of
    // several characters.
    matches!(
        node,
        Expr::Alt(_)
            | Expr::Concat(_)
            | Expr::Repeat { .. }
            | Expr::AtomicGroup(_)
            | Expr::Backref { .. }
    )
}

/// Whether a group around the child of the node cannot be left out. In a conditional or an absent form it always stays.
fn needs_group(node: &Expr, child: &Expr) -> bool {
    match node.shape() {
        Shape::Alt(_) => matches!(child, Expr::Alt(_)),
        Shape::Concat(_) => matches!(child, Expr::Alt(_) | Expr::Concat(_)),
        Shape::Around(Wrap::Repeat { .. }, _) => needs_group_in_repeat(child),
        Shape::Around(
            Wrap::Group | Wrap::LookAround(_) | Wrap::AtomicGroup | Wrap::DefineGroup,
            _,
        ) => false,
        Shape::Around(Wrap::Repeater | Wrap::Stopper, _)
        | Shape::Conditional { .. }
        | Shape::Expression { .. }
        | Shape::Leaf => true,
    }
}

/// Whether the children of the node are branches.
fn has_branches(node: &Expr) -> bool {
    matches!(node, Expr::Alt(_))
}

/// Adds the node and those below it.
fn push_nodes(
    nodes: &mut Vec<Node>,
    node: SpannedNode<'_>,
    needs_group_here: bool,
    is_branch: bool,
) -> Result<(), AllocError> {
    let expr = node.expr();
    let is_empty = matches!(expr, Expr::Empty);
    nodes.push(Node {
        span: node.span(),
        is_leaf: expr.is_leaf_node() && !is_empty,
        ignores_case: matches!(expr, Expr::Literal { casei: true, .. }),
        needs_group: needs_group_here || is_empty,
        is_branch,
    })?;
    for child in node.children() {
        push_nodes(
            nodes,
            child,
            needs_group(expr, child.expr()),
            has_branches(expr),
        )?;
    }
    Ok(())
}

/// The nodes of the tree of a pattern in preorder. A group around the whole pattern stays if one in a repeat would, since
/// programs put patterns together and repeat them.
pub(crate) fn nodes_of(alloc: Global, parsed: &SpannedTree) -> Result<Vec<Node>, AllocError> {
    let mut nodes = Vec::with_capacity(alloc, parsed.spans.len())?;
    let root = parsed.root();
    let needs_group_here = needs_group_in_repeat(root.expr());
    push_nodes(&mut nodes, root, needs_group_here, false)?;
    Ok(nodes)
}
