//! Walks over a tree.
use fancy_syntax::Expr;
use std::alloc::AllocError;

/// Adds the text of each literal, in the order of the pattern.
pub fn push_literals(tree: &Expr, text: &mut String) -> Result<(), AllocError> {
    if let Expr::Literal { val, .. } = tree {
        text.push_str(val.as_str())?;
    }
    for child in tree.children_iter() {
        push_literals(child, text)?;
    }
    Ok(())
}

/// Whether something below the top of the tree may be repeated without a bound.
pub fn repeats_without_bound(tree: &Expr) -> bool {
    tree.has_descendant(|below| matches!(below, Expr::Repeat { hi: usize::MAX, .. }))
}
