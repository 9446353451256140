//! A first call.
use fancy_syntax::{Error, Expr, WHOLE};
use std::alloc::Global;

/// How many groups the pattern has, and its text as it prints; `None` for the text if its tree is not printable.
pub fn summary(alloc: Global, pattern: &str) -> Result<(usize, Option<String>), Error> {
    let tree = Expr::parse_tree(alloc, pattern)?;
    let text = tree.expr.print(alloc, WHOLE)?;
    Ok((tree.total_groups, text))
}
