//! A rule of a linter, which says where a node is.
use fancy_syntax::Expr;
use fancy_syntax::spanned::SpannedNode;
use std::alloc::{AllocError, Global};

/// Adds a line for each unbounded repeat inside another one, with its byte offset and its text.
pub fn push_nested_repeats(
    alloc: Global,
    lines: &mut String,
    pattern: &str,
    node: SpannedNode<'_>,
    repeated: bool,
) -> Result<(), AllocError> {
    let unbounded = matches!(node.expr(), Expr::Repeat { hi: usize::MAX, .. });
    if repeated
        && unbounded
        && let Some(text) = node.text(pattern)
    {
        let start = node.span().start;
        lines.push_str(format!(in alloc; "byte {start}: {text} is in a repeat\n")?.as_str())?;
    }
    for child in node.children() {
        push_nested_repeats(alloc, lines, pattern, child, repeated || unbounded)?;
    }
    Ok(())
}
