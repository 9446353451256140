//! Spans of nodes.
use anyhow::{Result, bail};
use fancy_syntax::error::Error;
use fancy_syntax::expr::Expr;
use fancy_syntax::span::Span;
use std::alloc::{AllocError, Global};

/// The spans, with spaces between.
fn line_of(alloc: Global, spans: &[Span]) -> Result<String, AllocError> {
    let mut line = String::new(alloc);
    for span in spans {
        if !line.is_empty() {
            line.push(' ')?;
        }
        line.push_str(format!(in alloc; "{}..{}", span.start, span.end)?.as_str())?;
    }
    Ok(line)
}

/// Whether the nodes of the pattern's tree have these spans, in preorder.
pub(crate) fn are_spans(alloc: Global, pattern: &str, flags: u32, expected: &str) -> Result<bool> {
    match Expr::parse_tree_with_spans(alloc, pattern, flags) {
        Ok((_, spans)) => Ok(line_of(alloc, &spans)?.as_str() == expected),
        Err(Error::OutOfMemory) => bail!("out of memory"),
        Err(Error::ParseError(..)) => Ok(false),
    }
}
