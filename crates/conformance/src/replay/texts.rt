//! Texts that are written for trees.
use anyhow::{Result, bail};
use fancy_pattern::to_pattern;
use fancy_syntax::error::Error;
use fancy_syntax::expr::Expr;
use fancy_syntax::tree::ExprTree;
use std::alloc::Global;

/// The tree of a pattern, none where it is invalid.
pub(crate) fn tree_of(alloc: Global, pattern: &str, flags: u32) -> Result<Option<ExprTree>> {
    match Expr::parse_tree_with_flags(alloc, pattern, flags) {
        Ok(tree) => Ok(Some(tree)),
        Err(Error::OutOfMemory) => bail!("out of memory"),
        Err(Error::ParseError(..)) => Ok(None),
    }
}

/// Whether the tree has a text that parses back as the tree, except for positions, and the tree parsed back has the
/// same text.
pub(crate) fn is_written(alloc: Global, tree: &ExprTree, flags: u32) -> Result<bool> {
    let Some(text) = to_pattern(alloc, tree, flags)? else {
        return Ok(false);
    };
    let Some(again) = tree_of(alloc, text.as_str(), flags)? else {
        return Ok(false);
    };
    Ok(
        again.expr.is_same_but_for_positions(&tree.expr)
            && to_pattern(alloc, &again, flags)? == Some(text),
    )
}

/// Whether the pattern's tree is written as this text.
pub(crate) fn is_text(alloc: Global, pattern: &str, flags: u32, expected: &str) -> Result<bool> {
    let Some(tree) = tree_of(alloc, pattern, flags)? else {
        return Ok(false);
    };
    Ok(match to_pattern(alloc, &tree, flags)? {
        Some(text) => text.as_str() == expected,
        None => false,
    })
}
