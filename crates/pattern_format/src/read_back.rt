//! Texts that are read again.
ghost use Rattle.std.specs.Prelude.{◌≡◌, map, IfOk, IsTrue};
ghost use Rattle.fancy_lex.specs.Flags.{flags_of};
ghost use Rattle.fancy_syntax.specs.InfoViews.{info_of};
ghost use Rattle.fancy_syntax.specs.TriviaViews.{trivia_of};
ghost use Rattle.fancy_syntax.specs.View.{view};
ghost use Rattle.pattern_format.specs.Formatted as spec;
ghost use Rattle.pattern_format.specs.Formatted.{ReadsBack};

use crate::comments::{comments_of, has_comments};
use crate::style::Style;
use fancy_lex::error::Error;
use fancy_syntax::expr::Expr;
use fancy_syntax::spanned::SpannedTree;
use fancy_syntax::tree::ExprTree;
use std::alloc::{AllocError, Global};

/// The tree, without its spans and what no node has.
pub(crate) fn tree_of(parsed: SpannedTree) -> ExprTree
    ensures { result ≡ parsed.tree }
{
    parsed.tree
}

/// Whether the text is parsed as the tree, but for positions, and has these comments, as the style keeps them, those
/// inside tokens too.
pub(crate) fn reads_back_as(
    alloc: Global,
    tree: &ExprTree,
    comments: &[&str],
    text: &str,
    flags: u32,
    style: Style,
) -> Result<bool, AllocError>
    ensures { IfOk result (λ b. IsTrue b → ReadsBack style (flags_of flags) text.now (view tree.now.expr)
        (info_of tree.now) (map (λ t. t.now) comments.now)) }
{
    let (new, _, trivia) = match Expr::parse_tree_with_trivia(alloc, text, flags) {
        Ok(read) => read,
        Err(Error::ParseError(..)) => return Ok(false),
        Err(Error::OutOfMemory) => return Err(AllocError),
    };
    if !tree.is_same_but_for_positions(&new) {
        return Ok(false);
    }
    let is_same = has_comments(alloc, comments, text, &trivia, style)?;
    Ok(is_same)
}

/// Whether the text is parsed as the pattern is, but for positions, and has its comments.
pub(crate) fn reads_back(
    alloc: Global,
    pattern: &str,
    parsed: &SpannedTree,
    text: &str,
    flags: u32,
    style: Style,
) -> Result<bool, AllocError>
    ensures { IfOk result (λ b. IsTrue b → ReadsBack style (flags_of flags) text.now (view parsed.now.tree.expr)
        (info_of parsed.now.tree) (spec.comments style pattern.now (trivia_of parsed.now.trivia))) }
{
    let Some(comments) = comments_of(alloc, pattern, &parsed.trivia, style)? else {
        return Ok(false);
    };
    let is_same = reads_back_as(alloc, &parsed.tree, &comments, text, flags, style)?;
    Ok(is_same)
}
