//! Patterns formatted, and read again.
ghost use Rattle.std.specs.Prelude.{◌≡◌, chars, map, string_bytes, IfErr, IfOk, IfSome};
ghost use Rattle.fancy_lex.specs.Flags.{flags_of};
ghost use Rattle.fancy_grammar.specs.ParseResult.{IsTreeOf};
ghost use Rattle.fancy_grammar.specs.Promises.{IsParseError};
ghost use Rattle.fancy_syntax.specs.InfoViews.{info_of};
ghost use Rattle.fancy_syntax.specs.TriviaViews.{trivia_of};
ghost use Rattle.fancy_syntax.specs.View.{view};
ghost use Rattle.pattern_format.specs.Formatted.{IsFormatted, ReadsBack, comments};

use crate::comments::comments_of;
use crate::compact::in_line;
use crate::cut::tokens_of;
use crate::extent::Extent;
use crate::kept_counts::stable_text_of;
use crate::read_back::{reads_back, reads_back_as, tree_of};
use crate::style::Style;
use crate::verbose::laid_out;
use fancy_lex::error::Result;
use fancy_syntax::expr::Expr;
use fancy_syntax::spanned::SpannedTree;
use fancy_syntax::tree::ExprTree;
use std::alloc::{AllocError, Global};

/// How many bytes a pattern has at least whose tree is dropped before it is laid out, and is parsed again.
const LARGE: usize = 65_536;

/// The text of a formatted pattern.
#[derive(Debug, Drop)]
pub struct Formatted {
    /// The text.
    pub text: String,
    /// How much of the pattern is formatted.
    pub extent: Extent,
}

/// The pattern formatted to the greatest extent with which it reads back, its lines kept; None if there is no such extent.
fn most_formatted(
    alloc: Global,
    pattern: &str,
    parsed: &SpannedTree,
    flags: u32,
    style: Style,
) -> std::result::Result<Option<Formatted>, AllocError>
    ensures { IfOk result (λ o. IfSome o (λ formatted. ReadsBack style (flags_of flags) (string_bytes formatted.text)
        (view parsed.now.tree.expr) (info_of parsed.now.tree)
        (comments style pattern.now (trivia_of parsed.now.trivia)))) }
{
    let tokens = tokens_of(alloc, pattern, parsed, true)?;
    for extent in &[Extent::Whole, Extent::Spelling, Extent::Blanks] {
        let extent = *extent;
        let text = stable_text_of(alloc, &tokens, extent, flags)?;
        if reads_back(alloc, pattern, parsed, text.as_str(), flags, style)? {
            return Ok(Some(Formatted { text, extent }));
        }
    }
    Ok(None)
}

/// Whether the style keeps the lines of the text, as `Verbose` does if the text is one line and fits.
fn keeps_lines(text: &str, style: Style) -> bool {
    match style {
        Style::Kept => true,
        Style::Verbose { width } => {
            let line = text.strip_suffix('\n').unwrap_or(text);
            !line.contains('\n') && line.chars().count() <= width
        }
        Style::Compact => false,
    }
}

/// The text in the lines of the style; None if the style keeps those that it has, or if there is no such text.
fn in_lines_of(
    alloc: Global,
    text: &str,
    flags: u32,
    style: Style,
) -> std::result::Result<Option<String>, AllocError> {
    if keeps_lines(text, style) {
        return Ok(None);
    }
    match style {
        Style::Kept => Ok(None),
        Style::Verbose { width } => laid_out(alloc, text, flags, width),
        Style::Compact => in_line(alloc, text, flags),
    }
}

/// A text laid out in the style, if that changes its lines, and if it reads back as the pattern.
fn styled(
    alloc: Global,
    pattern: &str,
    parsed: &SpannedTree,
    text: &str,
    flags: u32,
    style: Style,
) -> std::result::Result<Option<Formatted>, AllocError>
    ensures { IfOk result (λ o. IfSome o (λ formatted. ReadsBack style (flags_of flags) (string_bytes formatted.text)
        (view parsed.now.tree.expr) (info_of parsed.now.tree)
        (comments style pattern.now (trivia_of parsed.now.trivia)))) }
{
    let Some(text) = in_lines_of(alloc, text, flags, style)? else {
        return Ok(None);
    };
    if !reads_back(alloc, pattern, parsed, text.as_str(), flags, style)? {
        return Ok(None);
    }
    Ok(Some(Formatted {
        text,
        extent: Extent::Lines,
    }))
}

/// The text with all changes, if the style keeps its lines.
fn text_in_kept_lines(
    alloc: Global,
    pattern: &str,
    parsed: &SpannedTree,
    flags: u32,
    style: Style,
) -> std::result::Result<Option<Formatted>, AllocError> {
    if style == Style::Compact {
        return Ok(None);
    }
    let tokens = tokens_of(alloc, pattern, parsed, true)?;
    let extent = Extent::Whole;
    let text = stable_text_of(alloc, &tokens, extent, flags)?;
    Ok(keeps_lines(text.as_str(), style).then_some(Formatted { text, extent }))
}

/// The text with new lines; None if it cannot be laid out so.
fn text_in_new_lines(
    alloc: Global,
    pattern: &str,
    flags: u32,
    style: Style,
) -> std::result::Result<Option<Formatted>, AllocError> {
    let extent = Extent::Lines;
    let text = in_lines_of(alloc, pattern, flags, style)?;
    Ok(text.map(|text| Formatted { text, extent }))
}

/// The tree of a pattern that is not large, without what else there is of it.
fn small_tree(pattern: &str, parsed: SpannedTree) -> Option<ExprTree>
    ensures { IfSome result (λ tree. tree ≡ parsed.tree) }
{
    if pattern.len() < LARGE {
        Some(tree_of(parsed))
    } else {
        None
    }
}

/// The tree of the pattern, which is parsed again if there is none.
fn tree_again(alloc: Global, pattern: &str, tree: Option<ExprTree>, flags: u32) -> Result<ExprTree>
    ensures tree { IfSome tree (λ t. IsTreeOf (flags_of flags) (chars pattern.now) (view t.expr) (info_of t)) →
        IfOk result (λ t. IsTreeOf (flags_of flags) (chars pattern.now) (view t.expr) (info_of t)) }
    ensures error { IfErr result (λ e. IsParseError (flags_of flags) pattern.now e) }
{
    match tree {
        Some(tree) => Ok(tree),
        None => Expr::parse_tree_with_flags(alloc, pattern, flags),
    }
}

/// The formatted text, if it is parsed as the tree, but for positions, and has these comments.
fn if_read_back(
    alloc: Global,
    tree: &ExprTree,
    comments: &[&str],
    formatted: Formatted,
    flags: u32,
    style: Style,
) -> std::result::Result<Option<Formatted>, AllocError>
    ensures { IfOk result (λ o. IfSome o (λ formatted. ReadsBack style (flags_of flags) (string_bytes formatted.text)
        (view tree.now.expr) (info_of tree.now) (map (λ t. t.now) comments.now))) }
{
    if !reads_back_as(alloc, tree, comments, formatted.text.as_str(), flags, style)? {
        return Ok(None);
    }
    Ok(Some(formatted))
}

/// The pattern with all changes, and with its lines new unless the style keeps them, if it reads back so; None if it cannot be laid
/// out so, or reads otherwise. What is not needed any more of the pattern's tree is dropped before another one is made, and of a
/// large pattern, whose lines are new, all.
fn first_formatted(
    alloc: Global,
    pattern: &str,
    flags: u32,
    style: Style,
) -> Result<Option<Formatted>>
    ensures formatted { IfOk result (λ o. IfSome o (λ formatted.
        IsFormatted style (flags_of flags) pattern.now (string_bytes formatted.text))) }
    ensures error { IfErr result (λ e. IsParseError (flags_of flags) pattern.now e) }
{
    let parsed = SpannedTree::parse(alloc, pattern, flags)?;
    let Some(comments) = comments_of(alloc, pattern, &parsed.trivia, style)? else {
        return Ok(None);
    };
    if let Some(kept) = text_in_kept_lines(alloc, pattern, &parsed, flags, style)? {
        if kept.text.as_str() == pattern {
            return Ok(Some(kept));
        }
        let tree = tree_of(parsed);
        return Ok(if_read_back(alloc, &tree, &comments, kept, flags, style)?);
    }
    let tree = small_tree(pattern, parsed);
    let Some(laid_out) = text_in_new_lines(alloc, pattern, flags, style)? else {
        return Ok(None);
    };
    if laid_out.text.as_str() == pattern {
        return Ok(Some(laid_out));
    }
    let tree = tree_again(alloc, pattern, tree, flags)?;
    Ok(if_read_back(alloc, &tree, &comments, laid_out, flags, style)?)
}

/// The pattern formatted in the style to the greatest extent with which it reads back when its lines are kept first, so that a
/// second formatting changes nothing; None if there is no such extent.
fn most_styled(
    alloc: Global,
    pattern: &str,
    parsed: &SpannedTree,
    flags: u32,
    style: Style,
) -> std::result::Result<Option<Formatted>, AllocError>
    ensures { IfOk result (λ o. IfSome o (λ formatted. ReadsBack style (flags_of flags) (string_bytes formatted.text)
        (view parsed.now.tree.expr) (info_of parsed.now.tree)
        (comments style pattern.now (trivia_of parsed.now.trivia)))) }
{
    let Some(kept) = most_formatted(alloc, pattern, parsed, flags, style)? else {
        return Ok(None);
    };
    if let Some(formatted) = styled(alloc, pattern, parsed, kept.text.as_str(), flags, style)? {
        return Ok(Some(formatted));
    }
    Ok(Some(kept))
}

/// Formats the pattern, and keeps how it is written: the text of each leaf, comments, groups that set flags, and lines
/// with their indentation. `(?:..)`, `(?#)` and letters of flags go if they change nothing, except a group around a whole
/// pattern of several parts, and one around a branch that has several lines of its own. `{0,1}`, `{0,}` and `{1,}` become `?`,
/// `*` and `+`, unless they are in a column with other counts, and `{n,n}` becomes `{n}`. Ignored whitespace goes at the end of
/// a line, unless a pattern begins and ends with it, and becomes one space within a line, except before a comment through the
/// end of the line.
///
/// In the style `Verbose` a pattern that does not fit in a line is laid out over several ones, and all that is in it stays too. A
/// pattern that cannot be laid out has its own lines: one with a part where whitespace is not ignored, one that would have one line
/// after `(?x)`, or where the text would read otherwise.
///
/// The text parses, under the same flags, as the same tree with the same group information, up to the positions of calls
/// that cannot be resolved, and with the same comments except `(?#)`. If it does not with all of these changes, fewer are
/// made, as `extent` says.
///
/// Returns the error of the pattern if it is invalid, and `OutOfMemory` if out of memory.
///
/// ```rust
/// let formatted = format_pattern(alloc, "(?:a)\\x41{0,1}", FLAG_UNICODE, Style::Kept)?;
/// println!(rt; "{}", formatted.text)?; // a\x41?
/// ```
pub fn format_pattern(alloc: Global, pattern: &str, flags: u32, style: Style) -> Result<Formatted>
    ensures formatted { IfOk result (λ r. IsFormatted style (flags_of flags) pattern.now (string_bytes r.text)) }
    ensures error { IfErr result (λ e. IsParseError (flags_of flags) pattern.now e) }
{
    if let Some(formatted) = first_formatted(alloc, pattern, flags, style)? {
        return Ok(formatted);
    }
    let parsed = SpannedTree::parse(alloc, pattern, flags)?;
    if let Some(formatted) = most_styled(alloc, pattern, &parsed, flags, style)? {
        return Ok(formatted);
    }
    Ok(Formatted {
        text: String::from_str(alloc, pattern)?,
        extent: Extent::Nothing,
    })
}
