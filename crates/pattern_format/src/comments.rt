//! The comments of a pattern.
ghost use Rattle.std.specs.Prelude.{◌≡◌, [], ◌∷◌, ◌++◌, map, IfOk, IfSome, IsTrue};
ghost use Rattle.fancy_syntax.specs.SpanViews.{span_of};
ghost use Rattle.fancy_syntax.specs.TriviaViews.{trivium_of};
ghost use Rattle.pattern_format.specs.Formatted as spec;

use crate::style::Style;
use fancy_syntax::span::Span;
use fancy_syntax::trivium::Trivium;
use std::alloc::{AllocError, Global};

/// Whether what the style keeps of a comment may go.
pub(crate) fn is_empty(text: &str, style: Style) -> bool
    ensures { result ≡ spec.is_empty style text.now }
{
    match style {
        Style::Compact => text.is_empty(),
        Style::Kept | Style::Verbose { .. } => text == "(?#)",
    }
}

/// Where the comment is without its delimiters.
fn inside(comment: Trivium) -> Option<Span>
    ensures { IfSome result (λ span. span_of span ≡ spec.inside (trivium_of comment).kind (trivium_of comment).span) }
{
    let Span { start, end } = comment.span;
    let is_line = comment.kind.is_line_comment();
    if is_line {
        return Some(Span {
            start: start.checked_add(1)?,
            end,
        });
    }
    Some(Span {
        start: start.checked_add(3)?,
        end: end.saturating_sub(1),
    })
}

/// What is inside a comment, without whitespace at its end if that is the end of its line.
fn trimmed(comment: Trivium, text: &str) -> &str
    ensures { result.now ≡ spec.trimmed (trivium_of comment).kind text.now }
{
    if comment.kind.is_line_comment() {
        text.trim_end()
    } else {
        text
    }
}

/// What the style keeps of a comment; None if it is not in the pattern.
fn kept_text<'p>(pattern: &'p str, comment: Trivium, style: Style) -> Option<&'p str>
    ensures { IfSome result (λ text. text.now ≡ spec.kept_text style pattern.now (trivium_of comment)) }
{
    match style {
        Style::Compact => Some(trimmed(comment, inside(comment)?.text(pattern)?)),
        Style::Kept | Style::Verbose { .. } => comment.span.text(pattern),
    }
}

/// Adds what the style keeps of what no node has, if it is a comment that is not empty. Returns false if it is not in the
/// pattern.
fn push_comment<'p>(
    texts: &mut Vec<&'p str>,
    pattern: &'p str,
    trivium: Trivium,
    style: Style,
) -> Result<bool, AllocError>
    ensures { IfOk result (λ b. IsTrue b → map (λ t. t.now) texts.new.items ≡ map (λ t. t.now) texts.old.items
        ++ spec.comments style pattern.now (trivium_of trivium ∷ [])) }
{
    if !trivium.kind.is_comment() {
        return Ok(true);
    }
    let Some(text) = kept_text(pattern, trivium, style) else {
        return Ok(false);
    };
    if !is_empty(text, style) {
        texts.push(text)?;
    }
    Ok(true)
}

/// What the style keeps of the comments of a pattern that are not empty, in order; None if one is not in the pattern.
pub(crate) fn comments_of<'p>(
    alloc: Global,
    pattern: &'p str,
    trivia: &[Trivium],
    style: Style,
) -> Result<Option<Vec<&'p str>>, AllocError>
    ensures { IfOk result (λ o. IfSome o (λ texts.
        map (λ t. t.now) texts.items ≡ spec.comments style pattern.now (map trivium_of trivia.now))) }
{
    let mut texts = Vec::new(alloc);
    for trivium in trivia {
        if !push_comment(&mut texts, pattern, *trivium, style)? {
            return Ok(None);
        }
    }
    Ok(Some(texts))
}

/// Whether the texts are the same, in the same order.
fn are_same(texts: &[&str], others: &[&str]) -> bool
    ensures { IsTrue result → map (λ t. t.now) texts.now ≡ map (λ t. t.now) others.now }
{
    texts == others
}

/// Whether what the style keeps of the comments of a pattern that are not empty is these texts, in this order.
pub(crate) fn has_comments(
    alloc: Global,
    texts: &[&str],
    pattern: &str,
    trivia: &[Trivium],
    style: Style,
) -> Result<bool, AllocError>
    ensures { IfOk result (λ b. IsTrue b →
        map (λ t. t.now) texts.now ≡ spec.comments style pattern.now (map trivium_of trivia.now)) }
{
    let Some(own) = comments_of(alloc, pattern, trivia, style)? else {
        return Ok(false);
    };
    Ok(are_same(texts, &own))
}
