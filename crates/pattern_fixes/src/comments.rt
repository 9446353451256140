//! Whether two texts have the same comments.
ghost use Rattle.std.specs.Prelude.{◌≡◌, [], ◌∷◌, ◌++◌, map, IfOk, IfSome, IsTrue};
ghost use Rattle.fancy_grammar.specs.Trivia.{comment_texts};
ghost use Rattle.fancy_syntax.specs.TriviaViews.{trivium_of};

use fancy_syntax::trivium::Trivium;
use std::alloc::{AllocError, Global};

/// Adds the text of what no node has, if it is a comment. Returns false if it is not in the text.
fn push_comment<'p>(
    comments: &mut Vec<&'p str>,
    text: &'p str,
    trivium: Trivium,
) -> Result<bool, AllocError>
    ensures { IfOk result (λ b. IsTrue b → map (λ t. t.now) comments.new.items ≡ map (λ t. t.now) comments.old.items
        ++ comment_texts text.now (trivium_of trivium ∷ [])) }
{
    if !trivium.kind.is_comment() {
        return Ok(true);
    }
    let Some(comment) = trivium.span.text(text) else {
        return Ok(false);
    };
    comments.push(comment)?;
    Ok(true)
}

/// The comments among what no node has, in order; None if one is not in the text.
fn comments_of<'p>(
    alloc: Global,
    text: &'p str,
    trivia: &[Trivium],
) -> Result<Option<Vec<&'p str>>, AllocError>
    ensures { IfOk result (λ o. IfSome o (λ comments.
        map (λ t. t.now) comments.items ≡ comment_texts text.now (map trivium_of trivia.now))) }
{
    let mut comments = Vec::new(alloc);
    for trivium in trivia {
        if !push_comment(&mut comments, text, *trivium)? {
            return Ok(None);
        }
    }
    Ok(Some(comments))
}

/// Whether the texts are the same, in the same order.
fn are_same(texts: &[&str], others: &[&str]) -> bool
    ensures { IsTrue result → map (λ t. t.now) texts.now ≡ map (λ t. t.now) others.now }
{
    texts == others
}

/// Whether two texts have the same comments, byte for byte, in the same order.
pub(crate) fn has_same_comments(
    alloc: Global,
    text: &str,
    trivia: &[Trivium],
    other: &str,
    other_trivia: &[Trivium],
) -> Result<bool, AllocError>
    ensures { IfOk result (λ b. IsTrue b → comment_texts text.now (map trivium_of trivia.now) ≡
        comment_texts other.now (map trivium_of other_trivia.now)) }
{
    let Some(comments) = comments_of(alloc, text, trivia)? else {
        return Ok(false);
    };
    let Some(others) = comments_of(alloc, other, other_trivia)? else {
        return Ok(false);
    };
    Ok(are_same(&comments, &others))
}
