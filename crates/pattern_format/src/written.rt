//! The formatted text of a pattern's tokens.
use crate::blanks::Writer;
use crate::extent::Extent;
use crate::removed::{has_needless, without_needless};
use crate::spelling::{push_flags, push_quantifier};
use crate::token::{Token, TokenKind};
use std::alloc::{AllocError, Global};

/// Writes the token, which is not blank.
fn push_token(
    alloc: Global,
    written: &mut String,
    token: Token<'_>,
    extent: Extent,
    oniguruma_mode: bool,
) -> Result<(), AllocError> {
    if extent == Extent::Blanks || token.text.contains('#') {
        return Ok(written.push_str(token.text)?);
    }
    match token.kind {
        // In Oniguruma mode `{0,1}+` repeats twice, and `?+` is possessive.
        TokenKind::Quantifier { keeps_counts } => {
            push_quantifier(alloc, written, token.text, !oniguruma_mode && !keeps_counts)
        }
        TokenKind::Flags { before, after } => {
            push_flags(alloc, written, token.text, before, after)
        }
        TokenKind::Blank
        | TokenKind::LineComment
        | TokenKind::Comment
        | TokenKind::Leaf { .. }
        | TokenKind::Other => Ok(written.push_str(token.text)?),
    }
}

/// The text of all the tokens, formatted to this extent.
fn text_of_all(
    alloc: Global,
    tokens: &[Token<'_>],
    extent: Extent,
    oniguruma_mode: bool,
) -> Result<String, AllocError> {
    let mut writer = Writer::new(alloc)?;
    for token in tokens {
        if let TokenKind::Blank = token.kind {
            writer.push_blanks(token.text);
        } else {
            let written = writer.before(*token)?;
            push_token(alloc, written, *token, extent, oniguruma_mode)?;
        }
    }
    writer.end()
}

/// The text of the tokens, formatted to this extent. Tokens may be parsed in Oniguruma mode.
pub(crate) fn text_of(
    alloc: Global,
    tokens: &[Token<'_>],
    extent: Extent,
    oniguruma_mode: bool,
) -> Result<String, AllocError> {
    if extent == Extent::Whole && has_needless(tokens) {
        let kept = without_needless(alloc, tokens)?;
        return text_of_all(alloc, &kept, extent, oniguruma_mode);
    }
    text_of_all(alloc, tokens, extent, oniguruma_mode)
}
