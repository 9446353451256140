//! Patterns formatted so that a second time changes nothing, where counts stay in their column.
use crate::cut::tokens_of;
use crate::extent::Extent;
use crate::token::{Token, TokenKind};
use crate::written::text_of;
use fancy_lex::error::Error;
use fancy_lex::flags::Flags;
use fancy_syntax::spanned::SpannedTree;
use std::alloc::{AllocError, Global};

/// Whether the token is a quantifier that keeps its counts.
fn keeps_counts(token: Token<'_>) -> bool {
    matches!(token.kind, TokenKind::Quantifier { keeps_counts: true })
}

/// The tokens, of which none keeps its counts.
fn without_counts<'p>(alloc: Global, tokens: &[Token<'p>]) -> Result<Vec<Token<'p>>, AllocError> {
    let mut changed = Vec::with_capacity(alloc, tokens.len())?;
    for token in tokens {
        let kind = if keeps_counts(*token) {
            TokenKind::Quantifier {
                keeps_counts: false,
            }
        } else {
            token.kind
        };
        changed.push(Token { kind, ..*token })?;
    }
    Ok(changed)
}

/// Whether the text is formatted already, to this extent.
fn is_formatted(alloc: Global, text: &str, extent: Extent, flags: u32) -> Result<bool, AllocError> {
    let parsed = match SpannedTree::parse(alloc, text, flags) {
        Ok(parsed) => parsed,
        Err(Error::ParseError(..)) => return Ok(false),
        Err(Error::OutOfMemory) => return Err(AllocError),
    };
    let tokens = tokens_of(alloc, text, &parsed, true)?;
    let oniguruma_mode = Flags::from_bits(flags).oniguruma_mode;
    let again = text_of(alloc, &tokens, extent, oniguruma_mode)?;
    Ok(again.as_str() == text)
}

/// The text of the tokens, formatted to this extent. Counts stay in their column only if they still stay in what is written.
pub(crate) fn stable_text_of(
    alloc: Global,
    tokens: &[Token<'_>],
    extent: Extent,
    flags: u32,
) -> Result<String, AllocError> {
    let oniguruma_mode = Flags::from_bits(flags).oniguruma_mode;
    let text = text_of(alloc, tokens, extent, oniguruma_mode)?;
    if !tokens.iter().any(|token| keeps_counts(*token))
        || is_formatted(alloc, text.as_str(), extent, flags)?
    {
        return Ok(text);
    }
    let tokens = without_counts(alloc, tokens)?;
    text_of(alloc, &tokens, extent, oniguruma_mode)
}
