//! Patterns laid out over several lines.
use crate::columns::join_columns;
use crate::cut::tokens_of;
use crate::items::items_of;
use crate::layout::Lines;
use crate::pieces::pieces_of;
use crate::removed::without_needless;
use crate::token::{Token, TokenKind};
use fancy_lex::error::Error;
use fancy_lex::flags::Flags;
use fancy_syntax::spanned::SpannedTree;
use std::alloc::{AllocError, Global};

/// How often a pattern is laid out, until that changes nothing.
const MAX_ROUNDS: usize = 4;

/// Whether the token is inline flags after which whitespace is ignored.
fn sets_ignore_space(token: Token<'_>) -> bool {
    match token.kind {
        TokenKind::Flags { after, .. } => after.ignore_space && token.text.ends_with(')'),
        TokenKind::Blank
        | TokenKind::LineComment
        | TokenKind::Comment
        | TokenKind::Leaf { .. }
        | TokenKind::Quantifier { .. }
        | TokenKind::Other => false,
    }
}

/// Whether the text has several lines after the first one.
fn has_several_lines(text: &str) -> bool {
    match text.split_once('\n') {
        Some((_, rest)) => rest.contains('\n'),
        None => false,
    }
}

/// The tokens, over lines of up to so many characters. None if they cannot be laid out, or if one line would follow a new
/// `(?x)`.
fn over_lines(
    alloc: Global,
    tokens: &[Token<'_>],
    flags: Flags,
    width: usize,
) -> Result<Option<String>, AllocError> {
    let tokens = without_needless(alloc, tokens)?;
    let Some(pieces) = pieces_of(alloc, &tokens, flags.oniguruma_mode)? else {
        return Ok(None);
    };
    let Some((items, whole)) = items_of(alloc, &pieces)? else {
        return Ok(None);
    };
    let begins_verbose = tokens
        .first()
        .is_some_and(|first| sets_ignore_space(*first));
    let set = match pieces.first() {
        _ if flags.ignore_space => "",
        Some(first) if begins_verbose => first.text.as_str(),
        _ => "(?x)",
    };
    let mut lines = Lines::new(alloc, set, whole, width)?;
    let passed = (begins_verbose && !flags.ignore_space) as usize;
    for (piece, item) in pieces.iter().zip(&items).skip(passed) {
        if !lines.push(piece, *item)? {
            return Ok(None);
        }
    }
    let text = lines.end()?;
    let has_new_flag = !flags.ignore_space && !begins_verbose;
    let is_useful = !has_new_flag || has_several_lines(text.as_str());
    Ok(is_useful.then_some(text))
}

/// The tokens of the pattern, without columns that are near others; None if it is invalid. Its tree, which is larger, is
/// dropped.
fn valid_tokens(
    alloc: Global,
    pattern: &str,
    flags: u32,
) -> Result<Option<Vec<Token<'_>>>, AllocError> {
    match SpannedTree::parse(alloc, pattern, flags) {
        Ok(parsed) => {
            let mut tokens = tokens_of(alloc, pattern, &parsed, false)?;
            join_columns(&mut tokens);
            Ok(Some(tokens))
        }
        Err(Error::ParseError(..)) => Ok(None),
        Err(Error::OutOfMemory) => Err(AllocError),
    }
}

/// The pattern, over lines of up to so many characters. None if it is invalid, or cannot be laid out.
fn laid_out_once(
    alloc: Global,
    pattern: &str,
    flags: u32,
    width: usize,
) -> Result<Option<String>, AllocError> {
    match valid_tokens(alloc, pattern, flags)? {
        Some(tokens) => over_lines(alloc, &tokens, Flags::from_bits(flags), width),
        None => Ok(None),
    }
}

/// The pattern, over lines of up to so many characters. None if it cannot be laid out so that it stays so.
pub(crate) fn laid_out(
    alloc: Global,
    pattern: &str,
    flags: u32,
    width: usize,
) -> Result<Option<String>, AllocError> {
    let Some(mut text) = laid_out_once(alloc, pattern, flags, width)? else {
        return Ok(None);
    };
    if text.as_str() == pattern {
        return Ok(Some(text));
    }
    for _ in 0..MAX_ROUNDS {
        let Some(again) = laid_out_once(alloc, text.as_str(), flags, width)? else {
            return Ok(None);
        };
        if again.as_str() == text.as_str() {
            return Ok(Some(text));
        }
        text = again;
    }
    Ok(None)
}
