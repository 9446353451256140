//! The characters that a pattern matches.
use crate::replay::texts::tree_of;
use anyhow::Result;
use class_meaning::{CharacterSet, ClassError, ClassMeaning, characters_of};
use fancy_syntax::expr::Expr;
use fancy_syntax::flags::FLAG_UNICODE;
use std::alloc::{AllocError, Global};

/// The ranges of the characters, with spaces between.
fn line_of(alloc: Global, set: &CharacterSet) -> Result<String, AllocError> {
    let mut line = String::new(alloc);
    for (first, last) in set.ranges() {
        if !line.is_empty() {
            line.push(' ')?;
        }
        line.push_str(format!(in alloc; "{first:X}-{last:X}")?.as_str())?;
    }
    Ok(line)
}

/// Where the error is, and its message.
fn text_of(alloc: Global, error: &ClassError) -> Result<String, AllocError> {
    let message = error.kind.message();
    format!(in alloc; "{}..{}: {message}", error.span.start, error.span.end)
}

/// Whether the node matches these characters, with Unicode or without it, or the engine refuses it for this reason.
fn has_characters(
    alloc: Global,
    node: &Expr,
    unicode: bool,
    expected: &str,
) -> Result<bool, AllocError> {
    match characters_of(alloc, node, unicode)? {
        ClassMeaning::Characters(set) => Ok(line_of(alloc, &set)?.as_str() == expected),
        ClassMeaning::Refused(error) => Ok(text_of(alloc, &error)?.as_str() == expected),
        ClassMeaning::NotOneCharacter => Ok(expected == "not one character"),
    }
}

/// Whether the pattern matches these characters, or the engine refuses it for this reason.
pub(crate) fn are_characters(
    alloc: Global,
    pattern: &str,
    flags: u32,
    expected: &str,
) -> Result<bool> {
    let Some(tree) = tree_of(alloc, pattern, flags)? else {
        return Ok(false);
    };
    let unicode = flags & FLAG_UNICODE != 0;
    Ok(has_characters(alloc, &tree.expr, unicode, expected)?)
}
