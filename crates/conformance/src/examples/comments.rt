//! The comments of a pattern.
use fancy_syntax::Trivium;
use std::alloc::{AllocError, Global};

/// Adds a line for each comment of a pattern, with its byte offset and its text.
pub fn push_comments(
    alloc: Global,
    lines: &mut String,
    pattern: &str,
    trivia: &[Trivium],
) -> Result<(), AllocError> {
    for Trivium { span, kind } in trivia {
        if kind.is_comment()
            && let Some(text) = span.text(pattern)
        {
            lines.push_str(format!(in alloc; "byte {}: {text}\n", span.start)?.as_str())?;
        }
    }
    Ok(())
}
