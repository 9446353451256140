//! All comments of a pattern, those inside its tokens too.
use fancy_syntax::span::Span;
use fancy_syntax::trivium::Trivium;
use std::alloc::{AllocError, Global};

/// A comment of a pattern, which may be inside a token.
#[derive(Clone, Copy, PartialEq, Eq, Debug)]
pub(crate) struct Comment {
    /// Where it is in the pattern, with its delimiters.
    pub(crate) span: Span,
    /// Whether it begins with `#` and ends with its line.
    pub(crate) is_line: bool,
}

/// The comments among what no node has, in the order of the text.
pub(crate) fn all_comments(alloc: Global, trivia: &[Trivium]) -> Result<Vec<Comment>, AllocError> {
    let mut comments = Vec::new(alloc);
    for Trivium { span, kind } in trivia {
        if kind.is_comment() {
            comments.push(Comment {
                span: *span,
                is_line: kind.is_line_comment(),
            })?;
        }
    }
    Ok(comments)
}
