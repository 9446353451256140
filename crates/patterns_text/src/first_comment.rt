//! The first comment of a pattern, which may be inside a token.
use fancy_syntax::spanned::SpannedTree;

/// The byte offset of the first comment in a pattern that is parsed, `(?#..)` or under IGNORE_SPACE `#..`; `None` if there is
/// none but empty ones, `(?#)`, as `format` itself writes them.
pub fn first_comment(pattern: &str, parsed: &SpannedTree) -> Option<usize> {
    for trivium in &parsed.trivia {
        if trivium.kind.is_comment() && trivium.span.text(pattern) != Some("(?#)") {
            return Some(trivium.span.start);
        }
    }
    None
}
