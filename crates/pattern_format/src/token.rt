//! The tokens of a pattern, whose texts together are the pattern.
use fancy_lex::flags::Flags;

/// What a token of a pattern is.
#[derive(Clone, Copy)]
pub(crate) enum TokenKind {
    /// Whitespace that is ignored.
    Blank,
    /// A comment from `#` through the end of its line.
    LineComment,
    /// A quantifier, or a part of one that a comment divides. It keeps its counts in a column of others.
    Quantifier { keeps_counts: bool },
    /// Inline flags that change flags, or the opening of a flag group, with the flags before it and after it.
    Flags { before: Flags, after: Flags },
    /// A leaf of the tree, which is a literal that ignores case or not.
    Leaf { ignores_case: bool },
    /// A comment in parentheses.
    Comment,
    /// Anything else.
    Other,
}

/// A column that tokens of several lines begin in, or one token after blanks that stay.
#[derive(Clone, Copy, PartialEq, Eq, Debug)]
pub(crate) struct Column {
    /// How many characters are before it in the pattern.
    pub(crate) start: usize,
    /// Which of the columns with this start it is.
    pub(crate) number: usize,
    /// How many of the characters before the token are blanks.
    pub(crate) blanks: usize,
}

impl Column {
    /// Whether it is the other one.
    pub(crate) fn is_same(self, other: Column) -> bool {
        self.start == other.start && self.number == other.number
    }
}

/// A token of a pattern.
#[derive(Clone, Copy)]
pub(crate) struct Token<'p> {
    pub(crate) text: &'p str,
    pub(crate) kind: TokenKind,
    /// Whether the tree is the same without it.
    pub(crate) is_needless: bool,
    /// The column that it begins, if blanks before it stay.
    pub(crate) column: Option<Column>,
}

/// Whether the character is whitespace that `FLAG_IGNORE_SPACE` ignores.
pub(crate) fn is_blank(c: char) -> bool {
    c == ' ' || c == '\n' || c == '\r' || c == '\t'
}

/// Whether the token is blank, or a comment, or goes.
pub(crate) fn is_layout(token: Token<'_>) -> bool {
    token.is_needless
        || matches!(
            token.kind,
            TokenKind::Blank | TokenKind::LineComment | TokenKind::Comment
        )
}

/// What is in a comment through the end of its line, if that can be in parentheses.
pub(crate) fn contents(comment: &str) -> Option<&str> {
    let text = comment.strip_prefix('#')?.trim_end();
    let backslashes = text.len().saturating_sub(text.trim_end_matches('\\').len());
    let is_closed = !text.contains(')') && backslashes.is_multiple_of(2);
    is_closed.then_some(text)
}

/// Whether the token is a letter or a digit that stands for itself.
pub(crate) fn is_letter(token: Token<'_>) -> bool {
    matches!(token.kind, TokenKind::Leaf { .. })
        && token.text.chars().count() == 1
        && token.text.starts_with(|c: char| c.is_alphanumeric())
}

/// Whether a line ends right before these tokens, after blanks.
pub(crate) fn begins_with_line_end(tokens: &[Token<'_>]) -> bool {
    match tokens.first() {
        Some(token) => matches!(token.kind, TokenKind::Blank) && token.text.contains('\n'),
        None => false,
    }
}
