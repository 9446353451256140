//! What the tree of a pattern does not hold.
ghost use Rattle.std.specs.Prelude.{◌≡◌};
ghost use Rattle.fancy_grammar.specs.Trivia.{is_comment, is_inner, is_line_comment};
ghost use Rattle.fancy_syntax.specs.TriviaViews.{kind_of};

use crate::span::Span;
use fancy_lex::flags::Flags;

/// A part of a pattern that no node of its tree has.
#[derive(Debug, Clone, Copy, PartialEq, Eq)]
pub struct Trivium {
    /// Where it is in the pattern.
    pub span: Span,
    /// What it is.
    pub kind: TriviumKind,
}

/// What a part of a pattern is that no node of its tree has.
#[derive(Debug, Clone, Copy, PartialEq, Eq)]
pub enum TriviumKind {
    /// A comment, `(?#..)`.
    Comment,
    /// A comment from `#` through the end of its line.
    LineComment,
    /// Inline flags, `(?i)`.
    InlineFlags {
        /// The flags that hold before them.
        before: Flags,
        /// The flags that hold after them.
        after: Flags,
    },
    /// The opening of a group that makes no node, such as `(?:` or `(?i:`.
    Opening {
        /// The flags that hold around the group.
        around: Flags,
        /// The flags that hold in the group.
        inside: Flags,
    },
    /// The closing parenthesis of such a group.
    Closing,
    /// A part that leaves nothing in the tree: the counts or the operators of a quantifier that has no effect in Oniguruma
    /// mode, or a part of a conditional without branches, such as `(?(` and `)|)` in `(?(1)|)`, where only the condition is
    /// left.
    Dropped,
    /// A comment inside a token, `(?#..)`: after the parenthesis of a group, between the letters of flags, in the counts of a
    /// quantifier, in a hex code or in a word boundary.
    InnerComment,
    /// A comment inside a token, from `#` through the end of its line.
    InnerLineComment,
}

impl TriviumKind {
    /// Returns whether it is a comment, between tokens or inside one.
    pub fn is_comment(self) -> bool
        ensures { result ≡ is_comment (kind_of self) }
    {
        match self {
            TriviumKind::Comment
            | TriviumKind::LineComment
            | TriviumKind::InnerComment
            | TriviumKind::InnerLineComment => true,
            TriviumKind::InlineFlags { .. }
            | TriviumKind::Opening { .. }
            | TriviumKind::Closing
            | TriviumKind::Dropped => false,
        }
    }

    /// Returns whether it is a comment from `#` through the end of its line.
    pub fn is_line_comment(self) -> bool
        ensures { result ≡ is_line_comment (kind_of self) }
    {
        match self {
            TriviumKind::LineComment | TriviumKind::InnerLineComment => true,
            TriviumKind::Comment
            | TriviumKind::InnerComment
            | TriviumKind::InlineFlags { .. }
            | TriviumKind::Opening { .. }
            | TriviumKind::Closing
            | TriviumKind::Dropped => false,
        }
    }

    /// Returns whether it is a comment inside a token.
    pub fn is_inner(self) -> bool
        ensures { result ≡ is_inner (kind_of self) }
    {
        match self {
            TriviumKind::InnerComment | TriviumKind::InnerLineComment => true,
            TriviumKind::Comment
            | TriviumKind::LineComment
            | TriviumKind::InlineFlags { .. }
            | TriviumKind::Opening { .. }
            | TriviumKind::Closing
            | TriviumKind::Dropped => false,
        }
    }
}
