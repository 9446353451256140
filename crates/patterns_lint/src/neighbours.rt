//! Assertions that never hold, by the characters beside them.
ghost use Rattle.std.specs.Prelude.{◌≡◌, chars};
ghost use Rattle.fancy_syntax.specs.View.{view};
ghost use Rattle.patterns_lint.specs.Branches as branches_spec;
ghost use Rattle.patterns_lint.specs.Neighbours as spec;

use crate::branches::{is_character_text, is_word_character, only_character};
use class_rules::beginnings::operand;
use fancy_syntax::expr::{Assertion, Expr};

/// What is beside an assertion.
#[derive(Clone, Copy, PartialEq, Eq)]
pub(crate) enum Neighbour {
    /// A letter, a digit or `_` of ASCII.
    Word,
    /// CR or LF.
    LineTerminator,
    /// Another character of ASCII.
    Other,
    /// It is not known.
    Unknown,
}

impl Neighbour {
    /// Whether it is no character of a word.
    fn is_not_word(self) -> bool
        ensures { result ≡ spec.is_not_word self }
    {
        matches!(self, Neighbour::LineTerminator | Neighbour::Other)
    }

    /// Whether it is a character of a word.
    fn is_word(self) -> bool
        ensures { result ≡ spec.is_word self }
    {
        matches!(self, Neighbour::Word)
    }

    /// Whether it is a character inside a line.
    fn is_in_line(self) -> bool
        ensures { result ≡ spec.is_in_line self }
    {
        matches!(self, Neighbour::Word | Neighbour::Other)
    }
}

/// What the character is.
fn of_character(c: char) -> Neighbour
    ensures { result ≡ spec.of_character c }
{
    if is_word_character(c) {
        Neighbour::Word
    } else if c == '\n' || c == '\r' {
        Neighbour::LineTerminator
    } else if (c as u32) < 0x80 {
        Neighbour::Other
    } else {
        Neighbour::Unknown
    }
}

/// What the text is, if it is one character.
fn of_text(text: &str) -> Neighbour
    ensures { result ≡ spec.of_option (branches_spec.only_character (chars text.now)) }
{
    match only_character(text) {
        Some(c) => of_character(c),
        None => Neighbour::Unknown,
    }
}

/// What the literal is, if it has one character.
fn of_literal(tree: &Expr) -> Neighbour
    ensures { result ≡ spec.of_literal (view tree.now) }
{
    let Expr::Literal { val, .. } = tree else {
        return Neighbour::Unknown;
    };
    of_text(val.as_str())
}

/// Whether the tree may be repeated no times.
pub(crate) fn is_optional(tree: &Expr) -> bool
    ensures { result ≡ spec.is_optional (view tree.now) }
{
    matches!(tree, Expr::Repeat { lo: 0, .. })
}

/// What the piece is to an assertion beside it, as far as it is a literal, repeated or not.
pub(crate) fn of_piece(piece: &Expr) -> Neighbour
    ensures { result ≡ spec.of_piece (view piece.now) }
{
    if is_optional(piece) {
        Neighbour::Unknown
    } else {
        of_literal(operand(piece))
    }
}

/// Whether the assertion never holds between the two.
fn excludes(assertion: Assertion, before: Neighbour, after: Neighbour) -> bool
    ensures { result ≡ spec.excludes assertion before after }
{
    match assertion {
        Assertion::StartText | Assertion::StartLine { .. } | Assertion::StartLineOniguruma { .. } =>
            before.is_in_line(),
        Assertion::EndText
        | Assertion::EndTextIgnoreTrailingNewlines { .. }
        | Assertion::EndLine { .. } => after.is_in_line(),
        Assertion::LeftWordBoundary => before.is_word() || after.is_not_word(),
        Assertion::RightWordBoundary => before.is_not_word() || after.is_word(),
        Assertion::LeftWordHalfBoundary => before.is_word(),
        Assertion::RightWordHalfBoundary => after.is_word(),
        Assertion::WordBoundary => {
            (before.is_word() && after.is_word()) || (before.is_not_word() && after.is_not_word())
        }
        Assertion::NotWordBoundary => {
            (before.is_word() && after.is_not_word()) || (before.is_not_word() && after.is_word())
        }
    }
}

/// Whether the node is an assertion that never holds between the two.
pub(crate) fn never_holds(tree: &Expr, before: Neighbour, after: Neighbour) -> bool
    ensures { result ≡ spec.never_holds (view tree.now) before after }
{
    if let Expr::Assertion(assertion) = tree {
        excludes(*assertion, before, after)
    } else {
        false
    }
}

/// Whether the text is `$` before a character of a word, as in `$name`, which other languages replace by a value.
pub(crate) fn is_variable(text: &str, after: Neighbour) -> bool
    ensures { result ≡ spec.is_variable (chars text.now) after }
{
    is_character_text(text, '$') && after.is_word()
}

/// What is before and after the piece of this index.
pub(crate) fn beside(pieces: &[Expr], index: usize) -> (Neighbour, Neighbour) {
    let before = index.checked_sub(1).and_then(|i| pieces.get(i));
    let after = pieces.get(index.saturating_add(1));
    (
        before.map_or(Neighbour::Unknown, |piece| of_piece(piece)),
        after.map_or(Neighbour::Unknown, |piece| of_piece(piece)),
    )
}
