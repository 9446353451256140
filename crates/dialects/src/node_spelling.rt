//! What other dialects read otherwise, by a node and its text.
ghost use Rattle.std.specs.Prelude.{◌≡◌, ◌↔◌, codes, Contains, IsTrue, IfSome, OnSome, Some};
ghost use Rattle.fancy_syntax.specs.View.{view};
ghost use Rattle.dialects.specs.Spellings as spec;
ghost use Rattle.dialects.specs.declared.difference.Difference.TheVariants as difference;

use crate::difference::Difference;
use fancy_syntax::expr::Expr;

/// Whether it is an escape for hexadecimal digits, or for all other characters.
fn is_digit_escape(text: &str) -> bool
    ensures { IsTrue result ↔ Contains spec.digit_escapes text.now }
{
    matches!(text, r"\h" | r"\H")
}

/// Whether it is an escape for the start or the end of a word.
fn is_word_escape(text: &str) -> bool
    ensures { IsTrue result ↔ Contains spec.word_escapes text.now }
{
    matches!(text, r"\<" | r"\>")
}

/// Whether it is the escape for the end of the text.
fn is_end_escape(text: &str) -> bool
    ensures { IsTrue result ↔ (text.now ≡ codes "\\Z") }
{
    text == r"\Z"
}

/// Whether it is the escape for the vertical tab.
fn is_tab_escape(text: &str) -> bool
    ensures { IsTrue result ↔ (text.now ≡ codes "\\v") }
{
    text == r"\v"
}

/// Whether it is a call by a number without delimiters.
fn is_numbered_call(text: &str) -> bool {
    let Some(number) = text.strip_prefix(r"\g") else {
        return false;
    };
    number.starts_with(|c: char| c.is_ascii_digit())
}

/// Whether it is an escape for any character but a line feed.
fn is_line_escape(text: &str) -> bool
    ensures { IsTrue result ↔ (text.now ≡ codes "\\N") }
{
    text == r"\N"
}

/// Whether it is the escape for any character.
fn is_any_escape(text: &str) -> bool
    ensures { IsTrue result ↔ (text.now ≡ codes "\\O") }
{
    text == r"\O"
}

/// Whether it is an escape for the start or the end of the text, or for where the last match ended.
fn is_position_escape(text: &str) -> bool
    ensures { IsTrue result ↔ Contains spec.position_escapes text.now }
{
    matches!(text, r"\A" | r"\G" | r"\z")
}

/// Whether it is an escape for a control character that JavaScript reads as the letter.
fn is_control_escape(text: &str) -> bool
    ensures { IsTrue result ↔ Contains spec.control_escapes text.now }
{
    matches!(text, r"\a" | r"\e")
}

/// Whether it is the escape for where the match is to start, or for a line break.
fn is_match_escape(text: &str) -> bool
    ensures { IsTrue result ↔ Contains spec.match_escapes text.now }
{
    matches!(text, r"\K" | r"\R")
}

/// What a leaf is that some dialects read as a letter; nothing for another node.
fn of_letter(leaf: &Expr, text: &str) -> Option<Difference>
    ensures { IfSome result (λ d. spec.IsSpelled d (view leaf.now) text.now) }
{
    if let Expr::Any { .. } = leaf
        && is_line_escape(text)
    {
        return Some(Difference::AnyButLineFeed);
    }
    if let Expr::Any { .. } = leaf
        && is_any_escape(text)
    {
        return Some(Difference::AnyCharacter);
    }
    if let Expr::SubroutineCall(_) = leaf
        && text.starts_with(r"\g")
    {
        return Some(Difference::EscapedLetter);
    }
    if is_position_escape(text) || is_control_escape(text) || is_match_escape(text) {
        return Some(Difference::EscapedLetter);
    }
    None
}

/// What a leaf is that has this text; nothing for another node.
pub(crate) fn of_leaf(leaf: &Expr, text: &str) -> Option<Difference>
    ensures { IfSome result (λ d. spec.IsSpelled d (view leaf.now) text.now) }
{
    if let Expr::Delegate { .. } = leaf
        && is_digit_escape(text)
    {
        return Some(Difference::HexadecimalDigit);
    }
    if let Expr::Literal { .. } = leaf
        && is_tab_escape(text)
    {
        return Some(Difference::VerticalTab);
    }
    if let Expr::Assertion(_) = leaf
        && is_word_escape(text)
    {
        return Some(Difference::WordBoundary);
    }
    if let Expr::Assertion(_) = leaf
        && is_end_escape(text)
    {
        return Some(Difference::EndOfText);
    }
    if let Expr::SubroutineCall(_) = leaf
        && is_numbered_call(text)
    {
        return Some(Difference::NumberedCall);
    }
    of_letter(leaf, text)
}

/// What two nodes with these texts are, the second of which begins where the first ends.
pub(crate) fn of_pair(text: &str, next: &str) -> Option<Difference>
    ensures character { result ≡ Some difference.NamedCharacter → text.now ≡ codes "\\N" }
    ensures name { result ≡ Some difference.MatchedName → text.now ≡ codes "$+" }
    ensures brace { OnSome result (next.now ≡ codes "{") }
{
    if next != "{" {
        return None;
    }
    match text {
        r"\N" => Some(Difference::NamedCharacter),
        "$+" => Some(Difference::MatchedName),
        _ => None,
    }
}

/// Whether it is a quantifier of one or more on another one.
fn is_repeat_of_repeat(tree: &Expr) -> bool
    ensures { result ≡ spec.is_repeat_of_repeat (view tree.now) }
{
    let Expr::Repeat {
        child,
        lo: 1,
        hi,
        ..
    } = tree
    else {
        return false;
    };
    matches!(**child, Expr::Repeat { .. }) && *hi == usize::MAX
}

/// Whether it is a quantifier that may repeat zero times.
fn is_repeat_from_zero(tree: &Expr) -> bool
    ensures { result ≡ spec.is_repeat_from_zero (view tree.now) }
{
    matches!(tree, Expr::Repeat { lo: 0, .. })
}

/// Whether the text ends with braces that have an upper count only, lazy or possessive or not.
fn ends_with_upper_count(text: &str) -> bool {
    let quantifier = text.strip_suffix('+').unwrap_or(text);
    let braces = quantifier.strip_suffix('?').unwrap_or(quantifier);
    let Some(counts) = braces.strip_suffix('}') else {
        return false;
    };
    let upper = counts.trim_end_matches(|c: char| c.is_ascii_digit());
    upper.ends_with("{,")
}

/// What the quantifier is at the end of the text of the node.
pub(crate) fn of_repeat(tree: &Expr, text: &str) -> Option<Difference>
    ensures { IfSome result (λ d. spec.IsSpelled d (view tree.now) text.now) }
{
    if is_repeat_of_repeat(tree) && text.ends_with("}+") {
        return Some(Difference::RepeatedBraces);
    }
    if is_repeat_from_zero(tree) && ends_with_upper_count(text) {
        return Some(Difference::MissingCount);
    }
    None
}

/// Whether it is a text of literals.
fn is_literal_text(tree: &Expr) -> bool
    ensures { result ≡ spec.is_literal_text (view tree.now) }
{
    matches!(tree, Expr::Literal { .. } | Expr::Concat(_))
}

/// Whether the conditional's text begins with this text in parentheses, which is a word.
fn has_word(conditional: &str, condition: &str) -> bool {
    let is_of_word = |c: char| c.is_alphanumeric() || c == '_';
    let Some(inside) = conditional.strip_prefix("(?(") else {
        return false;
    };
    let Some(rest) = inside.strip_prefix(condition) else {
        return false;
    };
    rest.starts_with(')') && condition.chars().all(is_of_word)
}

/// What the condition is, by the text of its conditional and its own.
pub(crate) fn of_condition(tree: &Expr, conditional: &str, condition: &str) -> Option<Difference>
    ensures { IfSome result (λ d. spec.IsSpelled d (view tree.now) condition.now) }
{
    if is_literal_text(tree) && has_word(conditional, condition) {
        return Some(Difference::WordCondition);
    }
    None
}
