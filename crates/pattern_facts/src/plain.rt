//! Literals of one character, and classes of one escape, which need not be read to be known.
ghost use Rattle.std.specs.Prelude.{◌≡◌, Bool, true, false, chars, encode_utf8, [], ◌∷◌, MatchOption, IfOk, IfSome};
ghost use Rattle.std.specs.Char.{IsScalar};
ghost use Rattle.fancy_grammar.specs.Tree.{delegate, literal};
ghost use Rattle.fancy_syntax.specs.View.{view};
ghost use Rattle.class_meaning.specs.ClassMeaning.{IsMeaningOf};
ghost use Rattle.class_meaning.specs.EnginePattern.{engine_pattern};
ghost use Rattle.pattern_facts.specs.Bytes.{IsCharacterOf};
ghost use Rattle.pattern_facts.specs.Known.{IsKnownAs};

use crate::node_facts::Facts;
use class_meaning::{CharacterSet, ClassMeaning, characters_of};
use fancy_syntax::expr::Expr;
use std::alloc::{AllocError, Global};

/// The character, if the text has one.
fn only_character(text: &str) -> Option<char>
    ensures { IfSome result (λ c. IsScalar c × (text.now ≡ encode_utf8 c)) }
{
    let mut chars = text.chars();
    let c = chars.next()?;
    match chars.next() {
        Some(_) => None,
        None => Some(c),
    }
}

/// The character of a literal of one character that does not ignore case.
pub(crate) fn plain_character(node: &Expr) -> Option<char>
    ensures { IfSome result (λ c. IsScalar c × (view node.now ≡ literal (c ∷ []) false)) }
{
    if let Expr::Literal { val, casei } = node {
        if *casei {
            return None;
        }
        return only_character(val.as_str());
    }
    None
}

/// The facts of a literal of one character that does not ignore case.
pub(crate) fn plain_facts(node: &Expr) -> Option<Facts>
    ensures { (unicode : Bool) → IfSome result (IsKnownAs unicode (view node.now)) }
{
    match plain_character(node) {
        Some(c) => Some(Facts::of_character(c)),
        None => None,
    }
}

/// How many bytes a character of the class has at least, and how many at most, if it is `\d`, `\w` or `\s`, or the
/// negation of one.
fn bytes_of_escape(class: &str) -> Option<(usize, usize)>
    ensures { (casei : Bool) → IfSome result (λ b. IsCharacterOf true (delegate (chars class.now) casei) b.0 b.1) }
{
    match class {
        r"\s" => Some((1, 3)),
        r"\d" | r"\D" | r"\S" | r"\w" | r"\W" => Some((1, 4)),
        _ => None,
    }
}

/// How many bytes a character has at least, and how many at most, that a dot or a class of one escape matches with Unicode.
pub(crate) fn bytes_of_node(node: &Expr, unicode: bool) -> Option<(usize, usize)>
    ensures { IfSome result (λ b. IsCharacterOf unicode (view node.now) b.0 b.1) }
{
    if !unicode {
        return None;
    }
    if let Expr::Delegate { inner, .. } = node {
        return bytes_of_escape(inner.as_str());
    }
    if let Expr::Any { .. } = node {
        return Some((1, 4));
    }
    None
}

/// The facts of a dot or a class of one escape, with Unicode.
pub(crate) fn escape_facts(node: &Expr, unicode: bool) -> Option<Facts>
    ensures { IfSome result (IsKnownAs unicode (view node.now)) }
{
    match bytes_of_node(node, unicode) {
        Some((least, greatest)) => Some(Facts::of_bytes(least, greatest)),
        None => None,
    }
}

/// As `characters_of`, which need not read a literal of one character.
pub(crate) fn meaning_of(
    alloc: Global,
    node: &Expr,
    unicode: bool,
) -> Result<ClassMeaning, AllocError>
    ensures { IfOk result (λ meaning. MatchOption (engine_pattern unicode (view node.now))
        (meaning ≡ ClassMeaning.NotOneCharacter)
        (λ (config, text). IsMeaningOf config text meaning)) }
{
    match plain_character(node) {
        Some(c) => Ok(ClassMeaning::Characters(CharacterSet::of_char(alloc, c)?)),
        None => characters_of(alloc, node, unicode),
    }
}
