//! The source of a Delegate: a text that the reader turns into the text of the Delegate.
ghost use Rattle.std.specs.Prelude.{◌≡◌, ◌∷◌, [], Bool, true, chars, option_map, IfOk, OnOk};
ghost use Rattle.fancy_lex.specs.Characters.{◌∈◌};
ghost use Rattle.fancy_lex.specs.Class.{joint};
ghost use Rattle.fancy_lex.specs.Text.{Text, strip_word};
ghost use Rattle.fancy_grammar.specs.PatternSource as spec;
ghost use Rattle.fancy_pattern.specs.TextOutput.{Added};
ghost use Rattle.fancy_pattern.specs.Source.{AddedPart, found_part};

use crate::letters::put_class_character;
use crate::output::{TextOutput, put_ascii};
use crate::separator::is_text;
use fancy_lex::flags::Flags;
use fancy_lex::property::letter;
use fancy_lex::text::{after, after_word, next, split_at};
use std::alloc::AllocError;

/// An escape, if the text begins with what the reader writes for it.
#[derive(Clone, Copy)]
struct FoundEscape<'a> {
    /// The escape.
    escape: &'static str,
    /// The text after what the reader writes for it.
    rest: &'a str,
    /// Whether that is a negated set.
    negated: bool,
}

/// The escape, if the text begins with the items that the reader writes for it.
fn items<'a>(text: &'a str, written: &'static str, escape: &'static str) -> Option<FoundEscape<'a>>
    ensures { (seen : Bool) → found_part result
        ≡ spec.replaced_part seen (spec.items (chars written.now) (chars escape.now) ∷ []) (chars text.now) }
{
    let rest = after_word(text, written)?;
    Some(FoundEscape {
        escape,
        rest,
        negated: false,
    })
}

/// The text after the `&&` that the reader writes before a negated set if it wrote another before.
fn after_joint(text: &str, seen: bool) -> Option<&str>
    ensures { strip_word (joint seen) (chars text.now) ≡ option_map (λ r. chars r.now) result }
{
    if seen {
        after_word(text, "&&")
    } else {
        Some(text)
    }
}

/// The escape, if the text begins with the negated set that the reader writes for it, after `&&` if it wrote another
/// before.
fn negated_set<'a>(
    text: &'a str,
    seen: bool,
    written: &'static str,
    escape: &'static str,
) -> Option<FoundEscape<'a>>
    ensures { found_part result
        ≡ spec.replaced_part seen (spec.negated_set (chars written.now) (chars escape.now) ∷ []) (chars text.now) }
{
    let set = after_joint(text, seen)?;
    let rest = after_word(set, written)?;
    Some(FoundEscape {
        escape,
        rest,
        negated: true,
    })
}

/// The escape at the front, with UNICODE set, if no other source is written as this text.
fn replaced_with_unicode(text: &str, seen: bool) -> Option<FoundEscape<'_>>
    ensures { found_part result ≡ spec.replaced_part seen (spec.replaced true) (chars text.now) }
{
    items(text, r"\p{Zs}\x09", r"\p{blank}")
        .or(items(text, r"\x00-\x1F\x7F-\x9F", r"\p{cntrl}"))
        .or(items(text, r"[\p{White_Space}\p{C}]", r"\P{graph}"))
        .or(items(text, r"[\p{C}\t\n\v\f\r]", r"\P{print}"))
        .or(negated_set(text, seen, r"[^\p{White_Space}\p{C}]", r"\p{graph}"))
        .or(negated_set(text, seen, r"[^\p{C}\t\n\v\f\r]", r"\p{print}"))
}

/// The escape at the front, if no other source is written as this text.
fn replaced(text: &str, unicode: bool, seen: bool) -> Option<FoundEscape<'_>>
    ensures { found_part result ≡ spec.replaced_part seen (spec.replaced unicode) (chars text.now) }
{
    if unicode {
        replaced_with_unicode(text, seen)
    } else {
        items(text, r"\t ", r"\p{blank}")
    }
}

/// Whether the text that the reader writes for an escape may begin with the character.
fn may_be_replaced(c: char) -> bool
    ensures { result ≡ (c ∈ "\\[&") }
{
    matches!(c, '\\' | '[' | '&')
}

/// The escape at the front of a text that begins with the character.
fn replaced_at(c: char, text: &str, unicode: bool, seen: bool) -> Option<FoundEscape<'_>>
    ensures { (t : Text) → chars text.now ≡ c ∷ t →
        found_part result ≡ spec.replaced_part seen (spec.replaced unicode) (chars text.now) }
{
    if may_be_replaced(c) {
        replaced(text, unicode, seen)
    } else {
        None
    }
}

/// Writes a property by its name: the reader removes one caret, and changes the case of the letter.
fn put_property(out: &mut TextOutput, upper: bool, name: &str) -> Result<(), AllocError>
    ensures { OnOk result (Added out.old out.new (spec.named_property upper (chars name.now))) }
{
    put_property_front(out, upper, name)?;
    out.put('}')
}

/// Writes what is before the closing brace of a property.
fn put_property_front(out: &mut TextOutput, upper: bool, name: &str) -> Result<(), AllocError>
    ensures { OnOk result (Added out.old out.new (spec.named_front upper (chars name.now))) }
{
    match after(name, '^') {
        Some(name) => {
            out.put_text(letter(!upper))?;
            put_ascii(out, "{^^")?;
            out.put_text(name)
        }
        None => {
            out.put_text(letter(upper))?;
            out.put('{')?;
            out.put_text(name)
        }
    }
}

/// Writes what follows the letter of a property, and returns the rest.
fn put_property_at<'a>(
    out: &mut TextOutput,
    upper: bool,
    text: &'a str,
) -> Result<&'a str, AllocError>
    ensures { IfOk result (λ r. AddedPart out.old out.new (spec.property_part upper (chars text.now)) (chars r.now)) }
{
    let Some((c, rest)) = next(text) else {
        out.put_text(letter(upper))?;
        return Ok(text);
    };
    if c != '{' {
        out.put_text(letter(upper))?;
        out.put(c)?;
        return Ok(rest);
    }
    match split_at(rest, '}') {
        Some((name, tail)) => {
            put_property(out, upper, name)?;
            Ok(tail)
        }
        None => {
            out.put_text(letter(upper))?;
            Ok(text)
        }
    }
}

/// Writes a character, or a backslash and what belongs to it, and returns the rest.
fn put_unit<'a>(out: &mut TextOutput, c: char, rest: &'a str) -> Result<&'a str, AllocError>
    ensures { IfOk result (λ r. AddedPart out.old out.new (spec.single_part c (chars rest.now)) (chars r.now)) }
{
    if c == '\\'
        && let Some((letter, tail)) = next(rest)
    {
        if letter == 'p' || letter == 'P' {
            return put_property_at(out, letter == 'P', tail);
        }
        out.put(c)?;
        out.put(letter)?;
        return Ok(tail);
    }
    put_class_character(out, c)?;
    Ok(rest)
}

/// Writes a source that the reader turns into this text.
fn put_source(out: &mut TextOutput, text: &str, unicode: bool) -> Result<(), AllocError>
    ensures { OnOk result (Added out.old out.new (spec.source unicode (chars text.now))) }
{
    let mut rest = text;
    let mut seen = false;
    while let Some((c, tail)) = next(rest) {
        match replaced_at(c, rest, unicode, seen) {
            Some(found) => {
                out.put_text(found.escape)?;
                seen |= found.negated;
                rest = found.rest;
            }
            None => rest = put_unit(out, c, tail)?,
        }
    }
    Ok(())
}

/// Writes a Delegate.
pub(crate) fn put_delegate(
    out: &mut TextOutput,
    inner: &str,
    casei: bool,
    flags: Flags,
) -> Result<(), AllocError>
    ensures { OnOk result (Added out.old out.new (spec.delegate_text flags casei (chars inner.now))) }
{
    if flags.casei && !casei && is_text(inner, "[0-9A-Fa-f]") {
        return put_ascii(out, r"\h");
    }
    if flags.casei && !casei && is_text(inner, "[^0-9A-Fa-f]") {
        return put_ascii(out, r"\H");
    }
    put_source(out, inner, flags.unicode)
}
