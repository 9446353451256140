//! Characters: written as they are, after a backslash, or by their codes.
ghost use Rattle.std.specs.Prelude.{◌≡◌, ◌<◌, ◌/◌, ◌%◌, ◌∷◌, [], ◌++◌, codes, true, false, chars, map, OnOk};
ghost use Rattle.std.specs.Bool.{OnTrue};
ghost use Rattle.std.specs.List.{flat_map};
ghost use Rattle.fancy_lex.specs.Characters.{code, is_among, metacharacters};
ghost use Rattle.fancy_lex.specs.Class.{byte_text, upper_hex_digit};
ghost use Rattle.fancy_grammar.specs.PatternLetters as spec;
ghost use Rattle.fancy_pattern.specs.TextOutput.{Added};

use crate::output::{TextOutput, put_ascii};
use fancy_lex::class::upper_hex_digit;
use fancy_lex::escape::{is_metacharacter, letter_of};
use fancy_lex::flags::Flags;
use fancy_lex::text::next;
use std::alloc::AllocError;

/// Whether the character is a control character or another invisible one.
fn is_unseen(c: char) -> bool
    ensures { result ≡ spec.is_unseen c }
{
    matches!(
        c,
        '\0'..='\u{1F}'
            | '\u{7F}'..='\u{A0}'
            | '\u{AD}'
            | '\u{2000}'..='\u{200F}'
            | '\u{2028}'..='\u{202F}'
            | '\u{205F}'..='\u{206F}'
            | '\u{3000}'
            | '\u{FEFF}'
    )
}

/// Whether a character of a Literal needs a backslash under all flags.
#[inline]
pub fn needs_backslash(c: char) -> bool
    ensures { result ≡ is_among c (metacharacters ++ codes "]}") }
{
    is_metacharacter(c) || matches!(c, ']' | '}')
}

/// Whether the character is layout under these flags, and printable: a space, or the start of a comment.
#[inline]
pub fn is_printable_layout(c: char, flags: Flags) -> bool
    ensures { result ≡ spec.is_printable_layout flags c }
{
    flags.ignore_space && (c == ' ' || c == '#')
}

/// Writes a digit of a code.
fn put_hex_digit(out: &mut TextOutput, digit: u8) -> Result<(), AllocError>
    requires { digit < 16 }
    ensures { OnOk result (Added out.old out.new (upper_hex_digit digit ∷ [])) }
{
    out.put(upper_hex_digit(digit))
}

/// Writes four digits.
fn put_hex_digits(out: &mut TextOutput, code: u32) -> Result<(), AllocError>
    requires { code < 65536 }
    ensures { OnOk result (Added out.old out.new
        (map upper_hex_digit (code / 4096 ∷ code / 256 % 16 ∷ code / 16 % 16 ∷ code % 16 ∷ []))) }
{
    put_hex_digit(out, (code / 4096) as u8)?;
    put_hex_digit(out, (code / 256 % 16) as u8)?;
    put_hex_digit(out, (code / 16 % 16) as u8)?;
    put_hex_digit(out, (code % 16) as u8)
}

/// Writes a character of at most four digits by its code.
#[tactic(auto, using(crate::proofs::OutputLemmas::added_steps))]
fn put_code(out: &mut TextOutput, c: char) -> Result<(), AllocError>
    requires { c < 65536 }
    ensures { OnOk result (Added out.old out.new (spec.coded c)) }
{
    let code = u32::from(c);
    if code < 0x80 {
        return out.put_byte(code as u8);
    }
    put_ascii(out, r"\u")?;
    put_hex_digits(out, code)
}

/// Writes a visible character, or the code of an invisible one.
fn put_plain(out: &mut TextOutput, c: char) -> Result<(), AllocError>
    ensures { OnOk result (Added out.old out.new (spec.plain c)) }
{
    if is_unseen(c) {
        put_code(out, c)
    } else {
        out.put(c)
    }
}

/// Writes the character after a backslash.
#[tactic(auto, using(crate::proofs::OutputLemmas::added_steps))]
fn put_after_backslash(out: &mut TextOutput, c: char) -> Result<(), AllocError>
    ensures { OnOk result (Added out.old out.new (code "\\" ∷ c ∷ [])) }
{
    out.put('\\')?;
    out.put(c)
}

/// Writes a character of a class.
pub(crate) fn put_class_character(out: &mut TextOutput, c: char) -> Result<(), AllocError>
    ensures { OnOk result (Added out.old out.new (spec.by_letter_or c (spec.plain c))) }
{
    // Most characters are these: this saves the tests for the others.
    if matches!(c, ' '..='~') {
        return out.put(c);
    }
    match letter_of(c) {
        Some(letter) => put_after_backslash(out, letter),
        None => put_plain(out, c),
    }
}

/// Writes a character of a case-insensitive Literal.
fn put_caseless(out: &mut TextOutput, c: char, flags: Flags) -> Result<(), AllocError>
    ensures { OnOk result (Added out.old out.new (spec.character flags true c)) }
{
    if is_metacharacter(c) || is_printable_layout(c, flags) {
        put_code(out, c)
    } else {
        put_plain(out, c)
    }
}

/// Writes a character of a case-sensitive Literal.
fn put_cased(out: &mut TextOutput, c: char, flags: Flags) -> Result<(), AllocError>
    ensures { OnOk result (Added out.old out.new (spec.character flags false c)) }
{
    if let Some(letter) = letter_of(c) {
        return put_after_backslash(out, letter);
    }
    if needs_backslash(c) || is_printable_layout(c, flags) || flags.casei {
        put_after_backslash(out, c)
    } else {
        put_plain(out, c)
    }
}

/// Whether an ASCII letter or digit represents itself in a Literal. A case-sensitive one needs a backslash if the flag
/// is set.
#[tactic(auto, using(crate::proofs::LetterLemmas::stands_for_itself))]
fn is_itself(c: char, casei: bool, flags: Flags) -> bool
    ensures { OnTrue result (spec.character flags casei c ≡ c ∷ []) }
{
    c.is_ascii_alphanumeric() && (casei || !flags.casei)
}

/// Writes a character of a Literal.
#[inline(always)]
#[tactic(auto, using(crate::proofs::OutputLemmas::added_steps))]
fn put_character(out: &mut TextOutput, c: char, casei: bool, flags: Flags) -> Result<(), AllocError>
    ensures { OnOk result (Added out.old out.new (spec.character flags casei c)) }
{
    if is_itself(c, casei, flags) {
        return out.put(c);
    }
    put_special(out, c, casei, flags)
}

/// Writes a character of a Literal, whatever it is. It is a function of its own: inlined, it would cost each letter
/// registers.
#[inline(never)]
#[tactic(auto, using(crate::proofs::OutputLemmas::added_steps))]
fn put_special(out: &mut TextOutput, c: char, casei: bool, flags: Flags) -> Result<(), AllocError>
    ensures { OnOk result (Added out.old out.new (spec.character flags casei c)) }
{
    if casei {
        put_caseless(out, c, flags)
    } else {
        put_cased(out, c, flags)
    }
}

/// Writes a Literal.
#[inline(always)]
pub(crate) fn put_literal(
    out: &mut TextOutput,
    val: &str,
    casei: bool,
    flags: Flags,
) -> Result<(), AllocError>
    ensures { OnOk result (Added out.old out.new (flat_map (spec.character flags casei) (chars val.now))) }
{
    let mut rest = val;
    while let Some((c, after)) = next(rest) {
        put_character(out, c, casei, flags)?;
        rest = after;
    }
    Ok(())
}

/// Writes bytes by their codes.
pub(crate) fn put_bytes(out: &mut TextOutput, bytes: &[u8]) -> Result<(), AllocError>
    ensures { OnOk result (Added out.old out.new (flat_map byte_text bytes.now)) }
{
    for byte in bytes {
        out.put_byte(*byte)?;
    }
    Ok(())
}
