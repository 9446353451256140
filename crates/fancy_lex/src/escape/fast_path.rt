//! The fast path of escapes: those that a look ahead reads whole, without an allocator and without an error.
//!
//! `escape` reads the same escapes to the same leaves. So whatever is here can be deleted with its calls, and each result
//! stays as it is; what each reader saves is in the measurements.
ghost use Rattle.std.specs.Prelude.{◌≡◌, ◌==◌, ℕ, ◌<◌, ◌≤◌, false, if◌then◌else◌, [], length, chars, IfSome};
ghost use Rattle.fancy_lex.specs.BoundarySteps as boundaries;
ghost use Rattle.fancy_lex.specs.Characters.{code};
ghost use Rattle.fancy_lex.specs.Escape as spec;
ghost use Rattle.fancy_lex.specs.EscapeViews.{escape_of};
ghost use Rattle.fancy_lex.specs.Hex as codes;
ghost use Rattle.fancy_lex.specs.Reading.{gives};
ghost use Rattle.fancy_lex.specs.Text.{reach_of};
ghost use Rattle.fancy_lex.specs.TokenComments.{escape_comments, token_comments};

use crate::escape::boundary::unnamed_boundary;
use crate::escape::hex::{fixed_digits, leaf_of_value};
use crate::escape::reference::subroutine_call;
use crate::escape::{DelegateText, Escaped, backref_escape, lone_escape, numbered_backref};
use crate::flags::Flags;
use crate::layout::begins_layout;
use crate::property::{Property, PropertyName};
use crate::text::{after, next};

/// The escape at the front, after a backslash outside a class, and the text after it, if the escape is a short one: a
/// single character, a code of a fixed number of digits without whitespace and comments before them, a property whose
/// name is one character, a reference or a call. None for any other escape, and for one that cannot be parsed.
#[inline(always)]
#[tactic(auto, unfolding(crate::specs::Escape::escape_at, crate::specs::Escape::lone_escape, crate::specs::Escape::outside, crate::specs::Escape::number_escape))]
pub fn short_escape(text: &str, flags: Flags) -> Option<(Escaped<'_>, &str)>
    ensures value { IfSome result (λ p.
        spec.escape flags false (chars text.now) ≡ gives (escape_of p.0) (chars p.1.now)) }
    ensures no_comments { IfSome result (λ p. escape_comments (chars text.now) (reach_of (chars p.1.now)) ≡ []) }
    ensures shorter { IfSome result (λ p. length p.1.now < length text.now) }
{
    let (c, rest) = next(text)?;
    let leaf = match c {
        'b' => bare_boundary(rest, false, flags.ignore_space)?,
        'B' => bare_boundary(rest, true, flags.ignore_space)?,
        'x' | 'u' | 'U' => return short_hex(rest, code_width(c), flags),
        'p' | 'P' => return short_property(rest, c, flags),
        '0'..='9' => return numbered_backref(text, flags).ok(),
        'k' => return backref_escape(rest, flags).ok(),
        'g' => return short_call(rest),
        _ => lone_escape(c, flags, false)?,
    };
    Some((leaf, rest))
}

/// The boundary without a name, if the next character shows that no braces belong to it.
#[inline]
fn bare_boundary(text: &str, negated: bool, ignore_space: bool) -> Option<Escaped<'static>>
    ensures { IfSome result (λ e. (p : ℕ) →
        boundaries.boundary ignore_space p negated (chars text.now) ≡ gives (escape_of e) (chars text.now)) }
{
    if begins_layout(text, ignore_space) {
        return None;
    }
    match after(text, '{') {
        Some(_) => None,
        None => Some(unnamed_boundary(negated)),
    }
}

/// How many digits a code without braces has after this letter.
#[inline(always)]
fn code_width(letter: char) -> u32
    ensures value { result ≡ (if letter == code "x" then 2 else if letter == code "u" then 4 else 8) }
    ensures within { result ≤ 8 }
{
    match letter {
        'x' => 2,
        'u' => 4,
        _ => 8,
    }
}

/// The code at the front with `width` digits and no layout before them, if its value is a byte or a character.
#[inline(always)]
#[tactic(auto, unfolding(crate::specs::Hex::hex, crate::specs::Hex::value))]
fn short_hex(text: &str, width: u32, flags: Flags) -> Option<(Escaped<'static>, &str)>
    requires { width ≤ 8 }
    ensures value { IfSome result (λ p.
        codes.hex flags width (chars text.now) ≡ gives (escape_of p.0) (chars p.1.now)) }
    ensures no_comments { IfSome result (λ p. token_comments (chars text.now) (reach_of (chars p.1.now)) ≡ []) }
    ensures within { IfSome result (λ p. length p.1.now ≤ length text.now) }
{
    if begins_layout(text, flags.ignore_space) {
        return None;
    }
    let (value, rest) = fixed_digits(text, width)?;
    let leaf = leaf_of_value(value, width, flags)?;
    Some((leaf, rest))
}

/// The property whose name is the character at the front; None if a brace is there, or nothing.
#[inline(always)]
#[tactic(auto, unfolding(crate::specs::Escape::property, crate::specs::Property::read_property, crate::specs::Property::name_at))]
fn short_property(text: &str, letter: char, flags: Flags) -> Option<(Escaped<'static>, &str)>
    ensures value { IfSome result (λ p. (q : ℕ) →
        spec.property flags false q letter (chars text.now) ≡ gives (escape_of p.0) (chars p.1.now)) }
    ensures shorter { IfSome result (λ p. length p.1.now < length text.now) }
{
    let (c, rest) = next(text)?;
    if c == '{' {
        return None;
    }
    let property = Property {
        negated: letter == 'P',
        name: PropertyName::Single(c),
    };
    let inner = DelegateText::Property {
        property,
        unicode: flags.unicode,
        inside: false,
    };
    let casei = flags.casei;
    Some((Escaped::Delegate { inner, casei }, rest))
}

/// The call at the front, after its `g`, if it can be parsed.
#[inline(always)]
#[tactic(auto, using(crate::proofs::EscapeLemmas::call_is))]
fn short_call(text: &str) -> Option<(Escaped<'_>, &str)>
    ensures value { IfSome result (λ p. (q c : ℕ) →
        spec.call_escape q c (chars text.now) ≡ gives (escape_of p.0) (chars p.1.now)) }
    ensures shorter { IfSome result (λ p. length p.1.now < length text.now) }
{
    let (call, rest) = subroutine_call(text).ok()?;
    Some((Escaped::SubroutineCall(call), rest))
}
