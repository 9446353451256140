//! Hex codes after `\x`, `\u` and `\U`.
ghost use Rattle.std.specs.Prelude.{◌≡◌, ℕ, ◌+◌, ◌*◌, ◌-◌, ◌<◌, ◌≤◌, length, chars, IfSome, IfErr, IfOk, option_map};
ghost use Rattle.std.specs.Prelude.{false, true};
ghost use Rattle.fancy_lex.specs.Characters.{code};
ghost use Rattle.fancy_lex.specs.EscapeViews.{escape_of};
ghost use Rattle.fancy_lex.specs.ErrorViews.{LiesWithin};
ghost use Rattle.fancy_lex.specs.ErrorTable.{code_of_no_character};
ghost use Rattle.fancy_lex.specs.Hex as spec;
ghost use Rattle.fancy_lex.specs.Reading.{Reads, choose, fails, gives};
ghost use Rattle.fancy_lex.specs.Text.{EndsWith, Text, strip};

use crate::error::{ParseError, ReadError};
use crate::escape::Escaped;
use crate::flags::Flags;
use crate::layout::skip;
use crate::text::{Reach, after, next, reach};

/// The value of the digit at the front, and the text after it.
#[tactic(auto, unfolding(crate::specs::Hex::hex_digit))]
fn hex_digit(text: &str) -> Option<(u32, &str)>
    ensures value { spec.hex_digit (chars text.now) ≡ option_map (λ p. (p.0, chars p.1.now)) result }
    ensures shorter { IfSome result (λ p. length p.1.now < length text.now) }
    ensures small { IfSome result (λ p. p.0 < 16) }
{
    let (c, rest) = next(text)?;
    let digit = c.to_digit(16)?;
    Some((digit, rest))
}

/// Reads `width` digits, if they are at the front.
pub(crate) fn fixed_digits(text: &str, width: u32) -> Option<(u32, &str)>
    requires { width ≤ 8 }
    ensures value { spec.fixed_digits width 0 (chars text.now) ≡ option_map (λ p. (p.0, chars p.1.now)) result }
    ensures within { IfSome result (λ p. length p.1.now ≤ length text.now) }
{
    let mut rest = text;
    let mut value = 0u32;
    for _read in 0..width {
        let (digit, tail) = hex_digit(rest)?;
        value = value * 16 + digit;
        rest = tail;
    }
    Some((value, rest))
}

/// Reads the closing brace after some digits.
fn closing_brace(text: &str, value: u32, reach: Reach) -> Result<(u32, &str), ReadError>
    ensures value { Reads (λ v. v) result (spec.closing_brace reach true value (strip (code "}") (chars text.now))) }
    ensures shorter { IfOk result (λ p. length p.1.now < length text.now) }
{
    if let Some(rest) = after(text, '}') {
        return Ok((value, rest));
    }
    Err(ReadError::At(reach, ParseError::InvalidHex))
}

/// Reads up to eight digits, each with layout after it, and the closing brace.
fn hex_digits(text: &str, ignore_space: bool, reach: Reach) -> Result<(u32, &str), ReadError>
    ensures value { Reads (λ v. v) result (spec.hex_digits ignore_space reach 8 false 0 (chars text.now)) }
    ensures shorter { IfOk result (λ p. length p.1.now < length text.now) }
{
    let mut rest = text;
    let mut value = 0u32;
    for read in 0..8u32 {
        let Some((digit, tail)) = hex_digit(rest) else {
            if read == 0 {
                return Err(ReadError::At(reach, ParseError::InvalidHex));
            }
            return closing_brace(rest, value, reach);
        };
        value = value * 16 + digit;
        rest = skip(tail, ignore_space)?;
    }
    closing_brace(rest, value, reach)
}

/// Reads the code after the opening brace.
#[tactic(auto, unfolding(crate::specs::Hex::braced_value))]
fn braced_value(text: &str, ignore_space: bool, reach: Reach) -> Result<(u32, &str), ReadError>
    ensures value { Reads (λ v. v) result (spec.braced_value ignore_space reach (chars text.now)) }
    ensures shorter { IfOk result (λ p. length p.1.now < length text.now) }
{
    let rest = skip(text, ignore_space)?;
    hex_digits(rest, ignore_space, reach)
}

/// Reads a code of `width` digits, or one in braces; its error is at `reach`.
#[tactic(auto, unfolding(crate::specs::Hex::value))]
fn value(text: &str, width: u32, ignore_space: bool, reach: Reach) -> Result<(u32, &str), ReadError>
    requires width { width ≤ 8 }
    ensures value { Reads (λ v. v) result (spec.value ignore_space reach width (chars text.now)) }
    ensures within { IfOk result (λ p. length p.1.now ≤ length text.now) }
{
    if let Some(read) = fixed_digits(text, width) {
        return Ok(read);
    }
    match after(text, '{') {
        Some(inside) => braced_value(inside, ignore_space, reach),
        None => Err(ReadError::At(reach, ParseError::InvalidHex)),
    }
}

/// The leaf of a value: after `\x` without UNICODE, a byte if it is from 80 to FF; otherwise a character. None for a
/// value that is no scalar value.
#[inline(always)]
#[tactic(auto, unfolding(crate::specs::Hex::leaf_of_value))]
pub(crate) fn leaf_of_value(value: u32, width: u32, flags: Flags) -> Option<Escaped<'static>>
    ensures { (h : ℕ) (t : Text) → spec.leaf_of_value flags width h value t ≡
        choose result (λ e. gives (escape_of e) t) (fails (code_of_no_character h)) }
{
    if width == 2 && !flags.unicode && value >= 0x80 && value <= 0xFF {
        return Some(Escaped::LiteralBytes { byte: value as u8 });
    }
    let val = char::from_u32(value)?;
    let casei = flags.casei;
    Some(Escaped::Literal { val, casei })
}

/// Reads a code in hexadecimal, by digits or in braces.
#[tactic(auto, unfolding(crate::specs::Hex::hex))]
fn read_hex<'a>(
    text: &'a str,
    width: u32,
    flags: Flags,
) -> Result<(Escaped<'a>, &'a str), ReadError>
    requires width { width ≤ 8 }
    ensures value { Reads escape_of result (spec.hex flags width (chars text.now)) }
    ensures within { IfOk result (λ p. length p.1.now ≤ length text.now) }
{
    let rest = skip(text, flags.ignore_space)?;
    let reach = reach(rest);
    let (value, rest) = value(rest, width, flags.ignore_space, reach)?;
    match leaf_of_value(value, width, flags) {
        Some(leaf) => Ok((leaf, rest)),
        None => Err(ReadError::At(reach, ParseError::InvalidCodepointValue)),
    }
}

/// Parses a hex code after its letter: layout, then `width` digits, or one to eight in braces with layout around them.
/// Its errors are at the position after the first layout: InvalidHex, and InvalidCodepointValue if the value is no
/// character; or the error is UnclosedOpenParen if a comment is not closed.
#[inline]
pub fn hex<'a>(text: &'a str, width: u32, flags: Flags) -> Result<(Escaped<'a>, &'a str), ReadError>
    requires width { width ≤ 8 }
    ensures value { Reads escape_of result (spec.hex flags width (chars text.now)) }
    ensures cut { IfOk result (λ p. EndsWith (chars text.now) (chars p.1.now)) }
    ensures position { IfErr result (λ e. LiesWithin (length text.now + 1) e) }
    ensures within { IfOk result (λ p. length p.1.now ≤ length text.now) }
{
    read_hex(text, width, flags)
}
