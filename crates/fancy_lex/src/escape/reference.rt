//! References in escapes: after `\k`, after `\g`, or in digits after a backslash.
ghost use Rattle.std.specs.Prelude.{◌≡◌, ◌<◌, false, length, chars, IfOk, IfSome, option_map};
ghost use Rattle.fancy_lex.specs.EscapeReference as spec;
ghost use Rattle.fancy_lex.specs.Number.{at_digit};
ghost use Rattle.fancy_lex.specs.Reading.{Reads, fails};
ghost use Rattle.fancy_lex.specs.ErrorTable.{number_too_great};
ghost use Rattle.fancy_lex.specs.NameViews.{view_borrowed, view_reference, view_call};
ghost use Rattle.fancy_lex.specs.Views.{view_read};

use crate::error::{ParseError, ReadError};
use crate::name::delimited::delimited_name;
use crate::name::id::{IdReference, id_reference};
use crate::name::number::number;
use crate::name::number_text::number_text;
use crate::name::target::{Call, Reference, Target, reference_by_name, target_of_name};
use crate::text::{Reach, next, reach};

/// Reads all the digits at the front, which are the number of a group. The error is InvalidBackref at the text's reach,
/// if there is no digit, or the number does not fit in a word.
#[inline(always)]
#[tactic(auto, unfolding(crate::specs::EscapeReference::group_number))]
pub(crate) fn group_number(text: &str) -> Result<(usize, &str), ReadError>
    ensures value { Reads (λ n. n) result (spec.group_number (chars text.now)) }
    ensures no_digit { at_digit (chars text.now) ≡ false →
        Reads (λ n. n) result (fails (number_too_great (chars text.now))) }
    ensures shorter { IfOk result (λ p. length p.1.now < length text.now) }
{
    match number(text) {
        Some((Some(number), rest)) => Ok((number, rest)),
        _ => Err(ReadError::at(text, ParseError::InvalidBackref)),
    }
}

/// Parses a back reference in digits, after its backslash. Its reach is that of the first digit. The error is
/// InvalidBackref there, if there is no digit at the front, or the number does not fit in `usize`.
#[inline(always)]
#[tactic(auto, unfolding(crate::specs::EscapeReference::numbered_reference))]
pub fn numbered_reference(text: &str) -> Result<(Reference<'_>, &str), ReadError>
    ensures value { Reads view_reference result (spec.numbered_reference (chars text.now)) }
    ensures no_digit { at_digit (chars text.now) ≡ false →
        Reads view_reference result (fails (number_too_great (chars text.now))) }
    ensures shorter { IfOk result (λ p. length p.1.now < length text.now) }
{
    let reach = reach(text);
    let (number, rest) = group_number(text)?;
    let reference = Reference {
        target: Target::ByNumber(number),
        level: None,
        reach,
    };
    Ok((reference, rest))
}

/// Parses a back reference after `\k`: an id reference between `<` and `>` or between two `'`. Its reach is that of the
/// opening delimiter, and so is that of the error: InvalidGroupName if it cannot be parsed.
#[inline(always)]
#[tactic(auto, unfolding(crate::specs::EscapeReference::back_reference))]
pub fn back_reference(text: &str) -> Result<(Reference<'_>, &str), ReadError>
    ensures value { Reads view_reference result (spec.back_reference (chars text.now)) }
    ensures shorter { IfOk result (λ p. length p.1.now < length text.now) }
{
    reference_by_name(delimited_name(text), true, reach(text))
}

/// Whether the name of a call is relative: only a sign, or a sign and a number text.
#[tactic(auto, unfolding(crate::specs::EscapeReference::is_relative))]
pub fn is_relative(name: &str) -> bool
    ensures { result ≡ spec.is_relative (chars name.now) }
{
    let Some((sign, rest)) = next(name) else {
        return false;
    };
    if sign != '+' && sign != '-' {
        return false;
    }
    next(rest).is_none() || number_text(rest).is_some()
}

/// The group that a call by this name calls; None if the name is relative and no id reference.
#[tactic(auto, unfolding(crate::specs::EscapeReference::call_target))]
fn call_target(name: &str) -> Option<Target<'_>>
    ensures value { spec.call_target (chars name.now) ≡ option_map view_borrowed result }
{
    if !is_relative(name) {
        return Some(target_of_name(name));
    }
    match id_reference(name, true)? {
        IdReference::Amount(amount) => Some(Target::Relative(amount)),
        _ => None,
    }
}

/// Reads a call in digits.
#[inline(always)]
#[tactic(auto, unfolding(crate::specs::EscapeReference::numbered_call))]
fn numbered_call(text: &str) -> Result<(Call<'_>, &str), ReadError>
    ensures value { Reads view_call result (spec.numbered_call (chars text.now)) }
    ensures shorter { IfOk result (λ p. length p.1.now < length text.now) }
{
    let reach = reach(text);
    let (number, rest) = group_number(text)?;
    let target = Target::ByNumber(number);
    Ok((Call { target, reach }, rest))
}

/// The call by this name at the reach; None if the name is relative and no id reference.
#[inline(always)]
#[tactic(auto, unfolding(crate::specs::EscapeReference::written_call))]
fn written_call(name: &str, reach: Reach) -> Option<Call<'_>>
    ensures value { spec.written_call reach (chars name.now) ≡ option_map view_call result }
{
    let target = call_target(name)?;
    Some(Call { target, reach })
}

/// Reads a call in delimiters.
#[inline(always)]
#[tactic(auto, unfolding(crate::specs::EscapeReference::delimited_call))]
fn delimited_call(text: &str, reach: Reach) -> Option<(Call<'_>, &str)>
    ensures value { spec.delimited_call reach (chars text.now) ≡ option_map (view_read view_call) result }
    ensures shorter { IfSome result (λ p. length p.1.now < length text.now) }
{
    let (name, rest) = delimited_name(text)?;
    Some((written_call(name, reach)?, rest))
}

/// Whether there is a digit at the front.
fn is_at_digit(text: &str) -> bool
    ensures { result ≡ at_digit (chars text.now) }
{
    match next(text) {
        Some((c, _)) => c.is_ascii_digit(),
        None => false,
    }
}

/// Parses a call after `\g`: all the digits there, or a name between `<` and `>` or between two `'`. Its reach is that
/// of the first digit or of the opening delimiter, and so is that of the error: InvalidBackref for digits whose number
/// does not fit in `usize`; InvalidGroupName if there is no name, or one that is relative and no id reference.
#[inline(always)]
#[tactic(auto, unfolding(crate::specs::EscapeReference::subroutine_call))]
pub fn subroutine_call(text: &str) -> Result<(Call<'_>, &str), ReadError>
    ensures value { Reads view_call result (spec.subroutine_call (chars text.now)) }
    ensures shorter { IfOk result (λ p. length p.1.now < length text.now) }
{
    if is_at_digit(text) {
        return numbered_call(text);
    }
    let reach = reach(text);
    match delimited_call(text, reach) {
        Some(read) => Ok(read),
        None => Err(ReadError::At(reach, ParseError::InvalidGroupName)),
    }
}
