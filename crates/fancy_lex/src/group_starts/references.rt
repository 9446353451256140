//! References in the openings of groups: `(?P=id)`, `(?P>name)`, and the group that a condition refers to.
ghost use Rattle.std.specs.Prelude.{◌≡◌, ◌<◌, length, chars, IfOk, IfSome};
ghost use Rattle.fancy_lex.specs.Reading.{Reads};
ghost use Rattle.fancy_lex.specs.NameViews.{view_reference, view_call};
ghost use Rattle.fancy_lex.specs.Views.{parts};
ghost use Rattle.fancy_lex.specs.GroupReference as spec;

use crate::error::{ParseError, ReadError};
use crate::name::delimited::{delimited_name, name_before};
use crate::name::target::{Call, Reference, reference_by_name, target_of_name};
use crate::text::{after, next, reach};

/// Parses a back reference after `(?P=`: an id, and the closing parenthesis. Its reach is that of the id, and so is
/// that of the error: InvalidGroupName if it cannot be parsed.
#[tactic(auto, unfolding(crate::specs::GroupReference::named_reference))]
pub fn named_reference(text: &str) -> Result<(Reference<'_>, &str), ReadError>
    ensures value { Reads view_reference result (spec.named_reference (chars text.now)) }
    ensures shorter { IfOk result (λ p. length p.1.now < length text.now) }
{
    reference_by_name(name_before(text, ')'), false, reach(text))
}

/// Parses a call after `(?P>`: a name, which is a number or itself, and the closing parenthesis. Its reach is that of
/// the name, and so is that of the error: InvalidGroupName if there is no name or no parenthesis.
#[tactic(auto, unfolding(crate::specs::GroupReference::named_call))]
pub fn named_call(text: &str) -> Result<(Call<'_>, &str), ReadError>
    ensures value { Reads view_call result (spec.named_call (chars text.now)) }
    ensures shorter { IfOk result (λ p. length p.1.now < length text.now) }
{
    let reach = reach(text);
    let Some((name, rest)) = name_before(text, ')') else {
        return Err(ReadError::At(reach, ParseError::InvalidGroupName));
    };
    let target = target_of_name(name);
    Ok((Call { target, reach }, rest))
}

/// Whether a condition that begins like this refers to a group: with a quote, a `<`, a sign or an ASCII digit.
#[tactic(auto, unfolding(crate::specs::GroupReference::begins_target))]
pub fn begins_target(condition: &str) -> bool
    ensures { result ≡ spec.begins_target (chars condition.now) }
{
    let Some((c, _)) = next(condition) else {
        return false;
    };
    c == '\'' || c == '<' || c == '+' || c == '-' || c.is_ascii_digit()
}

/// Reads a name in delimiters and a closing parenthesis, or a name up to the parenthesis.
#[tactic(auto, unfolding(crate::specs::GroupReference::condition_name))]
fn condition_name(text: &str) -> Option<(&str, &str)>
    ensures value { spec.condition_name (chars text.now) ≡ parts result }
    ensures shorter { IfSome result (λ p. length p.1.now < length text.now) }
{
    let (first, _) = next(text)?;
    if first != '\'' && first != '<' {
        return name_before(text, ')');
    }
    let (name, rest) = delimited_name(text)?;
    Some((name, after(rest, ')')?))
}

/// Parses what a condition refers to, directly after its `(?(`: an id reference in the form `'ref')`, `<ref>)` or
/// `ref)`. Its reach is that of the text directly after the `(?(`, and so is that of the error: InvalidGroupName if it
/// cannot be parsed.
#[tactic(auto, unfolding(crate::specs::GroupReference::condition_target))]
pub fn condition_target(text: &str) -> Result<(Reference<'_>, &str), ReadError>
    ensures value { Reads view_reference result (spec.condition_target (chars text.now)) }
    ensures shorter { IfOk result (λ p. length p.1.now < length text.now) }
{
    reference_by_name(condition_name(text), true, reach(text))
}
