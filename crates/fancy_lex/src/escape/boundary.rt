//! Word boundaries after `\b` and `\B`.
ghost use Rattle.std.specs.Prelude.{◌≡◌, ℕ, ◌+◌, ◌<◌, ◌≤◌, Bool, ◌∷◌, length, chars, IfSome, IfErr, IfOk, MatchResult};
ghost use Rattle.std.specs.Prelude.{option_map};
ghost use Rattle.fancy_lex.specs.Boundary as spec;
ghost use Rattle.fancy_lex.specs.BoundarySteps as steps;
ghost use Rattle.fancy_lex.specs.Escaped.{Escape};
ghost use Rattle.fancy_lex.specs.EscapeViews.{escape_of};
ghost use Rattle.fancy_lex.specs.Located.{invalid_escape};
ghost use Rattle.fancy_lex.specs.ErrorViews.{LiesWithin};
ghost use Rattle.fancy_lex.specs.ErrorTable.{boundary_start, boundary_not_closed};
ghost use Rattle.fancy_lex.specs.Reading.{Reading, Returns, CarriesText, Reports, Derives, gives, fails, error_at};
ghost use Rattle.fancy_lex.specs.Reading.{layout_reading};
ghost use Rattle.fancy_lex.specs.BoundaryName as name_spec;
ghost use Rattle.fancy_lex.specs.LayoutSteps.{layout};
ghost use Rattle.fancy_lex.specs.Text.{EndsWith, Text, text_of};

use crate::error::{ParseError, ReadError};
use crate::escape::{Assertion, Escaped};
use crate::flags::Flags;
use crate::layout::{layout, past_layout, skip};
use crate::text::{Reach, after, next, push};
use std::alloc::Global;

/// The boundary without a name.
pub(crate) fn unnamed_boundary(negated: bool) -> Escaped<'static>
    ensures { escape_of result ≡ spec.unnamed_boundary negated }
{
    if negated {
        Escaped::Assertion(Assertion::NotWordBoundary)
    } else {
        Escaped::Assertion(Assertion::WordBoundary)
    }
}

/// Whether the count of a repeat begins here.
fn at_count(text: &str) -> bool
    ensures { result ≡ spec.at_count (chars text.now) }
{
    match next(text) {
        Some((c, _)) => c.is_ascii_digit() || c == ',',
        None => false,
    }
}

/// The text after the word and a closing brace, if they are at the front with layout before each character.
#[tactic(auto, using(crate::proofs::BoundaryLemmas::after_name_steps))]
fn after_name<'a>(text: &'a str, word: &str, ignore_space: bool) -> Option<&'a str>
    ensures value { name_spec.after_name ignore_space (chars word.now) (chars text.now) ≡
        option_map (λ r. chars r.now) result }
    ensures shorter { IfSome result (λ r. length r.now < length text.now) }
{
    let mut rest = text;
    let mut word = word;
    loop {
        rest = past_layout(rest, ignore_space)?;
        let Some((c, more)) = next(word) else {
            return after(rest, '}');
        };
        rest = after(rest, c)?;
        word = more;
    }
}

/// The boundary whose name and closing brace are at the front, and the text after them.
#[tactic(auto, unfolding(crate::specs::BoundaryName::known_boundary))]
fn known_boundary(text: &str, ignore_space: bool) -> Option<(Assertion, &str)>
    ensures value { name_spec.known_boundary ignore_space (chars text.now) ≡
        option_map (λ p. (p.0, chars p.1.now)) result }
    ensures shorter { IfSome result (λ p. length p.1.now < length text.now) }
{
    if let Some(rest) = after_name(text, "start", ignore_space) {
        return Some((Assertion::LeftWordBoundary, rest));
    }
    if let Some(rest) = after_name(text, "end", ignore_space) {
        return Some((Assertion::RightWordBoundary, rest));
    }
    if let Some(rest) = after_name(text, "start-half", ignore_space) {
        return Some((Assertion::LeftWordHalfBoundary, rest));
    }
    let rest = after_name(text, "end-half", ignore_space)?;
    Some((Assertion::RightWordHalfBoundary, rest))
}

/// Why a name in braces has no closing brace.
#[derive(Clone, Copy)]
enum NotClosed {
    /// A comment in its layout is not closed; the reach of that error.
    Comment(Reach),
    /// The text ends in the braces.
    Braces,
}

/// The error of braces that are not closed.
fn unclosed_error(alloc: Global, reach: Reach) -> ReadError
    ensures { Reports {A = Escape} result (fails (boundary_not_closed reach)) }
{
    match String::from_str(alloc, r"\b{...}") {
        Ok(text) => ReadError::At(reach, ParseError::InvalidEscape(text)),
        Err(refused) => ReadError::from(refused),
    }
}

/// The error of a name without a closing brace, in an escape whose backslash is at `reach`.
fn not_closed_error(alloc: Global, cause: NotClosed, reach: Reach) -> ReadError
    ensures { Reports {A = Escape} result (fails (name_spec.not_closed reach cause)) }
{
    match cause {
        NotClosed::Comment(comment) => ReadError::At(comment, ParseError::UnclosedOpenParen),
        NotClosed::Braces => unclosed_error(alloc, reach),
    }
}

/// The text before the name, with its backslash.
fn boundary_start(negated: bool) -> &'static str
    ensures { chars result.now ≡ boundary_start negated }
{
    if negated { r"\B{" } else { r"\b{" }
}

/// Reads the next character of a name in braces, after layout: the character and the text after it.
fn next_in_name(text: &str, ignore_space: bool) -> Result<(char, &str), NotClosed>
    ensures value { MatchResult result
        (λ p. layout_reading (layout ignore_space (chars text.now)) ≡ gives tt (p.0 ∷ chars p.1.now))
        (λ e. (reach k : ℕ) (out : Text) → 0 < k → name_spec.name_error_after ignore_space reach out k (chars text.now) ≡
        fails (name_spec.not_closed reach e)) }
    ensures shorter { IfOk result (λ p. length p.1.now < length text.now) }
{
    let name = match layout(text, ignore_space) {
        Ok(name) => name,
        Err(comment) => return Err(NotClosed::Comment(comment)),
    };
    match next(name) {
        Some(read) => Ok(read),
        None => Err(NotClosed::Braces),
    }
}

/// Looks for the closing brace of a name. It cannot allocate, so that a name without one is found without memory for
/// the name.
fn find_closing_brace(text: &str, ignore_space: bool) -> Result<(), NotClosed>
    ensures found { IfOk result (λ _. (reach : ℕ) (negated : Bool) →
        CarriesText (name_spec.name_error ignore_space reach negated (chars text.now))) }
    ensures error { IfErr result (λ e. (reach : ℕ) (negated : Bool) →
        name_spec.name_error ignore_space reach negated (chars text.now) ≡ fails (name_spec.not_closed reach e)) }
{
    let mut rest = text;
    loop {
        let (c, more) = next_in_name(rest, ignore_space)?;
        if c == '}' {
            return Ok(());
        }
        rest = more;
    }
}

/// The escape through its closing brace, with layout taken out: the text that the error of an unknown name carries.
fn bare_escape(
    alloc: Global,
    text: &str,
    negated: bool,
    ignore_space: bool,
    reach: Reach,
) -> Result<String, ReadError>
    ensures value { let error = name_spec.name_error ignore_space reach negated (chars text.now) in
        MatchResult result (λ s. error ≡ error_at reach (invalid_escape (text_of s))) (λ e. Reports e error) }
{
    if let Err(cause) = find_closing_brace(text, ignore_space) {
        return Err(not_closed_error(alloc, cause, reach));
    }
    let mut out = String::from_str(alloc, boundary_start(negated))?;
    let mut rest = text;
    loop {
        let (c, more) = match next_in_name(rest, ignore_space) {
            Ok(read) => read,
            Err(cause) => return Err(not_closed_error(alloc, cause, reach)),
        };
        push(&mut out, c)?;
        if c == '}' {
            return Ok(out);
        }
        rest = more;
    }
}

/// Reads a name in braces after the opening brace.
#[tactic(auto, using(crate::proofs::BoundaryLaws::braced_steps))]
fn named_boundary<'a>(
    alloc: Global,
    text: &'a str,
    negated: bool,
    ignore_space: bool,
    reach: Reach,
) -> Result<(Escaped<'a>, &'a str), ReadError>
    ensures value { Returns escape_of result (steps.named_boundary ignore_space reach negated (chars text.now)) }
    ensures shorter { IfOk result (λ p. length p.1.now < length text.now) }
{
    if !negated {
        if let Some((assertion, rest)) = known_boundary(text, ignore_space) {
            return Ok((Escaped::Assertion(assertion), rest));
        }
    }
    let text = bare_escape(alloc, text, negated, ignore_space, reach)?;
    Err(ReadError::At(reach, ParseError::InvalidEscape(text)))
}

/// Reads a word boundary after its letter, with the braces that belong to it.
#[tactic(auto, unfolding(crate::specs::BoundarySteps::boundary))]
fn read_boundary<'a>(
    alloc: Global,
    text: &'a str,
    negated: bool,
    flags: Flags,
    reach: Reach,
) -> Result<(Escaped<'a>, &'a str), ReadError>
    ensures value { Returns escape_of result (steps.boundary flags.ignore_space reach negated (chars text.now)) }
    ensures within { IfOk result (λ p. length p.1.now ≤ length text.now) }
{
    let rest = skip(text, flags.ignore_space)?;
    let Some(inside) = after(rest, '{') else {
        return Ok((unnamed_boundary(negated), text));
    };
    let first = skip(inside, flags.ignore_space)?;
    if at_count(first) {
        return Ok((unnamed_boundary(negated), text));
    }
    named_boundary(alloc, inside, negated, flags.ignore_space, reach)
}

/// Parses a word boundary after its letter, `B` if it is negated; its backslash is at `reach`. Braces belong to it
/// unless they begin a quantifier. UnclosedOpenParen if a comment in it is not closed; InvalidEscape at the backslash
/// if its braces are not closed, or hold no name of a boundary.
#[inline]
pub fn boundary<'a>(
    alloc: Global,
    text: &'a str,
    negated: bool,
    flags: Flags,
    reach: Reach,
) -> Result<(Escaped<'a>, &'a str), ReadError>
    ensures value { Returns escape_of result (steps.boundary flags.ignore_space reach negated (chars text.now)) }
    ensures derives { Derives escape_of result (spec.Boundary flags.ignore_space reach negated (chars text.now)) }
    ensures only { (o : Reading Escape) → spec.Boundary flags.ignore_space reach negated (chars text.now) o →
        Returns escape_of result o }
    ensures cut { IfOk result (λ p. EndsWith (chars text.now) (chars p.1.now)) }
    ensures position { (m : ℕ) → reach ≤ m → length text.now + 1 ≤ m → IfErr result (λ e. LiesWithin m e) }
    ensures within { IfOk result (λ p. length p.1.now ≤ length text.now) }
{
    read_boundary(alloc, text, negated, flags, reach)
}
