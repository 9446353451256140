//! Ids: the names that can be used in references.
ghost use Rattle.std.specs.Prelude.{◌≡◌, ◌<◌, ◌≤◌, length, chars, IfSome, option_map, option_and_then};
ghost use Rattle.fancy_lex.specs.Id as spec;
ghost use Rattle.fancy_lex.specs.IdReference as reference;
ghost use Rattle.fancy_lex.specs.NameViews.{view_id_reference};
ghost use Rattle.fancy_lex.specs.Views.{parts};

use crate::name::number_text::whole_number;
use crate::text::{front, next};
use unicode::properties::{GeneralCategory, is_alphabetic};

/// Whether the category is that of a number: a decimal digit, a letter or any other.
fn is_number_category(category: GeneralCategory) -> bool
    ensures { result ≡ spec.is_number_category category }
{
    matches!(
        category,
        GeneralCategory::DecimalNumber
            | GeneralCategory::LetterNumber
            | GeneralCategory::OtherNumber
    )
}

/// Whether the character can be part of an id: a letter or a number in any script, or `_`.
#[tactic(auto, unfolding(crate::specs::Id::is_id_char), using(crate::proofs::AsciiLemmas::ascii_ids))]
fn is_id_char(c: char) -> bool
    ensures { result ≡ spec.is_id_char c }
{
    // Most are ASCII, for which no table is needed.
    if c.is_ascii_alphanumeric() {
        return true;
    }
    if c.is_ascii() {
        return c == '_';
    }
    is_alphabetic(c) || is_number_category(GeneralCategory::for_char(c))
}

/// The text after all the id characters at the front.
#[tactic(auto, using(crate::proofs::IdLemmas::run_ends))]
fn after_id(text: &str) -> &str
    ensures value { (spec.id_run (chars text.now)).1 ≡ chars result.now }
    ensures within { length result.now ≤ length text.now }
{
    let mut rest = text;
    while let Some((c, after)) = next(rest) {
        if !is_id_char(c) {
            return rest;
        }
        rest = after;
    }
    rest
}

/// Parses the id at the front, all the id characters there, and returns it with the text after it. None if there is no
/// id character.
pub fn id(text: &str) -> Option<(&str, &str)>
    ensures value { spec.id (chars text.now) ≡ parts result }
    ensures shorter { IfSome result (λ p. length p.1.now < length text.now) }
{
    let rest = after_id(text);
    if rest.len() == text.len() {
        return None;
    }
    Some((front(text, rest), rest))
}

/// An id reference: an id, an amount, or both.
#[derive(Clone, Copy, Debug)]
pub enum IdReference<'a> {
    /// An id.
    Id(&'a str),
    /// An id, and the number after a sign.
    IdAndAmount(&'a str, isize),
    /// The number after a sign.
    Amount(isize),
}

/// The amount that the whole text writes: a sign, and the ASCII digits of a number of at most `isize::MAX`.
#[tactic(auto, unfolding(crate::specs::IdReference::amount))]
fn amount(text: &str) -> Option<isize>
    ensures value { reference.amount (chars text.now) ≡ result }
{
    let (sign, digits) = next(text)?;
    if sign != '+' && sign != '-' {
        return None;
    }
    let amount = isize::try_from(whole_number(digits)?).ok()?;
    Some(if sign == '-' { -amount } else { amount })
}

/// The amount that the whole text writes, if it is not 0.
#[tactic(auto)]
fn amount_alone(text: &str) -> Option<IdReference<'_>>
    ensures { option_and_then reference.without_id (reference.amount (chars text.now))
        ≡ option_map view_id_reference result }
{
    let amount = amount(text)?;
    if amount == 0 {
        None
    } else {
        Some(IdReference::Amount(amount))
    }
}

/// Parses the whole text as an id reference: an id, and if `relative` allows it, an amount after it or instead of it,
/// which is a sign and the ASCII digits of a number of at most `isize::MAX`; 0 only after an id. None for any other
/// text.
#[tactic(auto, unfolding(crate::specs::IdReference::id_reference))]
pub fn id_reference(text: &str, relative: bool) -> Option<IdReference<'_>>
    ensures value { reference.id_reference relative (chars text.now) ≡ option_map view_id_reference result }
{
    let Some((id, rest)) = id(text) else {
        return if relative { amount_alone(text) } else { None };
    };
    if next(rest).is_none() {
        return Some(IdReference::Id(id));
    }
    if !relative {
        return None;
    }
    Some(IdReference::IdAndAmount(id, amount(rest)?))
}
