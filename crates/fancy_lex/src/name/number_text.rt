//! Number texts: whole texts that write a number.
ghost use Rattle.std.specs.Prelude.{◌≡◌, chars};
ghost use Rattle.fancy_lex.specs.NumberText as spec;

use crate::name::number::number;
use crate::text::{after, next};

/// The number that the whole text writes in ASCII digits, if it fits in a word.
#[inline(always)]
#[tactic(auto, unfolding(crate::specs::NumberText::whole_number))]
pub(crate) fn whole_number(text: &str) -> Option<usize>
    ensures value { spec.whole_number (chars text.now) ≡ result }
{
    let (value, rest) = number(text)?;
    if next(rest).is_none() { value } else { None }
}

/// The value of a number text, which is the ASCII digits of a number that fits in `usize`, and before them nothing or a
/// plus. None for any other text.
#[inline(always)]
#[tactic(auto, unfolding(crate::specs::NumberText::number_text))]
pub fn number_text(text: &str) -> Option<usize>
    ensures value { spec.number_text (chars text.now) ≡ result }
{
    whole_number(after(text, '+').unwrap_or(text))
}
