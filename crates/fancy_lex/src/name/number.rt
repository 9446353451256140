//! Numbers: the digits at the front of a text.
ghost use Rattle.std.specs.Prelude.{◌≡◌, ℕ, ◌+◌, ◌*◌, ◌<◌, ◌≤◌, ◌∷◌, length, chars, IfSome, MatchOption, false};
ghost use Rattle.fancy_lex.specs.Number as spec;
ghost use Rattle.fancy_lex.specs.Views.{GivesNumber};

use crate::text::next;

/// The value of the digit at the front, and the text after it.
#[inline(always)]
fn digit(text: &str) -> Option<(usize, &str)>
    ensures value { MatchOption result (spec.at_digit (chars text.now) ≡ false)
        (λ p. (chars text.now ≡ spec.digit_code p.0 ∷ chars p.1.now) × (p.0 < 10)) }
    ensures shorter { IfSome result (λ p. length p.1.now < length text.now) }
{
    let (c, rest) = next(text)?;
    if c.is_ascii_digit() {
        Some((c as usize - '0' as usize, rest))
    } else {
        None
    }
}

/// The number with one more digit, if it fits in a word.
#[inline(always)]
fn with_digit(number: usize, digit: usize) -> Option<usize>
    requires { digit < 10 }
    ensures { spec.IsWord result (number * 10 + digit) }
{
    // Most numbers are small, and one comparison shows that the result fits.
    if number < 1 << 60 {
        return Some(number * 10 + digit);
    }
    number.checked_mul(10)?.checked_add(digit)
}

/// The text after all the digits at the front.
#[tactic(auto, using(crate::proofs::NumberLemmas::number_steps))]
fn after_digits(text: &str) -> &str
    ensures value { (spec.run 0 (chars text.now)).1 ≡ chars result.now }
    ensures within { length result.now ≤ length text.now }
{
    let mut rest = text;
    while let Some((_, after)) = digit(rest) {
        rest = after;
    }
    rest
}

/// The number written by the digits of `number` and then those at the front, if it fits in a word, and the text after
/// them.
#[tactic(auto, using(crate::proofs::NumberLemmas::number_steps))]
fn more_digits(number: usize, text: &str) -> (Option<usize>, &str)
    ensures value { (n : ℕ) × (spec.run number (chars text.now) ≡ (n, chars result.1.now)) × spec.IsWord result.0 n }
    ensures within { length result.1.now ≤ length text.now }
{
    let mut value = number;
    let mut rest = text;
    while let Some((next, after)) = digit(rest) {
        let Some(more) = with_digit(value, next) else {
            return (None, after_digits(after));
        };
        value = more;
        rest = after;
    }
    (Some(value), rest)
}

/// Parses the digits at the front: their value, if it fits in `usize`, and the text after them.
#[inline(always)]
#[tactic(auto, using(crate::proofs::NumberLemmas::number_none))]
pub fn number(text: &str) -> Option<(Option<usize>, &str)>
    ensures value { GivesNumber (chars text.now) result }
    ensures shorter { IfSome result (λ p. length p.1.now < length text.now) }
{
    let (first, rest) = digit(text)?;
    // Most have one digit.
    let Some((second, tail)) = digit(rest) else {
        return Some((Some(first), rest));
    };
    Some(more_digits(first * 10 + second, tail))
}
