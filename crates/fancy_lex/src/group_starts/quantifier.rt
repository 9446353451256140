//! Quantifiers: the counts of a repeat, and how they are written.
ghost use Rattle.std.specs.Prelude.{◌≡◌, ◌<◌, ◌≤◌, length, chars, IfSome, option_map, Some};
ghost use Rattle.fancy_lex.specs.Text.{EndsWith};
ghost use Rattle.fancy_lex.specs.Quantifier as spec;

use crate::counts::Counts;
use crate::layout::past_layout;
use crate::name::number::number;
use crate::text::{after, next};

/// Reads a count of a repeat, which is None if there is no digit. It fails if the count does not fit in a word.
#[tactic(auto, unfolding(crate::specs::Quantifier::count))]
fn count(text: &str) -> Option<(Option<usize>, &str)>
    ensures value { spec.count (chars text.now) ≡ option_map (λ p. (p.0, chars p.1.now)) result }
    ensures within { IfSome result (λ p. length p.1.now ≤ length text.now) }
{
    match number(text) {
        None => Some((None, text)),
        Some((None, _)) => None,
        Some((Some(n), rest)) => Some((Some(n), rest)),
    }
}

/// Reads a count with layout around it.
#[tactic(auto, unfolding(crate::specs::Quantifier::spaced_count))]
fn spaced_count(text: &str, ignore_space: bool) -> Option<(Option<usize>, &str)>
    ensures value { spec.spaced_count ignore_space (chars text.now) ≡ option_map (λ p. (p.0, chars p.1.now)) result }
    ensures within { IfSome result (λ p. length p.1.now ≤ length text.now) }
{
    let start = past_layout(text, ignore_space)?;
    let (n, rest) = count(start)?;
    let rest = past_layout(rest, ignore_space)?;
    Some((n, rest))
}

/// Reads the greatest count and the closing brace, after the comma that follows the least count.
#[tactic(auto, unfolding(crate::specs::Quantifier::counts_from))]
fn counts_from(text: &str, ignore_space: bool, low: usize) -> Option<(Counts, &str)>
    ensures value { spec.counts_from ignore_space low (chars text.now) ≡ option_map (λ p. (p.0, chars p.1.now)) result }
    ensures shorter { IfSome result (λ p. length p.1.now < length text.now) }
{
    let (high, rest) = spaced_count(text, ignore_space)?;
    let rest = after(rest, '}')?;
    Some((in_braces(low, high.unwrap_or(usize::MAX)), rest))
}

/// Reads the braces of a repeat, after the opening brace.
#[tactic(auto, unfolding(crate::specs::Quantifier::braced_counts))]
fn braced_counts(text: &str, ignore_space: bool) -> Option<(Counts, &str)>
    ensures value { spec.braced_counts ignore_space (chars text.now) ≡ option_map (λ p. (p.0, chars p.1.now)) result }
    ensures shorter { IfSome result (λ p. length p.1.now < length text.now) }
{
    let (low, rest) = spaced_count(text, ignore_space)?;
    if let Some(after) = after(rest, '}') {
        let n = low?;
        return Some((in_braces(n, n), after));
    }
    let rest = after(rest, ',')?;
    counts_from(rest, ignore_space, low.unwrap_or(0))
}

/// These counts in braces.
fn in_braces(low: usize, high: usize) -> Counts
    ensures { result ≡ spec.in_braces low high }
{
    Counts {
        low,
        high,
        braces: true,
    }
}

/// The counts of a quantifier's operator.
fn as_operator(low: usize, high: usize) -> Counts
    ensures { result ≡ spec.as_operator low high }
{
    Counts {
        low,
        high,
        braces: false,
    }
}

/// Reads a quantifier: an operator, or counts in braces.
#[inline(always)]
#[tactic(auto, unfolding(crate::specs::Quantifier::counts))]
fn read_counts(text: &str, ignore_space: bool) -> Option<(Counts, &str)>
    ensures value { spec.counts ignore_space (chars text.now) ≡ option_map (λ p. (p.0, chars p.1.now)) result }
    ensures shorter { IfSome result (λ p. length p.1.now < length text.now) }
{
    let (c, rest) = next(text)?;
    match c {
        '?' => Some((as_operator(0, 1), rest)),
        '*' => Some((as_operator(0, usize::MAX), rest)),
        '+' => Some((as_operator(1, usize::MAX), rest)),
        '{' => braced_counts(rest, ignore_space),
        _ => None,
    }
}

/// Parses the counts of a quantifier, `?`, `*`, `+` or braces that are complete, and returns them with the text after
/// the character or the closing brace. None if there is no quantifier. Inside braces layout is skipped, comments always
/// and whitespace if `ignore_space` is set.
#[inline(always)]
pub fn counts(text: &str, ignore_space: bool) -> Option<(Counts, &str)>
    ensures value { spec.counts ignore_space (chars text.now) ≡ option_map (λ p. (p.0, chars p.1.now)) result }
    ensures cut { IfSome result (λ p. EndsWith (chars text.now) (chars p.1.now)) }
    ensures shorter { IfSome result (λ p. length p.1.now < length text.now) }
{
    read_counts(text, ignore_space)
}
