//! The text that a character, a number or a quantifier is printed as: its length in bytes, and writing it.
ghost use Rattle.std.specs.Prelude.{◌≡◌, ℕ, true, ◌+◌, ◌<◌, ◌≤◌, ◌∷◌, [], ◌++◌, chars, codes, decimal, is_some};
ghost use Rattle.fancy_lex.specs.Number.{digit_code};
ghost use Rattle.fancy_lex.specs.Text.{Text, bytes};
ghost use Rattle.fancy_grammar.specs.Quote as spec;
ghost use Rattle.fancy_grammar.specs.Quote.{AreUnquoted};
ghost use Rattle.fancy_syntax.specs.Capacity.{HasCapacity, Appended};

use crate::print::reserved::{put, put_text};
use fancy_lex::text::{front, next};

/// Whether the character is printed with a backslash.
#[inline]
fn is_escaped(c: char) -> bool
    ensures { result ≡ is_some (spec.after_backslash c) }
{
    // Most characters are letters, for which this test is enough.
    if c.is_ascii_alphabetic() {
        return false;
    }
    // One set is one test: with `is_metacharacter` and `letter_of`, printing takes 3 % more.
    match c {
        '\n' | '\t' | '\r' => true,
        '\\' | '.' | '+' | '*' | '?' | '(' | ')' | '|' | '[' | ']' | '{' | '}' | '^' | '$' | '#' =>
            true,
        _ => false,
    }
}

/// What is written after a backslash for a character, if it is not written as itself.
#[inline]
pub(crate) fn after_backslash(c: char) -> Option<char>
    ensures { spec.after_backslash c ≡ result }
{
    if !is_escaped(c) {
        return None;
    }
    match c {
        '\n' => Some('n'),
        '\t' => Some('t'),
        '\r' => Some('r'),
        _ => Some(c),
    }
}

/// Whether the character of the byte is printed with a backslash; no character of several bytes is.
#[inline]
fn is_quoted(byte: u8) -> bool
    ensures { result ≡ is_some (spec.after_backslash byte) }
{
    is_escaped(char::from(byte))
}

/// Writes a character, with a backslash if it needs one.
#[inline]
#[tactic(auto, using(crate::proofs::CapacityLemmas::capacity_steps), unfolding(fancy_grammar::specs::Quote::quote))]
fn put_quote(buf: &mut String, c: char)
    requires { HasCapacity buf.old (spec.quote c) }
    ensures { Appended buf.old buf.new (spec.quote c) }
{
    match after_backslash(c) {
        None => put(buf, c),
        Some(letter) => put_after_backslash(buf, letter),
    }
}

/// Writes a backslash, and what is written after it.
#[inline(never)]
#[tactic(auto, using(crate::proofs::CapacityLemmas::capacity_steps))]
fn put_after_backslash(buf: &mut String, letter: char)
    requires { HasCapacity buf.old (codes "\\" ++ letter ∷ []) }
    ensures { Appended buf.old buf.new (codes "\\" ++ letter ∷ []) }
{
    put(buf, '\\');
    put(buf, letter);
}

/// The length in bytes of the text as it is printed.
#[inline]
pub fn quotes_len(text: &str) -> usize
    ensures { result ≡ bytes (spec.quotes (chars text.now)) }
{
    // In the tree of a pattern a literal is one character.
    if let [byte] = text.as_bytes() {
        1 + usize::from(is_quoted(*byte))
    } else {
        runs_len(text)
    }
}

/// The same for a text of any length.
#[inline(never)]
fn runs_len(text: &str) -> usize
    ensures { result ≡ bytes (spec.quotes (chars text.now)) }
{
    let mut len = text.len();
    for byte in text.as_bytes() {
        if is_quoted(*byte) {
            len += 1;
        }
    }
    len
}

/// Writes a text, with a backslash before each character that needs one.
#[inline]
pub fn put_quotes(buf: &mut String, text: &str)
    requires { HasCapacity buf.old (spec.quotes (chars text.now)) }
    ensures { Appended buf.old buf.new (spec.quotes (chars text.now)) }
{
    // In the tree of a pattern a literal is one character, for which a push is shorter than a copy.
    if let [byte] = text.as_bytes() {
        put_quote(buf, char::from(*byte));
    } else {
        put_runs(buf, text);
    }
}

/// The text after the characters at the front that are printed as themselves.
#[inline]
fn after_run(text: &str) -> &str
    ensures run { AreUnquoted (chars text.now) (chars result.now) }
    ensures whole { (c : ℕ) (t : Text) → chars result.now ≡ c ∷ t → is_some (spec.after_backslash c) ≡ true }
{
    let mut rest = text;
    while let Some((c, after)) = next(rest) {
        if after_backslash(c).is_some() {
            return rest;
        }
        rest = after;
    }
    rest
}

/// Writes a text, the characters that are printed as themselves in runs.
#[inline(never)]
fn put_runs(buf: &mut String, text: &str)
    requires { HasCapacity buf.old (spec.quotes (chars text.now)) }
    ensures { Appended buf.old buf.new (spec.quotes (chars text.now)) }
{
    let mut rest = text;
    loop {
        let escaped = after_run(rest);
        put_text(buf, front(rest, escaped));
        let Some((c, after)) = next(escaped) else {
            return;
        };
        put_quote(buf, c);
        rest = after;
    }
}

/// How many digits a number has.
#[tactic(auto, using(crate::proofs::QuoteLemmas::number_steps))]
pub fn number_len(n: usize) -> usize
    ensures value { result ≡ bytes (decimal n) }
    ensures within { result ≤ 20 }
{
    if n < 10 { 1 } else { number_len(n / 10) + 1 }
}

/// The digit of a number below ten.
#[inline]
fn digit(n: usize) -> char
    requires { n < 10 }
    ensures { result ≡ digit_code n }
{
    char::from(b'0' + n as u8)
}

/// Writes a number in decimal digits.
#[tactic(auto, using(crate::proofs::CapacityLemmas::capacity_steps, crate::proofs::QuoteLemmas::number_steps))]
pub fn put_number(buf: &mut String, n: usize)
    requires { HasCapacity buf.old (decimal n) }
    ensures { Appended buf.old buf.new (decimal n) }
{
    if n < 10 {
        put(buf, digit(n));
    } else {
        put_number(buf, n / 10);
        put(buf, digit(n % 10));
    }
}

/// The length in bytes of a quantifier as it is printed.
#[tactic(auto, using(crate::proofs::CapacityLemmas::capacity_steps))]
pub fn quantifier_len(lo: usize, hi: usize, greedy: bool) -> usize
    ensures value { result ≡ bytes (spec.quantifier lo hi greedy) }
    ensures within { result ≤ 44 }
{
    counts_len(lo, hi) + usize::from(!greedy)
}

/// The quantifier's operator for a least and a greatest count.
#[tactic(auto, unfolding(fancy_grammar::specs::Quote::operator))]
pub fn operator(lo: usize, hi: usize) -> Option<char>
    ensures { spec.operator lo hi ≡ result }
{
    if lo == 0 && hi == 1 {
        Some('?')
    } else if lo == 0 && hi == usize::MAX {
        Some('*')
    } else if lo == 1 && hi == usize::MAX {
        Some('+')
    } else {
        None
    }
}

/// The length in bytes of the counts of a quantifier: an operator, or a range in braces.
#[tactic(auto, using(crate::proofs::CapacityLemmas::capacity_steps, crate::proofs::QuoteLemmas::counts_steps))]
fn counts_len(lo: usize, hi: usize) -> usize
    ensures value { result ≡ bytes (spec.counts_text lo hi) }
    ensures within { result ≤ 43 }
{
    match operator(lo, hi) {
        Some(operator) => operator.len_utf8(),
        None => range_len(lo, hi) + 2,
    }
}

/// The length in bytes of the text in the braces of a range.
#[tactic(auto, using(crate::proofs::CapacityLemmas::capacity_steps, crate::proofs::QuoteLemmas::range_steps))]
pub fn range_len(lo: usize, hi: usize) -> usize
    ensures value { result ≡ bytes (spec.range lo hi) }
    ensures within { result ≤ 41 }
{
    if lo == hi {
        number_len(lo)
    } else if hi == usize::MAX {
        number_len(lo) + 1
    } else {
        number_len(lo) + number_len(hi) + 1
    }
}

/// Writes a quantifier.
#[tactic(auto, using(crate::proofs::CapacityLemmas::capacity_steps))]
pub fn put_quantifier(buf: &mut String, lo: usize, hi: usize, greedy: bool)
    requires { HasCapacity buf.old (spec.quantifier lo hi greedy) }
    ensures { Appended buf.old buf.new (spec.quantifier lo hi greedy) }
{
    put_counts(buf, lo, hi);
    if !greedy {
        put(buf, '?');
    }
}

/// Writes the counts of a quantifier: an operator, or a range in braces.
#[tactic(auto, using(crate::proofs::CapacityLemmas::capacity_steps, crate::proofs::QuoteLemmas::counts_steps))]
fn put_counts(buf: &mut String, lo: usize, hi: usize)
    requires { HasCapacity buf.old (spec.counts_text lo hi) }
    ensures { Appended buf.old buf.new (spec.counts_text lo hi) }
{
    match operator(lo, hi) {
        Some(operator) => put(buf, operator),
        None => {
            put(buf, '{');
            put_range(buf, lo, hi);
            put(buf, '}');
        }
    }
}

/// Writes the text in the braces of a range.
#[tactic(auto, using(crate::proofs::CapacityLemmas::capacity_steps, crate::proofs::QuoteLemmas::range_steps))]
pub fn put_range(buf: &mut String, lo: usize, hi: usize)
    requires { HasCapacity buf.old (spec.range lo hi) }
    ensures { Appended buf.old buf.new (spec.range lo hi) }
{
    if lo == hi {
        put_number(buf, lo);
    } else if hi == usize::MAX {
        put_number(buf, lo);
        put(buf, ',');
    } else {
        put_number(buf, lo);
        put(buf, ',');
        put_number(buf, hi);
    }
}
