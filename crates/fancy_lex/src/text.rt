//! Steps over the text, which allocate nothing, and strings that grow.
ghost use Rattle.std.specs.Prelude.{◌≡◌, ◌+◌, ◌<◌, ◌≤◌, [], ◌∷◌, ◌++◌, length, chars, MatchOption, IfSome, option_map};
ghost use Rattle.std.specs.Prelude.{is_ok, if◌then◌else◌};
ghost use Rattle.std.specs.Str.{bytes_eq};
ghost use Rattle.fancy_lex.specs.Text.{Text, bytes, cut_at, strip, strip_word, position_at, reach_of, text_of};
ghost use Rattle.fancy_lex.specs.Views.{parts};

use std::alloc::AllocError;

/// The first character, and the text after it.
#[inline(always)]
pub fn next(text: &str) -> Option<(char, &str)>
    ensures value { MatchOption result (chars text.now ≡ []) (λ p. chars text.now ≡ p.0 ∷ chars p.1.now) }
    ensures shorter { MatchOption result (length text.now ≡ 0) (λ p. length p.1.now < length text.now) }
{
    let mut chars = text.chars();
    let c = chars.next()?;
    Some((c, chars.as_str()))
}

/// The text after the character, if the text begins with it.
#[inline(always)]
pub fn after(text: &str, delimiter: char) -> Option<&str>
    ensures value { strip delimiter (chars text.now) ≡ option_map (λ r. chars r.now) result }
    ensures shorter { IfSome result (λ r. length r.now < length text.now) }
{
    let (c, rest) = next(text)?;
    if c == delimiter { Some(rest) } else { None }
}

/// The text after `word`, if the text begins with it.
pub fn after_word<'a>(text: &'a str, word: &str) -> Option<&'a str>
    ensures value { strip_word (chars word.now) (chars text.now) ≡ option_map (λ r. chars r.now) result }
    ensures within { IfSome result (λ r. length r.now ≤ length text.now) }
{
    text.strip_prefix(word)
}

/// The text before the first occurrence of `delimiter`, an ASCII character, and the text after it.
pub fn split_at(text: &str, delimiter: char) -> Option<(&str, &str)>
    requires { delimiter < 128 }
    ensures value { cut_at delimiter (chars text.now) ≡ parts result }
    ensures shorter { IfSome result (λ p. length p.1.now < length text.now) }
{
    text.split_once(delimiter)
}

/// The length of the text in bytes.
#[inline]
pub fn byte_len(text: &str) -> usize
    ensures { result ≡ bytes (chars text.now) }
{
    text.len()
}

/// Whether two texts are the same.
#[tactic(auto, using(crate::proofs::TextLemmas::same_text))]
pub fn is_same_text(a: &str, b: &str) -> bool
    ensures { result ≡ bytes_eq (chars a.now) (chars b.now) }
{
    a == b
}

/// A position, by the number of bytes from there to one past the end of the pattern. The end of the pattern has the reach
/// 1, and the position past it 0.
pub type Reach = usize;

/// The reach of the end of a pattern.
pub const AT_END: Reach = 1;

/// The reach of one past the end of a pattern.
pub const PAST_END: Reach = 0;

/// The reach of the position where `text`, a suffix of the pattern, begins: the number of bytes from there to one past
/// the end of the pattern.
#[inline]
pub fn reach(text: &str) -> Reach
    ensures { result ≡ reach_of (chars text.now) }
{
    text.len() + 1
}

/// The reach of the byte before `text`.
#[inline]
pub fn reach_before(text: &str) -> Reach
    ensures { result ≡ reach_of (chars text.now) + 1 }
{
    text.len() + 2
}

/// The position in the pattern that has this reach.
#[inline]
pub fn position_at(pattern: &str, reach: Reach) -> usize
    ensures { result ≡ position_at (bytes (chars pattern.now)) reach }
{
    (pattern.len() + 1).saturating_sub(reach)
}

/// The slice of `text` before `rest`, which is a suffix of it.
#[inline]
pub fn front<'a>(text: &'a str, rest: &str) -> &'a str
    requires { (w : Text) × (chars text.now ≡ w ++ chars rest.now) }
    ensures { chars text.now ≡ chars result.now ++ chars rest.now }
{
    &text[..text.len() - rest.len()]
}

/// Adds the character to the string.
#[inline]
pub fn push(out: &mut String, c: char) -> Result<(), AllocError>
    ensures { text_of out.new ≡ (if is_ok result then text_of out.old ++ c ∷ [] else text_of out.old) }
{
    out.push(c)
}

/// Adds the text to the string.
#[inline]
pub fn append(out: &mut String, text: &str) -> Result<(), AllocError>
    ensures { text_of out.new ≡ (if is_ok result then text_of out.old ++ chars text.now else text_of out.old) }
{
    out.push_str(text)
}
