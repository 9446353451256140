//! Escapes: the text after a backslash.
ghost use Rattle.std.specs.Prelude.{◌≡◌, ℕ, true, ◌+◌, ◌^◌, ◌<◌, ◌≤◌, [], ◌∷◌, if◌then◌else◌, false};
ghost use Rattle.std.specs.Prelude.{length, chars, IfErr, IfOk, option_map};
ghost use Rattle.fancy_lex.specs.Characters.{code, is_among, metacharacters};
ghost use Rattle.fancy_lex.specs.Escape as spec;
ghost use Rattle.fancy_lex.specs.EscapeReference as references;
ghost use Rattle.fancy_lex.specs.Escaped as leaf;
ghost use Rattle.fancy_lex.specs.EscapeViews.{escape_of, delegate_text};
ghost use Rattle.fancy_lex.specs.Reading.{choose, fails, Reads, Returns, Reports};
ghost use Rattle.fancy_lex.specs.Text.{EndsWith, text_of};
ghost use Rattle.fancy_lex.specs.TokenComments.{escape_comments, token_comments};
ghost use Rattle.fancy_lex.specs.ErrorTable.{letter_of_no_escape};
ghost use Rattle.fancy_lex.specs.ErrorViews.{LiesWithin};

use crate::error::{ParseError, ReadError};
use crate::escape::boundary::boundary;
use crate::escape::hex::hex;
use crate::escape::reference::{back_reference, group_number, numbered_reference, subroutine_call};
use crate::flags::Flags;
use crate::name::target::{Call, Reference};
use crate::property::{Property, read_property};
use crate::text::{Reach, next, push, reach_before};
use std::alloc::{AllocError, Global};

pub mod boundary;
pub mod fast_path;
pub mod hex;
pub mod reference;

/// A zero-width assertion about the position in the text. `crlf` says whether CR is a line terminator too, and CR LF a
/// single one, as under `FLAG_CRLF`.
#[derive(Clone, Copy, PartialEq, Eq, Debug, Drop)]
pub enum Assertion {
    /// The start of the text: `\A`, and `^` without `FLAG_MULTI`.
    StartText,
    /// The end of the text: `\z`, and `$` without `FLAG_MULTI`.
    EndText,
    /// The end of the text, or before line terminators that end it: `\Z`. A CR alone does not count.
    EndTextIgnoreTrailingNewlines { crlf: bool },
    /// The start of a line: `^` with `FLAG_MULTI`, as in `(?m)^`.
    StartLine { crlf: bool },
    /// The start of a line, except at the end of the text: `^` with `FLAG_MULTI` and
    /// `FLAG_ONIGURUMA_MODE`.
    StartLineOniguruma { crlf: bool },
    /// The end of a line: `$` with `FLAG_MULTI`, as in `(?m)$`.
    EndLine { crlf: bool },
    /// The start of a word: `\b{start}`, and `\<` without `FLAG_ONIGURUMA_MODE`.
    LeftWordBoundary,
    /// No word character before the position: `\b{start-half}`.
    LeftWordHalfBoundary,
    /// The end of a word: `\b{end}`, and `\>` without `FLAG_ONIGURUMA_MODE`.
    RightWordBoundary,
    /// No word character after the position: `\b{end-half}`.
    RightWordHalfBoundary,
    /// The start or the end of a word: `\b`.
    WordBoundary,
    /// Neither the start nor the end of a word: `\B`.
    NotWordBoundary,
}

impl Assertion {
    /// Returns the name of the variant, such as `StartText`.
    pub fn name(self) -> &'static str {
        match self {
            Assertion::StartText => "StartText",
            Assertion::EndText => "EndText",
            Assertion::EndTextIgnoreTrailingNewlines { .. } => "EndTextIgnoreTrailingNewlines",
            Assertion::StartLine { .. } => "StartLine",
            Assertion::StartLineOniguruma { .. } => "StartLineOniguruma",
            Assertion::EndLine { .. } => "EndLine",
            Assertion::LeftWordBoundary => "LeftWordBoundary",
            Assertion::LeftWordHalfBoundary => "LeftWordHalfBoundary",
            Assertion::RightWordBoundary => "RightWordBoundary",
            Assertion::RightWordHalfBoundary => "RightWordHalfBoundary",
            Assertion::WordBoundary => "WordBoundary",
            Assertion::NotWordBoundary => "NotWordBoundary",
        }
    }

    /// Returns the assertion of this name, with this `crlf` if the variant has that field.
    pub fn named(name: &str, crlf: bool) -> Option<Assertion> {
        Some(match name {
            "StartText" => Assertion::StartText,
            "EndText" => Assertion::EndText,
            "EndTextIgnoreTrailingNewlines" => Assertion::EndTextIgnoreTrailingNewlines { crlf },
            "StartLine" => Assertion::StartLine { crlf },
            "StartLineOniguruma" => Assertion::StartLineOniguruma { crlf },
            "EndLine" => Assertion::EndLine { crlf },
            "LeftWordBoundary" => Assertion::LeftWordBoundary,
            "LeftWordHalfBoundary" => Assertion::LeftWordHalfBoundary,
            "RightWordBoundary" => Assertion::RightWordBoundary,
            "RightWordHalfBoundary" => Assertion::RightWordHalfBoundary,
            "WordBoundary" => Assertion::WordBoundary,
            "NotWordBoundary" => Assertion::NotWordBoundary,
            _ => return None,
        })
    }

    /// Returns whether CR is a line terminator too; `None` if the variant has no such field.
    pub fn crlf(self) -> Option<bool> {
        match self {
            Assertion::EndTextIgnoreTrailingNewlines { crlf }
            | Assertion::StartLine { crlf }
            | Assertion::StartLineOniguruma { crlf }
            | Assertion::EndLine { crlf } => Some(crlf),
            Assertion::StartText
            | Assertion::EndText
            | Assertion::LeftWordBoundary
            | Assertion::LeftWordHalfBoundary
            | Assertion::RightWordBoundary
            | Assertion::RightWordHalfBoundary
            | Assertion::WordBoundary
            | Assertion::NotWordBoundary => None,
        }
    }
}

/// What an escape is parsed as: a leaf of the tree, in fields of the same names.
#[derive(Clone, Copy)]
pub enum Escaped<'a> {
    Literal {
        val: char,
        casei: bool,
    },
    LiteralBytes {
        byte: u8,
    },
    Any {
        newline: bool,
        crlf: bool,
    },
    Assertion(Assertion),
    GeneralNewline {
        unicode: bool,
    },
    KeepOut,
    ContinueFromPreviousMatchEnd,
    Delegate {
        inner: DelegateText<'a>,
        casei: bool,
    },
    Backref {
        reference: Reference<'a>,
        casei: bool,
    },
    SubroutineCall(Call<'a>),
}

/// What the text of a delegate will be. The text itself is not built yet.
#[derive(Clone, Copy)]
pub enum DelegateText<'a> {
    /// A backslash and the letter.
    Letter(char),
    /// `[0-9A-Fa-f]`.
    HexDigit,
    /// `[^0-9A-Fa-f]`.
    NotHexDigit,
    /// The text that is written for the property, with UNICODE if `unicode`, and in a class if
    /// `inside`.
    Property {
        property: Property<'a>,
        unicode: bool,
        inside: bool,
    },
}

/// Whether the character has a meaning of its own wherever it is outside a class.
#[inline]
pub fn is_metacharacter(c: char) -> bool
    ensures { result ≡ is_among c metacharacters }
{
    matches!(
        c,
        '\\' | '.' | '+' | '*' | '?' | '(' | ')' | '|' | '[' | '{' | '^' | '$'
    )
}

/// The letter that denotes the character after a backslash.
#[inline]
pub fn letter_of(c: char) -> Option<char>
    ensures { spec.letter_of c ≡ result }
{
    match c {
        '\x07' => Some('a'),
        '\x0C' => Some('f'),
        '\n' => Some('n'),
        '\r' => Some('r'),
        '\t' => Some('t'),
        '\x0B' => Some('v'),
        '\x1B' => Some('e'),
        _ => None,
    }
}

/// A backslash and the letter.
fn letter_name(alloc: Global, c: char) -> Result<String, AllocError>
    ensures { IfOk result (λ s. text_of s ≡ code "\\" ∷ c ∷ []) }
{
    let mut name = String::new(alloc);
    push(&mut name, '\\')?;
    push(&mut name, c)?;
    Ok(name)
}

/// The error of a letter that is no escape.
#[cold]
fn unknown_escape(alloc: Global, c: char, reach: Reach) -> ReadError
    ensures { Reports {A = leaf.Escape} result (fails (letter_of_no_escape reach c)) }
{
    match letter_name(alloc, c) {
        Ok(name) => ReadError::At(reach, ParseError::InvalidEscape(name)),
        Err(refused) => ReadError::from(refused),
    }
}

/// A case-sensitive literal.
fn literal(val: char) -> Escaped<'static>
    ensures { escape_of result ≡ leaf.literal val false }
{
    Escaped::Literal { val, casei: false }
}

/// A case-sensitive delegate.
fn delegate(inner: DelegateText<'static>) -> Escaped<'static>
    ensures { escape_of result ≡ leaf.delegate (delegate_text inner.entry) false }
{
    Escaped::Delegate {
        inner,
        casei: false,
    }
}

/// Whether the character after a backslash stands for itself. ASCII letters and digits do not, nor do `<` and `>`
/// outside a class.
fn is_itself(c: char, inside: bool) -> bool
    ensures { result ≡ spec.is_itself inside c }
{
    !c.is_ascii_alphanumeric() && (inside || !matches!(c, '<' | '>'))
}

/// Reads digits, which are a back reference outside a class. In a class they are an error: that of the number if it
/// does not fit in a word, and otherwise InvalidClass at `reach`.
#[tactic(auto, unfolding(crate::specs::Escape::number_escape))]
fn number_escape(
    text: &str,
    flags: Flags,
    inside: bool,
    reach: Reach,
) -> Result<(Escaped<'_>, &str), ReadError>
    ensures value { Reads escape_of result (spec.number_escape flags inside reach (chars text.now)) }
    ensures shorter { IfOk result (λ p. length p.1.now < length text.now) }
{
    if inside {
        group_number(text)?;
        return Err(ReadError::At(reach, ParseError::InvalidClass));
    }
    numbered_backref(text, flags)
}

/// Reads a back reference in digits.
#[inline(always)]
fn numbered_backref(text: &str, flags: Flags) -> Result<(Escaped<'_>, &str), ReadError>
    ensures value { Reads escape_of result
        (spec.backref_leaf flags (references.numbered_reference (chars text.now))) }
    ensures shorter { IfOk result (λ p. length p.1.now < length text.now) }
{
    let (reference, rest) = numbered_reference(text)?;
    let casei = flags.casei;
    Ok((Escaped::Backref { reference, casei }, rest))
}

/// Reads a named back reference after its letter.
#[inline(always)]
fn backref_escape(text: &str, flags: Flags) -> Result<(Escaped<'_>, &str), ReadError>
    ensures value { Reads escape_of result (spec.backref_leaf flags (references.back_reference (chars text.now))) }
    ensures within { IfOk result (λ p. length p.1.now ≤ length text.now) }
{
    let (reference, rest) = back_reference(text)?;
    let casei = flags.casei;
    Ok((Escaped::Backref { reference, casei }, rest))
}

/// Reads a call after its letter. InvalidEscape at `reach` if the text ends there.
#[tactic(auto, unfolding(crate::specs::Escape::call_escape))]
fn call_escape<'a>(
    alloc: Global,
    text: &'a str,
    letter: char,
    reach: Reach,
) -> Result<(Escaped<'a>, &'a str), ReadError>
    ensures value { Returns escape_of result (spec.call_escape reach letter (chars text.now)) }
    ensures within { IfOk result (λ p. length p.1.now ≤ length text.now) }
{
    if next(text).is_none() {
        return Err(unknown_escape(alloc, letter, reach));
    }
    let (call, rest) = subroutine_call(text)?;
    Ok((Escaped::SubroutineCall(call), rest))
}

/// Reads a property after its letter.
#[tactic(auto, using(crate::proofs::EscapeLemmas::property_steps))]
fn property<'a>(
    alloc: Global,
    text: &'a str,
    letter: char,
    flags: Flags,
    inside: bool,
    reach: Reach,
) -> Result<(Escaped<'a>, &'a str), ReadError>
    ensures value { Returns escape_of result (spec.property flags inside reach letter (chars text.now)) }
    ensures within { IfOk result (λ p. length p.1.now ≤ length text.now) }
{
    if next(text).is_none() {
        return Err(unknown_escape(alloc, letter, reach));
    }
    let Some((property, rest)) = read_property(text, letter == 'P') else {
        return Err(ReadError::At(reach, ParseError::UnclosedUnicodeName));
    };
    let inner = DelegateText::Property {
        property,
        unicode: flags.unicode,
        inside,
    };
    let casei = flags.casei;
    Ok((Escaped::Delegate { inner, casei }, rest))
}

/// Any character. `newline` says whether it can be a line terminator, and `crlf` has the same value.
fn any(newline: bool) -> Escaped<'static>
    ensures { escape_of result ≡ leaf.any newline newline }
{
    Escaped::Any {
        newline,
        crlf: newline,
    }
}

/// The boundary, or in Oniguruma mode the character as a literal.
fn word_boundary(c: char, boundary: Assertion, flags: Flags) -> Escaped<'static>
    ensures { escape_of result ≡ (if flags.oniguruma_mode then leaf.literal c false else leaf.assertion boundary) }
{
    if flags.oniguruma_mode {
        literal(c)
    } else {
        Escaped::Assertion(boundary)
    }
}

/// The leaf that a letter after a backslash has in a class as well as outside, if the letter is the whole escape.
#[inline(always)]
fn lone_anywhere(c: char, flags: Flags) -> Option<Escaped<'static>>
    ensures { spec.row_of c (spec.lone_anywhere flags c) ≡ option_map escape_of result }
{
    match c {
        'd' | 'D' | 's' | 'S' | 'w' | 'W' => Some(Escaped::Delegate {
            inner: DelegateText::Letter(c),
            casei: flags.casei,
        }),
        'h' => Some(delegate(DelegateText::HexDigit)),
        'H' => Some(delegate(DelegateText::NotHexDigit)),
        'a' => Some(literal('\x07')),
        'f' => Some(literal('\x0C')),
        'n' => Some(literal('\n')),
        'r' => Some(literal('\r')),
        't' => Some(literal('\t')),
        'v' => Some(literal('\x0B')),
        'e' => Some(literal('\x1B')),
        _ => None,
    }
}

/// The leaf that a letter after a backslash has only in a class, if the letter is the whole escape.
fn lone_in_class(c: char) -> Option<Escaped<'static>>
    ensures { spec.row_of c (spec.lone_in_class c) ≡ option_map escape_of result }
{
    match c {
        'b' => Some(literal('\x08')),
        'k' | 'A' | 'z' | 'B' | 'K' | 'G' | 'R' => Some(literal(c)),
        _ => None,
    }
}

/// The leaf that a character after a backslash has only outside a class, if the character is the whole escape.
#[inline(always)]
fn lone_outside(c: char, flags: Flags) -> Option<Escaped<'static>>
    ensures { spec.row_of c (spec.lone_outside flags c) ≡ option_map escape_of result }
{
    let crlf = flags.crlf;
    let unicode = flags.unicode;
    match c {
        'A' => Some(Escaped::Assertion(Assertion::StartText)),
        'z' => Some(Escaped::Assertion(Assertion::EndText)),
        'Z' => Some(Escaped::Assertion(Assertion::EndTextIgnoreTrailingNewlines { crlf })),
        'K' => Some(Escaped::KeepOut),
        'G' => Some(Escaped::ContinueFromPreviousMatchEnd),
        'R' => Some(Escaped::GeneralNewline { unicode }),
        'O' => Some(any(true)),
        'N' => Some(any(false)),
        '<' => Some(word_boundary(c, Assertion::LeftWordBoundary, flags)),
        '>' => Some(word_boundary(c, Assertion::RightWordBoundary, flags)),
        _ => None,
    }
}

/// The leaf of the character after a backslash, if it is the whole escape. None if the escape has more characters, and
/// for a letter that is no escape.
#[inline(always)]
#[tactic(auto, unfolding(crate::specs::Escape::lone_escape))]
fn lone_escape(c: char, flags: Flags, inside: bool) -> Option<Escaped<'static>>
    ensures { spec.lone_escape flags inside c ≡ option_map escape_of result }
{
    if is_itself(c, inside) {
        return Some(literal(c));
    }
    match lone_anywhere(c, flags) {
        Some(leaf) => Some(leaf),
        None if inside => lone_in_class(c),
        None => lone_outside(c, flags),
    }
}

/// Reads the escape after the backslash at this reach.
#[inline(never)]
#[tactic(auto, unfolding(crate::specs::Escape::escape_at, crate::specs::Escape::lone_escape, crate::specs::Escape::outside))]
fn read_escape<'a>(
    alloc: Global,
    text: &'a str,
    flags: Flags,
    inside: bool,
    reach: Reach,
) -> Result<(Escaped<'a>, &'a str), ReadError>
    ensures value { Returns escape_of result (spec.escape_at flags inside reach (chars text.now)) }
    ensures shorter { IfOk result (λ p. length p.1.now < length text.now) }
{
    let Some((c, rest)) = next(text) else {
        return Err(ReadError::At(reach, ParseError::TrailingBackslash));
    };
    match c {
        '0'..='9' => number_escape(text, flags, inside, reach),
        'x' => hex(rest, 2, flags),
        'u' => hex(rest, 4, flags),
        'U' => hex(rest, 8, flags),
        'p' | 'P' => property(alloc, rest, c, flags, inside, reach),
        'b' | 'B' if !inside => boundary(alloc, rest, c == 'B', flags, reach),
        'k' if !inside => backref_escape(rest, flags),
        'g' if !inside => call_escape(alloc, rest, c, reach),
        _ => match lone_escape(c, flags, inside) {
            Some(leaf) => Ok((leaf, rest)),
            None => Err(unknown_escape(alloc, c, reach)),
        },
    }
}

/// Parses what follows a backslash, in a class if `inside` says so.
///
/// The errors, at the backslash if no other position is named: TrailingBackslash at the end of the text; InvalidEscape
/// for a letter that is no escape, for a `g` at the end of the text, and for a boundary whose braces are not closed or
/// hold no name; UnclosedUnicodeName for a property whose braces are not closed; InvalidClass for digits in a class;
/// InvalidBackref at the first digit, if the number does not fit in `usize`; those of `hex` after `x`, `u` and `U`;
/// those of `back_reference` after `k`, and of `subroutine_call` after `g`, outside a class; UnclosedOpenParen if a
/// comment is not closed.
#[inline]
pub fn escape<'a>(
    alloc: Global,
    text: &'a str,
    flags: Flags,
    inside: bool,
) -> Result<(Escaped<'a>, &'a str), ReadError>
    ensures value { Returns escape_of result (spec.escape flags inside (chars text.now)) }
    ensures cut { IfOk result (λ p. EndsWith (chars text.now) (chars p.1.now)) }
    ensures position { IfErr result (λ e. LiesWithin (length text.now + 2) e) }
    ensures shorter { IfOk result (λ p. length p.1.now < length text.now) }
{
    read_escape(alloc, text, flags, inside, reach_before(text))
}

/// The text in which an escape may have comments: what follows its letter, if it is a hex code or a word boundary. `text`
/// follows the backslash.
pub fn after_layout_letter(text: &str) -> Option<&str>
    ensures { (end : ℕ) → escape_comments (chars text.now) end ≡
        choose result (λ t. token_comments (chars t.now) end) [] }
{
    let (c, rest) = next(text)?;
    if matches!(c, 'x' | 'u' | 'U' | 'b' | 'B') {
        Some(rest)
    } else {
        None
    }
}
