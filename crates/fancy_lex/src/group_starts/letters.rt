//! The letters of inline flags and of flag groups.
ghost use Rattle.std.specs.Prelude.{◌≡◌, ℕ, ◌+◌, ◌<◌, ◌++◌, ◌∷◌, length, chars, codes, ◌||◌, IfErr, IfOk};
ghost use Rattle.std.specs.Prelude.{IfSome, MatchResult, option_map};
ghost use Rattle.fancy_lex.specs.Reading.{Reading, Returns, Reports, Derives, gives, fails};
ghost use Rattle.fancy_lex.specs.Text.{Text, EndsWith, text_of};
ghost use Rattle.fancy_lex.specs.ErrorViews.{LiesWithin};
ghost use Rattle.fancy_lex.specs.FlagLetters as spec;
ghost use Rattle.fancy_lex.specs.LetterSteps as steps;
ghost use Rattle.fancy_lex.specs.FlagReads.{letters_of, step_of, error_of, failed_step, IsErrorIn};
ghost use Rattle.fancy_lex.specs.NextLetter as parsed;

use crate::error::{ParseError, ReadError};
use crate::flags::{Flag, Flags};
use crate::layout::{layout, past_layout};
use crate::text::{AT_END, Reach, after, front, next};
use std::alloc::{AllocError, Global};

/// Whether the letters are inline flags or those of a flag group, with the flags that they make.
#[derive(Clone, Copy)]
pub enum Letters {
    /// A parenthesis ends them: these flags hold from there on.
    InlineFlags(Flags),
    /// A colon ends them: these flags hold inside the group.
    FlagGroup(Flags),
}

/// The result of one character: the letters end with it, or go on under these flags; then `clears` says whether the
/// letters after it clear flags or set them.
#[derive(Clone, Copy)]
enum LetterStep {
    Ends(Letters),
    GoesOn { clears: bool, flags: Flags },
}

/// Why the letters cannot be parsed. It owns nothing: the error of the pattern, which may own a text, is made of it after
/// the letters are read.
#[derive(Clone, Copy)]
enum LetterError<'a> {
    /// The character before this text is no flag letter.
    NoFlag(&'a str),
    /// The `u` at the front of this text would change the Unicode flag.
    ModeChanged(&'a str),
    /// The text ends, or a comment is not closed: the reach of the error.
    Unclosed(Reach),
}

/// The flags with the letter's flag set or cleared; None if the letter is no flag.
#[tactic(auto, using(crate::proofs::LetterLemmas::letter_of_none))]
fn with_letter(flags: Flags, on: bool, letter: char) -> Option<Flags>
    ensures { spec.with_letter flags on letter ≡ result }
{
    match Flag::from_letter(letter) {
        Some(
            flag @ (Flag::Casei
            | Flag::Multi
            | Flag::Dotnl
            | Flag::SwapGreed
            | Flag::IgnoreSpace
            | Flag::Crlf),
        ) => Some(flags.with(flag, on)),
        Some(Flag::Unicode | Flag::OnigurumaMode | Flag::IgnoreNumberedGroups) | None => None,
    }
}

/// The text of an unknown flag: `(?` and the letters through the one before `rest`.
fn flag_text(alloc: Global, letters: &str, rest: &str) -> Result<String, AllocError>
    requires { (w : Text) × (chars letters.now ≡ w ++ chars rest.now) }
    ensures { IfOk result (λ s. text_of s ≡ codes "(?" ++ steps.letters_before (chars letters.now) (chars rest.now)) }
{
    let read = front(letters, rest);
    let mut text = String::from_str(alloc, "(?")?;
    text.push_str(read)?;
    Ok(text)
}

/// The error of the letter before `rest`.
fn unknown_flag(alloc: Global, letters: &str, rest: &str) -> ReadError
    requires { (w : Text) × (chars letters.now ≡ w ++ chars rest.now) }
    ensures { Reports result (steps.unknown_letter (chars letters.now) (chars rest.now)) }
{
    match flag_text(alloc, letters, rest) {
        Ok(text) => ReadError::at(letters, ParseError::UnknownFlag(text)),
        Err(_) => ReadError::OutOfMemory,
    }
}

/// The error of the pattern. It is a function of its own: inlined, it would cost each letter registers.
#[inline(never)]
fn error_of(alloc: Global, letters: &str, error: LetterError) -> ReadError
    requires { IsErrorIn (chars letters.now) error }
    ensures { Reports result (failed_step (chars letters.now) error.entry) }
{
    match error {
        LetterError::NoFlag(rest) => unknown_flag(alloc, letters, rest),
        LetterError::ModeChanged(text) => {
            ReadError::at(text, ParseError::ChangingUnicodeModeUnsupported)
        }
        LetterError::Unclosed(reach) => ReadError::At(reach, ParseError::UnclosedOpenParen),
    }
}

/// Whether `current` is where the letters begin.
#[tactic(auto, using(crate::proofs::TextLemmas::bytes_chars))]
fn is_first(letters: &str, current: &str) -> bool
    ensures { result ≡ steps.is_first (chars letters.now) (chars current.now) }
{
    current.len() == letters.len()
}

/// Whether a minus is all that is between the start of the letters and `current`.
#[tactic(auto, using(crate::proofs::TextLemmas::bytes_chars))]
fn is_after_minus(letters: &str, clears: bool, current: &str) -> bool
    ensures { result ≡ steps.is_after_minus (chars letters.now) clears (chars current.now) }
{
    clears && current.len() + 1 == letters.len()
}

/// Whether a parenthesis at `current` would end letters of which there are none: nothing is before it, or only a minus.
fn has_no_letter(letters: &str, clears: bool, current: &str) -> bool
    ensures { let first = steps.is_first (chars letters.now) (chars current.now) in
        result ≡ (first || steps.is_after_minus (chars letters.now) clears (chars current.now)) }
{
    is_first(letters, current) || is_after_minus(letters, clears, current)
}

/// Reads the character at `current`: a flag letter, a minus, or the parenthesis or the colon that ends the letters.
fn flag_letter<'a>(
    letters: &str,
    clears: bool,
    flags: Flags,
    current: &'a str,
) -> Result<(LetterStep, &'a str), LetterError<'a>>
    requires { (w : Text) × (chars letters.now ≡ w ++ chars current.now) }
    ensures value { MatchResult result
        (λ p. steps.step (chars letters.now) clears flags (chars current.now) ≡ gives (step_of p.0) (chars p.1.now))
        (λ e. steps.step (chars letters.now) clears flags (chars current.now) ≡ fails (error_of (chars letters.now) e)) }
    ensures error_in { IfErr result (λ e. IsErrorIn (chars letters.now) e) }
    ensures one_on { IfOk result (λ p. (c : ℕ) × (chars current.now ≡ c ∷ chars p.1.now)) }
    ensures shorter { IfOk result (λ p. length p.1.now < length current.now) }
{
    let Some((letter, rest)) = next(current) else {
        return Err(LetterError::Unclosed(AT_END));
    };
    if letter == ')' {
        if has_no_letter(letters, clears, current) {
            return Err(LetterError::NoFlag(rest));
        }
        return Ok((LetterStep::Ends(Letters::InlineFlags(flags)), rest));
    }
    if letter == ':' {
        if is_after_minus(letters, clears, current) {
            return Err(LetterError::NoFlag(rest));
        }
        return Ok((LetterStep::Ends(Letters::FlagGroup(flags)), rest));
    }
    if letter == '-' {
        if clears {
            return Err(LetterError::NoFlag(rest));
        }
        return Ok((
            LetterStep::GoesOn {
                clears: true,
                flags,
            },
            rest,
        ));
    }
    if letter == 'u' {
        if clears == flags.unicode {
            return Err(LetterError::ModeChanged(current));
        }
        return Ok((LetterStep::GoesOn { clears, flags }, rest));
    }
    match with_letter(flags, !clears, letter) {
        Some(flags) => Ok((LetterStep::GoesOn { clears, flags }, rest)),
        None => Err(LetterError::NoFlag(rest)),
    }
}

/// Reads the letters one after another, without the text of an error.
fn letters_or_error(text: &str, flags: Flags) -> Result<(Letters, &str), LetterError<'_>>
    ensures value { MatchResult result
        (λ p. steps.letters flags (chars text.now) ≡ gives (letters_of p.0) (chars p.1.now))
        (λ e. steps.letters flags (chars text.now) ≡ fails (error_of (chars text.now) e)) }
    ensures error_in { IfErr result (λ e. IsErrorIn (chars text.now) e) }
    ensures shorter { IfOk result (λ p. length p.1.now < length text.now) }
{
    let mut clears = false;
    let mut flags = flags;
    let mut rest = text;
    loop {
        let current = match layout(rest, flags.ignore_space) {
            Ok(current) => current,
            Err(reach) => return Err(LetterError::Unclosed(reach)),
        };
        let (step, after) = flag_letter(text, clears, flags, current)?;
        match step {
            LetterStep::Ends(letters) => return Ok((letters, after)),
            LetterStep::GoesOn {
                clears: now_clears,
                flags: changed,
            } => {
                clears = now_clears;
                flags = changed;
                rest = after;
            }
        }
    }
}

/// Reads the letters, or their error with its text.
fn read_letters(alloc: Global, text: &str, flags: Flags) -> Result<(Letters, &str), ReadError>
    ensures value { Returns letters_of result (steps.letters flags (chars text.now)) }
    ensures shorter { IfOk result (λ p. length p.1.now < length text.now) }
{
    match letters_or_error(text, flags) {
        Ok(letters) => Ok(letters),
        Err(error) => Err(error_of(alloc, text, error)),
    }
}

/// Parses flag letters, which begin after the `(?`: the flags that they make, and the text after the parenthesis or the
/// colon that ends them. The errors: UnknownFlag at the start of the letters for a letter that is no flag, for a second
/// minus, for a parenthesis without a letter before it, and for a colon after only a minus;
/// ChangingUnicodeModeUnsupported at a `u` that would change the Unicode flag; UnclosedOpenParen if the text ends, or a
/// comment is not closed.
pub fn flag_letters(alloc: Global, text: &str, flags: Flags) -> Result<(Letters, &str), ReadError>
    ensures value { Returns letters_of result (steps.letters flags (chars text.now)) }
    ensures derives { Derives letters_of result (spec.GroupLetters flags (chars text.now)) }
    ensures only { (o : Reading spec.Letters) → spec.GroupLetters flags (chars text.now) o →
        Returns letters_of result o }
    ensures cut { IfOk result (λ p. EndsWith (chars text.now) (chars p.1.now)) }
    ensures position { IfErr result (λ e. LiesWithin (length text.now + 1) e) }
    ensures shorter { IfOk result (λ p. length p.1.now < length text.now) }
{
    read_letters(alloc, text, flags)
}

/// A letter of inline flags or of a flag group.
#[derive(Clone, Copy)]
pub struct FlagLetter<'a> {
    /// The letter itself.
    pub letter: char,
    /// Whether it sets its flag. After a minus sign it clears it.
    pub sets: bool,
    /// The flags after it.
    pub after: Flags,
    /// The text after it.
    pub rest: &'a str,
}

/// The letter at the front; None at the parenthesis or the colon.
fn letter_at(text: &str, sets: bool, flags: Flags) -> Option<FlagLetter<'_>>
    ensures value { parsed.letter_at sets flags (chars text.now) ≡
        option_map (λ l. (l.letter, l.sets, l.after, chars l.rest.now)) result }
    ensures shorter { IfSome result (λ l. length l.rest.now < length text.now) }
{
    let (letter, rest) = next(text)?;
    if letter == ')' || letter == ':' {
        return None;
    }
    Some(FlagLetter {
        letter,
        sets,
        after: with_letter(flags, sets, letter).unwrap_or(flags),
        rest,
    })
}

/// The next letter of letters that were parsed: the one after layout, after a minus sign too. `flags` are those before it,
/// and `clears` says that a minus sign was before the last one. None at the parenthesis or the colon that ends the letters.
pub fn next_letter(text: &str, clears: bool, flags: Flags) -> Option<FlagLetter<'_>>
    ensures value { parsed.next_letter clears flags (chars text.now) ≡
        option_map (λ l. (l.letter, l.sets, l.after, chars l.rest.now)) result }
    ensures shorter { IfSome result (λ l. length l.rest.now < length text.now) }
{
    let start = past_layout(text, flags.ignore_space)?;
    let Some(rest) = after(start, '-') else {
        return letter_at(start, !clears, flags);
    };
    letter_at(past_layout(rest, flags.ignore_space)?, false, flags)
}
