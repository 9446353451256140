//! Flags that are set where they are set already. No node records inline flags or the letters of a flag group. They are
//! among the trivia of the tree.
use dialects::spelling::of_flag;
use fancy_lex::flags::{Flag, Flags};
use fancy_lex::group_starts::{FlagLetter, next_letter};
use fancy_lex::layout::past_layout;
use fancy_syntax::span::Span;
use fancy_syntax::trivium::{Trivium, TriviumKind};
use lint_rules::problem::{Found, Others, Problem};
use std::alloc::{AllocError, Global};

/// The flags before the letters of inline flags or of a flag group; None for another part.
fn flags_before(kind: TriviumKind) -> Option<Flags> {
    match kind {
        TriviumKind::InlineFlags { before, .. } => Some(before),
        TriviumKind::Opening { around, .. } => Some(around),
        TriviumKind::Comment
        | TriviumKind::LineComment
        | TriviumKind::Closing
        | TriviumKind::Dropped
        | TriviumKind::InnerComment
        | TriviumKind::InnerLineComment => None,
    }
}

/// The text from the first letter on, in a text that begins with the parenthesis.
fn letters_in(text: &str, flags: Flags) -> Option<&str> {
    past_layout(text.strip_prefix('(')?, flags.ignore_space)?.strip_prefix('?')
}

/// The span of the letter; the text that it is in ends at `end`.
fn span_of(letter: FlagLetter<'_>, end: usize) -> Span {
    let end = end.saturating_sub(letter.rest.len());
    Span {
        start: end.saturating_sub(1),
        end,
    }
}

/// What is wrong with the letter, which sets its flag. `is_first` says that no letter is before it.
fn letter_problems(
    letter: FlagLetter<'_>,
    before: Flags,
    is_first: bool,
) -> [Option<Problem<'static>>; 2] {
    let FlagLetter {
        letter,
        rest,
        after,
        ..
    } = letter;
    // The Unicode flag can only be repeated, which does not count.
    let is_useless = letter != Flag::Unicode.letter() && after == before;
    let difference = of_flag(letter, rest, is_first, before.oniguruma_mode);
    [
        is_useless.then_some(Problem::UselessFlag { letter }),
        difference.map(|difference| Problem::DialectDifference { difference }),
    ]
}

/// Adds what is wrong with the letters, whose text ends at `end`.
fn report_letters(
    found: &mut Vec<Found<'static>>,
    letters: &str,
    flags: Flags,
    end: usize,
) -> Result<(), AllocError> {
    let (mut rest, mut flags) = (letters, flags);
    let mut is_first = true;
    while let Some(letter) = next_letter(rest, false, flags) {
        if !letter.sets {
            break;
        }
        for problem in letter_problems(letter, flags, is_first)
            .into_iter()
            .flatten()
        {
            found.push(Found {
                span: span_of(letter, end),
                problem,
                related: None,
                others: Others::NONE,
                is_counted: false,
            })?;
        }
        (rest, flags, is_first) = (letter.rest, letter.after, false);
    }
    Ok(())
}

/// The flags that the pattern sets where they are set already, and those that other dialects read otherwise.
pub(crate) fn useless_flags(
    alloc: Global,
    pattern: &str,
    trivia: &[Trivium],
) -> Result<Vec<Found<'static>>, AllocError> {
    let mut found = Vec::new(alloc);
    for Trivium { span, kind } in trivia {
        if let Some(flags) = flags_before(*kind)
            && let Some(text) = span.text(pattern)
            && let Some(letters) = letters_in(text, flags)
        {
            report_letters(&mut found, letters, flags, span.end)?;
        }
    }
    Ok(found)
}
