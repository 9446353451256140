//! What to write in place of what other dialects of regular expressions have, and of frequent slips.
use crate::octal::Octal;
use crate::opening::{Opening, is_unmatched};
use fancy_lex::error::ParseError;
use std::fmt;

/// What to do about an error.
#[derive(Clone, Copy)]
pub enum Hint {
    Sentence(&'static str),
    /// About digits after a backslash in a class.
    ClassDigits(Octal),
}

impl fmt::Display for Hint {
    fn fmt<W: fmt::Write>(&self, f: &mut fmt::Formatter<W>) -> fmt::Result {
        match self {
            Hint::Sentence(sentence) => f.write_str(sentence),
            Hint::ClassDigits(octal) => {
                write!(
                    f,
                    "a class has neither octal escapes nor back references: {octal}"
                )
            }
        }
    }
}

/// What an error is about that some dialect may explain.
#[derive(Clone, Copy, PartialEq, Eq)]
enum Topic {
    Escape,
    /// What follows `(?`.
    Group,
    /// What a reference refers to.
    Reference,
    /// A quantifier, or a verb.
    Operand,
}

impl Topic {
    fn of(kind: &ParseError) -> Option<Topic> {
        match kind {
            ParseError::InvalidEscape(_) => Some(Topic::Escape),
            ParseError::UnknownFlag(_) => Some(Topic::Group),
            ParseError::InvalidGroupName => Some(Topic::Reference),
            ParseError::TargetNotRepeatable => Some(Topic::Operand),
            ParseError::GeneralParseError(_)
            | ParseError::UnclosedOpenParen
            | ParseError::InvalidRepeat
            | ParseError::RecursionExceeded
            | ParseError::TrailingBackslash
            | ParseError::UnclosedUnicodeName
            | ParseError::InvalidHex
            | ParseError::InvalidCodepointValue
            | ParseError::InvalidClass
            | ParseError::ChangingUnicodeModeUnsupported
            | ParseError::InvalidBackref
            | ParseError::InvalidGroupNameBackref(_) => None,
        }
    }
}

/// A spelling of another dialect: what the error is about, what is directly before its position, what is from there on,
/// where a `9` is any digit of ASCII, and what to do.
type Spelling = (Topic, &'static str, &'static str, &'static str);

/// The spellings. Of several that fit, the first counts.
static SPELLINGS: [Spelling; 34] = [
    (
        Topic::Escape,
        "",
        r"\Q",
        r"there is no `\Q..\E`: write a backslash before each special character",
    ),
    (
        Topic::Escape,
        "",
        r"\E",
        r"there is no `\Q..\E`: write a backslash before each special character",
    ),
    (
        Topic::Escape,
        "",
        r"\c",
        r"there is no `\c`: write the code of the control character, as in `\x01` for `\cA`",
    ),
    (
        Topic::Escape,
        "",
        r"\C-",
        r"there is no `\C-`: write the code of the control character, as in `\x01` for `\C-a`",
    ),
    (
        Topic::Escape,
        "",
        r"\C",
        r"there is no `\C`: write `\O` for any character",
    ),
    (
        Topic::Escape,
        "",
        r"\o{",
        r"there are no octal escapes: write the code in hexadecimal, as in `\x1B` for `\o{33}`",
    ),
    (
        Topic::Escape,
        "",
        r"\X",
        r"there is no `\X`: write `(?>\P{M}\p{M}*)`, which is close to a grapheme cluster",
    ),
    (
        Topic::Escape,
        "",
        r"\V",
        r"there is no `\V`: write `[^\n\v\f\r]`",
    ),
    (
        Topic::Escape,
        "",
        r"\y",
        r"there is no `\y`: write `\b` for a word boundary",
    ),
    (
        Topic::Escape,
        "",
        r"\Y",
        r"there is no `\Y`: write `\B` for what is not a word boundary",
    ),
    (
        Topic::Group,
        "(?",
        "&",
        r"there is no `(?&name)`: write `\g<name>` to call a group",
    ),
    (
        Topic::Group,
        "(?",
        "9",
        r"there is no `(?1)`: write `\g<1>` to call a group",
    ),
    (
        Topic::Group,
        "(?",
        "+9",
        r"there is no `(?+1)`: write `\g<+1>` to call a group",
    ),
    (
        Topic::Group,
        "(?",
        "-9",
        r"there is no `(?-1)`: write `\g<-1>` to call a group",
    ),
    (
        Topic::Group,
        "(?",
        "|",
        "there is no branch reset `(?|..)`: write `(?:..)`, and give groups of different branches one name",
    ),
    (
        Topic::Group,
        "(?",
        "^",
        "there is no `(?^..)`: clear the flags by their letters, as in `(?-imsx:..)`",
    ),
    (
        Topic::Group,
        "(?",
        "C",
        "there are no callouts: remove the group",
    ),
    (
        Topic::Group,
        "(?",
        "{",
        "a pattern cannot contain code: remove the group",
    ),
    (
        Topic::Group,
        "(?",
        "?{",
        "a pattern cannot contain code: remove the group",
    ),
    (
        Topic::Group,
        "(?",
        "a",
        r"there is no flag `a`: write `[0-9]` for `\d`, and `[0-9A-Za-z_]` for `\w`",
    ),
    (Topic::Group, "(?", "L", "there is no flag `L`: remove it"),
    (
        Topic::Group,
        "(?",
        "J",
        "there is no flag `J`: several groups may have one name without it",
    ),
    (
        Topic::Reference,
        r"\k",
        "{",
        r"there is no `\k{name}`: write `\k<name>`",
    ),
    (
        Topic::Reference,
        r"\g",
        "{",
        r"there is no `\g{..}`: write `\k<..>` for a back reference",
    ),
    (
        Topic::Operand,
        "(",
        "*atomic:",
        "there is no `(*atomic:..)`: write `(?>..)`",
    ),
    (
        Topic::Operand,
        "(",
        "*positive_lookahead:",
        "there is no `(*positive_lookahead:..)`: write `(?=..)`",
    ),
    (
        Topic::Operand,
        "(",
        "*negative_lookahead:",
        "there is no `(*negative_lookahead:..)`: write `(?!..)`",
    ),
    (
        Topic::Operand,
        "(",
        "*positive_lookbehind:",
        "there is no `(*positive_lookbehind:..)`: write `(?<=..)`",
    ),
    (
        Topic::Operand,
        "(",
        "*negative_lookbehind:",
        "there is no `(*negative_lookbehind:..)`: write `(?<!..)`",
    ),
    (
        Topic::Operand,
        "(",
        "*pla:",
        "there is no `(*pla:..)`: write `(?=..)`",
    ),
    (
        Topic::Operand,
        "(",
        "*nla:",
        "there is no `(*nla:..)`: write `(?!..)`",
    ),
    (
        Topic::Operand,
        "(",
        "*",
        "the verbs are `(*FAIL)`, `(*ACCEPT)`, `(*COMMIT)`, `(*SKIP)` and `(*PRUNE)`",
    ),
    (
        Topic::Operand,
        "(?R)",
        "",
        r"`(?R)` sets the flag `R`: write `\g<0>` to call the whole pattern",
    ),
    (
        Topic::Operand,
        "$",
        "+{",
        r"there is no `$+{name}`: write `\k<name>` for a back reference",
    ),
];

/// Whether the text begins so; a `9` is any digit of ASCII.
fn begins_so(text: &str, beginning: &str) -> bool {
    let mut rest = text.chars();
    for wanted in beginning.chars() {
        let fits = match rest.next() {
            Some(c) => c == wanted || wanted == '9' && c.is_ascii_digit(),
            None => false,
        };
        if !fits {
            return false;
        }
    }
    true
}

/// The sentence on a spelling of another dialect at the position.
fn hint_on_dialect(kind: &ParseError, pattern: &str, position: usize) -> Option<Hint> {
    let subject = Topic::of(kind)?;
    let (before, after) = pattern.split_at(pattern.floor_char_boundary(position));
    for (about, ending, beginning, sentence) in SPELLINGS.iter() {
        if *about == subject && before.ends_with(*ending) && begins_so(after, beginning) {
            return Some(Hint::Sentence(sentence));
        }
    }
    None
}

/// What to do about digits after a backslash in a class, which are at the position.
fn hint_on_digits(pattern: &str, position: usize) -> Option<Hint> {
    let digits = pattern.get(position..)?.strip_prefix('\\')?;
    Some(Hint::ClassDigits(Octal::of(digits)))
}

/// Whether it is a class that a bracket was opened in.
fn is_nested(opening: Option<Opening>) -> bool {
    matches!(
        opening,
        Some(Opening {
            nests_class: true,
            ..
        })
    )
}

/// What to do about the error at the position; none if that is not known.
pub(crate) fn hint_for(
    kind: &ParseError,
    pattern: &str,
    position: usize,
    opening: Option<Opening>,
) -> Option<Hint> {
    match kind {
        kind if is_unmatched(kind) => Some(Hint::Sentence(
            r"unmatched closing parenthesis: remove it, or write `\)`",
        )),
        ParseError::InvalidClass if is_nested(opening) => Some(Hint::Sentence(
            r"a `[` in a class opens a class in it: write `\[` for the character",
        )),
        ParseError::InvalidClass => hint_on_digits(pattern, position),
        kind => hint_on_dialect(kind, pattern, position),
    }
}
