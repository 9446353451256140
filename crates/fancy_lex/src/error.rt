//! Errors: why a pattern cannot be parsed.
ghost use Rattle.std.specs.Prelude.{◌≡◌, ◌++◌, chars, false, IfOk, IsOk, Some};
ghost use Rattle.fancy_lex.specs.Located.{kind_text, carries_text};
ghost use Rattle.fancy_lex.specs.Text.{reach_of};
ghost use Rattle.fancy_lex.specs.declared.error.ReadError.TheVariants.{At};
ghost use Rattle.fancy_lex.specs.ErrorViews.{kind_of, error_text, error_in, SameError, error_carries_text};

use crate::text::{Reach, position_at, reach};
use std::alloc::{AllocError, AllocFailed, Global};
use std::fmt;

/// A byte offset from the start of the pattern, at most one past its end. It is one past the end only if the pattern
/// ends with a backslash in an unclosed comment, such as `(?#a\`.
pub type ParseErrorPosition = usize;

/// The result of a function that parses a pattern.
pub type Result<T> = std::result::Result<T, Error>;

/// Why a pattern was not parsed. It is displayed as `Parsing error at position 0: Invalid escape: \y`, or as
/// `out of memory`.
#[derive(Debug, Drop)]
pub enum Error {
    /// The pattern is invalid: the position and the kind of the error.
    ParseError(ParseErrorPosition, ParseError),
    /// Out of memory. It says nothing about the pattern.
    OutOfMemory,
}

/// Why a reader stops: the error in the pattern, or out of memory.
#[derive(Debug, Drop)]
pub enum ReadError {
    /// The error in the pattern: its reach, which is the number of bytes from its position to one past the end of the
    /// pattern, and its kind.
    At(Reach, ParseError),
    /// Memory ran out. This says nothing about the pattern.
    OutOfMemory,
}

impl ReadError {
    /// The error of this kind at the position where `rest` begins.
    pub fn at(rest: &str, kind: ParseError) -> ReadError
        ensures { result ≡ At (reach_of (chars rest.now)) kind }
    {
        ReadError::At(reach(rest), kind)
    }

    /// The same error, with its position in this pattern in place of its reach.
    pub fn in_pattern(self, pattern: &str) -> Error
        ensures { result ≡ error_in (chars pattern.now) self }
    {
        match self {
            ReadError::At(reach, kind) => Error::ParseError(position_at(pattern, reach), kind),
            ReadError::OutOfMemory => Error::OutOfMemory,
        }
    }
}

/// The kind of an error. Each is documented with when it is returned, and with the smallest patterns that have it and
/// the positions (byte offsets) reported for them, under `FLAG_UNICODE` unless another flag is named.
#[derive(Debug, Drop)]
pub enum ParseError {
    /// One of three, distinguished by the text: an unmatched closing parenthesis, `a)` at 1; a third branch of an
    /// absent expression, `(?~|a|b|c)` at 7, its bar; a conditional without a body, `(?(a))` at 5.
    GeneralParseError(String),
    /// The pattern ends inside a group, `a(` at 2, or inside a comment, `(?#a` at 4.
    UnclosedOpenParen,
    /// Never returned: braces that are no quantifier are literals, as in `a{x}`.
    InvalidRepeat,
    /// A group inside 63 others, at its parenthesis. Under `FLAG_ONIGURUMA_MODE` also too many consecutive quantifiers,
    /// or quantifiers nested too deeply: `a******` at 7, the end of the last one.
    RecursionExceeded,
    /// The pattern ends with a backslash: `a\` at 1.
    TrailingBackslash,
    /// An unknown escape, `\y` at 0, or word boundary, `\b{x}` at 0: at the backslash. It holds the escape without
    /// the layout in it, or `\b{...}` if the braces of the boundary are not closed.
    InvalidEscape(String),
    /// The braces of a Unicode property are not closed: `\p{Greek` at 0, the backslash.
    UnclosedUnicodeName,
    /// A hexadecimal escape with wrong digits or without its closing brace: `\x{42` at 2.
    InvalidHex,
    /// A hexadecimal escape that is no Unicode scalar value: `\x{D800}` at 2.
    InvalidCodepointValue,
    /// The pattern ends inside a class, `[a` at 2; or a class has an escape in digits, `[\1]` at 1.
    InvalidClass,
    /// An unknown flag letter, or a second minus: `(?z)` at 2, right after the `?`. Also flags without a letter: `(?)`,
    /// `(?-)` and `(?-:a)` at 2. It holds the text from `(?` through the offending character.
    UnknownFlag(String),
    /// Inline flags, or those of a flag group, would change the Unicode flag: `(?-u)a` at 3, the `u`.
    ChangingUnicodeModeUnsupported,
    /// A back reference or condition by a name that no group has, `\k<b>` at 2, or by a relative number that
    /// leads below group 0, `\k<-2>` at 2; or the digits after `\` or `\g` are above `usize::MAX`, at the first digit.
    InvalidBackref,
    /// A quantifier without an operand, `+` at 0, or with one that cannot be repeated, `(?=a)+` at 5: a look-around,
    /// `\K`, `\G`, a verb, and under `FLAG_ONIGURUMA_MODE` an assertion. The position is that of its character or its
    /// closing brace. Also an unknown verb: `(*X)` at 1, the asterisk.
    TargetNotRepeatable,
    /// The name of a group or of a reference is empty, not closed or malformed: `(?<>a)` at 1, the `?`; `\k<n` at 2,
    /// the position of the reference.
    InvalidGroupName,
    /// A back reference by a name whose last group opens after it: `\k<n>(?<n>a)` at 2. It holds the name.
    InvalidGroupNameBackref(String),
}

impl ParseError {
    /// The message of the kind, in two parts: its words, and the text that the kind carries, empty if it carries none.
    fn words(&self) -> (&'static str, &str)
        ensures { kind_text (kind_of self.now) ≡ result.0.now ++ result.1.now }
    {
        match self {
            ParseError::GeneralParseError(s) => ("General parsing error: ", s.as_str()),
            ParseError::UnclosedOpenParen => (
                "Opening parenthesis without closing parenthesis",
                "",
            ),
            ParseError::InvalidRepeat => ("Invalid repeat syntax", ""),
            ParseError::RecursionExceeded => ("Pattern too deeply nested", ""),
            ParseError::TrailingBackslash => ("Backslash without following character", ""),
            ParseError::InvalidEscape(s) => ("Invalid escape: ", s.as_str()),
            ParseError::UnclosedUnicodeName => ("Unicode escape not closed", ""),
            ParseError::InvalidHex => ("Invalid hex escape", ""),
            ParseError::InvalidCodepointValue => (
                "Invalid codepoint for hex or unicode escape",
                "",
            ),
            ParseError::InvalidClass => ("Invalid character class", ""),
            ParseError::UnknownFlag(s) => ("Unknown group flag: ", s.as_str()),
            ParseError::ChangingUnicodeModeUnsupported => {
                ("Changing Unicode mode inline is not supported", "")
            }
            ParseError::InvalidBackref => ("Invalid back reference", ""),
            ParseError::TargetNotRepeatable => ("Target of repeat operator is invalid", ""),
            ParseError::InvalidGroupName => ("Could not parse group name", ""),
            ParseError::InvalidGroupNameBackref(s) => {
                ("Invalid group name in back reference: ", s.as_str())
            }
        }
    }
}

impl fmt::Display for ParseError {
    ghost output = { λ e. Some (kind_text (kind_of e)) };

    fn fmt<W: fmt::Write>(&self, f: &mut fmt::Formatter<W>) -> fmt::Result {
        let (words, carried) = self.words();
        f.write_str(words)?;
        f.write_str(carried)
    }
}

impl fmt::Display for Error {
    ghost output = { λ e. Some (error_text e) };

    fn fmt<W: fmt::Write>(&self, f: &mut fmt::Formatter<W>) -> fmt::Result {
        match self {
            Error::ParseError(position, kind) => {
                write!(f, "Parsing error at position {position}: {kind}")
            }
            Error::OutOfMemory => f.write_str("out of memory"),
        }
    }
}

impl std::error::Error for Error {}

impl ParseError {
    /// Returns an equal kind, or `AllocError` if out of memory, which cannot happen for one without a text.
    pub fn clone(&self, alloc: Global) -> std::result::Result<ParseError, AllocError>
        ensures equal { IfOk result (λ e. kind_of e ≡ kind_of self.now) }
        ensures without_memory { carries_text (kind_of self.now) ≡ false → IsOk result }
    {
        Ok(match self {
            ParseError::GeneralParseError(s) => {
                ParseError::GeneralParseError(String::from_str(alloc, s.as_str())?)
            }
            ParseError::UnclosedOpenParen => ParseError::UnclosedOpenParen,
            ParseError::InvalidRepeat => ParseError::InvalidRepeat,
            ParseError::RecursionExceeded => ParseError::RecursionExceeded,
            ParseError::TrailingBackslash => ParseError::TrailingBackslash,
            ParseError::InvalidEscape(s) => {
                ParseError::InvalidEscape(String::from_str(alloc, s.as_str())?)
            }
            ParseError::UnclosedUnicodeName => ParseError::UnclosedUnicodeName,
            ParseError::InvalidHex => ParseError::InvalidHex,
            ParseError::InvalidCodepointValue => ParseError::InvalidCodepointValue,
            ParseError::InvalidClass => ParseError::InvalidClass,
            ParseError::UnknownFlag(s) => {
                ParseError::UnknownFlag(String::from_str(alloc, s.as_str())?)
            }
            ParseError::ChangingUnicodeModeUnsupported => {
                ParseError::ChangingUnicodeModeUnsupported
            }
            ParseError::InvalidBackref => ParseError::InvalidBackref,
            ParseError::TargetNotRepeatable => ParseError::TargetNotRepeatable,
            ParseError::InvalidGroupName => ParseError::InvalidGroupName,
            ParseError::InvalidGroupNameBackref(s) => {
                ParseError::InvalidGroupNameBackref(String::from_str(alloc, s.as_str())?)
            }
        })
    }
}

impl Error {
    /// Returns an equal error, or `AllocError` if out of memory, which cannot happen for one without a text.
    pub fn clone(&self, alloc: Global) -> std::result::Result<Error, AllocError>
        ensures equal { IfOk result (λ e. SameError e self.now) }
        ensures without_memory { error_carries_text self.now ≡ false → IsOk result }
    {
        match self {
            Error::ParseError(position, kind) => Ok(Error::ParseError(
                *position,
                kind.clone(alloc)?,
            )),
            Error::OutOfMemory => Ok(Error::OutOfMemory),
        }
    }
}

impl From<AllocError> for Error {
    ghost use Rattle.fancy_lex.specs.declared.error.Error.TheVariants.{OutOfMemory};
    ghost use Rattle.std.specs.Prelude.{◌≡◌};

    ghost from_gives = { λ _ e. e ≡ OutOfMemory };

    fn from(_refused: AllocError) -> Error {
        Error::OutOfMemory
    }
}

impl<T: Drop> From<AllocFailed<T>> for Error {
    ghost use Rattle.fancy_lex.specs.declared.error.Error.TheVariants.{OutOfMemory};
    ghost use Rattle.std.specs.Prelude.{◌≡◌};

    ghost from_gives = { λ _ e. e ≡ OutOfMemory };

    fn from(_refused: AllocFailed<T>) -> Error {
        Error::OutOfMemory
    }
}

impl From<AllocError> for ReadError {
    ghost use Rattle.fancy_lex.specs.declared.error.ReadError.TheVariants.{OutOfMemory};
    ghost use Rattle.std.specs.Prelude.{◌≡◌};

    ghost from_gives = { λ _ e. e ≡ OutOfMemory };

    fn from(_refused: AllocError) -> ReadError {
        ReadError::OutOfMemory
    }
}

impl<T: Drop> From<AllocFailed<T>> for ReadError {
    ghost use Rattle.fancy_lex.specs.declared.error.ReadError.TheVariants.{OutOfMemory};
    ghost use Rattle.std.specs.Prelude.{◌≡◌};

    ghost from_gives = { λ _ e. e ≡ OutOfMemory };

    fn from(_refused: AllocFailed<T>) -> ReadError {
        ReadError::OutOfMemory
    }
}
